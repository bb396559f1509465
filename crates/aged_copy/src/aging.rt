// A longer age for the events of a table that have not ended.
ghost use Rattle.std.specs.Prelude.{◌≡◌, false, None, IfSome, map};
ghost use Rattle.std.specs.List.{list_all};
ghost use Rattle.aged_copy.specs.Aging as meant;
ghost use Rattle.aged_copy.specs.AgingSteps as step;
ghost use Rattle.aged_copy.specs.Copying.{has_numbers};

use invoke_records::{EventRow, GREATEST_NUMBER, Rows, Snapshot, Standing};

// The age of a row, which may be longer.
fn age_of(row: &EventRow, age: u32) -> u32
    ensures { result ≡ (meant.aged_row age row.now).policy.age }
{
    let old = row.policy.age;
    match row.standing {
        Standing::Ended { .. } => old,
        _ => { if old < age { age } else { old } }
    }
}

// Gives a row whose event has not ended this age, where it has a shorter one, and doubles the numbers of commands.
fn lengthen_row(row: &mut EventRow, age: u32)
    ensures { row.new ≡ step.doubled_row age row.old }
{
    row.policy.age = age_of(row, age);
    row.number = row.number.saturating_mul(2);
    row.last_number = row.last_number.saturating_mul(2);
}

// The same of each row.
fn lengthen_rows(rows: &mut [EventRow], age: u32)
    ensures { rows.new ≡ map (step.doubled_row age) rows.old }
{
    for row in rows.iter_mut() {
        lengthen_row(row, age);
    }
}

// The rows after that.
fn lengthened(rows: Vec<EventRow>, age: u32) -> Vec<EventRow>
    ensures { result.items ≡ map (step.doubled_row age) rows.items }
{
    let mut rows = rows;
    lengthen_rows(&mut rows, age);
    rows
}

// Whether the rows' numbers are those of commands.
fn are_counted(rows: &[EventRow]) -> bool
    ensures { result ≡ list_all step.is_counted rows.now }
{
    rows.iter().all(|row| row.number <= GREATEST_NUMBER && row.last_number <= GREATEST_NUMBER)
}

// Whether the table's numbers are those of commands.
fn has_numbers(table: &Snapshot) -> bool
    ensures { result ≡ has_numbers table.now }
{
    table.number <= GREATEST_NUMBER && are_counted(table.rows.as_slice())
}

/// The table with this age, in seconds, for each event that has not ended and has a shorter one. None where a command's number is
/// greater than any can be.
pub(crate) fn lengthen(table: Snapshot, age: u32) -> Option<Snapshot>
    ensures aged { IfSome result (λ longer. longer ≡ meant.aged age table) }
    ensures bad { result ≡ None → has_numbers table ≡ false }
{
    if !has_numbers(&table) {
        return None;
    }
    let Snapshot {
        number,
        last_moment,
        policy,
        rows,
    } = table;
    let rows = lengthened(rows.into_vec(), age);
    Some(Snapshot {
        number: 2 * number + 1,
        last_moment,
        policy,
        rows: Rows::from_vec(rows),
    })
}
