// The order of a snapshot's rows.
ghost use Rattle.std.specs.Prelude.{◌≡◌, IfOk};
ghost use Rattle.std.specs.List.{list_all};
ghost use Rattle.invoke_records.specs.Spelling.{is_before, are_in_order};

use crate::EventRow;
use std::alloc::{AllocError, Global};
use std::collections::BTreeSet;

/// Whether each row was accepted before those behind it, and has an id of its own. Each id is looked up once, in a sorted set of
/// those in front of it.
pub fn are_in_order_by_set(alloc: Global, rows: &[EventRow]) -> Result<bool, AllocError>
    ensures { IfOk result (λ ordered. ordered ≡ are_in_order rows.now) }
{
    let mut seen = BTreeSet::new(alloc);
    let mut least: u128 = 0;
    for row in rows {
        if u128::from(row.number) < least {
            return Ok(false);
        }
        let is_new = seen.insert(row.id)?;
        if !is_new {
            return Ok(false);
        }
        least = u128::from(row.number) + 1;
    }
    Ok(true)
}

fn is_before(row: &EventRow, later: &EventRow) -> bool
    ensures { result ≡ is_before row.now later.now }
{
    row.number < later.number && row.id != later.id
}

fn is_before_all(row: &EventRow, later: &[EventRow]) -> bool
    ensures { result ≡ list_all (is_before row.now) later.now }
{
    later.iter().all(|other| is_before(row, other))
}

// The same without memory: each row is compared with all behind it.
fn are_compared(rows: &[EventRow]) -> bool
    ensures { result ≡ are_in_order rows.now }
{
    for i in 0..rows.len() {
        if !is_before_all(&rows[i], &rows[i + 1..]) {
            return false;
        }
    }
    true
}

/// Whether each row was accepted before those behind it, and has an id of its own: by the sorted set, and where there is no memory for
/// that, by comparing each with all behind it.
pub fn are_in_order(alloc: Global, rows: &[EventRow]) -> bool
    ensures { result ≡ are_in_order rows.now }
{
    match are_in_order_by_set(alloc, rows) {
        Ok(ordered) => ordered,
        Err(_) => are_compared(rows),
    }
}
