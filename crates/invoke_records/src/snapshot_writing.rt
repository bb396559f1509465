// Writing a snapshot.
ghost use Rattle.std.specs.Prelude.{◌≡◌, ◌*◌, ◌^◌, ◌<◌, ◌≤◌, ◌++◌, None, IfOk, IfErr, OnOk, length};
ghost use Rattle.std.specs.List.{flat_map, AllByRecursion};
ghost use Rattle.invoke_records.specs.Spelling.{row_text, rows_fault, IsWithinWidth, snapshot_text, snapshot_fault, IsSnapshot};
ghost use Rattle.invoke_records.specs.Reading.{sound, FailsBy};
ghost use Rattle.invoke_records.specs.Steps.{Adds};

use crate::command::GREATEST_MOMENT;
use crate::command_writing::policy_bytes;
use crate::order::are_in_order;
use crate::placing::put_at;
use crate::row_writing::{add_row, check_row, row_is_within, row_size};
use crate::snapshot::{GREATEST_NUMBER, MOST_ROWS};
use crate::writer::Writer;
use crate::{EventRow, RecordError, Snapshot};
use std::alloc::Global;

fn check_rows(rows: &[EventRow]) -> Result<(), RecordError>
    ensures { result ≡ sound (rows_fault rows.now) tt }
{
    for row in rows {
        check_row(row)?;
    }
    Ok(())
}

// What the types say of each row.
fn rows_are_within(rows: &[EventRow])
    ensures { AllByRecursion IsWithinWidth rows.now }
{
    for row in rows {
        row_is_within(row);
    }
}

/// Why a snapshot has no spelling, if it has none.
pub fn check_snapshot(alloc: Global, s: &Snapshot) -> Result<(), RecordError>
    ensures fault { result ≡ sound (snapshot_fault s.now) tt }
    ensures spelled { OnOk result (IsSnapshot s.now) }
{
    let rows = s.rows.as_slice();
    if s.number > GREATEST_NUMBER || (s.last_moment > GREATEST_MOMENT || s.policy.is_bad()) {
        return Err(RecordError::BadKind);
    }
    if rows.len() > MOST_ROWS as usize {
        return Err(RecordError::TooLong);
    }
    check_rows(rows)?;
    if !are_in_order(alloc, rows) {
        return Err(RecordError::BadKind);
    }
    rows_are_within(rows);
    Ok(())
}

// How long the spellings of the rows are, one after another.
fn rows_size(rows: &[EventRow]) -> u64
    requires count { length rows.now ≤ 1024 }
    requires sound { rows_fault rows.now ≡ None }
    ensures exact { result ≡ length (flat_map row_text rows.now) }
    ensures bounded { result ≤ 1024 * 1310798 }
{
    let mut size = 0;
    for row in rows {
        size += row_size(row);
    }
    size
}

/// How long the spelling of the snapshot is.
#[tactic(auto, using(crate::specs::laws::Snapshots::snapshot_length))]
pub fn snapshot_size(s: &Snapshot) -> u64
    requires { snapshot_fault s.now ≡ None }
    ensures exact { result ≡ length (snapshot_text s.now) }
    ensures bounded { result < 2 ^ 31 }
{
    25 + rows_size(s.rows.as_slice())
}

/// All fields of a snapshot in front of its rows.
#[tactic(auto, unfolding(crate::specs::Spelling::snapshot_text))]
pub fn snapshot_head(s: &Snapshot) -> [u8; 25]
    requires { length s.now.rows ≤ 1024 }
    ensures { snapshot_text s.now ≡ result ++ flat_map row_text s.now.rows }
{
    let count = s.rows.as_slice().len() as u32;
    let mut head = [0; 25];
    put_at(&mut head, 0, &s.number.to_be_bytes());
    put_at(&mut head, 8, &s.last_moment.to_be_bytes());
    put_at(&mut head, 16, &policy_bytes(s.policy));
    put_at(&mut head, 21, &count.to_be_bytes());
    head
}

fn add_rows(out: &mut Writer, rows: &[EventRow])
    requires { rows_fault rows.now ≡ None }
    ensures { Adds (flat_map row_text rows.now) out.old out.new }
{
    for row in rows {
        add_row(out, row);
    }
}

/// The one spelling of the snapshot.
pub fn encode_snapshot(alloc: Global, s: &Snapshot) -> Result<Vec<u8>, RecordError>
    ensures ok { IfOk result (λ text. text.items ≡ snapshot_text s.now) }
    ensures spelled { OnOk result (IsSnapshot s.now) }
    ensures refused { IfErr result (FailsBy (snapshot_fault s.now)) }
{
    check_snapshot(alloc, s)?;
    let mut out = Writer::new(alloc);
    out.add(&snapshot_head(s));
    add_rows(&mut out, s.rows.as_slice());
    out.end()
}
