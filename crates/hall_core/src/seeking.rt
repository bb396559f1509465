// What is sought of a hall's table.
ghost use Rattle.std.specs.Prelude.{◌≡◌, IfOk, find};
ghost use Rattle.async_core.specs.Rules.{has_id};
ghost use Rattle.operator_view.specs.Tally.{IsTally};
ghost use Rattle.hall_core.specs.Seeking.{AreFirstEnded, AreFirstIf, AreFirstOf, AreRowsFor, counted_for, most_of, row_or_none};

use async_core::{Side, Table, copy_row};
use invoke_records::{EventRow, Rows, Snapshot};
use operator_view::{Tally, no_tally, tally};
use std::alloc::{AllocError, Global};

/// How many of the first that ended are shown at most, in all.
const MOST_ENDED: usize = 64;

/// Of which sides events are sought.
#[derive(Clone, Copy)]
pub struct Sides {
    /// Those that succeeded.
    pub success: bool,
    /// All others that ended.
    pub failure: bool,
}

/// What is sought of a hall's table.
#[derive(Clone, Copy)]
pub enum Sought {
    /// Its numbers alone.
    Numbers,
    /// The row of this event alone, if it is held.
    Event([u8; 16]),
    /// The rows of the first that ended on these sides, in the order in which they ended: 64 of one side, or 32 of each. No numbers.
    Ended(Sides),
    /// Its numbers, and all rows.
    Rows,
}

// How many of a side are shown at most.
fn most_of(sides: Sides) -> usize
    ensures { result ≡ most_of sides }
{
    if sides.success && sides.failure {
        MOST_ENDED / 2
    } else {
        MOST_ENDED
    }
}

// The first that ended on a side.
fn first_ended(
    alloc: Global,
    table: &Table,
    side: Side,
    most: usize,
) -> Result<Vec<EventRow>, AllocError>
    ensures { IfOk result (λ shown. AreFirstEnded side most table.now.table.rows shown.items) }
{
    let mut shown = Vec::new(alloc);
    let mut behind = 0;
    for _ in 0..most {
        let Some(row) = table.next_ended(side, behind) else {
            return Ok(shown);
        };
        behind = row.last_number;
        let copy = copy_row(row)?;
        shown.push(copy)?;
    }
    Ok(shown)
}

// The same where they are sought, else none.
fn first_if(
    alloc: Global,
    table: &Table,
    is_sought: bool,
    side: Side,
    most: usize,
) -> Result<Vec<EventRow>, AllocError>
    ensures { IfOk result (λ shown. AreFirstIf is_sought side most table.now.table.rows shown.items) }
{
    if is_sought {
        first_ended(alloc, table, side, most)
    } else {
        Ok(Vec::new(alloc))
    }
}

// Those of success, and behind them the others.
fn first_of(alloc: Global, table: &Table, sides: Sides) -> Result<Vec<EventRow>, AllocError>
    ensures { IfOk result (λ shown. AreFirstOf sides table.now.table.rows shown.items) }
{
    let most = most_of(sides);
    let mut shown = first_if(alloc, table, sides.success, Side::Success, most)?;
    let mut others = first_if(alloc, table, sides.failure, Side::Failure, most)?;
    shown.append(&mut others)?;
    Ok(shown)
}

// The row of an event, if it is held.
fn row_of(alloc: Global, table: &Table, id: &[u8; 16]) -> Result<Vec<EventRow>, AllocError>
    ensures { IfOk result (λ rows. rows.items ≡ row_or_none (find (has_id id.now) table.now.table.rows)) }
{
    let mut rows = Vec::new(alloc);
    if let Some(row) = table.row(id)? {
        rows.push(row)?;
    }
    Ok(rows)
}

/// The rows of a table that are sought. No others are looked at.
pub(crate) fn rows_for(alloc: Global, table: &Table, sought: Sought) -> Result<Rows, AllocError>
    ensures { IfOk result (AreRowsFor sought table.now.table.rows) }
{
    match sought {
        Sought::Numbers => Ok(Rows::empty(alloc)),
        Sought::Event(id) => {
            let rows = row_of(alloc, table, &id)?;
            Ok(Rows::from_vec(rows))
        }
        Sought::Ended(sides) => {
            let rows = first_of(alloc, table, sides)?;
            Ok(Rows::from_vec(rows))
        }
        Sought::Rows => {
            let Snapshot { rows, .. } = table.snapshot()?;
            Ok(rows)
        }
    }
}

/// The numbers of a table at a moment, where they are sought, else those of no event.
pub(crate) fn numbers_for(table: &Table, sought: Sought, at: u64) -> Tally
    ensures last_moment { result.last_moment ≡ table.now.table.last_moment }
    ensures counts { IsTally (counted_for sought table.now.table.rows) at result }
{
    match sought {
        Sought::Numbers | Sought::Rows => tally(table, at),
        Sought::Event(_) => no_tally(table.last_moment()),
        Sought::Ended(_) => no_tally(table.last_moment()),
    }
}
