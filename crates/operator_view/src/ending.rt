// Pages of records in the order in which the events ended.
ghost use Rattle.std.specs.Prelude.{◌≡◌, ◌↔◌, IfOk, IfSome, IsNone, IsErrOf};
ghost use Rattle.std.specs.Option.{option_copied};
ghost use Rattle.std.specs.List.Sorted.{IsPermutation, IsNonDecreasingBy};
ghost use Rattle.operator_view.specs.Page.{ending_number, number_behind, record_places, number_at, IsFirstEnded};

use crate::error::PageError;
use crate::finding::find;
use crate::page::{Page, first_of};
use crate::places::record_places;
use crate::standings::ended_on;
use async_core::Side;
use invoke_records::EventRow;
use std::alloc::Global;

// The command that ended this event, if it ended on this side.
fn ending_number(side: Option<Side>, row: &EventRow) -> Option<Option<u64>>
    ensures { result ≡ ending_number side row.now }
{
    if ended_on(side, row.standing) {
        Some(Some(row.last_number))
    } else {
        None
    }
}

// The command that ended this event, if it is held and ended on this side.
fn number_behind(
    rows: &[EventRow],
    side: Option<Side>,
    after: Option<&[u8; 16]>,
) -> Option<Option<u64>>
    ensures { result ≡ number_behind side (option_copied after.entry) rows.now }
{
    let Some(id) = after else { return Some(None) };
    match find(rows, id) {
        Some(row) => ending_number(side, row),
        None => None,
    }
}

fn number_at(rows: &[EventRow], place: usize) -> u64
    ensures { result ≡ number_at rows.now place }
{
    match rows.get(place) {
        Some(row) => row.last_number,
        None => 0,
    }
}

fn sort_by_ending(rows: &[EventRow], places: &mut Vec<usize>)
    ensures same { IsPermutation places.old.items places.new.items }
    ensures ascending { IsNonDecreasingBy (number_at rows.now) places.new.items }
{
    places.sort_unstable_by_key(|place| number_at(rows, *place));
}

/// The next events that ended on a side, or on either, at most so many, in the order in which they ended: behind the one
/// that is named. Where that is not held, or has not ended on this side, or memory is wanting, there is no page.
pub fn records_page(
    alloc: Global,
    rows: &[EventRow],
    side: Option<Side>,
    after: Option<&[u8; 16]>,
    limit: usize,
) -> Result<Page, PageError>
    // claim: A page of records has the first of a side behind the named one, in the order of ending, up to its limit,
    // and names its last where more come. `After` is told exactly where the named one is not held, or not ended there.
    ensures page { IfOk result (λ page. IfSome (number_behind side (option_copied after.entry) rows.now) (λ behind. IsFirstEnded rows.now (record_places side behind rows.now) limit page)) }
    ensures after { IsErrOf result PageError.After ↔ IsNone (number_behind side (option_copied after.entry) rows.now) }
{
    let Some(behind) = number_behind(rows, side, after) else {
        return Err(PageError::After);
    };
    let mut places = record_places(alloc, rows, side, behind)?;
    sort_by_ending(rows, &mut places);
    Ok(first_of(rows, places, limit))
}
