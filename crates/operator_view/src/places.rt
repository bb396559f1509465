// The places of rows that are asked for.
ghost use Rattle.std.specs.Prelude.{◌≡◌, IfOk};
ghost use Rattle.operator_view.specs.Page.{is_asked, event_places, is_behind, is_record, record_places};

use crate::standings::{Which, ended_on};
use async_core::Side;
use invoke_records::EventRow;
use std::alloc::{AllocError, Global};

fn is_asked(which: Which, start: usize, place: usize, row: &EventRow) -> bool
    ensures { result ≡ is_asked which start place row.now }
{
    start <= place && which.shows(row.standing)
}

// Those from a place on.
pub(crate) fn event_places(
    alloc: Global,
    rows: &[EventRow],
    which: Which,
    start: usize,
) -> Result<Vec<usize>, AllocError>
    ensures { IfOk result (λ places. places.items ≡ event_places which start rows.now) }
{
    let mut places = Vec::new(alloc);
    for (place, row) in rows.iter().enumerate() {
        if is_asked(which, start, place, row) {
            places.push(place)?;
        }
    }
    Ok(places)
}

fn is_behind(behind: Option<u64>, number: u64) -> bool
    ensures { result ≡ is_behind behind number }
{
    match behind {
        None => true,
        Some(behind) => behind < number,
    }
}

fn is_record(side: Option<Side>, behind: Option<u64>, row: &EventRow) -> bool
    ensures { result ≡ is_record side behind row.now }
{
    ended_on(side, row.standing) && is_behind(behind, row.last_number)
}

// Those that ended behind a command.
pub(crate) fn record_places(
    alloc: Global,
    rows: &[EventRow],
    side: Option<Side>,
    behind: Option<u64>,
) -> Result<Vec<usize>, AllocError>
    ensures { IfOk result (λ places. places.items ≡ record_places side behind rows.now) }
{
    let mut places = Vec::new(alloc);
    for (place, row) in rows.iter().enumerate() {
        if is_record(side, behind, row) {
            places.push(place)?;
        }
    }
    Ok(places)
}
