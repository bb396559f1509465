// Pages of events in the order of acceptance.
ghost use Rattle.std.specs.Prelude.{◌≡◌, ◌<◌, ◌↔◌, length, position, IfOk, IfSome, IsNone, IsErrOf};
ghost use Rattle.std.specs.Option.{option_copied};
ghost use Rattle.async_core.specs.Rules.{has_id};
ghost use Rattle.operator_view.specs.Page.{start_behind, event_places, IsFirst};

use crate::error::PageError;
use crate::finding::has_id;
use crate::page::{Page, first_of};
use crate::places::event_places;
use crate::standings::Which;
use invoke_records::EventRow;
use std::alloc::Global;

fn place_of(rows: &[EventRow], id: &[u8; 16]) -> Option<usize>
    ensures is { result ≡ position (has_id id.now) rows.now }
    ensures within { IfSome result (λ place. place < length rows.now) }
{
    rows.iter().position(|row| has_id(row, id))
}

// The place behind this event, if it is held.
fn start_behind(rows: &[EventRow], after: Option<&[u8; 16]>) -> Option<usize>
    ensures { result ≡ start_behind (option_copied after.entry) rows.now }
{
    match after {
        None => Some(0),
        Some(id) => {
            let place = place_of(rows, id)?;
            Some(place + 1)
        }
    }
}

/// The next events that stand so, at most so many, in the order of acceptance: behind the one that is named, wherever that
/// stands now. Where it is not held, or memory is wanting, there is no page.
pub fn events_page(
    alloc: Global,
    rows: &[EventRow],
    which: Which,
    after: Option<&[u8; 16]>,
    limit: usize,
) -> Result<Page, PageError>
    // claim: A page has the first events asked for behind the named one, up to its limit, and names its last where more
    // come. `After` is told exactly where the named one is not held.
    ensures page { IfOk result (λ page. IfSome (start_behind (option_copied after.entry) rows.now) (λ start. IsFirst rows.now (event_places which start rows.now) limit page)) }
    ensures after { IsErrOf result PageError.After ↔ IsNone (start_behind (option_copied after.entry) rows.now) }
{
    let Some(start) = start_behind(rows, after) else {
        return Err(PageError::After);
    };
    let places = event_places(alloc, rows, which, start)?;
    Ok(first_of(rows, places, limit))
}
