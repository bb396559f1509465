// A page of a list.
ghost use Rattle.std.specs.Prelude.{◌≡◌};
ghost use Rattle.operator_view.specs.Page.{id_at, last_id, IsFirst};

use invoke_records::EventRow;

/// A part of a list of events.
#[derive(Drop)]
pub struct Page {
    /// Where its events stand among the rows, in the order in which they are shown.
    pub places: Vec<usize>,
    /// The id of the last of them, where more come behind it.
    pub next: Option<[u8; 16]>,
}

fn id_at(rows: &[EventRow], place: usize) -> Option<[u8; 16]>
    ensures { result ≡ id_at rows.now place }
{
    match rows.get(place) {
        Some(row) => Some(row.id),
        None => None,
    }
}

// The id of the last of these places.
pub(crate) fn last_id(rows: &[EventRow], places: &[usize]) -> Option<[u8; 16]>
    ensures { result ≡ last_id rows.now places.now }
{
    match places.last() {
        Some(place) => id_at(rows, *place),
        None => None,
    }
}

// The first of these places.
pub(crate) fn first_of(rows: &[EventRow], mut places: Vec<usize>, limit: usize) -> Page
    ensures { IsFirst rows.now places.items limit result }
{
    let has_more = limit < places.len();
    places.truncate(limit);
    let next = if has_more {
        last_id(rows, places.as_slice())
    } else {
        None
    };
    Page { places, next }
}
