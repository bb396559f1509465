// The row of an event.
ghost use Rattle.std.specs.Prelude.{◌≡◌, find};
ghost use Rattle.std.specs.Option.{option_copied};
ghost use Rattle.async_core.specs.Rules.{has_id};

use invoke_records::EventRow;

// Whether a row is of this event.
pub(crate) fn has_id(row: &EventRow, id: &[u8; 16]) -> bool
    ensures { result ≡ has_id id.now row.now }
{
    *id == row.id
}

/// The row of an event, if it is held.
pub fn find<'a>(rows: &'a [EventRow], id: &[u8; 16]) -> Option<&'a EventRow>
    ensures { option_copied result ≡ find (has_id id.now) rows.now }
{
    rows.iter().find(|row| has_id(row, id))
}
