// Lists of events and of records, and one event.
ghost use Rattle.std.specs.Prelude.{◌≡◌, IfOk};
ghost use Rattle.std.specs.Option.{option_copied};
ghost use Rattle.admin_replies.specs.Lists.{TellsEvents, TellsEvent, TellsRecords};

use crate::admin_reply::{AdminReply, Media};
use async_core::Side;
use invoke_records::EventRow;
use operator_view::{
    PageError, Which, event_json, events_json, events_page, find, record_lines, records_page,
};
use retry_rules::Settings;
use std::alloc::{AllocError, Global};

/// How many bytes of records are told at once, unless the first is longer.
const MOST_BYTES: usize = 4_194_304;

// That the event behind which a list was to begin is not in it.
fn not_there(alloc: Global) -> Result<AdminReply, AllocError>
    ensures { IfOk result (λ reply. reply.status ≡ 404) }
{
    AdminReply::line(alloc, 404, "no event of this id is in this list")
}

/// The next events that stand so, behind the one that is named, at most so many, in the order of acceptance. 404 where that is
/// not held: who reads begins again, since to go on behind its place would need the memory of what is gone. Only want of memory is
/// refused.
#[tactic(auto, using(crate::proofs::Told::events_told))]
pub fn events_reply(
    alloc: Global,
    rows: &[EventRow],
    which: Which,
    after: Option<&[u8; 16]>,
    limit: usize,
) -> Result<AdminReply, AllocError>
    ensures { IfOk result (TellsEvents which (option_copied after.entry) limit rows.now) }
{
    match events_page(alloc, rows, which, after, limit) {
        Ok(page) => {
            let body = events_json(alloc, rows, &page)?;
            Ok(AdminReply::shown(Media::Json, body))
        }
        Err(PageError::After) => not_there(alloc),
        Err(PageError::OutOfMemory) => Err(AllocError),
    }
}

/// One event, with the beginning of its payload, and its destination record where it has ended. 404 where it is not held. Only
/// want of memory is refused.
pub fn event_reply(
    alloc: Global,
    rows: &[EventRow],
    settings: &Settings,
    id: &[u8; 16],
) -> Result<AdminReply, AllocError>
    ensures { IfOk result (TellsEvent settings.now id.now rows.now) }
{
    match find(rows, id) {
        Some(row) => {
            let body = event_json(alloc, row, settings)?;
            Ok(AdminReply::shown(Media::Json, body))
        }
        None => AdminReply::line(alloc, 404, "no event of this id is held"),
    }
}

/// The destination records of the next events that ended on a side, behind the one that is named, at most so many, in the order
/// in which they ended, each on a line: as many whole ones as fit into 4 MiB, and at least one. 404 where the one that is named
/// is not held, or has not ended on this side. Only want of memory is refused.
pub fn records_reply(
    alloc: Global,
    rows: &[EventRow],
    settings: &Settings,
    side: Side,
    after: Option<&[u8; 16]>,
    limit: usize,
) -> Result<AdminReply, AllocError>
    ensures { IfOk result (TellsRecords settings.now side (option_copied after.entry) limit 4194304 rows.now) }
{
    match records_page(alloc, rows, Some(side), after, limit) {
        Ok(page) => {
            let (body, next) = record_lines(alloc, rows, &page, settings, MOST_BYTES)?;
            Ok(AdminReply {
                status: 200,
                media: Media::Lines,
                body,
                next,
            })
        }
        Err(PageError::After) => not_there(alloc),
        Err(PageError::OutOfMemory) => Err(AllocError),
    }
}
