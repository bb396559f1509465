// What is told of a record that is tried again.
ghost use Rattle.std.specs.Prelude.{◌≡◌, ◌++◌, IfOk, OnOk};
ghost use Rattle.admin_replies.specs.Retrying.{accepted_text, TellsAgain, TellsLeft, status_of, status_by};

use crate::admin_reply::{AdminReply, Media};
use crate::retry_refusal::RetryRefusal;
use crate::verdict::{ToldLine, put_line};
use destination_json::id_text;
use std::alloc::{AllocError, Global};

const LEFT: &[u8] =
    b"the broker is not available: the failed record may be held too, and nothing is lost\n";

const FULL: &str = "the table is full: nothing was accepted, and the failed record is left";

const UNAVAILABLE: &str =
    "the broker is not available: the failed record is left, and may be accepted anew too";

fn put_accepted(alloc: Global, out: &mut Vec<u8>, new: &[u8; 16]) -> Result<(), AllocError>
    ensures { OnOk result (out.new.items ≡ out.old.items ++ accepted_text new.now) }
{
    let text = id_text(alloc, new)?;
    out.extend_from_slice(text.as_bytes())?;
    out.extend_from_slice(b" accepted\n")
}

/// That the payload of a record was accepted as this event, and what became of the record then. Only want of memory is refused.
pub fn again_reply(alloc: Global, new: &[u8; 16], line: ToldLine) -> Result<AdminReply, AllocError>
    ensures { IfOk result (TellsAgain new.now line) }
{
    let mut out = Vec::new(alloc);
    put_accepted(alloc, &mut out, new)?;
    put_line(alloc, &mut out, line)?;
    Ok(AdminReply::shown(Media::Text, out))
}

/// That the payload of a record was accepted as this event, and the record may be left. Only want of memory is refused.
pub fn left_reply(alloc: Global, new: &[u8; 16]) -> Result<AdminReply, AllocError>
    ensures { IfOk result (TellsLeft new.now) }
{
    let mut out = Vec::new(alloc);
    put_accepted(alloc, &mut out, new)?;
    out.extend_from_slice(LEFT)?;
    Ok(AdminReply::of(503, out))
}

/// That the payload of a record was not accepted, by the status of the hall's reply. Only want of memory is refused.
pub fn unaccepted_reply(alloc: Global, status: u16) -> Result<AdminReply, AllocError>
    ensures { IfOk result (λ reply. reply.status ≡ status_by status) }
{
    match status {
        429 => AdminReply::line(alloc, 429, FULL),
        _ => AdminReply::line(alloc, 503, UNAVAILABLE),
    }
}

/// Why a record is not tried again, in words. Only want of memory is refused.
pub fn refusal_reply(alloc: Global, why: RetryRefusal) -> Result<AdminReply, AllocError>
    ensures { IfOk result (λ reply. reply.status ≡ status_of why) }
{
    let words = format!(in alloc; "{why}")?;
    AdminReply::line(alloc, why.status(), words.as_str())
}
