// What became of the records of a list, and its text.
ghost use Rattle.std.specs.Prelude.{◌≡◌, ◌++◌, IfOk, OnOk};
ghost use Rattle.std.specs.List.{flat_map};
ghost use Rattle.admin_replies.specs.Collecting.{verdict_of, verdict_text, line_in, line_text, TellsLines};

use crate::admin_reply::{AdminReply, Media};
use destination_json::id_text;
use std::alloc::{AllocError, Global};

/// What became of a record that was to be collected.
#[derive(Clone, Copy)]
pub enum Verdict {
    Collected,
    /// No event of this id is held.
    Unknown,
    /// The event has not ended.
    NotEnded,
}

impl Verdict {
    /// What became of it, by the status of the reply to its DELETE. None where that was not judged.
    pub fn of(status: u16) -> Option<Verdict>
        ensures { result ≡ verdict_of status }
    {
        match status {
            204 => Some(Verdict::Collected),
            404 => Some(Verdict::Unknown),
            409 => Some(Verdict::NotEnded),
            _ => None,
        }
    }

    // What stands behind the id.
    fn text(self) -> &'static str
        ensures { result.now ≡ verdict_text self }
    {
        match self {
            Verdict::Collected => " collected\n",
            Verdict::Unknown => " unknown\n",
            Verdict::NotEnded => " not ended\n",
        }
    }
}

/// What is told of a line of a list.
#[derive(Clone, Copy)]
pub enum ToldLine {
    /// It is no id.
    Bad,
    /// What became of this event's record.
    Of([u8; 16], Verdict),
}

impl ToldLine {
    /// What is told of a line with this id, or without one. None where nothing became of the id's record.
    pub fn of(id: Option<[u8; 16]>, verdict: Option<Verdict>) -> Option<ToldLine>
        ensures { result ≡ line_in id verdict }
    {
        match (id, verdict) {
            (None, _) => Some(ToldLine::Bad),
            (Some(id), Some(verdict)) => Some(ToldLine::Of(id, verdict)),
            (Some(_), None) => None,
        }
    }
}

/// Puts a line's text.
pub(crate) fn put_line(alloc: Global, out: &mut Vec<u8>, line: ToldLine) -> Result<(), AllocError>
    ensures { OnOk result (out.new.items ≡ out.old.items ++ line_text line) }
{
    match line {
        ToldLine::Bad => out.extend_from_slice(b"bad\n"),
        ToldLine::Of(id, verdict) => {
            let text = id_text(alloc, &id)?;
            out.extend_from_slice(text.as_bytes())?;
            out.extend_from_slice(verdict.text().as_bytes())
        }
    }
}

fn put_lines(alloc: Global, out: &mut Vec<u8>, lines: &[ToldLine]) -> Result<(), AllocError>
    ensures { OnOk result (out.new.items ≡ out.old.items ++ flat_map line_text lines.now) }
{
    for line in lines {
        put_line(alloc, out, *line)?;
    }
    Ok(())
}

/// These lines as a reply. Only want of memory is refused.
pub fn list_reply(alloc: Global, lines: &[ToldLine]) -> Result<AdminReply, AllocError>
    ensures { IfOk result (TellsLines lines.now) }
{
    let mut out = Vec::new(alloc);
    put_lines(alloc, &mut out, lines)?;
    Ok(AdminReply::shown(Media::Text, out))
}
