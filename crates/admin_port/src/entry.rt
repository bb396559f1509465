// A line of a list of records that are to be collected.
ghost use Rattle.std.specs.Prelude.{◌≡◌, Some, IfSome, option_map};
ghost use Rattle.futures.specs.Task.{IsArmed, Keeps};
ghost use Rattle.futures.specs.Poll.{OnPending};
ghost use Rattle.admin_replies.specs.Collecting.{verdict_of, line_in};
ghost use Rattle.admin_port.specs.Collecting.{GivesReplyTo, IsVerdictOn};

use admin_replies::{ToldLine, Verdict};
use api_core::Call;
use futures::Future;
use futures::task::{Context, Poll};
use hall_core::Released;
use long_poll::{Acting, Waiting};
use receipts::{Trace, Witnessed};
use std::sync::Wait;
use std::sync::ledger::Ledger;

// What became of a record, by the reply to its DELETE. None where that was not judged.
fn verdict_on<L: Ledger, T: Trace>(
    told: Witnessed<Released, L, T>,
) -> Option<Witnessed<Verdict, L, T>>
    ensures { IfSome result (λ became. verdict_of told.answer.reply.status ≡ Some became.answer) }
{
    let (released, seen) = told.split();
    let verdict = Verdict::of(released.status())?;
    Some(seen.with(verdict))
}

/// A line of a list: the id that it is, if it is one, and how far the collecting of its record is.
#[derive(Drop)]
pub(crate) struct Entry<R: Wait, L: Ledger, T: Trace> {
    id: Option<[u8; 16]>,
    // The reply to its DELETE, while that is waited for.
    waiting: Option<Waiting<R, L, T>>,
    // What the reply told.
    told: Option<Witnessed<Verdict, L, T>>,
    // What the hall replied to one DELETE of its id, as a caller sends it.
    ghost waits: { ∥ IfSome waiting (λ waiting. GivesReplyTo id waiting.seen waiting.slot) ∥₁ },
    ghost tells: { ∥ IfSome told (IsVerdictOn id) ∥₁ },
}

impl<R: Wait, L: Ledger, T: Trace> Entry<R, L, T> {
    /// A line with this id, or without one.
    pub(crate) fn new(id: Option<[u8; 16]>) -> Entry<R, L, T>
        ensures { result.id ≡ id }
    {
        Entry {
            id,
            waiting: None,
            told: None,
        }
    }

    // What became of its record, if that is known.
    fn verdict(&self) -> Option<Verdict>
        ensures { result ≡ option_map (λ told. told.answer) self.now.told }
    {
        match &self.told {
            Some(told) => Some(told.answer),
            None => None,
        }
    }

    /// What is told of it. None where what became of its record is not known.
    pub(crate) fn line(&self) -> Option<ToldLine>
        ensures { result ≡ line_in self.now.id (option_map (λ told. told.answer) self.now.told) }
    {
        ToldLine::of(self.id, self.verdict())
    }
}

impl<R: Wait + Drop, L: Ledger, T: Trace> Entry<R, L, T> {
    /// Has its record judged, where it is an id: whether that was not refused.
    pub(crate) fn judge<A: Acting<R, L, T>>(&mut self, rt: R, acting: &A) -> bool
        ensures { self.new.id ≡ self.old.id }
    {
        if self.id.is_none() {
            return true;
        }
        self.waiting = acting.act(rt, Call::Delete(self.id));
        self.waiting.is_some()
    }

    /// Waits for the reply to its DELETE, where that is waited for: whether it told what became of the record.
    pub(crate) fn poll(&mut self, cx: &mut Context<'_>) -> Poll<bool>
        ensures id { self.new.id ≡ self.old.id }
        ensures armed { OnPending result (IsArmed cx.new) }
        ensures kept { Keeps cx.old cx.new }
    {
        let Some(mut waiting) = self.waiting.take() else {
            return Poll::Ready(true);
        };
        match waiting.poll(cx) {
            Poll::Pending => {
                self.waiting = Some(waiting);
                Poll::Pending
            }
            Poll::Ready(told) => {
                self.told = verdict_on(told);
                Poll::Ready(self.told.is_some())
            }
        }
    }
}
