// A call that an operator has the hall do, and the hall's reply to it.
ghost use Rattle.std.specs.Prelude.{◌≡◌, Some, None, IfOk, IfErr, IfSome, IfNone, OnErr};
ghost use Rattle.futures.specs.Task.{IsArmed, Keeps};
ghost use Rattle.admin_port.specs.Asking.{GivesReplyTo, IsReplyTo, accepted_by};

use admin_replies::read_id;
use api_core::{Call, Reply};
use futures::Future;
use futures::task::{Context, Poll};
use long_poll::{Acting, Waiting};
use receipts::{Trace, Witnessed};
use std::snapshot::Snapshot as Seen;
use std::sync::Wait;
use std::sync::ledger::Ledger;

/// What the hall replied to a call.
#[derive(Drop)]
pub(crate) struct Answered<L: Ledger, T: Trace> {
    call: Seen<Call>,
    told: Witnessed<Reply, L, T>,
    ghost tells: { ∥ IsReplyTo call.value told ∥₁ },
}

/// That the hall's reply told of an event that was accepted: which. Only such a reply makes one.
#[derive(Drop)]
pub(crate) struct Accepted {
    id: [u8; 16],
}

impl Accepted {
    /// The event's id.
    pub(crate) fn id(&self) -> &[u8; 16]
        ensures { result.now ≡ self.now.id }
    {
        &self.id
    }
}

/// A call that was done, and whose reply is waited for.
#[derive(Drop)]
pub(crate) struct Asked<R: Wait, L: Ledger, T: Trace> {
    call: Seen<Call>,
    waiting: Waiting<R, L, T>,
    ghost waits: { ∥ GivesReplyTo call.value waiting.seen waiting.slot ∥₁ },
}

impl<L: Ledger, T: Trace> Answered<L, T> {
    /// Its status.
    pub(crate) fn status(&self) -> u16
        ensures { result ≡ self.now.told.answer.status }
    {
        self.told.answer.status
    }

    // The id of the event that it tells to be accepted, if it does.
    fn accepted_id(&self) -> Option<[u8; 16]>
        ensures { result ≡ accepted_by self.now.told.answer }
    {
        let reply = &self.told.answer;
        if reply.status != 202 {
            return None;
        }
        let (name, value) = reply.headers.get(0)?;
        if name == "X-Amzn-RequestId" {
            read_id(value)
        } else {
            None
        }
    }

    /// Its status, and that it tells of an accepted event, if it does.
    pub(crate) fn accepted(self) -> (u16, Option<Accepted>)
        ensures status { result.0 ≡ self.told.answer.status }
        ensures some { IfSome result.1 (λ accepted. accepted_by self.told.answer ≡ Some accepted.id) }
        ensures none { IfNone result.1 (accepted_by self.told.answer ≡ None) }
    {
        let status = self.status();
        match self.accepted_id() {
            Some(id) => (status, Some(Accepted { id })),
            None => (status, None),
        }
    }
}

impl<R: Wait + Drop + Copy, L: Ledger, T: Trace> Asked<R, L, T> {
    /// Has a call done, as a caller sends it, and has that committed. None where it is refused, and then nothing has changed.
    pub(crate) fn ask<A: Acting<R, L, T>>(rt: R, acting: &A, call: Call) -> Option<Asked<R, L, T>>
        ensures { IfSome result (λ asked. asked.call.value ≡ call) }
    {
        let seen = Seen::of(&call);
        let waiting = acting.act(rt, call)?;
        acting.commit(rt);
        Some(Asked {
            call: seen,
            waiting,
        })
    }

    /// Waits for its reply: that, or what waits further.
    pub(crate) fn wait(self, cx: &mut Context<'_>) -> Result<Answered<L, T>, Asked<R, L, T>>
        ensures told { IfOk result (λ answered. answered.call.value ≡ self.call.value) }
        ensures waits { IfErr result (λ asked. asked.call.value ≡ self.call.value) }
        ensures armed { OnErr result (IsArmed cx.new) }
        ensures kept { Keeps cx.old cx.new }
    {
        let Asked { call, mut waiting } = self;
        match waiting.poll(cx) {
            Poll::Pending => Err(Asked { call, waiting }),
            Poll::Ready(told) => {
                let (released, seen) = told.split();
                Ok(Answered {
                    call,
                    told: seen.with(released.into_reply()),
                })
            }
        }
    }
}
