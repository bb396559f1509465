// The reply to a request that names a record to be tried again.
ghost use Rattle.std.specs.Prelude.{◌≡◌, Some, Ok, IfSome};
ghost use Rattle.futures.specs.Task.{Keeps};
ghost use Rattle.api_core.specs.declared.call.Call.TheVariants.{Delete};
ghost use Rattle.long_poll.specs.PendingView.{unreleased_in};
ghost use Rattle.admin_replies.specs.Retrying.{failed_payload, status_by, status_of};
ghost use Rattle.admin_port.specs.Retrying.{IsArmedIn, LeadsToDelete, LeadsToInvoke, LeadsToLook, LeadsToPayload, LeadsToStep, TellsOfReply, TellsOfStep};

use crate::admin_response::{AdminResponse, device_fault, told};
use crate::asked::{Accepted, Answered, Asked};
use crate::step::{Step, Turn};
use admin_replies::{
    RetryRefusal, ToldLine, Verdict, again_reply, failed_payload, left_reply, refusal_reply,
    unaccepted_reply,
};
use api_core::Call;
use futures::Future;
use futures::task::{Context, Poll};
use invoke_records::Bytes;
use long_poll::{Acting, PendingView};
use receipts::{Trace, View};
use std::alloc::Global;
use std::mem;
use std::sync::ledger::Ledger;
use std::sync::{Arc, Wait};

/// The reply to a request that names a record to be tried again. Its payload is accepted as an event by one Invoke. Only once
/// that is told to be accepted, and so is durable, the record is collected by one DELETE. A stop, a fault or a client that goes
/// away between leaves both.
#[derive(Drop)]
pub(crate) struct Retrying<R: Wait, L: Ledger, T: Trace, A> {
    rt: R,
    alloc: Global,
    acting: Arc<A>,
    id: [u8; 16],
    step: Step<R, L, T>,
}

// Why the payload of a record was not accepted, by the hall's status.
fn unaccepted(alloc: Global, status: u16) -> AdminResponse
    ensures { IfSome result.reply (λ reply. reply.status ≡ status_by status) }
{
    told(unaccepted_reply(alloc, status))
}

// Why a record is not tried again.
fn refused(alloc: Global, why: RetryRefusal) -> AdminResponse
    ensures { IfSome result.reply (λ reply. reply.status ≡ status_of why) }
{
    told(refusal_reply(alloc, why))
}

impl<R: Wait + Drop + Copy, L: Ledger, T: Trace, A: Acting<R, L, T>> Retrying<R, L, T, A> {
    /// The record of this event, of which something was seen, is to be tried again.
    pub(crate) fn new(
        rt: R,
        alloc: Global,
        acting: Arc<A>,
        id: [u8; 16],
        view: PendingView<R, L, T>,
    ) -> Retrying<R, L, T, A>
        ensures id { result.id ≡ id }
        ensures step { result.step ≡ Step.Looking view }
    {
        Retrying {
            rt,
            alloc,
            acting,
            id,
            step: Step::Looking(view),
        }
    }

    // What became of the record, once its payload was accepted as this event: by the hall's reply to its DELETE.
    fn collected(&self, new: &[u8; 16], answered: &Answered<L, T>) -> AdminResponse
        ensures { IfSome result.reply (TellsOfReply self.now.id new.now answered.now.told.answer.status) }
    {
        match Verdict::of(answered.status()) {
            Some(verdict) => told(again_reply(self.alloc, new, ToldLine::Of(self.id, verdict))),
            None => told(left_reply(self.alloc, new)),
        }
    }

    // Waits for the reply to the DELETE of the record.
    fn wait_collected(
        &self,
        accepted: Accepted,
        asked: Asked<R, L, T>,
        cx: &mut Context<'_>,
    ) -> Turn<R, L, T>
        ensures leads { LeadsToDelete asked.call.value self.now.id accepted.id result }
        ensures armed { IsArmedIn cx.new result }
        ensures kept { Keeps cx.old cx.new }
    {
        match asked.wait(cx) {
            Ok(answered) => Turn::Tells(self.collected(accepted.id(), &answered)),
            Err(asked) => Turn::Waits(Step::Collecting(accepted, asked)),
        }
    }

    // The payload was accepted as an event, which is durable, and the record is collected.
    fn collect(&self, accepted: Accepted, cx: &mut Context<'_>) -> Turn<R, L, T>
        ensures leads { LeadsToDelete (Delete (Some self.now.id)) self.now.id accepted.id result }
        ensures armed { IsArmedIn cx.new result }
        ensures kept { Keeps cx.old cx.new }
    {
        match Asked::ask(self.rt, &*self.acting, Call::Delete(Some(self.id))) {
            Some(asked) => self.wait_collected(accepted, asked, cx),
            None => Turn::Tells(told(left_reply(self.alloc, accepted.id()))),
        }
    }

    // Waits for the reply to the Invoke of the payload.
    fn wait_accepted(&self, asked: Asked<R, L, T>, cx: &mut Context<'_>) -> Turn<R, L, T>
        ensures leads { LeadsToInvoke asked.call.value self.now.id result }
        ensures armed { IsArmedIn cx.new result }
        ensures kept { Keeps cx.old cx.new }
    {
        let answered = match asked.wait(cx) {
            Ok(answered) => answered,
            Err(asked) => return Turn::Waits(Step::Accepting(asked)),
        };
        let (status, accepted) = answered.accepted();
        match accepted {
            Some(accepted) => self.collect(accepted, cx),
            None => Turn::Tells(unaccepted(self.alloc, status)),
        }
    }

    // The payload comes as an event.
    fn accept(&self, payload: Bytes, cx: &mut Context<'_>) -> Turn<R, L, T>
        ensures leads { LeadsToPayload self.now.id (Ok payload) result }
        ensures armed { IsArmedIn cx.new result }
        ensures kept { Keeps cx.old cx.new }
    {
        match Asked::ask(self.rt, &*self.acting, Call::Invoke { payload }) {
            Some(asked) => self.wait_accepted(asked, cx),
            None => Turn::Tells(unaccepted(self.alloc, 503)),
        }
    }

    // The record is judged by what was seen of its event.
    fn judge(&self, view: &View, cx: &mut Context<'_>) -> Turn<R, L, T>
        ensures leads { LeadsToPayload self.now.id (failed_payload self.now.id view.now.hall.rows) result }
        ensures armed { IsArmedIn cx.new result }
        ensures kept { Keeps cx.old cx.new }
    {
        match failed_payload(view.hall.rows.as_slice(), &self.id) {
            Ok(payload) => self.accept(payload, cx),
            Err(why) => Turn::Tells(refused(self.alloc, why)),
        }
    }

    // Waits until what was seen of the event is durable.
    fn look(&self, mut view: PendingView<R, L, T>, cx: &mut Context<'_>) -> Turn<R, L, T>
        ensures leads { LeadsToLook self.now.id (unreleased_in view.view) result }
        ensures armed { IsArmedIn cx.new result }
        ensures kept { Keeps cx.old cx.new }
    {
        match view.poll(cx) {
            Poll::Pending => Turn::Waits(Step::Looking(view)),
            Poll::Ready(Ok(told)) => self.judge(&told.view, cx),
            Poll::Ready(Err(_)) => Turn::Tells(device_fault(self.alloc)),
        }
    }

    // Goes on from a step.
    fn go_on(&self, step: Step<R, L, T>, cx: &mut Context<'_>) -> Turn<R, L, T>
        ensures leads { LeadsToStep self.now.id step result }
        ensures armed { IsArmedIn cx.new result }
        ensures kept { Keeps cx.old cx.new }
    {
        match step {
            Step::Looking(view) => self.look(view, cx),
            Step::Accepting(asked) => self.wait_accepted(asked, cx),
            Step::Collecting(accepted, asked) => self.wait_collected(accepted, asked, cx),
            Step::Told => Turn::Tells(unaccepted(self.alloc, 503)),
        }
    }
}

impl<R, L, T, A> Future for Retrying<R, L, T, A>
where
    R: Wait + Drop + Copy,
    L: Ledger,
    T: Trace,
    A: Acting<R, L, T>,
{
    type Output = AdminResponse;

    // claim: A retry is told the failing check's status, what comes of the hall's replies to an Invoke of the record's payload
    // and, only behind a 202, to a DELETE of the record, or 503. [: gives; Retrying::collect: leads; Answered: tells]
    ghost gives = { λ retrying shown. IfSome shown.reply (TellsOfStep retrying.id retrying.step) };

    fn poll(&mut self, cx: &mut Context<'_>) -> Poll<AdminResponse> {
        let step = mem::replace(&mut self.step, Step::Told);
        match self.go_on(step, cx) {
            Turn::Waits(step) => {
                self.step = step;
                Poll::Pending
            }
            Turn::Tells(response) => Poll::Ready(response),
        }
    }
}
