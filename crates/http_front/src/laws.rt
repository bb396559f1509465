// What follows from what a port's requests are answered, for readers.
ghost use Rattle.http.specs.declared.request.Request.{Request};
ghost use Rattle.http.specs.Request.{head_of};
ghost use Rattle.hyper.specs.declared.body.incoming.Incoming.{Incoming};
ghost use Rattle.http_port.specs.Answering.{message_of};
ghost use Rattle.http_port.specs.Serving.{AnswersFor, Sends, SendsReply};
ghost use Rattle.http_front.specs.Accepting.{SaysAccepted, IsAccepted};

use crate::port_application::{PortApplication, Replying};
use crate::replying::Telling;
use futures::Future;
use http_port::{Application, IntoResponse};
use receipts::Trace;
use std::io::Eprint;
use std::random::RandomSource;
use std::sync::Wait;
use std::sync::ledger::Ledger;
use std::time::Clock;

/// A 202 that a port sends for a request is of an event that was accepted, where its body is empty or that of InvokeAsync: the
/// request is a call that was done to a hall with a slot, and a hall told this slot that an event was accepted, by a command that
/// is durable there. The laws of `promises` go on from there to the disk. It takes the right to wait, as its types do; its body
/// is empty, so it returns.
pub fn what_a_port_sends_as_202_was_accepted<
    R: Wait + Clock + RandomSource + Eprint + Drop + Copy,
    L: Ledger,
    T: Trace,
    I: Drop,
>()
    // claim: Where a port sends 202 with an empty body or that of InvokeAsync, the request's head and body are a call that was
    // done with a slot. What is sent tells the reply that the slot was given, by a hall which answered 202 there by an acceptance
    // that is durable in it. Where no later request came with the slot, the event's payload is the call's.
    ensures { (hosts : _) (application : _) (request : Request (Incoming I)) (response : _)
        → Sends ⟦<Replying<R, L, T> as Future>⟧.gives ⟦<Telling<L, T> as IntoResponse>⟧.tells
        (AnswersFor ⟦<PortApplication<R, L, T> as Application>⟧.answers hosts application request) response
        → SaysAccepted (message_of response)
        → (it : SendsReply ⟦<PortApplication<R, L, T> as Application>⟧.answers ⟦<Replying<R, L, T> as Future>⟧.gives
        ⟦<Telling<L, T> as IntoResponse>⟧.tells application request (message_of response))
        × IsAccepted application.front.value.dialect application.front.value.settings application.number (head_of request) it.answered.read
        it.reply.waiting.slot it.reply.waiting.seen it.telling.released }
{}
