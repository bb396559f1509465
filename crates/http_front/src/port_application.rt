// A port of the front, whose requests become calls.
ghost use Rattle.std.specs.Prelude.{◌≡◌, ◌⊎◌, Ok, Err, IfOk, IfErr};
ghost use Rattle.api_core.specs.declared.refusal.Refusal.TheVariants.{Unavailable};
ghost use Rattle.receipts.specs.Locked.{hall_in};
ghost use Rattle.bell.specs.Bell.{source_of};
ghost use Rattle.long_poll.specs.Port.{IsDoneFor};
ghost use Rattle.long_poll.specs.Waiting.{IsTaken};
ghost use Rattle.http_port.specs.Answering.{status_alone};
ghost use Rattle.http_front.specs.Calls.{audience_at, read_as, IsBodyOf, IsCallOf, IsCallFor, RefusesRequest};
ghost use Rattle.http_front.specs.Telling.{TellsRefusal};

use crate::drawing::new_id;
use crate::front_state::{Came, FrontState};
use crate::replying::{Manner, Telling, refuse};
use crate::resets::{ResetReport, note_report};
use api_core::{Audience, Body, Call, Dialect, Refusal, RequestError, read_request};
use futures::Future;
use futures::task::{Context, Poll};
use http::request::Parts;
use http_port::{Application, BodyError, ReadBody, Refused, target_of};
use hyper::StatusCode;
use invoke_records::Bytes;
use long_poll::{Arrived, Port, Waiting};
use receipts::Trace;
use std::alloc::Global;
use std::io::Eprint;
use std::random::RandomSource;
use std::sync::ledger::Ledger;
use std::sync::{Arc, Wait};
use std::time::Clock;

/// The header in which a runtime tells what caused an error, to a service that is not here. Its value may be a whole stack.
const CAUSE: &str = "lambda-runtime-function-xray-error-cause";

/// The reply of a call, which is told once it is released.
#[derive(Drop)]
pub(crate) struct Replying<R: Wait, L: Ledger, T: Trace> {
    waiting: Waiting<R, L, T>,
    /// The id of its request, where the reply is to tell one.
    id: Option<[u8; 16]>,
    /// The port, which is the environment's number, and what the call reports there.
    number: u16,
    report: Option<ResetReport>,
    rt: R,
    front: Arc<FrontState<L, T>>,
}

impl<R: Wait + Eprint + Drop, L: Ledger, T: Trace> Future for Replying<R, L, T> {
    type Output = Telling<L, T>;

    // claim: Where a reply to a request is pending, its poll has registered at the bell, or is made again. [: needs]
    ghost needs = { λ replying source. source ≡ source_of replying.waiting.port.value.bell.value };

    ghost gives = { λ replying telling. IsTaken replying.waiting.slot telling.released × (telling.id ≡ replying.id) };

    fn poll(&mut self, cx: &mut Context<'_>) -> Poll<Telling<L, T>> {
        match self.waiting.poll(cx) {
            Poll::Pending => Poll::Pending,
            Poll::Ready(told) => {
                let status = told.answer.status();
                self.front.meters.note_status(&self.rt, status);
                let lines = self.front.premises.lines();
                note_report(&self.rt, lines, self.number, self.report, status);
                Poll::Ready(Telling::new(told, self.id))
            }
        }
    }
}

// A body that was read. An empty one takes no memory.
fn whole(bytes: Vec<u8>) -> Result<Body, BodyError>
    ensures value { IfOk result (λ body. body ≡ Body.Whole bytes.items) }
    ensures err { IfErr result (λ why. why ≡ BodyError.OutOfMemory) }
{
    if bytes.is_empty() {
        return Ok(Body::Whole(Bytes::empty()));
    }
    match Bytes::from_vec(bytes) {
        Ok(bytes) => Ok(Body::Whole(bytes)),
        Err(_) => Err(BodyError::OutOfMemory),
    }
}

// A body as requests have it, or why it is refused.
fn body_of(body: ReadBody) -> Result<Body, BodyError>
    ensures value { IfOk result (IsBodyOf body) }
    ensures err { IfErr result (λ why. (why ≡ BodyError.OutOfMemory) ⊎ (body ≡ Err why)) }
{
    match body.into_result() {
        Ok(bytes) => whole(bytes),
        Err(BodyError::TooLarge) => Ok(Body::TooLarge),
        Err(why) => Err(why),
    }
}

// That a body was cut off: there is mostly nobody to read it.
fn cut_off(alloc: Global) -> Refused
    ensures { result ≡ status_alone 400 }
{
    Refused::bare(alloc, StatusCode::BAD_REQUEST)
}

/// A port: its number, the desk and the seat of its requests, and what it shares with the others.
#[derive(Drop)]
pub(crate) struct PortApplication<R, L: Ledger, T: Trace> {
    pub(crate) rt: R,
    pub(crate) number: u16,
    pub(crate) front: Arc<FrontState<L, T>>,
    pub(crate) port: Arc<Port<L, T>>,
}

impl<R: Wait + Clock + RandomSource + Eprint + Copy, L: Ledger, T: Trace> PortApplication<R, L, T> {
    // Whom this port answers.
    fn audience(&self) -> Audience
        ensures { result ≡ audience_at self.now.number }
    {
        if self.number == 0 {
            Audience::Caller
        } else {
            Audience::Environment
        }
    }

    // The id of a request, as callers are told it in the dialect of AWS. Where none can be drawn, none is told.
    fn request_id(&self) -> Option<[u8; 16]> {
        match (self.front.dialect, self.audience()) {
            (Dialect::Aws, Audience::Caller) => new_id(&self.rt).ok(),
            _ => None,
        }
    }

    // How a request with this id is refused here.
    fn manner(&self, id: Option<[u8; 16]>) -> Manner
        ensures { result ≡ record { dialect = self.now.front.value.dialect; audience = audience_at self.now.number; id = id } }
    {
        Manner {
            dialect: self.front.dialect,
            audience: self.audience(),
            id,
        }
    }

    // A refusal, which is counted.
    fn refuse(&self, why: Refusal, id: Option<[u8; 16]>) -> Refused
        ensures { TellsRefusal self.now.front.value.dialect self.now.front.value.settings (audience_at self.now.number) why result }
    {
        let front = &self.front;
        front.meters.note_status(&self.rt, why.status());
        refuse(front.alloc, &front.settings, self.manner(id), why)
    }

    // The call of a request.
    fn read(&self, head: &Parts, body: Body) -> Result<Call, Refusal>
        ensures call { IfOk result
            (IsCallOf self.now.front.value.dialect self.now.front.value.settings self.now.number head.now body) }
        ensures err { IfErr result (λ why. (why ≡ Unavailable)
            ⊎ (read_as self.now.front.value.dialect self.now.front.value.settings self.now.number head.now body ≡ Err why)) }
    {
        let front = &self.front;
        match read_request(
            front.alloc,
            front.dialect,
            &front.settings,
            self.number,
            &head.method,
            target_of(head),
            &head.headers,
            body,
        ) {
            Ok(call) => Ok(call),
            Err(RequestError::Refused(why)) => Err(why),
            Err(RequestError::OutOfMemory) => Err(Refusal::Unavailable),
        }
    }

    // A call comes. What is refused is answered at once.
    fn hand_over(&self, call: Call) -> Result<Arrived<L, T>, Refusal>
        ensures done { IfOk result (λ arrived.
            IsDoneFor call (hall_in arrived.seen.before.value.hall) (hall_in arrived.seen.after.value.hall) arrived.slot) }
        ensures err { IfErr result (λ why. why ≡ Unavailable) }
    {
        match self.front.arrive(&self.rt, &self.port, call) {
            Ok(Came { arrived, .. }) => Ok(arrived),
            Err(_) => Err(Refusal::Unavailable),
        }
    }

    // A call comes; its reply then waits.
    fn arrive(&self, call: Call) -> Result<Waiting<R, L, T>, Refusal>
        ensures done { IfOk result (λ waiting.
            IsDoneFor call (hall_in waiting.seen.before.value.hall) (hall_in waiting.seen.after.value.hall) waiting.slot) }
        ensures err { IfErr result (λ why. why ≡ Unavailable) }
    {
        let Ok(port) = Arc::try_clone(&self.port) else {
            return Err(Refusal::Unavailable);
        };
        let arrived = self.hand_over(call)?;
        Ok(Waiting::new(self.rt, port, arrived))
    }

    // A request comes with its body; its reply then waits, and tells this id where it is to tell one.
    fn reply_to(
        &self,
        head: &Parts,
        body: Body,
        id: Option<[u8; 16]>,
    ) -> Result<Replying<R, L, T>, Refusal>
        ensures call { IfOk result (λ replying. (call : _)
            × IsCallOf self.now.front.value.dialect self.now.front.value.settings self.now.number head.now body call
            × IsDoneFor call (hall_in replying.waiting.seen.before.value.hall) (hall_in replying.waiting.seen.after.value.hall)
            replying.waiting.slot) }
        ensures id { IfOk result (λ replying. replying.id ≡ id) }
        ensures err { IfErr result (λ why. (why ≡ Unavailable)
            ⊎ (read_as self.now.front.value.dialect self.now.front.value.settings self.now.number head.now body ≡ Err why)) }
    {
        let Ok(front) = Arc::try_clone(&self.front) else {
            return Err(Refusal::Unavailable);
        };
        let call = self.read(head, body)?;
        let report = ResetReport::of(&call);
        let waiting = self.arrive(call)?;
        Ok(Replying {
            waiting,
            id,
            number: self.number,
            report,
            rt: self.rt,
            front,
        })
    }
}

impl<R: Wait + Clock + RandomSource + Eprint + Drop + Copy, L: Ledger, T: Trace> Application
    for PortApplication<R, L, T> {
    type Response = Telling<L, T>;

    type Future = Replying<R, L, T>;

    // claim: A request is the call that its head and body say, and its future waits for the slot with which just that
    // was done. Or it is refused as cut off, by the first check that fails, or as 503. [: answers; FrontState::arrive:
    // done; PortApplication::arrive: done; PortApplication::reply_to: call; PortApplication::read: call;
    // PortApplication::refuse; body_of: value, err]
    ghost answers = { λ application head read answered.
        IfOk answered (λ replying. (call : _)
        × IsCallFor application.front.value.dialect application.front.value.settings application.number head read call
        × IsDoneFor call (hall_in replying.waiting.seen.before.value.hall) (hall_in replying.waiting.seen.after.value.hall)
        replying.waiting.slot)
        × IfErr answered (RefusesRequest application.front.value.dialect application.front.value.settings application.number head read) };

    fn most(&self) -> usize {
        self.front.most
    }

    fn unread_header(&self) -> Option<&'static str> {
        if self.number == 0 { None } else { Some(CAUSE) }
    }

    fn answer(&self, head: &Parts, body: ReadBody) -> Result<Replying<R, L, T>, Refused> {
        let id = self.request_id();
        match body_of(body) {
            Ok(body) => match self.reply_to(head, body, id) {
                Ok(replying) => Ok(replying),
                Err(why) => Err(self.refuse(why, id)),
            },
            Err(BodyError::CutOff) => Err(cut_off(self.front.alloc)),
            Err(_) => Err(self.refuse(Refusal::Unavailable, id)),
        }
    }
}
