// The future of one request: its body is read, then its reply waits.
ghost use Rattle.std.specs.Prelude.{◌≡◌, Ok, Err, None, IfOk, IfSome, IsSome, IsSomeAnd, option_map};
ghost use Rattle.std.specs.Arc.{arc_value};
ghost use Rattle.futures.specs.Task.{IsArmed, Covers, Keeps};
ghost use Rattle.futures.specs.Poll.{IfReady, OnPending};
ghost use Rattle.http_port.specs.Answering.{message_of, IsSent};
ghost use Rattle.http_port.specs.Reading.{Reads};
ghost use Rattle.http_port.specs.Place.{HasPlace};
ghost use Rattle.http_port.specs.Serving.{Answers, AnswersFor, IsAsked, Sends};

use crate::answering::{HttpResponse, Refused, say_last, tell};
use crate::application::Application;
use crate::body_room::{BodyPlace, BodyRoom};
use crate::connection_phase::{ConnectionPhase, PhaseCell};
use crate::forbidden::Forbidden;
use crate::hosts::Hosts;
use crate::reading::{ReadBody, Reading, State};
use futures::Future;
use futures::task::{Context, Poll};
use http::Method;
use http::request::Parts;
use hyper::body::Incoming;
use hyper::service::Service;
use hyper::{Request, StatusCode};
use port_meters::{Unread, micros_since};
use std::alloc::Global;
use std::convert::Infallible;
use std::rc::Rc;
use std::sync::Arc;
use std::time::{Clock, Instant};

/// The future of one request. First its body is read; where it has a reply, that waits.
#[derive(Drop)]
pub(crate) struct Serving<R, A: Application, I: Drop> {
    alloc: Global,
    application: Option<Arc<A>>,
    phase_cell: Option<Rc<PhaseCell>>,
    // Why it is refused by its head alone, where it is.
    forbidden: Option<Forbidden>,
    head: Parts,
    // The room that its body has. Nothing of it is read before.
    place: BodyPlace,
    reading: Reading<I>,
    reply: Option<A::Future>,
    rt: R,
    // When its head was read. None where the clock does not tell.
    begun: Option<Instant>,
}

// Reads a body on, once it has its place.
fn read_on<I: Drop>(
    place: &mut BodyPlace,
    reading: &mut Reading<I>,
    cx: &mut Context<'_>,
) -> Poll<ReadBody>
    ensures value { IfReady result (Reads reading.old) }
    ensures later { OnPending result ((body : _) → Reads reading.new body → Reads reading.old body) }
    // claim: Nothing of a body is asked for before it has its place in the room of its port. [: placed; BodyPlace::poll: has]
    ensures placed { ¬ (HasPlace place.new) → reading.new ≡ reading.old }
    ensures armed { OnPending result (IsArmed cx.new) }
    ensures kept { Keeps cx.old cx.new }
{
    match place.poll(cx) {
        Poll::Pending => Poll::Pending,
        Poll::Ready(false) => Poll::Ready(ReadBody::without_memory()),
        Poll::Ready(true) => reading.poll(cx),
    }
}

impl<R: Clock, A: Application, I: Drop> Serving<R, A, I> {
    // Another phase of its connection begins.
    fn enter(&self, phase: ConnectionPhase) {
        if let Some(phase_cell) = &self.phase_cell {
            phase_cell.enter(phase);
        }
    }

    // Whether its body has not come in time.
    fn is_late(&self) -> bool {
        match &self.phase_cell {
            Some(phase_cell) => phase_cell.is_late(),
            None => false,
        }
    }

    // A body was read, or was not. From now on its connection waits for the reply.
    fn answer(&mut self, body: ReadBody) -> Result<A::Future, Refused>
        ensures value { IfOk result A.Future.can_poll }
        // claim: The application is asked once at most, with the head and what was read of the body, and its answer is
        // given, or 503. [: asked, once; Application::answer: answered]
        ensures asked { IsAsked A.answers (option_map arc_value self.old.application) self.old.head body result }
        ensures once { self.new.application ≡ None }
        ensures same { self.new.forbidden ≡ self.old.forbidden }
    {
        self.enter(ConnectionPhase::Reply);
        match self.application.take() {
            Some(application) => application.answer(&self.head, body),
            None => Err(Refused::bare(self.alloc, StatusCode::SERVICE_UNAVAILABLE)),
        }
    }

    // Why it does not come to the application, if it does not.
    fn unread(&self) -> Option<Unread> {
        if self.forbidden.is_some() {
            Some(Unread::Forbidden)
        } else if self.is_late() {
            Some(Unread::BodyLate)
        } else if matches!(self.reading.state(), State::Failed) {
            Some(Unread::BodyCutOff)
        } else {
            None
        }
    }

    // It is answered now.
    fn note(&self) {
        let Some(phase_cell) = &self.phase_cell else {
            return;
        };
        if let Some(why) = self.unread() {
            phase_cell.note_unread(why);
        } else if let Some(begun) = self.begun {
            let is_get = self.head.method == Method::GET;
            phase_cell.note_reply(is_get, micros_since(&self.rt, Ok(begun)));
        }
    }

    // A response, as it is sent. Where the body of its request was not read to its end, it is the last of its connection. It
    // says so, where `hyper` does not.
    fn send(&self, answered: HttpResponse) -> HttpResponse
        ensures { IsSent (message_of answered) (message_of result) }
    {
        self.note();
        match self.reading.state() {
            State::Ended => {
                self.enter(ConnectionPhase::Idle);
                answered
            }
            State::Left => {
                self.enter(ConnectionPhase::Rest);
                say_last(answered)
            }
            State::Failed => {
                self.enter(ConnectionPhase::Rest);
                answered
            }
        }
    }

    // Reads on, up to the reply that waits.
    fn poll_body(&mut self, cx: &mut Context<'_>) -> Poll<Result<A::Future, Refused>>
        requires { IfSome self.old.reply A.Future.can_poll }
        ensures value { IfReady result (λ answered. IfOk answered A.Future.can_poll) }
        // claim: What is forbidden by its head is answered 403 or 501, its body unread, the application unasked. All else the
        // application answers, or 408 or 503. [: answers, later, unasked; Serving: gives; Requests: calls; Forbidden::refused]
        ensures answers { IfReady result (Answers A.answers self.old.forbidden self.old.reply
            (option_map arc_value self.old.application) self.old.head (Reads self.old.reading)) }
        ensures later { OnPending result ((answered : _)
            → Answers A.answers self.new.forbidden self.new.reply
            (option_map arc_value self.new.application) self.new.head (Reads self.new.reading) answered
            → Answers A.answers self.old.forbidden self.old.reply
            (option_map arc_value self.old.application) self.old.head (Reads self.old.reading) answered) }
        ensures unasked { IsSome self.old.forbidden → (self.new.reading ≡ self.old.reading) × (self.new.application ≡ self.old.application) }
        ensures same { self.new.forbidden ≡ self.old.forbidden }
        ensures reads { OnPending result (self.new.reply ≡ None) }
        ensures armed { OnPending result (IsArmed cx.new) }
        ensures kept { Keeps cx.old cx.new }
    {
        if let Some(forbidden) = self.forbidden {
            return Poll::Ready(Err(forbidden.refused(self.alloc)));
        }
        if let Some(reply) = self.reply.take() {
            return Poll::Ready(Ok(reply));
        }
        if self.is_late() {
            return Poll::Ready(Err(Refused::late(self.alloc)));
        }
        match read_on(&mut self.place, &mut self.reading, cx) {
            Poll::Pending => Poll::Pending,
            Poll::Ready(body) => Poll::Ready(self.answer(body)),
        }
    }

    fn poll_reply(
        &mut self,
        mut reply: A::Future,
        cx: &mut Context<'_>,
    ) -> Poll<Result<HttpResponse, Infallible>>
        requires { A.Future.can_poll reply }
        ensures given { IfReady result (λ sent. IfOk sent (Sends A.Future.gives A.Response.tells (λ answered. answered ≡ Ok reply))) }
        ensures waits { OnPending result (IsSomeAnd self.new.reply (λ later.
            A.Future.can_poll later × ((it : _) → A.Future.gives later it → A.Future.gives reply it))) }
        ensures same { self.new.forbidden ≡ self.old.forbidden }
        ensures covers { OnPending result (Covers cx.new (λ source. IsSomeAnd self.new.reply (λ later. A.Future.needs later source))) }
        ensures kept { Keeps cx.old cx.new }
    {
        match reply.poll(cx) {
            Poll::Pending => {
                self.reply = Some(reply);
                Poll::Pending
            }
            Poll::Ready(told) => Poll::Ready(Ok(self.send(tell(self.alloc, told)))),
        }
    }
}

impl<R: Clock + Drop, A: Application, I: Drop> Future for Serving<R, A, I> {
    type Output = Result<HttpResponse, Infallible>;

    ghost can_poll = { λ s. IfSome s.reply A.Future.can_poll };

    // claim: Where a request's reply is pending, its poll has registered at what that reply waits for, or is made again. [: needs;
    // Serving::poll_reply: covers]
    ghost needs = { λ s source. IsSomeAnd s.reply (λ reply. A.Future.needs reply source) };

    // claim: What is sent for a request is all that an answer to its head and its body tells, or 503 alone, and at most
    // `Connection: close` more. [: gives; Requests: calls]
    ghost gives = { λ s sent. IfOk sent (Sends A.Future.gives A.Response.tells (Answers A.answers s.forbidden s.reply
        (option_map arc_value s.application) s.head (Reads s.reading))) };

    fn poll(&mut self, cx: &mut Context<'_>) -> Poll<Result<HttpResponse, Infallible>> {
        match self.poll_body(cx) {
            Poll::Pending => Poll::Pending,
            Poll::Ready(Ok(reply)) => self.poll_reply(reply, cx),
            Poll::Ready(Err(refused)) => Poll::Ready(Ok(self.send(refused.into_response()))),
        }
    }
}

/// Serves the requests of a connection.
#[derive(Drop)]
pub(crate) struct Requests<R, A> {
    pub(crate) rt: R,
    pub(crate) alloc: Global,
    pub(crate) application: Arc<A>,
    pub(crate) hosts: Arc<Hosts>,
    pub(crate) phase_cell: Rc<PhaseCell>,
    pub(crate) room: BodyRoom,
}

impl<R: Clock + Copy + Drop, A: Application, I: Drop> Service<Request<Incoming<I>>>
    for Requests<R, A> {
    type Response = HttpResponse;

    type Error = Infallible;

    type Future = Serving<R, A, I>;

    // What its future may send for a request is what is sent for that very request, by its head and its body.
    ghost calls = { λ requests req serving. (response : _)
        → Sends A.Future.gives A.Response.tells (Answers A.answers serving.forbidden serving.reply
        (option_map arc_value serving.application) serving.head (Reads serving.reading)) response
        → Sends A.Future.gives A.Response.tells
        (AnswersFor A.answers requests.hosts.value (arc_value requests.application) req) response };

    fn call(&self, req: Request<Incoming<I>>) -> Serving<R, A, I> {
        let (head, body) = req.into_parts();
        self.phase_cell.enter(ConnectionPhase::Body);
        let reading = Reading::new(self.alloc, body, self.application.most());
        Serving {
            alloc: self.alloc,
            application: Arc::try_clone(&self.application).ok(),
            phase_cell: Rc::clone(&self.phase_cell).ok(),
            forbidden: Forbidden::of(&self.hosts, &head.headers),
            head,
            place: self.room.place(reading.size()),
            reading,
            reply: None,
            rt: self.rt,
            begun: Instant::now(&self.rt).ok(),
        }
    }
}
