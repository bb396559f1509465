// What a connection waits for, as its socket and its requests note it.
ghost use Rattle.std.specs.Prelude.{◌≡◌, Some, None};
ghost use Rattle.http_port.specs.Unread.{unread_at};

use crate::http_limits::HttpLimits;
use hyper::Error;
use port_meters::{PortMeter, Unread};
use std::cell::Cell;
use std::sync::Arc;
use std::time::Duration;

/// What a connection waits for.
#[derive(Clone, Copy)]
pub(crate) enum ConnectionPhase {
    /// The first byte of the next request, or a client that does not read its reply: nothing is due of it but that.
    Idle,
    /// The first byte of all. It has the time of a head: else a crowd that sends nothing would keep a caller behind it waiting
    /// four times as long.
    First,
    /// The rest of a head. One whose first bytes came with the end of the request before it is late only that long after its next
    /// byte, since `hyper` does not tell how much it has read beyond a request.
    Head,
    /// The rest of a body.
    Body,
    /// A refusal to be made, since the body has not come in time.
    Late,
    /// A reply.
    Reply,
    /// The end of the connection, behind a reply to a request that was not read to its end.
    Rest,
}

impl ConnectionPhase {
    /// How long it may take. None where there is no limit: that of a reply alone.
    pub(crate) fn limit(self, limits: &HttpLimits) -> Option<Duration>
        // claim: The limits are by default 30 seconds each for a head and a body, 120 idle, 1100 connections; an
        // awaited reply has none. [: idle, first, head, body, late, reply, rest; Timer::deadline_of; Timer::poll:
        // limited; HttpLimits::default: head, body, idle, connections]
        ensures idle { self ≡ ConnectionPhase.Idle → result ≡ Some limits.now.idle }
        ensures first { self ≡ ConnectionPhase.First → result ≡ Some limits.now.head }
        ensures head { self ≡ ConnectionPhase.Head → result ≡ Some limits.now.head }
        ensures body { self ≡ ConnectionPhase.Body → result ≡ Some limits.now.body }
        ensures late { self ≡ ConnectionPhase.Late → result ≡ Some limits.now.body }
        ensures reply { self ≡ ConnectionPhase.Reply → result ≡ None }
        ensures rest { self ≡ ConnectionPhase.Rest → result ≡ Some limits.now.idle }
    {
        match self {
            ConnectionPhase::Idle | ConnectionPhase::Rest => Some(limits.idle),
            ConnectionPhase::First | ConnectionPhase::Head => Some(limits.head),
            ConnectionPhase::Body | ConnectionPhase::Late => Some(limits.body),
            ConnectionPhase::Reply => None,
        }
    }
}

// What was not read of a connection that failed in this phase.
fn unread_at(phase: ConnectionPhase) -> Option<Unread>
    ensures { result ≡ unread_at phase }
{
    match phase {
        ConnectionPhase::Head => Some(Unread::HeadCutOff),
        ConnectionPhase::Body => Some(Unread::BodyCutOff),
        _ => None,
    }
}

// What was not read of a connection that failed so in this phase.
fn unread_of(phase: ConnectionPhase, why: &Error) -> Option<Unread> {
    if why.is_parse_too_large() {
        Some(Unread::HeadTooLarge)
    } else if why.is_parse() {
        Some(Unread::BadHead)
    } else {
        unread_at(phase)
    }
}

/// The phase of a connection, and where it is counted what was not read of it.
#[derive(Drop)]
pub(crate) struct PhaseCell {
    phase: Cell<ConnectionPhase>,
    // Whether it was entered since that was asked last.
    is_new: Cell<bool>,
    meter: Arc<PortMeter>,
}

impl PhaseCell {
    /// That of a connection to which nothing has come.
    pub(crate) fn new(meter: Arc<PortMeter>) -> PhaseCell {
        PhaseCell {
            phase: Cell::new(ConnectionPhase::First),
            is_new: Cell::new(true),
            meter,
        }
    }

    /// Another phase begins.
    pub(crate) fn enter(&self, phase: ConnectionPhase) {
        self.phase.set(phase);
        self.is_new.set(true);
    }

    /// Some bytes were read. The first head goes on in the time that the connection has had from its beginning.
    pub(crate) fn note_bytes(&self) {
        match self.phase.get() {
            ConnectionPhase::Idle => self.enter(ConnectionPhase::Head),
            ConnectionPhase::First => self.phase.set(ConnectionPhase::Head),
            _ => {}
        }
    }

    /// Whether the client may still send something of a request: of a head, or behind its reply.
    pub(crate) fn has_rest(&self) -> bool {
        matches!(
            self.phase.get(),
            ConnectionPhase::Head | ConnectionPhase::Rest
        )
    }

    /// The phase, where it was entered since this was asked last.
    pub(crate) fn take_new(&self) -> Option<ConnectionPhase> {
        if self.is_new.replace(false) {
            Some(self.phase.get())
        } else {
            None
        }
    }

    /// The time of the phase has passed: whether a request can still tell its client so.
    pub(crate) fn give_up(&self) -> bool {
        let is_body = self.phase.get() == ConnectionPhase::Body;
        if is_body {
            self.enter(ConnectionPhase::Late);
        }
        is_body
    }

    /// Whether the request is to be refused, since its body has not come in time.
    pub(crate) fn is_late(&self) -> bool {
        self.phase.get() == ConnectionPhase::Late
    }
    /// A request was answered, so many microseconds after its head was read.
    pub(crate) fn note_reply(&self, is_get: bool, took: u64) {
        self.meter.note_reply(is_get, took);
    }

    /// A request does not come to what the port serves.
    pub(crate) fn note_unread(&self, why: Unread) {
        self.meter.note_unread(why);
    }

    /// The connection has ended so: what was not read of it is counted.
    pub(crate) fn note_end(&self, ended: &hyper::Result<()>) {
        let Err(why) = ended else {
            return;
        };
        if let Some(unread) = unread_of(self.phase.get(), why) {
            self.meter.note_unread(unread);
        }
    }

    /// The connection is closed, since its time has passed: a head that was not read is counted.
    pub(crate) fn note_late(&self) {
        if self.phase.get() == ConnectionPhase::Head {
            self.meter.note_unread(Unread::HeadLate);
        }
    }
}
