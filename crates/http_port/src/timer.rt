// The time that a connection has.
ghost use Rattle.std.specs.Prelude.{◌≡◌, None, IsSome};
ghost use Rattle.futures.specs.Task.{Keeps};
ghost use Rattle.futures.specs.Poll.{IfReady};

use crate::connection_phase::{ConnectionPhase, PhaseCell};
use crate::http_limits::HttpLimits;
use futures::Future;
use futures::task::{Context, Poll};
use std::rc::Rc;
use std::time::{Clock, Instant};
use tokio::time;
use tokio::time::Sleep;

/// Watches that each phase of a connection ends in time. Its one sleep lasts no longer than the least limit, and so never has
/// to be cut short, which would cost a system call: what it finds at its end is the next time to look.
#[derive(Drop)]
pub(crate) struct Timer<R> {
    rt: R,
    limits: HttpLimits,
    pub(crate) phase_cell: Rc<PhaseCell>,
    /// When the phase has to have ended.
    deadline: Option<Instant>,
    sleep: Sleep,
}

impl<R: Clock + Drop> Timer<R> {
    /// A timer of a new connection. None where memory was wanting, or the clock.
    pub(crate) fn new(
        rt: R,
        timers: &time::Handle,
        limits: HttpLimits,
        phase_cell: Rc<PhaseCell>,
    ) -> Option<Timer<R>> {
        let sleep = timers.sleep(&rt, limits.least()).ok()?;
        Some(Timer {
            rt,
            limits,
            phase_cell,
            deadline: None,
            sleep,
        })
    }

    // A phase begins: when it has to have ended. None also where the clock tells no time.
    fn deadline_of(&self, phase: ConnectionPhase) -> Option<Instant>
        ensures { phase ≡ ConnectionPhase.Reply → result ≡ None }
    {
        let limit = phase.limit(&self.limits)?;
        Instant::now(&self.rt).ok()?.checked_add(limit)
    }

    // When to look next. None where the deadline has passed.
    fn next(&self, deadline: Instant) -> Option<Instant> {
        let now = Instant::now(&self.rt).ok()?;
        if deadline <= now {
            return None;
        }
        Some(now.checked_add(self.limits.least())?.min(deadline))
    }

    // Ready once the deadline has passed.
    fn poll_deadline(&mut self, deadline: Instant, cx: &mut Context<'_>) -> Poll<()>
        ensures same { self.new.deadline ≡ self.old.deadline }
        ensures kept { Keeps cx.old cx.new }
    {
        if self.sleep.poll(cx).is_pending() {
            return Poll::Pending;
        }
        let Some(next) = self.next(deadline) else {
            return Poll::Ready(());
        };
        self.sleep.reset(next);
        cx.yield_now()
    }

    /// Ready once the connection is to be closed. It is asked after each poll of the connection. Where a request can tell its
    /// client that it is late, the connection is polled once more.
    pub(crate) fn poll(&mut self, cx: &mut Context<'_>) -> Poll<()>
        ensures limited { IfReady result (λ _. IsSome self.new.deadline) }
        ensures kept { Keeps cx.old cx.new }
    {
        if let Some(phase) = self.phase_cell.take_new() {
            self.deadline = self.deadline_of(phase);
        }
        let Some(deadline) = self.deadline else {
            return Poll::Pending;
        };
        if self.poll_deadline(deadline, cx).is_pending() {
            return Poll::Pending;
        }
        if self.phase_cell.give_up() {
            return cx.yield_now();
        }
        self.phase_cell.note_late();
        Poll::Ready(())
    }
}
