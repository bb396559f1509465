// A socket that is not closed under a client who still sends.
ghost use Rattle.std.specs.Prelude.{⊤, ◌≡◌, ◌≤◌, ◌<◌, ◌-◌, ◌↔◌, IsTrue};
ghost use Rattle.futures.specs.Task.{IsArmed, Keeps};
ghost use Rattle.futures.specs.Poll.{OnPending};

use crate::connection_phase::PhaseCell;
use futures::Future;
use futures::task::{Context, Poll};
use std::rc::Rc;
use std::time::{Clock, Duration};
use std::{io, mem};
use tokio::io::{AsyncRead, AsyncWrite};
use tokio::time;
use tokio::time::Sleep;

/// How many bytes of a rest are thrown away at most.
const MOST_THROWN: usize = 8_388_608;

/// How long a rest is read at most, in seconds.
const REST_SECONDS: u64 = 2;

/// How many bytes are read at once to be thrown away.
const PIECE: usize = 16_384;

/// What gives each rest its time.
#[derive(Drop)]
pub(crate) struct Alarm<R> {
    pub(crate) rt: R,
    pub(crate) timers: time::Handle,
}

impl<R: Clock> Alarm<R> {
    // Ends once a rest was read for long enough. None where memory was wanting, or the clock.
    fn set(&self) -> Option<Sleep> {
        let time = Duration::from_secs(REST_SECONDS);
        self.timers.sleep(&self.rt, time).ok()
    }
}

/// What is left of a request that is not read to its end.
#[derive(Drop)]
struct Rest {
    // How many bytes of it may still be thrown away.
    left: usize,
    alarm: Sleep,
}

impl Rest {
    fn new(alarm: Sleep) -> Rest
        // claim: What is thrown away of a rest is counted off 8 MiB. [Rest::throw: left, more; Rest::poll: less]
        ensures { result.left ≡ 8388608 }
    {
        Rest {
            left: MOST_THROWN,
            alarm,
        }
    }

    // So many bytes were thrown away: whether more may be.
    fn throw(&mut self, count: usize) -> bool
        ensures left { self.new.left ≡ self.old.left - count }
        ensures more { IsTrue result ↔ 0 < self.new.left }
    {
        self.left = self.left.saturating_sub(count);
        self.left > 0
    }

    // Reads some bytes and throws them away. Ready once no more are to be read.
    fn poll<I: AsyncRead>(&mut self, io: &mut I, cx: &mut Context<'_>) -> Poll<()>
        ensures less { self.new.left ≤ self.old.left }
        ensures armed { OnPending result (IsArmed cx.new) }
        ensures kept { Keeps cx.old cx.new }
    {
        if self.alarm.poll(cx).is_ready() {
            return Poll::Ready(());
        }
        let mut piece = [0u8; PIECE];
        match io.poll_read(cx, &mut piece) {
            Poll::Pending => Poll::Pending,
            Poll::Ready(Ok(count)) => {
                if count > 0 && self.throw(count) {
                    return cx.yield_now();
                }
                Poll::Ready(())
            }
            Poll::Ready(Err(_)) => Poll::Ready(()),
        }
    }
}

#[derive(Drop)]
enum Stage {
    Open,
    Reads(Rest),
    Over,
}

/// A connection's socket. Where it is to be shut and its client still sends a request, what is left of that is read before and
/// thrown away, up to 8 MiB and for two seconds: a client mostly sends all before it looks for a reply, and where its
/// connection is closed under it, it may not see the reply at all. It states no bytes, as a socket states none.
#[derive(Drop)]
pub(crate) struct Lingering<R, I> {
    io: I,
    phase_cell: Rc<PhaseCell>,
    alarm: Rc<Alarm<R>>,
    stage: Stage,
}

impl<R: Clock, I: AsyncRead> Lingering<R, I> {
    pub(crate) fn new(io: I, phase_cell: Rc<PhaseCell>, alarm: Rc<Alarm<R>>) -> Lingering<R, I>
        ensures { result.io ≡ io }
    {
        Lingering {
            io,
            phase_cell,
            alarm,
            stage: Stage::Open,
        }
    }

    // A rest is read where there is one, and time for it.
    fn begin(&self) -> Stage {
        if !self.phase_cell.has_rest() {
            return Stage::Over;
        }
        match self.alarm.set() {
            Some(alarm) => Stage::Reads(Rest::new(alarm)),
            None => Stage::Over,
        }
    }

    // Ready once nothing more is to be read.
    fn poll_rest(&mut self, cx: &mut Context<'_>) -> Poll<()>
        ensures armed { OnPending result (IsArmed cx.new) }
        ensures kept { Keeps cx.old cx.new }
    {
        if matches!(&self.stage, Stage::Open) {
            self.stage = self.begin();
        }
        let Stage::Reads(mut rest) = mem::replace(&mut self.stage, Stage::Over) else {
            return Poll::Ready(());
        };
        match rest.poll(&mut self.io, cx) {
            Poll::Pending => {
                self.stage = Stage::Reads(rest);
                Poll::Pending
            }
            Poll::Ready(()) => Poll::Ready(()),
        }
    }
}

impl<R: Clock + Drop, I: AsyncRead> AsyncRead for Lingering<R, I> {
    ghost needs = { λ lingering. I.needs lingering.io };

    ghost reads = { λ _ _ _. ⊤ };

    ghost is_at_end = { λ lingering. I.is_at_end lingering.io };

    ghost fails = { λ lingering. I.fails lingering.io };

    ghost reads_nothing = { λ _. tt };

    ghost reads_in_order = { λ _ _ _ _ _ _ _. tt };

    fn poll_read(&mut self, cx: &mut Context<'_>, buf: &mut [u8]) -> Poll<io::Result<usize>> {
        self.io.poll_read(cx, buf)
    }
}

impl<R: Clock + Drop, I: AsyncRead + AsyncWrite> AsyncWrite for Lingering<R, I> {
    ghost writes = { λ _ _ _. ⊤ };

    ghost is_flushed = { λ lingering. I.is_flushed lingering.io };

    ghost is_shut_down = { λ lingering. I.is_shut_down lingering.io };

    ghost is_full = { λ lingering. I.is_full lingering.io };

    ghost fails = { λ lingering. I.AsyncWrite.fails lingering.io };

    ghost writes_nothing = { λ _. tt };

    ghost writes_in_order = { λ _ _ _ _ _ _ _. tt };

    fn poll_write(&mut self, cx: &mut Context<'_>, buf: &[u8]) -> Poll<io::Result<usize>> {
        self.io.poll_write(cx, buf)
    }

    fn poll_flush(&mut self, cx: &mut Context<'_>) -> Poll<io::Result<()>> {
        self.io.poll_flush(cx)
    }

    fn poll_shutdown(&mut self, cx: &mut Context<'_>) -> Poll<io::Result<()>> {
        if self.poll_rest(cx).is_pending() {
            return Poll::Pending;
        }
        self.io.poll_shutdown(cx)
    }
}
