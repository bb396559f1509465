// The connections of a port, as they come.
ghost use Rattle.std.specs.Prelude.{◌≡◌, ◌+◌, ◌<◌, IfSome, OnSome};
ghost use Rattle.futures.specs.Task.{Covers, IsArmed, Keeps};
ghost use Rattle.futures.specs.Poll.{IfReady, OnPending};

use crate::permits::{Permit, Permits};
use futures::task::{Context, Poll};
use futures::{Future, Stream};
use std::io;
use std::time::{Clock, Duration};
use tokio::net::{Incoming, TcpStream};
use tokio::time;
use tokio::time::Sleep;
use tokio_util::sync::WaitForCancellationFuture;

/// How long nothing is accepted after the system refused to, in milliseconds. It mostly lacks file descriptors then.
const PAUSE: u64 = 50;

/// Serves connections.
pub(crate) trait Door: Drop {
    /// The future that serves a connection to its end.
    type Served: Future<Output = ()>;

    /// What serves this connection, and keeps its permit. None where memory was wanting; it is then closed.
    fn serve(&self, socket: TcpStream, permit: Permit) -> Option<Self::Served>
        ensures { IfSome result Self.Served.can_poll };
}

/// The connections that a door serves, until the front ends. Each has a permit, and while none is free nothing is accepted, so
/// that those who come wait in the listener's queue.
#[derive(Drop)]
pub(crate) struct Connections<R, D> {
    pub(crate) rt: R,
    pub(crate) door: D,
    pub(crate) timers: time::Handle,
    pub(crate) incoming: Incoming,
    pub(crate) ending: WaitForCancellationFuture,
    pub(crate) pause: Option<Sleep>,
    pub(crate) permits: Permits,
}

impl<R: Clock, D: Door> Connections<R, D> {
    // Whether nothing is accepted for now. The pause is over once it is not.
    fn poll_pause(&mut self, cx: &mut Context<'_>) -> Poll<()>
        ensures permits { self.new.permits ≡ self.old.permits }
        ensures armed { OnPending result (IsArmed cx.new) }
        ensures kept { Keeps cx.old cx.new }
    {
        let Some(mut sleep) = self.pause.take() else {
            return Poll::Ready(());
        };
        match sleep.poll(cx) {
            Poll::Pending => {
                self.pause = Some(sleep);
                Poll::Pending
            }
            Poll::Ready(_) => Poll::Ready(()),
        }
    }

    // What serves a connection that has come.
    fn admit(&mut self, socket: TcpStream) -> Option<D::Served>
        requires { self.old.permits.taken < self.old.permits.most }
        ensures value { IfSome result D.Served.can_poll }
        ensures counted { OnSome result (self.new.permits.taken ≡ self.old.permits.taken + 1) }
    {
        let permit = self.permits.take()?;
        self.door.serve(socket, permit)
    }

    // The next connection that can be served. Where there is none, it is asked again at once, or after a pause.
    fn take(
        &mut self,
        accepted: io::Result<TcpStream>,
        cx: &mut Context<'_>,
    ) -> Poll<Option<D::Served>>
        requires { self.old.permits.taken < self.old.permits.most }
        ensures value { IfReady result (λ next. IfSome next D.Served.can_poll) }
        ensures counted { IfReady result (λ _. self.new.permits.taken ≡ self.old.permits.taken + 1) }
        ensures armed { OnPending result (IsArmed cx.new) }
        ensures kept { Keeps cx.old cx.new }
    {
        match accepted {
            Ok(socket) => {
                if let Some(served) = self.admit(socket) {
                    return Poll::Ready(Some(served));
                }
            }
            Err(_) => {
                let pause = Duration::from_millis(PAUSE);
                self.pause = self.timers.sleep(&self.rt, pause).ok();
            }
        }
        cx.yield_now()
    }
}

impl<R: Clock + Drop, D: Door> Stream for Connections<R, D> {
    type Item = D::Served;

    ghost yields = { λ _ _ next. IfSome next D.Served.can_poll };

    fn poll_next(&mut self, cx: &mut Context<'_>) -> Poll<Option<D::Served>> {
        if self.ending.poll(cx).is_ready() {
            return Poll::Ready(None);
        }
        if self.permits.poll_free(cx).is_pending() || self.poll_pause(cx).is_pending() {
            return Poll::Pending;
        }
        match self.incoming.poll_next(cx) {
            Poll::Pending => Poll::Pending,
            Poll::Ready(None) => Poll::Ready(None),
            Poll::Ready(Some(accepted)) => self.take(accepted, cx),
        }
    }
}
