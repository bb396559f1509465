// A connection that is served to its end.
ghost use Rattle.std.specs.Prelude.{IfSome};
ghost use Rattle.futures.specs.Task.{IsArmed, Keeps};
ghost use Rattle.futures.specs.Poll.{OnPending};

use crate::permits::Permit;
use crate::timer::Timer;
use futures::Future;
use futures::task::{Context, Poll};
use hyper::server::graceful::{Graceful, GracefulConnection, until};
use std::alloc::Global;
use std::time::Clock;

// A connection that is open, and has a permit.
#[derive(Drop)]
struct Connected<C, R> {
    conn: C,
    timer: Timer<R>,
    // It is left when the connection has ended.
    permit: Permit,
}

impl<C: Future<Output = hyper::Result<()>>, R: Clock + Drop> Connected<C, R> {
    // Ready once the connection has ended, or is to be closed.
    fn poll(&mut self, cx: &mut Context<'_>) -> Poll<()>
        requires { C.can_poll self.old.conn }
        ensures again { OnPending result (C.can_poll self.new.conn) }
        ensures armed { OnPending result (IsArmed cx.new) }
        ensures kept { Keeps cx.old cx.new }
    {
        if let Poll::Ready(ended) = self.conn.poll(cx) {
            self.timer.phase_cell.note_end(&ended);
            return Poll::Ready(());
        }
        self.timer.poll(cx)
    }
}

/// A connection as a task. How it ended is counted and not told. It stays where it is, and each poll moves a pointer alone.
#[derive(Drop)]
pub(crate) struct ConnectionFuture<C, R> {
    connected: Option<Box<Connected<C, R>>>,
}

impl<C: Future, R: Drop> ConnectionFuture<C, R> {
    /// Serves a connection that can be polled, in this time, and gives its permit back. None where memory was wanting.
    pub(crate) fn new(
        alloc: Global,
        conn: C,
        timer: Timer<R>,
        permit: Permit,
    ) -> Option<ConnectionFuture<C, R>>
        requires { C.can_poll conn }
        ensures { IfSome result (λ served. IfSome served.connected (λ connected. C.can_poll connected.value.conn)) }
    {
        let connected = Connected {
            conn,
            timer,
            permit,
        };
        let connected = Box::new(alloc, connected).ok()?;
        Some(ConnectionFuture {
            connected: Some(connected),
        })
    }
}

/// Serves a connection as `ConnectionFuture::new` does. It ends after its exchange once `ending` is ready.
pub(crate) fn serve_until<C: GracefulConnection, F: Future<Output = T>, T: Drop, R: Drop>(
    alloc: Global,
    conn: C,
    ending: F,
    timer: Timer<R>,
    permit: Permit,
) -> Option<ConnectionFuture<Graceful<C, F>, R>>
    requires conn { C.can_poll conn }
    requires ending { F.can_poll ending }
    ensures { IfSome result (λ served. IfSome served.connected (λ connected. C.can_poll connected.value.conn.conn
        × IfSome connected.value.conn.signal F.can_poll)) }
{
    ConnectionFuture::new(alloc, until(conn, ending), timer, permit)
}

impl<C: Future<Output = hyper::Result<()>>, R: Clock + Drop> Future for ConnectionFuture<C, R> {
    type Output = ();

    ghost can_poll = { λ s. IfSome s.connected (λ connected. C.can_poll connected.value.conn) };

    fn poll(&mut self, cx: &mut Context<'_>) -> Poll<()> {
        let Some(mut connected) = self.connected.take() else {
            return Poll::Ready(());
        };
        match connected.poll(cx) {
            Poll::Pending => {
                self.connected = Some(connected);
                Poll::Pending
            }
            Poll::Ready(()) => Poll::Ready(()),
        }
    }
}
