// HTTP/1.1 at the door of a port.
ghost use Rattle.std.specs.Prelude.{IfSome};

use crate::answering::Body;
use crate::application::Application;
use crate::body_room::BodyRoom;
use crate::connection_future::{ConnectionFuture, serve_until};
use crate::connection_phase::PhaseCell;
use crate::connections::Door;
use crate::filtered_stream::FilteredStream;
use crate::header_filter::HeaderFilter;
use crate::hosts::Hosts;
use crate::http_limits::HttpLimits;
use crate::lingering::{Alarm, Lingering};
use crate::noted::Noted;
use crate::permits::Permit;
use crate::requests::Requests;
use crate::timer::Timer;
use hyper::rt::TokioTimer;
use hyper::server::conn::http1::{Builder, Connection};
use hyper::server::graceful::Graceful;
use port_meters::PortMeter;
use std::alloc::Global;
use std::rc::Rc;
use std::sync::Arc;
use std::time::Clock;
use tokio::net::TcpStream;
use tokio::time;
use tokio_util::sync::{CancellationToken, WaitForCancellationFuture};

// What a connection reads from and writes to.
type Socket<R> = Noted<FilteredStream<Lingering<R, TcpStream>>>;

// A connection that ends after its exchange once the port ends.
type Ending<R, A> = Graceful<
    Connection<Socket<R>, Requests<R, A>, Body, TokioTimer<R>>,
    WaitForCancellationFuture,
>;

// What a connection is served with.
#[derive(Drop)]
struct Prepared<R, A> {
    socket: Socket<R>,
    requests: Requests<R, A>,
    ending: WaitForCancellationFuture,
    timer: Timer<R>,
}

/// Serves connections by HTTP/1.1.
#[derive(Drop)]
pub(crate) struct HttpDoor<R, A> {
    pub(crate) rt: R,
    pub(crate) alloc: Global,
    /// It tells the date of each reply, and has no limit of its own.
    pub(crate) http: Builder<TokioTimer<R>>,
    pub(crate) application: Arc<A>,
    pub(crate) hosts: Arc<Hosts>,
    /// Where its connections are counted.
    pub(crate) meter: Arc<PortMeter>,
    /// What room the bodies of its requests have.
    pub(crate) room: BodyRoom,
    pub(crate) timers: time::Handle,
    pub(crate) alarm: Rc<Alarm<R>>,
    pub(crate) limits: HttpLimits,
    pub(crate) ending: CancellationToken,
}

impl<R: Clock + Copy + Drop, A: Application> HttpDoor<R, A> {
    // What a new connection is in.
    fn phase_cell(&self) -> Option<Rc<PhaseCell>> {
        let meter = Arc::try_clone(&self.meter).ok()?;
        Rc::new(self.alloc, PhaseCell::new(meter)).ok()
    }

    // What answers the requests of a connection.
    fn requests(&self, phase_cell: &Rc<PhaseCell>) -> Option<Requests<R, A>> {
        let application = Arc::try_clone(&self.application).ok()?;
        let hosts = Arc::try_clone(&self.hosts).ok()?;
        let phase_cell = Rc::clone(phase_cell).ok()?;
        let room = self.room.another().ok()?;
        Some(Requests {
            rt: self.rt,
            alloc: self.alloc,
            application,
            hosts,
            phase_cell,
            room,
        })
    }

    // A socket, as its connection reads and writes it.
    fn socket_of(&self, socket: TcpStream, phase_cell: &Rc<PhaseCell>) -> Option<Socket<R>> {
        let alarm = Rc::clone(&self.alarm).ok()?;
        let lingering = Lingering::new(socket, Rc::clone(phase_cell).ok()?, alarm);
        let filter = match self.application.unread_header() {
            Some(name) => Some(HeaderFilter::new(name)),
            None => None,
        };
        Some(Noted {
            io: FilteredStream {
                io: lingering,
                filter,
            },
            phase_cell: Rc::clone(phase_cell).ok()?,
        })
    }

    // What the connection of a socket is served with.
    fn prepare(&self, socket: TcpStream) -> Option<Prepared<R, A>> {
        let phase_cell = self.phase_cell()?;
        let requests = self.requests(&phase_cell)?;
        let socket = self.socket_of(socket, &phase_cell)?;
        let ending = self.ending.cancelled().ok()?;
        let timer = Timer::new(self.rt, &self.timers, self.limits, phase_cell)?;
        Some(Prepared {
            socket,
            requests,
            ending,
            timer,
        })
    }
}

impl<R: Clock + Copy + Drop, A: Application> Door for HttpDoor<R, A> {
    type Served = ConnectionFuture<Ending<R, A>, R>;

    fn serve(&self, socket: TcpStream, permit: Permit) -> Option<Self::Served> {
        let Prepared {
            socket,
            requests,
            ending,
            timer,
        } = self.prepare(socket)?;
        let conn = self.http.serve_connection(socket, requests);
        serve_until(self.alloc, conn, ending, timer, permit)
    }
}
