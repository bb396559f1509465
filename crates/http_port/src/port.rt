// A port, served on a thread of its own.
use crate::application::Application;
use crate::body_room::BodyRoom;
use crate::connections::{Connections, Door};
use crate::door::HttpDoor;
use crate::hosts::Hosts;
use crate::http_limits::HttpLimits;
use crate::lingering::Alarm;
use crate::listening::Listening;
use crate::permits::Permits;
use hyper::rt::TokioTimer;
use hyper::server::conn::http1::Builder;
use port_meters::PortMeter;
use std::alloc::{AllocGlobal, Global};
use std::hash::RandomState;
use std::net::Net;
use std::random::RandomSource;
use std::rc::Rc;
use std::sync::{Arc, Wait};
use std::time::{Clock, Duration};
use std::{io, net};
use tokio::net::{Incoming, TcpListener};
use tokio::runtime::LocalRuntime;
use tokio::time;
use tokio_util::sync::{CancellationToken, WaitForCancellationFuture};

/// How long the connections of a port that ends are waited for, in seconds.
const LAST_REPLIES: u64 = 5;

// The alarm of a port's connections.
fn alarm_of<R: Copy + Drop>(
    rt: R,
    alloc: Global,
    timers: &time::Handle,
) -> io::Result<Rc<Alarm<R>>> {
    let timers = timers.clone()?;
    Ok(Rc::new(alloc, Alarm { rt, timers })?)
}

// What reads and writes HTTP/1.1. It has no limit of its own.
fn http_of<R>(rt: R, alloc: Global, timers: &time::Handle) -> io::Result<Builder<TokioTimer<R>>>
where
    R: Clock + RandomSource + Copy + Drop,
{
    let clock = TokioTimer::new(rt, timers.clone()?);
    let mut http = Builder::new(alloc, RandomState::new(&rt)?).timer(clock);
    http.header_read_timeout(None);
    Ok(http)
}

// The door of a port.
fn door_of<R, A>(
    rt: R,
    application: A,
    hosts: Arc<Hosts>,
    meter: Arc<PortMeter>,
    room: BodyRoom,
    timers: &time::Handle,
    limits: HttpLimits,
    ending: &CancellationToken,
) -> io::Result<HttpDoor<R, A>>
where
    R: Clock + RandomSource + AllocGlobal + Copy + Drop,
    A: Application,
{
    let alloc = rt.alloc();
    let application = Arc::new(alloc, application)?;
    let ending = ending.clone()?;
    let alarm = alarm_of(rt, alloc, timers)?;
    let http = http_of(rt, alloc, timers)?;
    Ok(HttpDoor {
        rt,
        alloc,
        http,
        application,
        hosts,
        meter,
        room,
        timers: timers.clone()?,
        alarm,
        limits,
        ending,
    })
}

// What comes to a port, until it ends.
#[derive(Drop)]
struct Coming {
    timers: time::Handle,
    incoming: Incoming,
    ending: WaitForCancellationFuture,
    permits: Permits,
}

// What comes to a port that listens there, as many connections at once.
fn coming_of(
    alloc: Global,
    listener: net::TcpListener,
    meter: &Arc<PortMeter>,
    most: usize,
    runtime: &LocalRuntime,
    ending: &CancellationToken,
) -> io::Result<Coming> {
    let listener = TcpListener::from_std(listener, runtime.handle().reactor())?;
    let permits = Permits::new(alloc, most, Arc::try_clone(meter)?)?;
    let timers = runtime.handle().time().clone()?;
    Ok(Coming {
        timers,
        incoming: listener.incoming(),
        ending: ending.cancelled()?,
        permits,
    })
}

// Serves through a door what comes to a port, until the port ends.
fn run<R, D>(rt: R, runtime: &mut LocalRuntime, door: D, coming: Coming) -> io::Result<()>
where
    R: Wait + Clock + RandomSource + AllocGlobal + Copy + Drop,
    D: Door,
{
    let Coming {
        timers,
        incoming,
        ending,
        permits,
    } = coming;
    let connections = Connections {
        rt,
        door,
        timers,
        incoming,
        ending,
        pause: None,
        permits,
    };
    runtime.run_all(&rt, connections)
}

// Serves HTTP/1.1 through this door, as `run` does. The type of what serves its connections is long where it is written out, so
// nothing else is done here.
fn run_http<R, A>(
    rt: R,
    runtime: &mut LocalRuntime,
    door: HttpDoor<R, A>,
    coming: Coming,
) -> io::Result<()>
where
    R: Wait + Clock + RandomSource + AllocGlobal + Copy + Drop,
    A: Application,
{
    run(rt, runtime, door, coming)
}

// Serves a port in a runtime.
fn serve_in<R, A>(
    rt: R,
    runtime: &mut LocalRuntime,
    application: A,
    listening: Listening,
    limits: HttpLimits,
    ending: &CancellationToken,
) -> io::Result<()>
where
    R: Wait + Clock + RandomSource + AllocGlobal + Copy + Drop,
    A: Application,
{
    let Listening {
        listener,
        hosts,
        meter,
        room,
    } = listening;
    let coming = coming_of(
        rt.alloc(),
        listener,
        &meter,
        limits.connections,
        runtime,
        ending,
    )?;
    let timers = runtime.handle().time();
    let door = door_of(rt, application, hosts, meter, room, timers, limits, ending)?;
    run_http(rt, runtime, door, coming)
}

/// Serves a port on this thread until `ending` is cancelled. A connection goes on from request to request. At the end the
/// request that it is in is still answered, where that takes no longer than five seconds.
///
/// A connection is closed where a head does not come whole in the time of the limits, or no byte of one does. A body that does
/// not come in its time is answered 408, and so is one for which there was no room for as long: it waits to be read while the bodies
/// that are under way take all that the port has. A reply is waited for without a limit. While as many connections are open as the limits
/// allow, nothing is accepted.
///
/// A request that a browser makes for a web page, or that names a host which the port does not answer to, is refused by its head
/// alone with 403, and one whose body has another transfer coding than `chunked` with 501: its body is not read, and the application
/// is not asked.
///
/// A reply to a request whose body was not read to its end says that its connection ends. Behind it, and behind the refusal of a
/// head, what is left is read and thrown away, up to 8 MiB and for two seconds; then the connection is shut and closed. Each
/// reply has a date, but for those to a head that is refused.
pub fn serve<R, A>(
    rt: R,
    application: A,
    listening: Listening,
    limits: HttpLimits,
    ending: &CancellationToken,
) -> io::Result<()>
where
    R: Wait
        + Clock
        + Net<Listener = std::net::TcpListener, Stream = std::net::TcpStream>
        + RandomSource
        + AllocGlobal
        + Copy
        + Drop,
    A: Application,
{
    let mut runtime = LocalRuntime::new(&rt)?;
    runtime.set_shutdown_timeout(Some(Duration::from_secs(LAST_REPLIES)));
    serve_in(rt, &mut runtime, application, listening, limits, ending)
}
