// The threads of a front's ports, and of what is served beside them.
ghost use Rattle.std.specs.Prelude.{◌≡◌, IfOk, is_some};

use crate::acting::CallersPort;
use crate::front_state::FrontState;
use crate::port_application::PortApplication;
use http_port::{HttpLimits, Listening};
use long_poll::{AdminReader, Port};
use port_meters::{Beside, Machine};
use receipts::{SharedOpening, SharedTrace, Trace};
use std::sync::Arc;
use std::sync::ledger::Ledger;
use std::thread::{JoinHandle, Threads};
use std::{io, thread};

/// The thread of a port.
pub(crate) type PortThread = JoinHandle<io::Result<()>>;

// Serves a port to its end, with at most so many connections. Where it fails, the front ends.
fn serve_place<R: Machine, L: Ledger, T: Trace>(
    rt: R,
    place: PortApplication<R, L, T>,
    listening: Listening,
    connections: usize,
) -> io::Result<()> {
    let front = Arc::try_clone(&place.front)?;
    let limits = HttpLimits {
        connections,
        ..HttpLimits::default()
    };
    let served = http_port::serve(rt, place, listening, limits, &front.ending);
    front.ending.cancel();
    front.wake.call(&rt);
    served
}

// Starts a thread that serves a port, with at most so many connections.
fn start_port<R, L, T>(
    rt: R,
    front: &Arc<FrontState<L, T>>,
    number: u16,
    port: Arc<Port<L, T>>,
    listening: Listening,
    connections: usize,
) -> io::Result<PortThread>
where
    R: Machine,
    L: Ledger + Send + Sync + 'static,
    T: SharedTrace + 'static,
    T::Opening: SharedOpening + 'static,
{
    let front = Arc::try_clone(front)?;
    let place = PortApplication {
        rt,
        number,
        front,
        port,
    };
    let thread = thread::spawn(&rt, move || serve_place(rt, place, listening, connections))?;
    Ok(thread)
}

// How many connections this one of so many threads has at most, the first of which is 0: all of them have as many as a port may.
fn connections_of(thread: u8, count: u8) -> usize {
    let most = HttpLimits::default().connections;
    let count = usize::from(count.max(1));
    let one_more = usize::from(thread) < most % count;
    most / count + usize::from(one_more)
}

// The same listener once more.
fn another(listening: &Listening) -> io::Result<Listening> {
    Ok(Listening {
        listener: listening.listener.try_clone()?,
        hosts: Arc::try_clone(&listening.hosts)?,
        meter: Arc::try_clone(&listening.meter)?,
        room: listening.room.another()?,
    })
}

// Starts so many threads that serve a port, and at least one. They share its listener, its desk and how many connections it has.
fn start_threads<R, L, T>(
    rt: R,
    front: &Arc<FrontState<L, T>>,
    number: u16,
    port: Arc<Port<L, T>>,
    listening: Listening,
    count: u8,
    threads: &mut Vec<PortThread>,
) -> io::Result<()>
where
    R: Machine,
    L: Ledger + Send + Sync + 'static,
    T: SharedTrace + 'static,
    T::Opening: SharedOpening + 'static,
{
    for thread in 1..count {
        let (theirs, more) = (Arc::try_clone(&port)?, another(&listening)?);
        let most = connections_of(thread, count);
        threads.push(start_port(rt, front, number, theirs, more, most)?)?;
    }
    let most = connections_of(0, count);
    threads.push(start_port(rt, front, number, port, listening, most)?)?;
    Ok(())
}

/// Starts a thread for each listener, with the next port; for the first, that of the callers, so many.
pub(crate) fn start<R, L, T>(
    rt: R,
    front: &Arc<FrontState<L, T>>,
    ports: Vec<Arc<Port<L, T>>>,
    listeners: Vec<Listening>,
    callers: u8,
    threads: &mut Vec<PortThread>,
) -> io::Result<()>
where
    R: Machine,
    L: Ledger + Send + Sync + 'static,
    T: SharedTrace + 'static,
    T::Opening: SharedOpening + 'static,
{
    let mut number = 0u16;
    for (port, listening) in ports.into_iter().zip(listeners) {
        let count = if number == 0 { callers } else { 1 };
        start_threads(rt, front, number, port, listening, count, threads)?;
        number = number.wrapping_add(1);
    }
    Ok(())
}

// Serves what is beside the ports of a front to its end. Where it fails, the front goes on.
fn serve_beside<R, L, T, B>(
    rt: R,
    front: Arc<FrontState<L, T>>,
    reader: AdminReader<L, T>,
    acting: CallersPort<L, T>,
    beside: B,
) -> io::Result<B::Served>
where
    R: Machine,
    L: Ledger,
    T: Trace,
    B: Beside<R, AdminReader<L, T>, CallersPort<L, T>>,
{
    let meters = Arc::try_clone(&front.meters)?;
    beside.serve(rt, reader, acting, meters, &front.ending)
}

/// Starts a thread that serves what is beside the ports, where there is something.
pub(crate) fn start_beside<R, L, T, B>(
    rt: R,
    front: &Arc<FrontState<L, T>>,
    reader: AdminReader<L, T>,
    acting: CallersPort<L, T>,
    beside: Option<B>,
) -> io::Result<Option<JoinHandle<io::Result<B::Served>>>>
where
    R: Machine,
    L: Ledger + Send + Sync + 'static,
    T: SharedTrace + 'static,
    T::Opening: SharedOpening + 'static,
    B: Beside<R, AdminReader<L, T>, CallersPort<L, T>> + Send + 'static,
    B::Served: Send + 'static,
    ensures { IfOk result (λ thread. is_some thread ≡ is_some beside) }
{
    let Some(beside) = beside else {
        return Ok(None);
    };
    let front = Arc::try_clone(front)?;
    let thread = thread::spawn(&rt, move || {
        serve_beside(rt, front, reader, acting, beside)
    })?;
    Ok(Some(thread))
}

/// Waits until the thread of what was served beside the ports has ended, where there is one.
pub(crate) fn join_beside<R: Threads, S: Drop>(
    rt: &R,
    thread: Option<JoinHandle<io::Result<S>>>,
) -> io::Result<Option<S>>
    ensures { IfOk result (λ served. is_some served ≡ is_some thread) }
{
    match thread {
        Some(thread) => Ok(Some(thread.join(rt)?)),
        None => Ok(None),
    }
}

/// Waits until the threads of all ports have ended: the first error that one ended with.
pub(crate) fn join_all<R: Threads>(rt: &R, threads: Vec<PortThread>) -> io::Result<()> {
    let mut outcome = Ok(());
    for thread in threads {
        let ended = thread.join(rt);
        if outcome.is_ok() {
            outcome = ended;
        }
    }
    outcome
}
