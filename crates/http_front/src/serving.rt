// A whole front, until its last thread has ended.
ghost use Rattle.std.specs.Prelude.{◌≡◌, ◌≤◌, ◌<◌, ◌+◌, [], vec_len, IsErrOf, OnOk, IfOk, is_some, Ok};
ghost use Rattle.broker_core.specs.Broker.{pending_of, settings_of};
ghost use Rattle.broker_core.specs.Splitting.{broker_of};
ghost use Rattle.hall_core.specs.Fresh.{IsFresh};
ghost use Rattle.receipts.specs.Desks.{desk_count};
ghost use Rattle.receipts.specs.Serving.{HasServed};
ghost use Rattle.http_front.specs.Loops.{HasRun};

use crate::acting::CallersPort;
use crate::committing::{Committer, state_of};
use crate::discarding::{Discard, start_collector};
use crate::ending::{FrontOver, TickerOver};
use crate::error::ServeError;
use crate::front_state::FrontState;
use crate::gates::{UntilEnding, UntilOver};
use crate::opening::{OpenedFront, open};
use crate::starting::{PortThread, join_all, join_beside, start, start_beside};
use crate::ticking::tick_all;
use broker_core::{Broker, DiskHalf};
use commit_loop::{CommitterRan, Gate};
use front_board::Seated;
use hall_core::Hall;
use http_port::Listening;
use long_poll::{AdminReader, Port};
use port_meters::{Beside, Machine, Premises};
use receipts::{Desk, SharedOpening, SharedTrace, Trace, desks};
use retry_rules::Settings;
use sector_disk::Disk;
use std::io::Eprint;
use std::sync::ledger::{Blank, Ledger};
use std::sync::{Arc, Wait};
use std::thread::{JoinHandle, Threads};
use std::time::Clock;
use std::{io, thread};

/// How a front ended.
#[derive(Clone, Copy)]
pub enum Ending {
    /// A request stopped the broker: all that was issued is durable, and every request whose client had stayed was answered.
    Stopped,
    /// The device failed, and every request whose client had stayed was answered.
    Broken,
}

impl Ending {
    // How a front has ended, once its threads have.
    fn of<L: Ledger, T: Trace>(front: &FrontState<L, T>) -> Ending {
        if front.bell.said_broken().is_some() {
            Ending::Broken
        } else {
            Ending::Stopped
        }
    }
}

/// What a front that was served leaves, where its gate sees such.
#[derive(Drop)]
pub struct Served<D: Disk, S, E> {
    pub ending: Ending,
    /// The half of the broker over the disk.
    pub half: DiskHalf<D>,
    /// What shows that the committer's loop ran, and by what it was ended: by its gate, or since the front was over.
    pub committed: CommitterRan<DiskHalf<D>, Result<E, FrontOver>>,
    /// What shows that the ticker's loop ran until the front was told to end.
    pub ticked: TickerOver,
    /// What shows that something was served beside its ports, where there was something.
    pub beside: Option<S>,
}

/// What came of the two loops of a front.
#[derive(Drop)]
struct Loops<D: Disk, E> {
    half: DiskHalf<D>,
    committed: CommitterRan<DiskHalf<D>, Result<E, FrontOver>>,
    ticked: TickerOver,
}

// Runs the ticker until its front ends.
fn tick_until_ending<R, L, T>(rt: &R, front: &FrontState<L, T>, ticker: Desk<L, T>) -> TickerOver
where
    R: Wait + Clock + Eprint,
    L: Ledger,
    T: Trace,
{
    let gate = UntilEnding { front };
    let (_desk, ran) = tick_all(rt, front, ticker, &gate);
    TickerOver::of(ran)
}

// Runs the ticker on a thread of its own and the committer on this one, until the gate or the front ends.
fn commit_and_tick<R, L, T, D, G>(
    rt: R,
    front: &Arc<FrontState<L, T>>,
    committer: Committer<L, T, D>,
    ticker: Desk<L, T>,
    gate: &G,
) -> io::Result<Loops<D, G::Seen>>
where
    R: Threads + Wait + Clock + Eprint + Copy + Drop + Send + 'static,
    L: Ledger + Send + Sync + 'static,
    T: SharedTrace + 'static,
    T::Opening: SharedOpening + 'static,
    D: Disk + Drop,
    G: Gate,
    ensures served { IfOk result (λ loops. HasServed D.view D.fault_count (broker_of committer.half) (broker_of loops.half)) }
    ensures ran { IfOk result (λ loops.
        HasRun broker_of G.leads_to (broker_of committer.half) (broker_of loops.half) loops.committed) }
{
    let theirs = Arc::try_clone(front)?;
    let ticking = thread::spawn(&rt, move || tick_until_ending(&rt, &theirs, ticker))?;
    let until = UntilOver {
        rt: &rt,
        front,
        inner: gate,
    };
    let (committer, committed) = committer.run(&rt, front, &until);
    let (_desk, half) = committer.into_parts();
    front.ending.cancel();
    front.ticker_wake.call(&rt);
    let ticked = ticking.join(&rt);
    Ok(Loops {
        half,
        committed,
        ticked,
    })
}

// Starts the threads of all ports, of who collects records, and then of what is served beside them, where there is something.
fn start_all<R, L, T, B>(
    rt: R,
    front: &Arc<FrontState<L, T>>,
    ports: Vec<Arc<Port<L, T>>>,
    listeners: Vec<Listening>,
    callers: u8,
    reader: AdminReader<L, T>,
    seat: Seated,
    beside: Option<B>,
    threads: &mut Vec<PortThread>,
) -> io::Result<Option<JoinHandle<io::Result<B::Served>>>>
where
    R: Machine,
    L: Ledger + Send + Sync + 'static,
    T: SharedTrace + 'static,
    T::Opening: SharedOpening + 'static,
    B: Beside<R, AdminReader<L, T>, CallersPort<L, T>> + Send + 'static,
    B::Served: Send + 'static,
    ensures { IfOk result (λ thread. is_some thread ≡ is_some beside) }
{
    start_collector(rt, front, ports.first(), seat, threads)?;
    let acting = CallersPort::new(front, ports.first())?;
    start(rt, front, ports, listeners, callers, threads)?;
    start_beside(rt, front, reader, acting, beside)
}

// Ends a front, and waits for the threads of its ports and for the one beside them: what it leaves, where this is what came of
// the committer.
fn end<R, L, T, D, S, E>(
    rt: &R,
    front: &FrontState<L, T>,
    threads: Vec<PortThread>,
    beside: Option<JoinHandle<io::Result<S>>>,
    outcome: io::Result<Loops<D, E>>,
) -> io::Result<Served<D, S, E>>
where
    R: Threads + Wait,
    L: Ledger,
    T: Trace,
    D: Disk + Drop,
    S: Drop,
    E: Drop,
    ensures loops { IfOk result (λ served.
        outcome ≡ Ok (record { half = served.half; committed = served.committed; ticked = served.ticked })) }
    ensures beside { IfOk result (λ served. is_some served.beside ≡ is_some beside) }
{
    front.ending.cancel();
    front.discarding.call(rt);
    let joined = join_all(rt, threads);
    let beside = join_beside(rt, beside);
    let Loops {
        half,
        committed,
        ticked,
    } = outcome?;
    joined?;
    let beside = beside?;
    let ending = Ending::of(front);
    Ok(Served {
        ending,
        half,
        committed,
        ticked,
        beside,
    })
}

// Serves an opened front to its end, and waits for its threads.
fn run<R, L, T, D, G, B>(
    rt: R,
    opened: OpenedFront<L, T, D>,
    listeners: Vec<Listening>,
    callers: u8,
    beside: Option<B>,
    gate: &G,
) -> io::Result<Served<D, B::Served, G::Seen>>
where
    R: Machine,
    L: Ledger + Send + Sync + 'static,
    T: SharedTrace + 'static,
    T::Opening: SharedOpening + 'static,
    D: Disk + Drop,
    G: Gate,
    B: Beside<R, AdminReader<L, T>, CallersPort<L, T>> + Send + 'static,
    B::Served: Send + 'static,
    ensures served { IfOk result (λ served. HasServed D.view D.fault_count (broker_of opened.committer.half) (broker_of served.half)) }
    ensures ran { IfOk result (λ served.
        HasRun broker_of G.leads_to (broker_of opened.committer.half) (broker_of served.half) served.committed) }
    ensures beside { IfOk result (λ served. is_some served.beside ≡ is_some beside) }
{
    let OpenedFront {
        front,
        ports,
        committer,
        ticker,
        reader,
        collector_seat,
    } = opened;
    front.meters.note_opening(&rt, state_of(committer.half()));
    let mut threads = Vec::new(rt.alloc());
    match start_all(
        rt,
        &front,
        ports,
        listeners,
        callers,
        reader,
        collector_seat,
        beside,
        &mut threads,
    ) {
        Ok(beside) => {
            let outcome = commit_and_tick(rt, &front, committer, ticker, gate);
            end(&rt, &front, threads, beside, outcome)
        }
        Err(why) => end(&rt, &front, threads, None, Err(why)),
    }
}

// How many ports there are: the committer and the ticker have a desk too.
fn port_count(settings: &Settings) -> u64
    ensures { result + 2 ≡ desk_count settings.now }
{
    desks(settings) - 2
}

/// Serves a hall, in which nothing has come yet and nothing is pending, with a ledger of as many parts as there are desks:
/// the callers' port at the first listener, on so many threads, that of environment n at the listener n behind it. It returns once
/// the broker was stopped or its device failed and every open request was answered or its client has gone. The committer, on the
/// calling thread, is asked by the gate beside that. What is beside the ports, where there is something, is served on a thread
/// of its own, with a reader of the office and the callers' port to act at, until the front ends. On another one, records that
/// are discarded are collected. What is told on standard error goes by these premises.
///
/// The half over the disk is handed back: it is the hall's broker with what was committed since. On an honest disk a stop at any
/// moment of the serving leaves a legal stop of its list: a beginning of that with all that was durable before.
///
/// It is refused: `TooManyPorts` (more listeners than ports), `Office` (no office was opened over the hall), `OutOfMemory`,
/// and `System`, where the system gave no thread or no sockets.
pub fn serve<R, L, T, D, G, B>(
    rt: R,
    hall: Hall<Broker<D>>,
    blank: Blank,
    listeners: Vec<Listening>,
    callers: u8,
    beside: Option<B>,
    discard: Discard,
    premises: Arc<Premises>,
    gate: &G,
) -> Result<Served<D, B::Served, G::Seen>, ServeError>
where
    R: Machine,
    L: Ledger + Send + Sync + 'static,
    T: SharedTrace + 'static,
    T::Opening: SharedOpening + 'static,
    D: Disk + Drop,
    G: Gate,
    B: Beside<R, AdminReader<L, T>, CallersPort<L, T>> + Send + 'static,
    B::Served: Send + 'static,
    requires nothing { pending_of hall.issuer ≡ [] }
    requires fresh { IsFresh (settings_of hall.issuer) hall }
    requires name { blank.name ≡ L.name }
    requires parts { blank.parts ≡ L.parts }
    requires count { L.parts ≡ desk_count (settings_of hall.issuer) }
    // claim: A front is served only where desks are at least two more than listeners, and is refused as `TooManyPorts`
    // only where not.
    ensures ports { OnOk result (vec_len listeners + 2 ≤ desk_count (settings_of hall.issuer)) }
    ensures many { IsErrOf result ServeError.TooManyPorts → desk_count (settings_of hall.issuer) < vec_len listeners + 2 }
    // claim: An Ok hands the disk half back: the hall's broker, after any number of commits and advances. [: served]
    ensures served { IfOk result (λ served. HasServed D.view D.fault_count hall.issuer (broker_of served.half)) }
    // claim: What it hands out beside was made by the committer's loop, from the hall's broker to that half. It has what the gate
    // saw that leads to `End`, or what shows that the front was over. [: ran]
    ensures ran { IfOk result (λ served. HasRun broker_of G.leads_to hall.issuer (broker_of served.half) served.committed) }
    ensures beside { IfOk result (λ served. is_some served.beside ≡ is_some beside) }
{
    if listeners.len() as u64 > port_count(hall.table().settings()) {
        return Err(ServeError::TooManyPorts);
    }
    let opened = open::<L, T, D>(rt.alloc(), hall, blank, discard, premises)?;
    Ok(run(rt, opened, listeners, callers, beside, gate)?)
}
