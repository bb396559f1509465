// The hall over a broker that was opened: attempts that the last stop cut off are interrupted first.
ghost use Rattle.std.specs.Prelude.{◌≡◌, [], IfOk, OnOk, IsTrue};
ghost use Rattle.broker_core.specs.Broker.{opened_of, pending_of, settings_of, Commits, Stands};
ghost use Rattle.broker_core.specs.Refusals.{HasSwitched};
ghost use Rattle.broker_core.specs.Promises.{ForEachHistory};
ghost use Rattle.broker_core.specs.IssuerBroker.{issuer_of};
ghost use Rattle.hall_core.specs.Hall.{view_of, StandsFor};
ghost use Rattle.hall_plans.specs.Past.{opening};
ghost use Rattle.hall_core.specs.Fresh.{IsFresh};
ghost use Rattle.broker_opening.specs.Opening.{ComesToRest, OpensAtRest};

use crate::error::OpeningError;
use crate::notes::{note_opening, note_prospects};
use broker_commands::{Address, now};
use broker_core::{Broker, CommitError, Durable};
use hall_core::Hall;
use port_meters::{Lines, Opening, micros_since};
use sector_disk::Disk;
use std::alloc::{AllocError, AllocGlobal, Global};
use std::io;
use std::io::Eprint;
use std::sync::Wait;
use std::time::{Clock, Instant};

// Issues an Interrupt for each attempt that the last stop cut off.
fn interrupt_attempts<R: Clock + Wait, D: Disk>(
    rt: &R,
    broker: &mut Broker<D>,
) -> Result<(), OpeningError>
    ensures settings { settings_of broker.new ≡ settings_of broker.old }
    ensures segment { opened_of broker.new ≡ opened_of broker.old }
    ensures rest { ForEachHistory D.view broker.old (λ history. OnOk result (ComesToRest D.view history broker.new)) }
{
    let now = now(rt)?;
    for _ in rt.forever() {
        if broker.resume(now)?.is_none() {
            break;
        }
    }
    Ok(())
}

// Makes all that was issued durable: by a switch, where another broker may append to the segment that is live.
fn settle<D: Disk>(broker: &mut Broker<D>, is_takeover: bool) -> Result<Durable, CommitError>
    ensures ok { IfOk result (λ durable. Commits broker.old broker.new durable) }
    ensures stands { ForEachHistory D.view broker.old (λ history. Stands D.view broker.new history) }
    ensures switches { IsTrue is_takeover → OnOk result (HasSwitched 1 broker.old broker.new) }
{
    if is_takeover {
        broker.switch()
    } else {
        broker.commit()
    }
}

// Issues an Interrupt for each attempt that the last stop cut off, and makes that durable: nothing runs then. It is noted how long
// the commit took.
fn resume<R: Clock + Wait, D: Disk>(
    rt: &R,
    broker: &mut Broker<D>,
    is_takeover: bool,
    opening: &mut Opening,
) -> Result<(), OpeningError>
    // claim: After Ok nothing runs, and all is durable. Interrupts alone were issued. [: durable, rest;
    // interrupt_attempts: rest]
    ensures durable { OnOk result (pending_of broker.new ≡ []) }
    ensures switches { IsTrue is_takeover → OnOk result (HasSwitched 1 broker.old broker.new) }
    ensures rest { ForEachHistory D.view broker.old (λ history. OnOk result (ComesToRest D.view history broker.new)) }
{
    interrupt_attempts(rt, broker)?;
    let begun = Instant::now(rt);
    match settle(broker, is_takeover) {
        Ok(_) => {
            opening.commit_microseconds = micros_since(rt, begun);
            Ok(())
        }
        Err(why) => Err(OpeningError::Commit(why)),
    }
}

// Brings a broker to rest, as `resume` says, and notes what was found and done.
fn bring_to_rest<R, D>(
    rt: &R,
    broker: &mut Broker<D>,
    is_takeover: bool,
    at: &Address<'_>,
    start: &io::Result<Instant>,
    lines: &Lines,
    opening: &mut Opening,
) -> Result<(), OpeningError>
where
    R: Clock + Wait + Eprint + AllocGlobal,
    D: Disk,
    ensures durable { OnOk result (pending_of broker.new ≡ []) }
    ensures switches { IsTrue is_takeover → OnOk result (HasSwitched 1 broker.old broker.new) }
    ensures rest { ForEachHistory D.view broker.old (λ history. OnOk result (ComesToRest D.view history broker.new)) }
{
    let held = broker.table().rows().count();
    let before = broker.table().number();
    opening.generation = broker.generation();
    resume(rt, broker, is_takeover, opening)?;
    opening.interrupted = broker.table().number().saturating_sub(before);
    note_opening(rt, lines, at, held, opening.interrupted, start);
    note_prospects(rt, lines, at, broker.table());
    Ok(())
}

// A hall over a broker, which tells its replies and waits for extensions as it is asked to.
fn hall_over<D: Disk + Drop>(
    alloc: Global,
    broker: Broker<D>,
    at: &Address<'_>,
) -> Result<Hall<Broker<D>>, OpeningError>
    requires { pending_of broker ≡ [] }
    ensures nothing { IfOk result (λ hall. pending_of hall.issuer ≡ []) }
    ensures fresh { IfOk result (λ hall. IsFresh (settings_of hall.issuer) hall) }
    ensures same { IfOk result (λ hall. hall.issuer ≡ broker) }
    ensures dialect { IfOk result (λ hall. (view_of (issuer_of D.view) hall).dialect ≡ at.now.dialect) }
    ensures stands { ForEachHistory D.view broker (λ history.
        IfOk result (λ hall. StandsFor (view_of (issuer_of D.view) hall) (opening at.now.extensions history))) }
{
    if broker.is_broken() {
        return Err(OpeningError::Broken);
    }
    match Hall::in_dialect(alloc, broker, at.dialect, at.extensions) {
        Ok(hall) => Ok(hall),
        Err(_) => Err(OpeningError::OutOfMemory(AllocError)),
    }
}

/// The hall over a broker of which nothing runs any more: attempts that the last stop cut off are interrupted. A broker that takes the
/// disk over switches to the other segment. It is told what was found since the opening began, and noted what was done.
///
/// It is refused where the clock, memory or the device fails, or a worn number leaves an attempt running.
pub(crate) fn hall_at_rest<R, D>(
    rt: &R,
    broker: Broker<D>,
    is_takeover: bool,
    at: &Address<'_>,
    start: &io::Result<Instant>,
    lines: &Lines,
    opening: &mut Opening,
) -> Result<Hall<Broker<D>>, OpeningError>
where
    R: Clock + Wait + Eprint + AllocGlobal,
    D: Disk + Drop,
    // claim: An Ok hall stands for the history with Interrupts alone behind it, in the dialect and for the extensions
    // asked for. [: rest, dialect]
    ensures nothing { IfOk result (λ hall. pending_of hall.issuer ≡ []) }
    ensures fresh { IfOk result (λ hall. IsFresh (settings_of hall.issuer) hall) }
    ensures dialect { IfOk result (λ hall. (view_of (issuer_of D.view) hall).dialect ≡ at.now.dialect) }
    ensures switches { IsTrue is_takeover → IfOk result (λ hall. HasSwitched 1 broker hall.issuer) }
    ensures rest { ForEachHistory D.view broker (λ history.
        IfOk result (λ hall. OpensAtRest D.view at.now.extensions history hall.issuer (view_of (issuer_of D.view) hall))) }
{
    let mut broker = broker;
    bring_to_rest(rt, &mut broker, is_takeover, at, start, lines, opening)?;
    hall_over(rt.alloc(), broker, at)
}
