// Records that nobody wants: they are collected here.
ghost use Rattle.std.specs.Prelude.{◌≡◌, map, take, IfOk, Some};
ghost use Rattle.api_core.specs.declared.call.Call.TheVariants.{Delete};
ghost use Rattle.long_poll.specs.Port.{IsDoneFor};
ghost use Rattle.receipts.specs.Locked.{hall_in};
ghost use Rattle.http_front.specs.Discarding.{is_unwanted, unwanted_ids};

use crate::arriving::hand_over;
use crate::error::ArrivalError;
use crate::front_state::FrontState;
use crate::starting::PortThread;
use crate::wake::{Slept, Wake};
use api_core::Call;
use broker_core::Ticket;
use front_board::Seated;
use hall_core::{HallError, Sides, Sought};
use invoke_records::{EventRow, Outcome, Standing};
use long_poll::{Port, Waiting};
use port_meters::{Machine, Premises};
use receipts::{SharedOpening, SharedTrace, Trace, Unreleased, View};
use std::alloc::{AllocError, Global};
use std::sync::ledger::Ledger;
use std::sync::{Arc, Wait};
use std::time::Clock;
use std::{io, thread};

/// How many records are collected at a turn. As many commands may be pending four times over, so nobody else is turned away.
const MOST_AT_ONCE: usize = 64;

/// How long it takes at most until records are looked for again that were not collected, in milliseconds.
const PAUSE: u64 = 100;

/// Of which sides records are collected as soon as they are durable, so that nobody is told them.
#[derive(Clone, Copy)]
pub struct Discard {
    /// Those of events that succeeded.
    pub success: bool,
    /// Those of all others that ended.
    pub failure: bool,
}

impl Discard {
    // The same, as it is sought of a table.
    fn sides(self) -> Sides
        ensures success { result.success ≡ self.success }
        ensures failure { result.failure ≡ self.failure }
    {
        Sides {
            success: self.success,
            failure: self.failure,
        }
    }

    // Whether there are such sides.
    fn is_any(self) -> bool {
        self.success || self.failure
    }
}

/// Of which sides records are collected, and what their collector sleeps on.
#[derive(Drop)]
pub(crate) struct Discarding {
    discard: Discard,
    wake: Wake,
}

impl Discarding {
    pub(crate) fn new(discard: Discard) -> Discarding
        ensures { result.discard ≡ discard }
    {
        Discarding {
            discard,
            wake: Wake::new(),
        }
    }

    /// Calls the collector, where there is one.
    pub(crate) fn call<R: Wait>(&self, rt: &R) {
        if self.discard.is_any() {
            self.wake.call(rt);
        }
    }
}

// Whether the record of an event that stands there is collected.
fn is_unwanted(discard: Discard, standing: Standing) -> bool
    ensures { result ≡ is_unwanted discard standing }
{
    match standing {
        Standing::Ended { outcome, .. } => {
            if outcome == Outcome::Success {
                discard.success
            } else {
                discard.failure
            }
        }
        _ => false,
    }
}

// The events among these rows whose records are discarded.
fn all_unwanted(
    alloc: Global,
    discard: Discard,
    rows: &[EventRow],
) -> Result<Vec<[u8; 16]>, AllocError>
    ensures { IfOk result (λ ids. ids.items ≡ unwanted_ids discard rows.now) }
{
    rows.iter()
        .filter(|row| is_unwanted(discard, row.standing))
        .map(
            |row|
                ensures { result ≡ row.now.id }
            { row.id },
        )
        .collect(alloc)
}

// The first of them, as many as are collected at a turn.
fn next_unwanted(
    alloc: Global,
    discard: Discard,
    rows: &[EventRow],
) -> Result<Vec<[u8; 16]>, AllocError>
    ensures { IfOk result (λ ids. ids.items ≡ take 64 (unwanted_ids discard rows.now)) }
{
    let mut ids = all_unwanted(alloc, discard, rows)?;
    ids.truncate(MOST_AT_ONCE);
    Ok(ids)
}

/// A record that was asked for by a DELETE, with the slot of that. Where it is dropped, the slot is forgotten.
#[derive(Drop)]
struct Collected<R: Wait, L: Ledger, T: Trace> {
    id: [u8; 16],
    waiting: Waiting<R, L, T>,
    // claim: A record is collected by one DELETE: just that was done to the hall under the lock.
    ghost done: { ∥ IsDoneFor (Delete (Some id)) (hall_in waiting.seen.before.value.hall) (hall_in waiting.seen.after.value.hall)
        waiting.slot ∥₁ },
}

// A DELETE of a record comes to a port now, as from a caller.
fn ask<R: Wait + Clock + Drop + Copy, L: Ledger, T: Trace>(
    rt: R,
    port: &Arc<Port<L, T>>,
    premises: &Premises,
    id: [u8; 16],
) -> Result<Waiting<R, L, T>, ArrivalError>
    ensures { IfOk result (λ waiting. IsDoneFor (Delete (Some id)) (hall_in waiting.seen.before.value.hall)
        (hall_in waiting.seen.after.value.hall) waiting.slot) }
{
    let theirs = Arc::try_clone(port)?;
    let now = premises.moment(&rt)?.millis();
    let arrived = hand_over(&rt, port, Call::Delete(Some(id)), now, [0, 0])?;
    Ok(Waiting::new(rt, theirs, arrived))
}

// A record is collected, at a port.
fn collect<R: Wait + Clock + Drop + Copy, L: Ledger, T: Trace>(
    rt: R,
    port: &Arc<Port<L, T>>,
    premises: &Premises,
    id: [u8; 16],
) -> Result<Collected<R, L, T>, ArrivalError>
    ensures { IfOk result (λ collected. collected.id ≡ id) }
{
    let waiting = ask(rt, port, premises, id)?;
    Ok(Collected { id, waiting })
}

// These records are collected, one after the other, up to the first that is refused.
fn collect_all<R: Wait + Clock + Drop + Copy, L: Ledger, T: Trace>(
    rt: R,
    alloc: Global,
    port: &Arc<Port<L, T>>,
    premises: &Premises,
    ids: &[[u8; 16]],
) -> Result<Vec<Collected<R, L, T>>, ArrivalError>
    ensures { IfOk result (λ all. map (λ collected. collected.id) all.items ≡ ids.now) }
{
    let mut all = Vec::with_capacity(alloc, ids.len())?;
    for id in ids {
        let collected = collect(rt, port, premises, *id)?;
        if all.push(collected).is_err() {
            return Err(ArrivalError::Hall(HallError::OutOfMemory));
        }
    }
    Ok(all)
}

/// Collects the records that are discarded: it looks at the office as an operator does, and asks at the callers' port as they do.
#[derive(Drop)]
struct Collector<R, L: Ledger, T: Trace> {
    rt: R,
    front: Arc<FrontState<L, T>>,
    port: Arc<Port<L, T>>,
    seated: Seated,
    /// What it saw that is not durable yet, with a ticket of that.
    seen: Option<(Unreleased, Ticket)>,
}

/// What a turn found.
#[derive(Clone, Copy)]
pub(crate) enum Found {
    /// Nothing to collect, as far as is known: a commit changes that.
    Nothing,
    /// Records, of which some may be left.
    Records,
}

impl<R: Wait + Clock + Drop + Copy, L: Ledger, T: Trace> Collector<R, L, T> {
    ghost use Rattle.http_front.specs.Resting.{IsSleep, pause_for, may_be_left};

    // What it saw, or sees now.
    fn look(&mut self) -> Result<(Unreleased, Ticket), AllocError> {
        match self.seen.take() {
            Some(seen) => Ok(seen),
            // (no number is asked for, so no moment is)
            None => {
                let sides = self.front.discarding.discard.sides();
                self.front
                    .office
                    .look(&self.rt, Sought::Ended(sides), 0)
                    .answer
            }
        }
    }

    // What it saw, once all of that is durable.
    fn view(&mut self) -> Result<Option<View>, AllocError> {
        let (unreleased, ticket) = self.look()?;
        match self.seated.look(ticket) {
            Ok(shown) => Ok(unreleased.release(&shown)),
            Err(ticket) => {
                self.seen = Some((unreleased, ticket));
                Ok(None)
            }
        }
    }

    // Collects what a view shows that is discarded.
    fn collect(&self, view: &View) -> Result<Vec<Collected<R, L, T>>, ArrivalError>
        // claim: An Ok has just the first 64 records that the view shows on discarded sides, each collected by one
        // DELETE.
        ensures { IfOk result (λ all. map (λ collected. collected.id) all.items
            ≡ take 64 (unwanted_ids self.now.front.value.discarding.discard view.now.hall.rows)) }
    {
        let alloc = self.front.alloc;
        let rows = view.hall.rows.as_slice();
        let ids = next_unwanted(alloc, self.front.discarding.discard, rows)?;
        collect_all(self.rt, alloc, &self.port, &self.front.premises, &ids)
    }

    // Collects what a view shows, and has it committed.
    fn work_on(&self, view: &View) -> Found {
        if let Ok(none) = self.collect(view)
            && none.is_empty()
        {
            return Found::Nothing;
        }
        self.front.wake.call(&self.rt);
        Found::Records
    }

    // One turn. Behind an older look it looks again: what ended since may be durable by the same commit.
    fn turn(&mut self) -> Found {
        let is_old = self.seen.is_some();
        match self.view() {
            Ok(Some(view)) => {
                let found = self.work_on(&view);
                if is_old { Found::Records } else { found }
            }
            Ok(None) => Found::Nothing,
            Err(_) => Found::Records,
        }
    }

    // Whether nothing is collected any more.
    fn is_over(&self) -> bool {
        self.front.look_at_ending().ends() || self.front.bell.said_broken().is_some()
    }

    // Sleeps until the next commit. Where records may be left, not for long.
    fn sleep(&self, found: Found) -> Slept
        ensures { IsSleep self.now.front.value.discarding.wake.source (pause_for (may_be_left found)) result }
    {
        let wake = &self.front.discarding.wake;
        match found {
            Found::Nothing => wake.wait(&self.rt),
            Found::Records => wake.wait_at_most(&self.rt, PAUSE),
        }
    }

    // Collects until the front ends.
    fn run(&mut self) {
        let rt = self.rt;
        for _ in rt.forever() {
            if self.is_over() {
                break;
            }
            let found = self.turn();
            self.sleep(found);
        }
    }
}

/// Starts a thread that collects the records that are discarded, where some are, at the callers' port, with a seat of the board.
pub(crate) fn start_collector<R, L, T>(
    rt: R,
    front: &Arc<FrontState<L, T>>,
    port: Option<&Arc<Port<L, T>>>,
    seated: Seated,
    threads: &mut Vec<PortThread>,
) -> io::Result<()>
where
    R: Machine,
    L: Ledger + Send + Sync + 'static,
    T: SharedTrace + 'static,
    T::Opening: SharedOpening + 'static,
{
    let Some(port) = port else {
        return Ok(());
    };
    if !front.discarding.discard.is_any() {
        return Ok(());
    }
    let mut collector = Collector {
        rt,
        front: Arc::try_clone(front)?,
        port: Arc::try_clone(port)?,
        seated,
        seen: None,
    };
    threads.push(thread::spawn(&rt, move || {
        collector.run();
        Ok(())
    })?)?;
    Ok(())
}
