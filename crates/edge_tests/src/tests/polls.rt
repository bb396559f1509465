// Futures of replies, polled on one thread over an office, a board and a bell, and once from another thread.
mod rig;

use crate::tests::disks::{DiskWatch, NO_TROUBLE, Trouble};
use crate::tests::house::{House, Story, expect, tell};
use crate::tests::polls::rig::{PollRig, Pool, rig_in, slot_of};
use api_core::Call;
use futures::executor::{LocalPool, block_on};
use hall_core::HallError;
use sector_disk::Disk;
use std::alloc::AllocGlobal;
use std::process::Abort;
use std::random::RandomSource;
use std::sync::ledger::Ledger;
use std::sync::{Arc, Wait};
use std::test::Fail;
use std::thread;
use std::thread::Threads;

const RUNTIME_NEXT: Call = Call::RuntimeNext { environment: 1 };

/// What is polled.
#[derive(Clone, Copy)]
pub enum Poll {
    /// A ticket waits until the board shows its number.
    Board,
    /// A reply is told once it is durable, the board shows it and the bell was rung, and not before.
    Invoke,
    /// A poll that parks is told by the commit of the command that answers it, and one that is replaced at once.
    Parked,
    /// Neither a request that does not answer a parked poll nor its commit has the poll look again.
    Asleep,
    /// The second commit meets a fault: both open slots are told 503, though the board shows no more than before.
    Fault,
    /// A future that is dropped before its reply is told forgets its slot.
    Dropped,
    /// Another thread waits for the reply, and is woken by the commit's ring.
    Thread,
}

fn a_ticket<R, L, D>(rt: &R, rig: &mut PollRig<R, L, D>)
where
    R: Abort + Wait + RandomSource + AllocGlobal + Copy + Drop,
    L: Ledger,
    D: Disk + Drop,
{
    let ticket = match rig.arrive_invoke(1) {
        Some(arrived) => rig.check(arrived.into_ticket()).err(),
        None => None,
    };
    expect(rt, ticket.is_some(), "a ticket waits");
    expect(rt, rig.commit() == Ok(1), "a command is durable");
    rig.raise();
    expect(rt, rig.shows(ticket), "the board shows the ticket's number");
}

fn an_invoke<R, L, D>(rt: &R, rig: &mut PollRig<R, L, D>, pool: &mut Pool<R, L>)
where
    R: Abort + Wait + RandomSource + AllocGlobal + Copy + Drop,
    L: Ledger,
    D: Disk + Drop,
{
    let slot = rig.invoke(pool, 1);
    expect(
        rt,
        rig.heard(pool).is_nothing(),
        "nothing is told before a commit",
    );
    expect(rt, rig.commit() == Ok(1), "a command is durable");
    expect(
        rt,
        rig.heard(pool).has_waited(0),
        "nobody looks before the ring",
    );
    rig.raise();
    rig.ring();
    expect(
        rt,
        rig.heard(pool).is_one(slot, 202),
        "the invoke is told 202",
    );
    expect(rt, rig.open_slots() == 0, "no slot is open");
}

fn parked_polls<R, L, D>(rt: &R, rig: &mut PollRig<R, L, D>, pool: &mut Pool<R, L>)
where
    R: Abort + Wait + RandomSource + AllocGlobal + Copy + Drop,
    L: Ledger,
    D: Disk + Drop,
{
    let first = rig.ask(pool, RUNTIME_NEXT, 1);
    expect(rt, rig.heard(pool).is_nothing(), "the first poll is parked");
    let second = rig.ask(pool, RUNTIME_NEXT, 1);
    expect(
        rt,
        rig.heard(pool).is_one(first, 409),
        "the first poll is replaced by the second, which is parked",
    );
    let accepted = rig.invoke(pool, 1);
    expect(rt, rig.tick() == 2, "the event starts");
    expect(
        rt,
        rig.heard(pool).is_nothing(),
        "nothing is told before a commit",
    );
    expect(
        rt,
        rig.commit_and_tell() == Ok(2),
        "both commands are durable",
    );
    let heard = rig.heard(pool);
    expect(
        rt,
        heard.are_two((second, 200), (accepted, 202)),
        "both are told",
    );
    expect(rt, rig.open_slots() == 0, "no slot is open");
}

fn a_sleeping_poll<R, L, D>(rt: &R, rig: &mut PollRig<R, L, D>, pool: &mut Pool<R, L>)
where
    R: Abort + Wait + RandomSource + AllocGlobal + Copy + Drop,
    L: Ledger,
    D: Disk + Drop,
{
    let parked = rig.ask(pool, RUNTIME_NEXT, 1);
    expect(rt, rig.heard(pool).has_waited(1), "the poll is parked");
    let accepted = rig.invoke(pool, 1);
    expect(
        rt,
        rig.heard(pool).has_waited(1),
        "only the invoke has looked",
    );
    expect(rt, rig.commit_and_tell() == Ok(1), "a command is durable");
    let heard = rig.heard(pool);
    expect(rt, heard.is_one(accepted, 202), "the invoke is told 202");
    expect(rt, heard.has_waited(0), "the parked poll has not looked");
    expect(rt, rig.tick() == 2, "the event starts");
    expect(
        rt,
        rig.heard(pool).has_waited(0),
        "nobody looks before the commit",
    );
    expect(rt, rig.commit_and_tell() == Ok(2), "the start is durable");
    expect(
        rt,
        rig.heard(pool).is_one(parked, 200),
        "the parked poll is told the event",
    );
}

fn a_fault<R, L, D>(rt: &R, rig: &mut PollRig<R, L, D>, pool: &mut Pool<R, L>)
where
    R: Abort + Wait + RandomSource + AllocGlobal + Copy + Drop,
    L: Ledger,
    D: Disk + Drop,
{
    let accepted = rig.invoke(pool, 1);
    expect(
        rt,
        rig.heard(pool).is_nothing(),
        "nothing is told before a commit",
    );
    expect(rt, rig.commit_and_tell() == Ok(1), "a command is durable");
    expect(
        rt,
        rig.heard(pool).is_one(accepted, 202),
        "the invoke is told 202",
    );
    let one = rig.ticket();
    let parked = rig.ask(pool, RUNTIME_NEXT, 1);
    let refused = rig.invoke(pool, 2);
    let two = rig.ticket();
    expect(rt, rig.open_slots() == 2, "two slots are open");
    expect(
        rt,
        rig.heard(pool).is_nothing(),
        "nothing is told before a commit",
    );
    expect(
        rt,
        rig.commit_and_tell() == Err(HallError::Fault),
        "the device fails",
    );
    let heard = rig.heard(pool);
    expect(
        rt,
        heard.are_two((parked, 503), (refused, 503)),
        "both are told 503",
    );
    expect(rt, rig.shows(one), "the board shows what is durable");
    expect(rt, !rig.shows(two), "the board shows no more");
    expect(
        rt,
        rig.commit_and_tell() == Err(HallError::Broken),
        "the hall is broken",
    );
}

fn a_dropped_future<R, L, D>(rt: &R, rig: &mut PollRig<R, L, D>)
where
    R: Abort + Wait + RandomSource + AllocGlobal + Copy + Drop,
    L: Ledger,
    D: Disk + Drop,
{
    let waiting = rig.waiting(rig.arrive_invoke(1));
    expect(rt, waiting.is_some(), "a future waits");
    expect(rt, rig.open_slots() == 1, "its slot is open");
    drop(waiting);
    expect(rt, rig.open_slots() == 0, "its slot is forgotten");
}

fn another_thread<R, L, D>(rt: &R, rig: &mut PollRig<R, L, D>) -> bool
where
    R: Abort + Threads + Wait + RandomSource + AllocGlobal + Copy + Drop + Send + Sync,
    L: Ledger + Send + Sync,
    D: Disk + Drop + Send,
{
    let arrived = rig.arrive_invoke(1);
    let slot = slot_of(&arrived);
    let Some(waiting) = rig.waiting(arrived) else {
        return false;
    };
    let (told, released) = thread::join(rt, || rig.commit_and_tell(), || block_on(rt, waiting));
    expect(rt, told == Ok(1), "a command is durable");
    match released {
        Ok(released) => {
            let released = released.answer;
            let is_told = released.slot() == slot && released.into_reply().status == 202;
            expect(rt, is_told, "the thread is told 202");
            true
        }
        Err(_) => false,
    }
}

// Polls what needs a pool: whether there was memory for one.
fn poll_pooled<R, L, D>(rt: &R, rig: &mut PollRig<R, L, D>, which: Poll) -> bool
where
    R: Abort + Wait + RandomSource + AllocGlobal + Copy + Drop,
    L: Ledger,
    D: Disk + Drop,
{
    let Ok(pool) = LocalPool::new(rt) else {
        return false;
    };
    let mut pool: Pool<R, L> = pool;
    match which {
        Poll::Invoke => an_invoke(rt, rig, &mut pool),
        Poll::Parked => parked_polls(rt, rig, &mut pool),
        Poll::Asleep => a_sleeping_poll(rt, rig, &mut pool),
        _ => a_fault(rt, rig, &mut pool),
    }
    true
}

// Polls replies on a rig: whether there was memory for it.
fn poll_on<R, L, D>(rt: &R, rig: &mut PollRig<R, L, D>, which: Poll) -> bool
where
    R: Abort + Threads + Wait + RandomSource + AllocGlobal + Copy + Drop + Send + Sync,
    L: Ledger + Send + Sync,
    D: Disk + Drop + Send,
{
    match which {
        Poll::Board => a_ticket(rt, rig),
        Poll::Dropped => a_dropped_future(rt, rig),
        Poll::Thread => return another_thread(rt, rig),
        _ => return poll_pooled(rt, rig, which),
    }
    true
}

/// Polls replies in a house: whether there was memory for it.
pub fn poll_in<R, L, D>(rt: R, house: House<L, D>, which: Poll) -> bool
where
    R: Abort + Threads + Wait + RandomSource + AllocGlobal + Copy + Drop + Send + Sync,
    L: Ledger + Send + Sync,
    D: Disk + Drop + Send,
{
    match rig_in(rt, house) {
        Some(rig) => {
            let mut rig = rig;
            poll_on(&rt, &mut rig, which)
        }
        None => false,
    }
}

// Polls in a new house, over a disk whose n-th change fails.
fn tell_of<R>(rt: R, fault: u64, which: Poll) -> Result<(), Fail>
where
    R: Abort + Threads + Wait + RandomSource + AllocGlobal + Copy + Drop + Send + Sync,
{
    let trouble = Trouble {
        fault,
        ..NO_TROUBLE
    };
    let watch = Arc::new(rt.alloc(), DiskWatch::new(trouble))?;
    tell(rt, &watch, Story::Polls(which))
}

#[test]
fn a_ticket_waits_until_its_number_is_raised(rt: HostRuntime) -> Result<(), Fail> {
    tell_of(rt, 0, Poll::Board)
}

#[test]
fn an_invoke_is_told_after_its_commit(rt: HostRuntime) -> Result<(), Fail> {
    tell_of(rt, 0, Poll::Invoke)
}

#[test]
fn parked_polls_are_told_when_they_are_answered(rt: HostRuntime) -> Result<(), Fail> {
    tell_of(rt, 0, Poll::Parked)
}

#[test]
fn a_parked_poll_is_woken_by_the_commit_of_its_answer_alone(rt: HostRuntime) -> Result<(), Fail> {
    tell_of(rt, 0, Poll::Asleep)
}

#[test]
fn both_open_slots_are_told_503_after_a_fault(rt: HostRuntime) -> Result<(), Fail> {
    tell_of(rt, 9, Poll::Fault)
}

#[test]
fn a_dropped_future_forgets_its_slot(rt: HostRuntime) -> Result<(), Fail> {
    tell_of(rt, 0, Poll::Dropped)
}

#[test]
fn a_ring_wakes_another_thread(rt: HostRuntime) -> Result<(), Fail> {
    tell_of(rt, 0, Poll::Thread)
}
