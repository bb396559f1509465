// The tasks that wait at a bell, behind its lock.
ghost use Rattle.std.specs.Prelude.{◌≡◌, ◌<◌, ◌≤◌, [], None, IfSome, IfNone, max, vec_capacity};
ghost use Rattle.std.specs.Ordering.{nat_cmp};
ghost use Rattle.std.specs.BTreeMap as tree;
ghost use Rattle.futures.specs.Task.{Hears, IsArmed, Keeps};

use futures::task::{Context, Source, Waker};
use std::alloc::Global;
use std::collections::BTreeMap;
use std::mem;
use std::snapshot::Snapshot as Seen;

/// That a task has registered for a slot: it waits for a number, or is polled again. Only registering makes one.
#[derive(Drop)]
pub struct Registered {
    slot: u64,
    number: u64,
}

/// That a task has registered for a slot: it waits for the slot's answer, or is polled again. Only parking makes one.
#[derive(Drop)]
pub struct Parked {
    slot: u64,
}

/// That nobody waits for the answer of a slot any more. Only leaving makes one. Proofs see in it at which bell.
#[derive(Drop)]
pub struct Left {
    slot: u64,
    at: Seen<Source>,
}

/// That a bell was rung for those that wait for so much, or less. Only taking the wakers of those gives it. Proofs see in it of which
/// bell.
#[derive(Drop)]
pub struct Rung {
    up_to: u64,
    at: Seen<Source>,
}

/// That the poll of a slot was told at a bell that it was answered. Only telling it gives it.
#[derive(Drop)]
pub(crate) struct Told {
    slot: u64,
    number: u64,
    at: Seen<Source>,
}

/// That the polls that wait for an answer at a bell were woken. Only waking them gives it. Proofs see in it of which bell.
#[derive(Drop)]
pub struct ParkedWoken {
    at: Seen<Source>,
}

/// The wakers of the tasks that wait. A waker wakes its task when it is dropped.
#[derive(Drop)]
pub(crate) struct Waiters {
    alloc: Global,
    /// Of those that wait for a number, by it and their slot.
    numbered: BTreeMap<(u64, u64), Waker>,
    /// Of the polls that wait for an answer, by their slot.
    parked: BTreeMap<u64, Waker>,
    /// The greatest number that was rung.
    rung: u64,
    /// Room for wakers, unless a ring has it.
    room: Vec<Waker>,
    ghost empty: { room.items ≡ [] },
}

impl Waiters {
    ghost use Rattle.bell.specs.Bell.{AreAbove, IsUnder, IsParkedAt, Waits, Stays, GoesOn};

    /// Nobody waits, and so much was rung. It takes no memory.
    pub(crate) fn new(alloc: Global, rung: u64) -> Waiters
        ensures { result.rung ≡ rung }
    {
        Waiters {
            alloc,
            numbered: BTreeMap::new(alloc),
            parked: BTreeMap::new(alloc),
            rung,
            room: Vec::new(alloc),
        }
    }

    /// Leaves the task's waker for a ring of this number or above. Where that was rung, or there is no memory, the task is
    /// polled again.
    pub(crate) fn register(
        &mut self,
        source: &Source,
        slot: u64,
        number: u64,
        cx: &mut Context<'_>,
    ) -> Registered
        // claim: Who registers for a number is polled again, or waits for it, and it was not rung. So a parked poll,
        // once answered, is woken or waits. [: under, waits; Waiters::answer: gone, goes_on]
        ensures under { IsUnder result slot number }
        ensures armed { IsArmed cx.new }
        ensures heard { Hears cx.new source.now.id }
        ensures kept { Keeps cx.old cx.new }
        ensures waits { Waits self.new slot number cx.old cx.new }
    {
        let mut waker = self.numbered.remove(&(number, slot));
        cx.register::<()>(source, &mut waker);
        if number <= self.rung {
            cx.yield_now::<()>();
        } else if let Some(waker) = waker {
            if self.numbered.insert((number, slot), waker).is_err() {
                cx.yield_now::<()>();
            }
        }
        Registered { slot, number }
    }

    /// Leaves the task's waker for the answer of this slot. Where there is no memory, the task is polled again.
    pub(crate) fn park(&mut self, source: &Source, slot: u64, cx: &mut Context<'_>) -> Parked
        ensures under { IsParkedAt result slot }
        ensures armed { IsArmed cx.new }
        ensures heard { Hears cx.new source.now.id }
        ensures kept { Keeps cx.old cx.new }
        ensures stays { Stays self.new slot cx.old cx.new }
    {
        let mut waker = self.parked.remove(&slot);
        cx.register::<()>(source, &mut waker);
        if let Some(waker) = waker {
            if self.parked.insert(slot, waker).is_err() {
                cx.yield_now::<()>();
            }
        }
        Parked { slot }
    }

    /// Takes away what waits for the answer of this slot.
    pub(crate) fn leave(&mut self, source: &Source, slot: u64) -> (Option<Waker>, Left)
        ensures gone { tree.get nat_cmp self.new.parked slot ≡ None }
        ensures slot { result.1.slot ≡ slot }
        ensures bell { result.1.at.value ≡ source.now }
    {
        let waker = self.parked.remove(&slot);
        let at = Seen::of(source);
        (waker, Left { slot, at })
    }

    // Whoever waits for the answer of this slot waits for this number from now on. Where that was rung, or there is no memory,
    // the waker is handed out.
    fn move_on(&mut self, slot: u64, number: u64) -> Option<Waker>
        ensures gone { tree.get nat_cmp self.new.parked slot ≡ None }
        ensures goes_on { GoesOn self.old self.new slot number result }
    {
        let waker = self.parked.remove(&slot)?;
        if number <= self.rung {
            return Some(waker);
        }
        match self.numbered.insert((number, slot), waker) {
            Ok(before) => before,
            Err(refused) => Some(refused.value.1),
        }
    }

    /// The poll of this slot was answered, which may be told at this number: it waits for that from now on. Where the number
    /// was rung, or there is no memory, its waker is handed out.
    pub(crate) fn answer(
        &mut self,
        source: &Source,
        slot: u64,
        number: u64,
    ) -> (Option<Waker>, Told)
        ensures gone { tree.get nat_cmp self.new.parked slot ≡ None }
        ensures goes_on { GoesOn self.old self.new slot number result.0 }
        ensures slot { result.1.slot ≡ slot }
        ensures number { result.1.number ≡ number }
        ensures bell { result.1.at.value ≡ source.now }
    {
        let waker = self.move_on(slot, number);
        let at = Seen::of(source);
        (waker, Told { slot, number, at })
    }

    /// The parked task waits for this number from now on, as `answer` says.
    pub(crate) fn go_on(&mut self, parked: Parked, number: u64) -> (Option<Waker>, Registered)
        ensures under { IsUnder result.1 parked.slot number }
        ensures goes_on { GoesOn self.old self.new parked.slot number result.0 }
    {
        let Parked { slot } = parked;
        (self.move_on(slot, number), Registered { slot, number })
    }

    // The next that waits for this number or one below.
    fn next_up_to(&mut self, number: u64) -> Option<Waker>
        ensures none { IfNone result (AreAbove number (tree.keys self.new.numbered)) }
        ensures fewer { IfSome result (λ _. tree.btree_map_len self.new.numbered < tree.btree_map_len self.old.numbered) }
        ensures same { (self.new.parked ≡ self.old.parked) × (self.new.rung ≡ self.old.rung) }
    {
        let (least, _) = self.numbered.first_key_value()?;
        if number < least.0 {
            return None;
        }
        let (_, waker) = self.numbered.pop_first()?;
        Some(waker)
    }

    /// Takes all wakers of this number and below. One for which there is no room wakes its task here.
    pub(crate) fn take_wakers(&mut self, source: &Source, number: u64) -> (Vec<Waker>, Rung)
        // claim: Once the wakers up to a number are taken, nobody waits for it or one below. [: above, rung]
        ensures above { AreAbove number (tree.keys self.new.numbered) }
        ensures rung { self.new.rung ≡ max self.old.rung number }
        ensures parked { self.new.parked ≡ self.old.parked }
        ensures number { result.1.up_to ≡ number }
        ensures bell { result.1.at.value ≡ source.now }
    {
        let mut wakers = mem::replace(&mut self.room, Vec::new(self.alloc));
        while let Some(waker) = self.next_up_to(number) {
            if let Err(refused) = wakers.push(waker) {
                drop(refused);
            }
        }
        self.rung = self.rung.max(number);
        let at = Seen::of(source);
        let up_to = number;
        (wakers, Rung { up_to, at })
    }

    /// Takes the wakers of all polls that wait for an answer, and wakes them.
    pub(crate) fn wake_parked(&mut self, source: &Source) -> ParkedWoken
        ensures woken { self.new.parked.entries ≡ [] }
        ensures bell { result.at.value ≡ source.now }
    {
        self.parked.clear();
        ParkedWoken {
            at: Seen::of(source),
        }
    }

    /// Takes the room back that a ring had, where it is not less than what is here.
    pub(crate) fn give_back(&mut self, room: Vec<Waker>)
        requires empty { room.items ≡ [] }
        ensures numbered { self.new.numbered ≡ self.old.numbered }
        ensures parked { self.new.parked ≡ self.old.parked }
        ensures room { vec_capacity room ≤ vec_capacity self.new.room }
    {
        if self.room.capacity() < room.capacity() {
            self.room = room;
        }
    }
}
