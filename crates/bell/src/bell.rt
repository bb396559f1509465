// The bell: tasks register there, and a ring wakes those that can go on.
ghost use Rattle.std.specs.Prelude.{◌≡◌, ◌<◌, ◌+◌, length, slice_index, IfSome};
ghost use Rattle.futures.specs.Task.{Hears, IsArmed, Keeps};
ghost use Rattle.receipts.specs.declared.broken_hall.BrokenHall.{BrokenHall};

use crate::waiters::{Left, Parked, ParkedWoken, Registered, Rung, Told, Waiters};
use broker_core::Durable;
use futures::task::{Context, Source};
use receipts::BrokenHall;
use std::alloc::Global;
use std::snapshot::Snapshot as Seen;
use std::sync::{Mutex, OnceLock, Wait};

/// That a bell was rung for all that wait, parked polls too. Only such a ring gives it.
#[derive(Drop)]
pub struct RungForAll {
    rung: Rung,
    parked: ParkedWoken,
}

// That a hall is broken: what a bell keeps of what showed it.
#[derive(Drop)]
struct Broke {
    shown: (),
    // claim: A bell says that a hall broke only of one that was shown to be broken.
    ghost hall: { ∥ BrokenHall ∥₁ },
}

impl Broke {
    // What this shows.
    fn of(broken: &BrokenHall) -> Broke {
        let _ = broken;
        Broke { shown: () }
    }
}

/// That it was said at a bell that the hall broke. Only the bell gives it, of a broken hall that was shown there. Proofs see in it of
/// which bell.
#[derive(Drop)]
pub struct SaidBroken {
    at: Seen<Source>,
    by: Seen<Broke>,
}

/// That so many polls, one after the other, were told at a bell that they were answered, which may be told once this number is
/// durable. Only telling each makes it.
#[derive(Drop)]
pub struct Answered {
    count: usize,
    number: u64,
    at: Seen<Source>,
}

impl Answered {
    // Nobody was told.
    fn none(source: &Source, number: u64) -> Answered
        ensures count { result.count ≡ 0 }
        ensures number { result.number ≡ number }
        ensures bell { result.at.value ≡ source.now }
    {
        Answered {
            count: 0,
            number,
            at: Seen::of(source),
        }
    }

    // The next of these slots was told too.
    fn and(self, slots: &[u64], told: Told) -> Answered
        requires more { self.count < length slots.now }
        requires slot { told.slot ≡ slice_index slots.now self.count }
        requires number { told.number ≡ self.number }
        requires bell { told.at.value ≡ self.at.value }
        ensures count { result.count ≡ self.count + 1 }
        ensures number { result.number ≡ self.number }
        ensures bell { result.at.value ≡ self.at.value }
    {
        let _ = slots;
        drop(told);
        let Answered { count, number, at } = self;
        Answered {
            count: count + 1,
            number,
            at,
        }
    }
}

/// Tasks wait here, each for a slot: for a number that has to be durable, or, where it is a parked poll, for its answer.
/// It also says whether the hall broke.
#[derive(Drop)]
pub struct Bell {
    source: Source,
    /// That the hall broke, once that was said. No clause says what a lock holds.
    broke: OnceLock<Broke>,
    waiters: Mutex<Waiters>,
}

impl Bell {
    ghost use Rattle.bell.specs.Bell.{IsUnder, IsParkedAt, source_of};

    /// A bell that nobody waits at, where so much is durable. It takes no memory.
    pub fn new(alloc: Global, durable: Durable) -> Bell {
        Bell {
            source: Source::new(),
            broke: OnceLock::new(),
            waiters: Mutex::new(Waiters::new(alloc, durable.number())),
        }
    }

    /// Registers the task for this slot: the next ring of this number or above wakes it. Where that was rung, or there is no
    /// memory, the task is polled again at once.
    pub fn register<R: Wait>(
        &self,
        rt: &R,
        slot: u64,
        number: u64,
        cx: &mut Context<'_>,
    ) -> Registered
        // claim: A task that registers or parks does so for just its slot, and hears this bell. [: under, armed, heard; Bell::park:
        // under, armed, heard]
        ensures under { IsUnder result slot number }
        ensures armed { IsArmed cx.new }
        ensures heard { Hears cx.new (source_of self.now) }
        ensures kept { Keeps cx.old cx.new }
    {
        self.waiters
            .lock(rt)
            .register(&self.source, slot, number, cx)
    }

    /// Registers the task for the answer of this slot: once that is told here, the task waits for its number. Where there is
    /// no memory, the task is polled again at once.
    pub fn park<R: Wait>(&self, rt: &R, slot: u64, cx: &mut Context<'_>) -> Parked
        ensures under { IsParkedAt result slot }
        ensures armed { IsArmed cx.new }
        ensures heard { Hears cx.new (source_of self.now) }
        ensures kept { Keeps cx.old cx.new }
    {
        self.waiters.lock(rt).park(&self.source, slot, cx)
    }

    /// The parked task waits for this number from now on: the next ring of it or above wakes it, or it is woken now, if that
    /// was rung.
    pub fn go_on<R: Wait>(&self, rt: &R, parked: Parked, number: u64) -> Registered
        ensures { IsUnder result parked.slot number }
    {
        let (waker, registered) = self.waiters.lock(rt).go_on(parked, number);
        drop(waker);
        registered
    }

    /// Nobody waits for the answer of this slot any more.
    pub fn leave<R: Wait>(&self, rt: &R, slot: u64) -> Left
        ensures slot { result.slot ≡ slot }
        ensures bell { result.at.value ≡ self.now.source }
    {
        let (waker, left) = self.waiters.lock(rt).leave(&self.source, slot);
        drop(waker);
        left
    }

    // The poll of this slot was answered, which may be told once this number is durable.
    fn tell<R: Wait>(&self, rt: &R, slot: u64, number: u64) -> Told
        ensures slot { result.slot ≡ slot }
        ensures number { result.number ≡ number }
        ensures bell { result.at.value ≡ self.now.source }
    {
        let (waker, told) = self.waiters.lock(rt).answer(&self.source, slot, number);
        drop(waker);
        told
    }

    /// The polls of these slots were answered, which may be told once this number is durable. Those of them that are parked
    /// here are woken by a ring of it, or now, if it was rung.
    pub fn answer<R: Wait>(&self, rt: &R, slots: &[u64], number: u64) -> Answered
        // claim: Each answered poll is told, in turn, with the number.
        ensures all { result.count ≡ length slots.now }
        ensures number { result.number ≡ number }
        ensures bell { result.at.value ≡ self.now.source }
    {
        let mut answered = Answered::none(&self.source, number);
        for slot in slots {
            let told = self.tell(rt, *slot, number);
            answered = answered.and(slots, told);
        }
        answered
    }

    /// Wakes the tasks that wait for what is durable now. A waker wakes its task when it is dropped, which happens outside
    /// the lock.
    pub fn ring<R: Wait>(&self, rt: &R, durable: Durable) -> Rung
        // claim: What shows a ring, or that a hall was said to be broken, names its bell. [: number, bell; Bell::ring_all:
        // number, bell; Bell::say_broken; Bell::said_broken]
        ensures number { result.up_to ≡ durable }
        ensures bell { result.at.value ≡ self.now.source }
    {
        self.ring_up_to(rt, durable.number())
    }

    /// Wakes all tasks. Each that registers from now on is polled again at once.
    pub fn ring_all<R: Wait>(&self, rt: &R) -> RungForAll
        ensures number { result.rung.up_to ≡ 18446744073709551615 }
        ensures bell { result.rung.at.value ≡ self.now.source }
        ensures parked { result.parked.at.value ≡ self.now.source }
    {
        let rung = self.ring_up_to(rt, u64::MAX);
        let parked = self.waiters.lock(rt).wake_parked(&self.source);
        RungForAll { rung, parked }
    }

    // Wakes the tasks that wait for this number or one below.
    fn ring_up_to<R: Wait>(&self, rt: &R, number: u64) -> Rung
        ensures number { result.up_to ≡ number }
        ensures bell { result.at.value ≡ self.now.source }
    {
        let (mut wakers, rung) = self.waiters.lock(rt).take_wakers(&self.source, number);
        wakers.clear();
        self.waiters.lock(rt).give_back(wakers);
        rung
    }

    // That it was said here, by this.
    fn said_by(&self, broke: &Broke) -> SaidBroken
        ensures { result.at.value ≡ self.now.source }
    {
        SaidBroken {
            at: Seen::of(&self.source),
            by: Seen::of(broke),
        }
    }

    /// Says that the hall broke, which this shows, before a ring: every poll then asks the office. Where it was said before, that
    /// stays.
    pub fn say_broken(&self, broken: BrokenHall) -> SaidBroken
        ensures { result.at.value ≡ self.now.source }
    {
        let broke = Broke::of(&broken);
        let said = self.said_by(&broke);
        let _ = self.broke.try_set(broke);
        said
    }

    /// What shows that it was said that the hall broke, once it was.
    pub fn said_broken(&self) -> Option<SaidBroken>
        ensures { IfSome result (λ said. said.at.value ≡ self.now.source) }
    {
        Some(self.said_by(self.broke.get()?))
    }
}
