// The steps under the lock with what was seen around each, and looks.
ghost use Rattle.std.specs.Prelude.{◌≡◌, ◌≤◌};
ghost use Rattle.broker_core.specs.Batch.{last_in};
ghost use Rattle.invoke_records.specs.Spelling.{greatest_moment};
ghost use Rattle.receipts.specs.Told.{Arrives, Moves, LendsTo, Settles, Takes, Forgets, MakesStep};
ghost use Rattle.receipts.specs.Steps.{no_steps};
ghost use Rattle.receipts.specs.Witness.{IsOfStep};

use crate::desk::{Desk, Steps};
use crate::locked::{Loan, Locked};
use crate::mark::{Mark, Trace};
use api_core::Call;
use broker_core::{Durable, Failed, Ticket, Written};
use hall_core::{HallError, Released};
use std::snapshot::Snapshot as Seen;
use std::sync::ledger::Ledger;

/// What an office answered. Proofs see beside it what stood under the lock before the call and after it, and how many steps the
/// desk had made. Those have no bytes. Only a step under the lock makes them, of itself, or a look, which is no step.
#[derive(Drop)]
pub struct Witnessed<A: Drop, L: Ledger, T: Trace = Mark> {
    pub answer: A,
    before: Seen<Locked<L, T>>,
    after: Seen<Locked<L, T>>,
    from: Seen<Steps>,
    to: Seen<Steps>,
}

impl<A: Drop, L: Ledger, T: Trace> Witnessed<A, L, T> {
    /// This answer of a look at what is under the lock.
    pub(crate) fn of_look(answer: A, locked: &Locked<L, T>) -> Witnessed<A, L, T>
        ensures answer { result.answer ≡ answer }
        ensures before { result.before.value ≡ locked.now }
        ensures after { result.after.value ≡ locked.now }
        ensures no_step { (result.from.value ≡ no_steps) × (result.to.value ≡ no_steps) }
    {
        Witnessed {
            answer,
            before: Seen::of(locked),
            after: Seen::of(locked),
            from: Steps::of_look(),
            to: Steps::of_look(),
        }
    }

    /// The answer of a step of this desk, which has just been made, and before which this was seen.
    pub(crate) fn of_step(
        answer: A,
        before: Seen<Locked<L, T>>,
        from: Seen<Steps>,
        locked: &Locked<L, T>,
        desk: &Desk<L, T>,
    ) -> Witnessed<A, L, T>
        ensures answer { result.answer ≡ answer }
        ensures seen { IsOfStep result before.value locked.now from.value desk.now.steps }
    {
        Witnessed {
            answer,
            before,
            after: Seen::of(locked),
            from,
            to: Seen::of(&desk.steps),
        }
    }

    /// The answer, and what was seen without it.
    pub fn split(self) -> (A, Witnessed<(), L, T>)
        ensures answer { result.0 ≡ self.answer }
        ensures before { result.1.before.value ≡ self.before.value }
        ensures after { result.1.after.value ≡ self.after.value }
        ensures from { result.1.from.value ≡ self.from.value }
        ensures to { result.1.to.value ≡ self.to.value }
    {
        let Witnessed {
            answer,
            before,
            after,
            from,
            to,
        } = self;
        let seen = Witnessed {
            answer: (),
            before,
            after,
            from,
            to,
        };
        (answer, seen)
    }

    /// The same beside another answer.
    pub fn with<B: Drop>(self, answer: B) -> Witnessed<B, L, T>
        ensures answer { result.answer ≡ answer }
        ensures before { result.before.value ≡ self.before.value }
        ensures after { result.after.value ≡ self.after.value }
        ensures from { result.from.value ≡ self.from.value }
        ensures to { result.to.value ≡ self.to.value }
    {
        let Witnessed {
            before,
            after,
            from,
            to,
            ..
        } = self;
        Witnessed {
            answer,
            before,
            after,
            from,
            to,
        }
    }
}

impl<L: Ledger, T: Trace> Locked<L, T> {
    /// `arrive`, and what was seen around it.
    pub(crate) fn arrive_seen(
        &mut self,
        desk: &mut Desk<L, T>,
        call: Call,
        now: u64,
        words: [u64; 2],
    ) -> Witnessed<Result<(Ticket, u64), HallError>, L, T>
        ensures arrives { Arrives result.before.value result.after.value result.from.value result.to.value
            desk.old desk.new call now words result.answer }
        ensures seen { IsOfStep result self.old self.new desk.old.steps desk.new.steps }
    {
        let before = Seen::of(self);
        let from = Seen::of(&desk.steps);
        let answer = self.arrive(desk, call, now, words);
        Witnessed::of_step(answer, before, from, self, desk)
    }

    /// `tick`, and what was seen around it.
    pub(crate) fn tick_seen(
        &mut self,
        desk: &mut Desk<L, T>,
        now: u64,
    ) -> Witnessed<Result<Option<u64>, HallError>, L, T>
        requires { now ≤ greatest_moment }
        ensures moves { Moves result.before.value result.after.value result.from.value result.to.value
            desk.old desk.new now result.answer }
        ensures seen { IsOfStep result self.old self.new desk.old.steps desk.new.steps }
    {
        let before = Seen::of(self);
        let from = Seen::of(&desk.steps);
        let answer = self.tick(desk, now);
        Witnessed::of_step(answer, before, from, self, desk)
    }

    /// `lend`, and what was seen around it.
    pub(crate) fn lend_seen(
        &mut self,
        desk: &mut Desk<L, T>,
    ) -> (Result<Loan, HallError>, Witnessed<(), L, T>)
        ensures lends { LendsTo result.1.before.value result.1.after.value result.1.from.value result.1.to.value
            desk.old desk.new result.0 }
        ensures seen { IsOfStep result.1 self.old self.new desk.old.steps desk.new.steps }
    {
        let before = Seen::of(self);
        let from = Seen::of(&desk.steps);
        let loan = self.lend(desk);
        (loan, Witnessed::of_step((), before, from, self, desk))
    }

    /// `settle`, and what was seen around it.
    pub(crate) fn settle_seen(
        &mut self,
        desk: &mut Desk<L, T>,
        outcome: Result<Written, Failed>,
    ) -> (Result<Durable, HallError>, Witnessed<(), L, T>)
        requires { desk.old.told ≤ last_in outcome }
        ensures settles { Settles result.1.before.value result.1.after.value result.1.from.value result.1.to.value
            desk.old desk.new outcome result.0 }
        ensures seen { IsOfStep result.1 self.old self.new desk.old.steps desk.new.steps }
    {
        let before = Seen::of(self);
        let from = Seen::of(&desk.steps);
        let settled = self.settle(desk, outcome);
        (settled, Witnessed::of_step((), before, from, self, desk))
    }

    /// `take`, and what was seen around it.
    pub(crate) fn take_seen(
        &mut self,
        desk: &mut Desk<L, T>,
        slot: u64,
    ) -> Witnessed<Option<Released>, L, T>
        ensures desk { MakesStep result.from.value result.to.value desk.old desk.new }
        ensures takes { Takes result.before.value result.after.value slot result.answer }
        ensures seen { IsOfStep result self.old self.new desk.old.steps desk.new.steps }
    {
        let before = Seen::of(self);
        let from = Seen::of(&desk.steps);
        let released = self.take(desk, slot);
        Witnessed::of_step(released, before, from, self, desk)
    }

    /// `forget`, and what was seen around it.
    pub(crate) fn forget_seen(&mut self, desk: &mut Desk<L, T>, slot: u64) -> Witnessed<(), L, T>
        ensures desk { MakesStep result.from.value result.to.value desk.old desk.new }
        ensures forgets { Forgets result.before.value result.after.value slot }
        ensures seen { IsOfStep result self.old self.new desk.old.steps desk.new.steps }
    {
        let before = Seen::of(self);
        let from = Seen::of(&desk.steps);
        self.forget(desk, slot);
        Witnessed::of_step((), before, from, self, desk)
    }
}
