// The committer's loop.
ghost use Rattle.std.specs.Prelude.{◌≡◌, ℕ, Bool, true, List, [], ◌∷◌, ◌++◌, None, IfSome};
ghost use Rattle.std.specs.Bool.{OnTrue, OnFalse};
ghost use Rattle.commit_loop.specs.Committer.{Step, counted, commit_step, raised, said_broken, rang, rang_all, slept};
ghost use Rattle.commit_loop.specs.Committer.{said_of, steps_of_commit, steps_of_skip, Acts, IsTurn, IsEnd, IsRun};
ghost use Rattle.commit_loop.specs.declared.gate.Turn.TheVariants.{End};

use crate::gate::{Gate, Turn};
use std::snapshot::Snapshot as Seen;
use std::sync::Wait;
use std::thread;

/// What a committer works on, by the steps that it makes. A step answers what shows that it was made: clauses
/// say of what it has to be.
pub trait Committing {
    /// What a commit made durable.
    type Durable: Drop;

    /// Why a commit failed.
    type Failure: Drop;

    /// A look at what is pending.
    type Counted: Drop;

    /// That the bell was rung for some.
    type Rung: Drop;

    /// That the bell was rung for all.
    type RungForAll: Drop;

    /// That it was said that the hall is broken.
    type SaidBroken: Drop;

    /// That one slept, or had been called.
    type Slept: Drop;

    /// What is shown of it, where its loop ran.
    type Shown;

    /// How many commands are durable.
    ghost number: { Self.Durable → ℕ };

    /// How many commands a look found pending.
    ghost count: { Self.Counted → ℕ };

    /// Its bell was rung for those that wait for so much, or less.
    ghost rings: { Self → ℕ → Self.Rung → Type 0 };

    /// Its bell was rung for all.
    ghost rings_all: { Self → Self.RungForAll → Type 0 };

    /// It was said at its bell that the hall is broken, and the hall is.
    ghost tells: { Self → Self.SaidBroken → Type 0 };

    /// It slept for as long as it may, or less.
    ghost rests: { Self → Self.Slept → Type 0 };

    /// What is shown of it.
    ghost view: { Self → Self.Shown };

    /// Whether nothing more becomes durable. Where it does not hold, a later commit may succeed.
    ghost breaks: { Self.Failure → Bool };

    /// These steps, in this order, lead from the first value to the second.
    ghost leads: { Self → List Step → Self → Type 0 };

    /// How many commands are issued and not durable.
    fn pending(&mut self) -> (usize, Self::Counted)
        // claim: A step answers what shows that it was made, and how. [: steps, shown; Committing::ring, Committing::ring_all,
        // Committing::say_broken, Committing::sleep: shown; Ticking::pending, Ticking::tick, Ticking::call, Ticking::sleep:
        // shown]
        ensures steps { leads self.old (counted result.0 ∷ []) self.new }
        ensures shown { result.0 ≡ count result.1 };

    /// Makes some of what is pending durable, or all.
    fn commit(&mut self) -> Result<Self::Durable, Self::Failure>
        ensures { leads self.old (commit_step number breaks result ∷ []) self.new };

    /// Whether nothing more becomes durable after this failure.
    fn is_broken_by(&self, why: &Self::Failure) -> bool
        ensures { result ≡ breaks why.now };

    /// Shows on the board how much is durable.
    fn raise(&mut self, durable: &Self::Durable)
        ensures { leads self.old (raised (number durable.now) ∷ []) self.new };

    /// Says that the hall is broken, as this failure shows.
    fn say_broken(&mut self, why: Self::Failure) -> Self::SaidBroken
        requires { breaks why ≡ true }
        ensures steps { leads self.old (said_broken ∷ []) self.new }
        ensures shown { tells self.old result };

    /// Rings the bell for those whose reply may be told now: they wait for so much, or less.
    fn ring(&mut self, durable: &Self::Durable) -> Self::Rung
        ensures steps { leads self.old (rang (number durable.now) ∷ []) self.new }
        ensures shown { rings self.old (number durable.now) result };

    /// Rings the bell for all that wait for a reply.
    fn ring_all(&mut self) -> Self::RungForAll
        ensures steps { leads self.old (rang_all ∷ []) self.new }
        ensures shown { rings_all self.old result };

    /// Sleeps until it is called, or has been since the last time. Where something is left to do that nobody calls for, it
    /// sleeps for a while at most.
    fn sleep(&mut self) -> Self::Slept
        ensures steps { leads self.old (slept ∷ []) self.new }
        ensures shown { rests self.old result };

    /// What is shown of it, where its loop ran.
    fn shown(&self) -> &Self::Shown
        ensures { result.now ≡ view self.now };

    /// No step leads to the same value.
    ghost stays: { (value : Self) → leads value [] value };

    /// Steps, and steps after them.
    ghost goes_on: { (first second third : Self) (before after : List Step) → leads first before second → leads second after third → leads first (before ++ after) third };
}

// Shows what a commit made durable, and then rings.
fn show<C: Committing>(committer: &mut C, durable: &C::Durable)
    ensures { C.leads committer.old (raised (C.number durable.now) ∷ rang (C.number durable.now) ∷ []) committer.new }
{
    committer.raise(durable);
    committer.ring(durable);
}

// Says that the hall is broken, and then rings for all.
fn say_broken<C: Committing>(committer: &mut C, why: C::Failure)
    requires { C.breaks why ≡ true }
    ensures { C.leads committer.old (said_broken ∷ rang_all ∷ []) committer.new }
{
    committer.say_broken(why);
    committer.ring_all();
}

// Says that the hall is broken, if it is.
fn say<C: Committing>(committer: &mut C, why: C::Failure)
    ensures { C.leads committer.old (said_of (C.breaks why)) committer.new }
{
    if committer.is_broken_by(&why) {
        say_broken(committer, why);
    }
}

// Tells of a commit that failed, and sleeps.
fn tell<C: Committing>(committer: &mut C, why: C::Failure)
    ensures { C.leads committer.old (said_of (C.breaks why) ++ slept ∷ []) committer.new }
{
    say(committer, why);
    committer.sleep();
}

// Commits, and says what became of it.
fn commit<C: Committing>(committer: &mut C)
    ensures { (outcome : _) × C.leads committer.old (steps_of_commit outcome) committer.new }
{
    match committer.commit() {
        Ok(durable) => show(committer, &durable),
        Err(why) => tell(committer, why),
    }
}

// Does nothing for now: where something is pending, the gate is asked again.
fn skip<C: Committing>(committer: &mut C, pending: usize)
    ensures { C.leads committer.old (steps_of_skip pending) committer.new }
{
    if pending == 0 {
        committer.sleep();
    } else {
        thread::yield_now();
    }
}

// Does what the gate said, with so many commands pending: whether the loop goes on.
fn act<C: Committing>(committer: &mut C, pending: usize, said: Turn) -> bool
    ensures turned { OnTrue result (Acts C.leads pending said committer.old committer.new) }
    ensures ended { OnFalse result ((said ≡ End) × C.leads committer.old [] committer.new) }
{
    match said {
        Turn::Commit => {
            commit(committer);
            true
        }
        Turn::Skip => {
            skip(committer, pending);
            true
        }
        Turn::End => false,
    }
}

// One turn. Where the gate ends the loop, what it saw.
fn turn<G: Gate, C: Committing>(gate: &G, committer: &mut C) -> Option<G::Seen>
    ensures turned { result ≡ None → IsTurn C.leads (G.says gate.now) committer.old committer.new }
    ensures ended { IfSome result (λ seen.
        IsEnd C.leads (G.says gate.now) committer.old committer.new × G.leads_to seen End) }
{
    let (pending, _counted) = committer.pending();
    let (said, seen) = gate.turn(pending);
    if act(committer, pending, said) {
        None
    } else {
        Some(seen)
    }
}

// Makes turns, until the gate ends the loop: what it saw then.
fn turn_all<R: Wait, G: Gate, C: Committing>(rt: &R, gate: &G, committer: &mut C) -> G::Seen
    ensures run { IsRun C.leads (G.says gate.now) committer.old committer.new }
    ensures seen { G.leads_to result End }
{
    for _ in rt.forever() {
        if let Some(seen) = turn(gate, committer) {
            return seen;
        }
    }
    unreachable!()
}

/// That a committer's loop ran until its gate ended it. Only the loop makes one. Proofs see in it what was shown before and after,
/// and what the gate saw when it ended the loop.
#[derive(Drop)]
pub struct CommitterRan<S, E> {
    before: Seen<S>,
    after: Seen<S>,
    seen: E,
}

/// Commits as the gate says, until the gate ends the loop. What a commit made durable is shown on the board before the bell
/// rings for those that wait for it; where it failed and the hall is broken, that is said before the bell rings for all.
/// Where nothing is pending, or a commit failed, the committer sleeps, as `Committing::sleep` says; where the gate skips what
/// is pending, it is asked again.
pub fn commit_all<R: Wait, G: Gate, C: Committing>(
    rt: &R,
    gate: &G,
    committer: &mut C,
) -> CommitterRan<C::Shown, G::Seen>
    // claim: Each turn counts what is pending and does what its gate says of that. A commit's number is raised on the
    // board, then rung. A failure that broke the hall is said, then rung for all; then it sleeps. [: run]
    ensures run { IsRun C.leads (G.says gate.now) committer.old committer.new }
    // claim: A loop hands out what shows that it ran, from what to what, and what its gate saw when it ended it. [: before,
    // after, seen; tick_all: before, after, seen]
    ensures before { result.before.value ≡ C.view committer.old }
    ensures after { result.after.value ≡ C.view committer.new }
    ensures seen { G.leads_to result.seen End }
{
    let before = Seen::of(committer.shown());
    let seen = turn_all(rt, gate, committer);
    CommitterRan {
        before,
        after: Seen::of(committer.shown()),
        seen,
    }
}
