// The ticker's loop.
ghost use Rattle.std.specs.Prelude.{◌≡◌, ℕ, Bool, List, [], ◌∷◌, ◌++◌, nat_lt, None, IfSome};
ghost use Rattle.std.specs.Bool.{OnTrue, OnFalse};
ghost use Rattle.commit_loop.specs.Ticker.{Step, counted, ticked, called, slept};
ghost use Rattle.commit_loop.specs.Ticker.{steps_of_moves, steps_of_call, Acts, IsTurn, IsEnd, IsRun};
ghost use Rattle.commit_loop.specs.declared.gate.Turn.TheVariants.{End};

use crate::gate::{Gate, Turn};
use std::snapshot::Snapshot as Seen;
use std::sync::Wait;

/// What a ticker works on, by the steps that it makes. Each step answers what shows that it was made: clauses say of what
/// it has to be.
pub trait Ticking {
    /// A look at what is pending.
    type Counted: Drop;

    /// A look for a move that is due.
    type Looked: Drop;

    /// That the committer was called.
    type Called: Drop;

    /// That one slept.
    type Slept: Drop;

    /// What is shown of it, where its loop ran.
    type Shown;

    /// How many commands a look found pending.
    ghost count: { Self.Counted → ℕ };

    /// The look, of which it keeps what it has to, shows that a move was made, or that none was due.
    ghost shows: { Self → Self.Looked → Bool → Type 0 };

    /// Its committer was called.
    ghost calls: { Self → Self.Called → Type 0 };

    /// It slept for as long as it may by what it knows, or less.
    ghost rests: { Self → Self.Slept → Type 0 };

    /// What is shown of it.
    ghost view: { Self → Self.Shown };

    /// These steps, in this order, lead from the first value to the second.
    ghost leads: { Self → List Step → Self → Type 0 };

    /// How many commands are issued and not durable.
    fn pending(&mut self) -> (usize, Self::Counted)
        ensures steps { leads self.old (counted result.0 ∷ []) self.new }
        ensures shown { result.0 ≡ count result.1 };

    /// Makes one move that is due: whether it made one.
    fn tick(&mut self) -> (bool, Self::Looked)
        ensures steps { leads self.old (ticked result.0 ∷ []) self.new }
        ensures shown { shows self.new result.1 result.0 };

    /// Calls the committer.
    fn call(&mut self) -> Self::Called
        ensures steps { leads self.old (called ∷ []) self.new }
        ensures shown { calls self.old result };

    /// Sleeps until the next turn: as long as no move is due, or less.
    fn sleep(&mut self) -> Self::Slept
        ensures steps { leads self.old (slept ∷ []) self.new }
        ensures shown { rests self.old result };

    /// What is shown of it, where its loop ran.
    fn shown(&self) -> &Self::Shown
        ensures { result.now ≡ view self.now };

    /// No step leads to the same value.
    ghost stays: { (value : Self) → leads value [] value };

    /// Steps, and steps after them.
    ghost goes_on: { (first second third : Self) (before after : List Step) → leads first before second → leads second after third → leads first (before ++ after) third };
}

// Makes the moves that are due: whether it made one.
fn make_moves<R: Wait, T: Ticking>(rt: &R, ticker: &mut T) -> bool
    ensures { (made : ℕ) × (result ≡ nat_lt 0 made) × T.leads ticker.old (steps_of_moves made) ticker.new }
{
    let mut any = false;
    for _ in rt.forever() {
        let (moved, _looked) = ticker.tick();
        if !moved {
            break;
        }
        any = true;
    }
    any
}

// Calls the committer, where a move was made.
fn call<T: Ticking>(ticker: &mut T, moved: bool)
    ensures { T.leads ticker.old (steps_of_call moved) ticker.new }
{
    if moved {
        ticker.call();
    }
}

// Does what the gate said: whether the loop goes on.
fn act<R: Wait, T: Ticking>(rt: &R, ticker: &mut T, said: Turn) -> bool
    ensures turned { OnTrue result (Acts T.leads said ticker.old ticker.new) }
    ensures ended { OnFalse result ((said ≡ End) × T.leads ticker.old [] ticker.new) }
{
    match said {
        Turn::Commit => {
            let moved = make_moves(rt, ticker);
            call(ticker, moved);
            ticker.sleep();
            true
        }
        Turn::Skip => {
            ticker.sleep();
            true
        }
        Turn::End => false,
    }
}

// One turn. Where the gate ends the loop, what it saw.
fn turn<R: Wait, G: Gate, T: Ticking>(rt: &R, gate: &G, ticker: &mut T) -> Option<G::Seen>
    ensures turned { result ≡ None → IsTurn T.leads (G.says gate.now) ticker.old ticker.new }
    ensures ended { IfSome result (λ seen.
        IsEnd T.leads (G.says gate.now) ticker.old ticker.new × G.leads_to seen End) }
{
    let (pending, _counted) = ticker.pending();
    let (said, seen) = gate.turn(pending);
    if act(rt, ticker, said) {
        None
    } else {
        Some(seen)
    }
}

// Makes turns, until the gate ends the loop: what it saw then.
fn turn_all<R: Wait, G: Gate, T: Ticking>(rt: &R, gate: &G, ticker: &mut T) -> G::Seen
    ensures run { IsRun T.leads (G.says gate.now) ticker.old ticker.new }
    ensures seen { G.leads_to result End }
{
    for _ in rt.forever() {
        if let Some(seen) = turn(rt, gate, ticker) {
            return seen;
        }
    }
    unreachable!()
}

/// That a ticker's loop ran until its gate ended it. Only the loop makes one. Proofs see in it what was shown before and after, and
/// what the gate saw when it ended the loop.
#[derive(Drop)]
pub struct TickerRan<S, E> {
    before: Seen<S>,
    after: Seen<S>,
    seen: E,
}

/// At each turn makes all moves that are due, where the gate says `Commit`, calls the committer if there was one, and sleeps; at
/// `Skip` it only sleeps. It goes on until the gate ends the loop.
pub fn tick_all<R: Wait, G: Gate, T: Ticking>(
    rt: &R,
    gate: &G,
    ticker: &mut T,
) -> TickerRan<T::Shown, G::Seen>
    // claim: Where its gate says `Commit`, a turn makes moves until one is not made, calls the committer if one was, and
    // sleeps. At `Skip` it sleeps. [: run]
    ensures run { IsRun T.leads (G.says gate.now) ticker.old ticker.new }
    ensures before { result.before.value ≡ T.view ticker.old }
    ensures after { result.after.value ≡ T.view ticker.new }
    ensures seen { G.leads_to result.seen End }
{
    let before = Seen::of(ticker.shown());
    let seen = turn_all(rt, gate, ticker);
    TickerRan {
        before,
        after: Seen::of(ticker.shown()),
        seen,
    }
}
