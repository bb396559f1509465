// The ticker: what its loop works on.
ghost use Rattle.std.specs.Prelude.{◌≡◌, ◌≤◌, ◌+◌, [], ◌∷◌, ◌++◌, length, map, sum_by, false, IfOk, IfErr};
ghost use Rattle.hall_core.specs.Hall.{pending_in};
ghost use Rattle.commit_loop.specs.Ticker.{Step, ticked, IsRun};
ghost use Rattle.commit_loop.specs.declared.gate.Turn.TheVariants.{End};
ghost use Rattle.receipts.specs.Locked.{hall_in, issuer_in};
ghost use Rattle.http_front.specs.Marking.{is_made, HasMarked, KeepsQuiet};
ghost use Rattle.http_front.specs.Trying.{quiet_of, Finds, IsStep, ShowsTry};
ghost use Rattle.http_front.specs.Resting.{pause_until, IsPauseAt, IsRest};
ghost use Rattle.port_meters.specs.Moments.{millis_in};
ghost use Rattle.http_front.specs.laws.Marked.{marked_nothing, marked_more, quiet_at_first, quiet_more};

use crate::front_state::FrontState;
use crate::resets::note_timeout;
use crate::resting::TickerSlept;
use crate::tried::{Looked, Tried};
use crate::wake::{Called, pause};
use commit_loop::{Gate, TickerRan, Ticking};
use port_meters::{Moment, NoClock};
use receipts::{Desk, Trace, Witnessed};
use std::io::Eprint;
use std::sync::Wait;
use std::sync::ledger::Ledger;
use std::time::Clock;

/// How long the ticker sleeps at most, in milliseconds. A command makes nothing due sooner than so long after it, but for what is
/// due at once, and for what then grows too old: for that the ticker is called.
const MOST_PAUSE: u64 = 1000;

/// How long it sleeps at most where a move was refused, or the clock cannot be read, in milliseconds.
const RETRY_PAUSE: u64 = 100;

// A ticker at a front.
#[derive(Drop)]
struct TickerAtFront<'a, R, L: Ledger, T: Trace> {
    rt: &'a R,
    front: &'a FrontState<L, T>,
    desk: Desk<L, T>,
    /// The moment at which it was found last that no move is due. None where that is not known.
    quiet_at: Option<Moment>,
}

// The moment of a look, where no move was due.
fn quiet_at<L: Ledger, T: Trace>(looked: &Result<Looked<L, T>, NoClock>) -> Option<Moment>
    ensures { result ≡ quiet_of looked.now }
{
    match looked {
        Ok(looked) => match looked.tried {
            Tried::NothingDue => Some(looked.at),
            _ => None,
        },
        Err(_) => None,
    }
}

// From now until a moment, in milliseconds, where there is one, and a second at most.
fn pause_until(next: Option<u128>, now: u64) -> u64
    ensures { result ≡ pause_until next now }
{
    match next {
        Some(next) => {
            let left = next.saturating_sub(u128::from(now));
            left.min(u128::from(MOST_PAUSE)) as u64
        }
        None => MOST_PAUSE,
    }
}

// How long the ticker sleeps from now on, where no move was due at an earlier moment.
fn pause_at<R: Wait, L: Ledger, T: Trace>(
    rt: &R,
    front: &FrontState<L, T>,
    quiet: Moment,
    now: u64,
) -> Witnessed<u64, L, T>
    ensures { IsPauseAt (hall_in result.before.value.hall) (millis_in quiet.shown) now result.answer }
{
    let (next, seen) = front.office.next_moment(rt, quiet.millis()).split();
    seen.with(pause_until(next, now))
}

// Sleeps until the next moment, or until it is called, where no move was due at an earlier one; else not for long.
fn sleep<R: Wait + Clock, L: Ledger, T: Trace>(
    rt: &R,
    front: &FrontState<L, T>,
    quiet: Option<Moment>,
) -> TickerSlept<L, T>
    // claim: Where none was due by a clock, the ticker sleeps at most to the next moment by its look, or a second; else a
    // tenth of one. The committer sleeps until it is called; where its look finds something left, a tenth at most.
    // [pause_at, sleep_for; sleep_by_look]
    ensures { IsRest front.now.ticker_wake.source quiet result }
{
    let Some(quiet) = quiet else {
        return TickerSlept::Unknown(pause(rt, RETRY_PAUSE));
    };
    match front.premises.moment(rt) {
        Ok(now) => {
            let (millis, seen) = pause_at(rt, front, quiet, now.millis()).split();
            let slept = front.ticker_wake.wait_at_most(rt, millis);
            TickerSlept::Until(seen, now, slept)
        }
        Err(none) => TickerSlept::Blind(none, pause(rt, RETRY_PAUSE)),
    }
}

// Makes a move that is due at this moment: what came of that. The bell is told which parked polls it answered, and who keeps
// a log, which environment was reset.
fn make_move<R: Wait + Eprint, L: Ledger, T: Trace>(
    rt: &R,
    front: &FrontState<L, T>,
    desk: &mut Desk<L, T>,
    at: Moment,
) -> Witnessed<Tried, L, T>
    // claim: Where it makes no move though the clock told a moment, none was due in the hall that it met by one step, or
    // there is a reason there. [: finds, step; tick: finds, step]
    ensures marked { HasMarked (length (map T.mark desk.old.own.items)) (ticked (is_made result.answer) ∷ [])
        (length (map T.mark desk.new.own.items)) }
    ensures finds { Finds (hall_in result.before.value.hall) desk.old.told (millis_in at.shown) result.answer }
    ensures step { IsStep desk.old.steps desk.new.steps result.from.value result.to.value }
    ensures told { is_made result.answer ≡ false → desk.new.told ≡ desk.old.told }
{
    let (answer, seen) = front.office.tick(rt, desk, at.millis()).split();
    match answer {
        Ok(Some(number)) => {
            let answered = desk.take_answered();
            front.bell.answer(rt, &answered, number);
            note_timeout(rt, front.premises.lines(), desk.issued());
            seen.with(Tried::Made)
        }
        Ok(None) => seen.with(Tried::NothingDue),
        Err(_) => seen.with(Tried::Refused),
    }
}

// Makes a move that is due now: whether it made one, and what shows it. Where the clock cannot be read none is made.
fn tick<R: Wait + Clock + Eprint, L: Ledger, T: Trace>(
    rt: &R,
    front: &FrontState<L, T>,
    desk: &mut Desk<L, T>,
) -> (bool, Result<Looked<L, T>, NoClock>)
    ensures marked { HasMarked (length (map T.mark desk.old.own.items)) (ticked result.0 ∷ [])
        (length (map T.mark desk.new.own.items)) }
    ensures made { IfOk result.1 (λ looked. result.0 ≡ is_made looked.tried) }
    ensures none { IfErr result.1 (λ _. result.0 ≡ false) }
    ensures finds { IfOk result.1 (λ looked.
        Finds (hall_in looked.seen.before.value.hall) desk.old.told (millis_in looked.at.shown) looked.tried) }
    ensures step { IfOk result.1 (λ looked. IsStep desk.old.steps desk.new.steps looked.seen.from.value looked.seen.to.value) }
    ensures told { result.0 ≡ false → desk.new.told ≡ desk.old.told }
{
    match front.premises.moment(rt) {
        Ok(at) => {
            let (tried, seen) = make_move(rt, front, desk, at).split();
            (tried.is_made(), Ok(Looked { seen, at, tried }))
        }
        Err(none) => (false, Err(none)),
    }
}

impl<R: Wait + Clock + Eprint, L: Ledger, T: Trace> Ticking for TickerAtFront<'_, R, L, T> {
    type Counted = Witnessed<(), L, T>;

    type Looked = Result<Looked<L, T>, NoClock>;

    type Called = Called;

    type Slept = TickerSlept<L, T>;

    type Shown = Desk<L, T>;

    ghost count = { λ seen. pending_in (issuer_in seen.before.value.hall) };

    ghost shows = { λ at looked moved. ShowsTry at.quiet_at at.desk.told at.desk.steps looked moved };

    ghost calls = { λ at called. called.at.value ≡ at.front.now.wake.source };

    ghost view = { λ at. at.desk };

    ghost rests = { λ at slept. IsRest at.front.now.ticker_wake.source at.quiet_at slept };

    ghost leads = { λ old steps new.
        HasMarked (length (map T.mark old.desk.own.items)) steps (length (map T.mark new.desk.own.items))
        × KeepsQuiet old.quiet_at steps new.quiet_at };

    fn pending(&mut self) -> (usize, Witnessed<(), L, T>) {
        self.front.office.pending(self.rt).split()
    }

    fn tick(&mut self) -> (bool, Result<Looked<L, T>, NoClock>) {
        let (moved, looked) = tick(self.rt, self.front, &mut self.desk);
        self.quiet_at = quiet_at(&looked);
        (moved, looked)
    }

    fn call(&mut self) -> Called {
        self.front.wake.call(self.rt)
    }

    fn sleep(&mut self) -> TickerSlept<L, T> {
        sleep(self.rt, self.front, self.quiet_at)
    }

    fn shown(&self) -> &Desk<L, T> {
        &self.desk
    }

    ghost stays = { λ value. (
      marked_nothing (length (map T.mark value.desk.own.items)),
      quiet_at_first value.quiet_at,
    ) };

    ghost goes_on = { λ first second third before after one two. (
      marked_more
          (length (map T.mark first.desk.own.items))
          (length (map T.mark second.desk.own.items))
          (length (map T.mark third.desk.own.items))
          before after one.0 two.0,
      quiet_more first.quiet_at second.quiet_at third.quiet_at before after one.1 two.1,
    ) };
}

/// Makes the moves that are due, where the gate says `Commit`, calls the committer if there was one, and sleeps until the next
/// moment at which one may be due, for a second at most; at `Skip` it only sleeps. At `End` it gives its desk back, with a mark of
/// each move that it made, and what shows that its loop ran. An environment that a move resets is told on standard error.
pub fn tick_all<R: Wait + Clock + Eprint, L: Ledger, T: Trace, G: Gate>(
    rt: &R,
    front: &FrontState<L, T>,
    desk: Desk<L, T>,
    gate: &G,
) -> (Desk<L, T>, TickerRan<Desk<L, T>, G::Seen>)
    // claim: As far as its desk shows, a ticker did at each turn what its gate said. The desk has a mark more for each move.
    // [: learned; make_move, tick: marked]
    ensures learned { IsRun HasMarked (G.says gate.now) (length (map T.mark desk.own.items)) (length (map T.mark result.0.own.items)) }
    ensures before { result.1.before.value ≡ desk }
    ensures after { result.1.after.value ≡ result.0 }
    ensures seen { G.leads_to result.1.seen End }
{
    let mut at = TickerAtFront {
        rt,
        front,
        desk,
        quiet_at: None,
    };
    let ran = commit_loop::tick_all(rt, gate, &mut at);
    let TickerAtFront { desk, .. } = at;
    (desk, ran)
}
