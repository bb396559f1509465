// When the loops of a front end, and what shows it.
ghost use Rattle.std.specs.Prelude.{◌≡◌, true, IfSome};
ghost use Rattle.hall_core.specs.Hall.{pending_in, open_slot_count};
ghost use Rattle.receipts.specs.Locked.{hall_in, issuer_in};

use crate::front_state::FrontState;
use commit_loop::TickerRan;
use long_poll::SaidBroken;
use receipts::{Trace, Witnessed};
use std::snapshot::Snapshot as Seen;
use std::sync::Wait;
use std::sync::ledger::Ledger;
use tokio_util::sync::CancellationToken;

/// A look at whether the threads of a front were told to end. Only a look gives one. Proofs see in it at what.
#[derive(Drop)]
pub(crate) struct LookAtEnding {
    ends: bool,
    at: Seen<CancellationToken>,
}

impl LookAtEnding {
    /// Whether they were told.
    pub(crate) fn ends(&self) -> bool
        ensures { result ≡ self.now.ends }
    {
        self.ends
    }
}

/// That the threads of a front were told to end.
#[derive(Drop)]
pub(crate) struct ToldToEnd {
    look: LookAtEnding,
    // claim: A loop that its front ends was shown why: it was told to, or one look at a stopped hall with nothing
    // pending and no open slot, or at one said to be broken with none open. [: ends; Stopped: stops, nothing, none; Failed:
    // none; FrontState::ended]
    ghost ends: { look.ends ≡ true },
}

/// That a request had stopped the broker, that nothing was pending and that no slot was open, all at one moment.
#[derive(Drop)]
pub(crate) struct Stopped<L: Ledger, T: Trace> {
    seen: Witnessed<(), L, T>,
    ghost stops: { (hall_in seen.before.value.hall).stops ≡ true },
    ghost nothing: { pending_in (issuer_in seen.before.value.hall) ≡ 0 },
    ghost none: { open_slot_count (hall_in seen.before.value.hall) ≡ 0 },
}

/// That the disk failed, and that no slot was open after that was said.
#[derive(Drop)]
pub(crate) struct Failed<L: Ledger, T: Trace> {
    said: SaidBroken,
    seen: Witnessed<(), L, T>,
    ghost none: { open_slot_count (hall_in seen.before.value.hall) ≡ 0 },
}

/// That the committer's loop ends, whatever its gate says, and why: its threads were told to end, or nothing more becomes durable
/// and every open slot was answered or forgotten.
#[derive(Drop)]
pub(crate) enum FrontEnded<L: Ledger, T: Trace> {
    Told(ToldToEnd),
    Failed(Failed<L, T>),
    Stopped(Stopped<L, T>),
}

/// That the committer's loop ends, without why. Only what shows why gives one.
#[derive(Drop)]
pub struct FrontOver {
    over: (),
}

impl<L: Ledger, T: Trace> FrontEnded<L, T> {
    /// That it ends.
    pub(crate) fn over(self) -> FrontOver {
        drop(self);
        FrontOver { over: () }
    }
}

/// That a ticker's loop ran until its front was told to end. Only what shows that it did gives one.
#[derive(Drop)]
pub struct TickerOver {
    over: (),
}

impl TickerOver {
    /// By a loop whose gate saw that.
    pub(crate) fn of<S>(ran: TickerRan<S, LookAtEnding>) -> TickerOver
        requires { ran.seen.ends ≡ true }
    {
        drop(ran);
        TickerOver { over: () }
    }
}

/// A look at whether something is left to do that nobody calls for. Only a look gives one.
#[derive(Drop)]
pub(crate) struct LookAtRest<L: Ledger, T: Trace> {
    is_unfinished: bool,
    said: Option<SaidBroken>,
    seen: Witnessed<(), L, T>,
}

impl<L: Ledger, T: Trace> LookAtRest<L, T> {
    /// Whether something is.
    pub(crate) fn is_unfinished(&self) -> bool
        ensures { result ≡ self.now.is_unfinished }
    {
        self.is_unfinished
    }
}

impl<L: Ledger, T: Trace> FrontState<L, T> {
    ghost use Rattle.http_front.specs.Ending.{IsLookAt, IsWhyItEnds, LooksAtRest};

    /// Whether its threads were told to end.
    pub(crate) fn look_at_ending(&self) -> LookAtEnding
        ensures { IsLookAt self.now.ending result }
    {
        LookAtEnding {
            ends: self.ending.is_cancelled(),
            at: Seen::of(&self.ending),
        }
    }

    // That its threads were told to end, once they were.
    fn told_to_end(&self) -> Option<ToldToEnd>
        ensures { IfSome result (λ told. IsLookAt self.now.ending told.look) }
    {
        let look = self.look_at_ending();
        if look.ends() {
            Some(ToldToEnd { look })
        } else {
            None
        }
    }

    // That a request stopped the broker, nothing is pending and no slot is open, once one look shows all of it.
    fn stopped<R: Wait>(&self, rt: &R) -> Option<Stopped<L, T>> {
        let (rest, seen) = self.office.rest(rt).split();
        if rest.stops && rest.pending == 0 && rest.open_slots == 0 {
            Some(Stopped { seen })
        } else {
            None
        }
    }

    // A look that shows that no slot is open, once one does.
    fn none_open<R: Wait>(&self, rt: &R) -> Option<Witnessed<(), L, T>>
        ensures { IfSome result (λ seen. open_slot_count (hall_in seen.before.value.hall) ≡ 0) }
    {
        let (open, seen) = self.office.open_slots(rt).split();
        if open == 0 { Some(seen) } else { None }
    }

    // That no slot is open any more after it was said that the disk failed, once that is so.
    fn failed<R: Wait>(&self, rt: &R, said: SaidBroken) -> Option<Failed<L, T>>
        ensures { IfSome result (λ failed. failed.said ≡ said) }
    {
        let seen = self.none_open(rt)?;
        Some(Failed { said, seen })
    }

    // That all is done, once it is: the broker was stopped and nothing is pending, or its disk failed, and every open slot was
    // answered or forgotten.
    fn over<R: Wait>(&self, rt: &R) -> Option<FrontEnded<L, T>>
        ensures { IfSome result (IsWhyItEnds self.now.ending self.now.bell.value.source) }
    {
        match self.bell.said_broken() {
            Some(said) => Some(FrontEnded::Failed(self.failed(rt, said)?)),
            None => Some(FrontEnded::Stopped(self.stopped(rt)?)),
        }
    }

    /// Whether something is left to do that nobody calls for: what is pending where no commit is under way, or the end of a front
    /// that is stopped or broken, once the last of its replies was told.
    pub(crate) fn look_at_rest<R: Wait>(&self, rt: &R) -> LookAtRest<L, T>
        ensures { LooksAtRest self.now.bell.value.source result }
    {
        let (rest, seen) = self.office.rest(rt).split();
        let said = self.bell.said_broken();
        LookAtRest {
            is_unfinished: rest.stops || rest.pending > 0 || said.is_some(),
            said,
            seen,
        }
    }

    /// That the committer's loop ends now, and why, if it does: the threads were told to end, or all is done.
    pub(crate) fn ended<R: Wait>(&self, rt: &R) -> Option<FrontEnded<L, T>>
        ensures { IfSome result (IsWhyItEnds self.now.ending self.now.bell.value.source) }
    {
        match self.told_to_end() {
            Some(why) => Some(FrontEnded::Told(why)),
            None => self.over(rt),
        }
    }
}
