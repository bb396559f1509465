// The clock that a broker goes by, which may hold a jump ahead back.
ghost use Rattle.std.specs.Prelude.{◌≡◌, ◌≤◌, ◌+◌, ◌-◌, ◌/◌, ◌^◌, ◌<◌, ◌⊎◌, min, max, Some, None, IfOk, IfSome};
ghost use Rattle.std.specs.Duration.{as_nanos};
ghost use Rattle.port_meters.specs.Holding.{expected, IsJump};
ghost use Rattle.std.specs.Time.{instant_nanos, system_time_nanos, FitsClock};

use crate::moment::{Moment, NoClock};
use std::sync::atomic::{AtomicU64, Ordering};
use std::sync::{Mutex, Wait};
use std::time::{Clock, Duration, Instant};

/// What the clock has to be set ahead by so that it is held back, in milliseconds: an hour.
const LEAST_JUMP: u64 = 3_600_000;

/// What was told of the clock at a look.
#[derive(Clone, Copy)]
struct Told {
    // In milliseconds since 1970.
    at: u64,
    // When that was, by a clock that nobody sets.
    steady: Instant,
    // Since when the clock has been ahead of what is told, where it is held back.
    held_since: Option<Instant>,
    // The greatest moment that was told up to now: no event was accepted before it that was not judged by it.
    greatest: u64,
}

/// How a clock is held back, in milliseconds. Both are 0 where it is not.
#[derive(Clone, Copy)]
pub struct HeldBack {
    /// By how much the system's clock is ahead of the moment that is told.
    pub ahead: u64,
    /// For how long it is held back yet.
    pub left: u64,
}

// So long in milliseconds.
fn millis_in(duration: Duration) -> u64
    ensures { result ≡ min (as_nanos duration / 1_000_000) (2 ^ 64 - 1) }
{
    u64::try_from(duration.as_millis()).unwrap_or(u64::MAX)
}

impl Told {
    // What the clock shows is told, after such a greatest moment.
    fn shown(at: u64, steady: Instant, greatest: u64) -> Told
        ensures at { result.at ≡ at }
        ensures steady { result.steady ≡ steady }
        ensures free { result.held_since ≡ None }
        ensures greatest { result.greatest ≡ max greatest at }
    {
        Told {
            at,
            steady,
            held_since: None,
            greatest: greatest.max(at),
        }
    }

    // What is to be told now, where the clock was not set.
    fn expected(&self, steady: Instant) -> u64
        ensures { result ≡ min (expected self.now steady) (2 ^ 64 - 1) }
    {
        let gone = millis_in(steady.saturating_duration_since(self.steady));
        self.at.saturating_add(gone)
    }

    // What is told where the clock shows this now: what was to be expected, where that and the greatest moment that was told are more
    // than an hour behind it, and have not been for so long as the grace is; else what it shows.
    fn next(self, shown: u64, steady: Instant, grace: Duration) -> Told
        // claim: A clock is held back where it shows more than an hour more than is to be expected and ever was told, and for less than
        // the grace; else what it shows is told. [: holds, goes_on, ahead, caught_up, brief, free; HeldClock::now]
        ensures holds { IsJump self shown steady → self.held_since ≡ None → 0 < as_nanos grace → result.at ≡ expected self steady }
        ensures goes_on { IfSome self.held_since (λ since. IsJump self shown steady
            → instant_nanos steady - instant_nanos since < as_nanos grace
            → (result.at ≡ expected self steady) × (result.held_since ≡ Some since)) }
        ensures ahead { (result.at ≡ shown) ⊎ (result.at + 3600000 < shown) }
        ensures caught_up { shown ≤ self.greatest + 3600000 → result.at ≡ shown }
        ensures greatest { result.greatest ≡ max self.greatest result.at }
        ensures brief { IfSome result.held_since (λ since. instant_nanos steady - instant_nanos since < as_nanos grace) }
        ensures free { result.held_since ≡ None → result.at ≡ shown }
        ensures steady { result.steady ≡ steady }
    {
        let expected = self.expected(steady);
        if shown.saturating_sub(expected.max(self.greatest)) <= LEAST_JUMP {
            return Told::shown(shown, steady, self.greatest);
        }
        let since = self.held_since.unwrap_or(steady);
        let held = steady.saturating_duration_since(since);
        if grace.as_nanos() <= held.as_nanos() {
            return Told::shown(shown, steady, self.greatest);
        }
        Told {
            at: expected,
            steady,
            held_since: Some(since),
            greatest: self.greatest.max(expected),
        }
    }

    // How the clock is held back that shows this.
    fn held_back(&self, shown: u64, grace: Duration) -> HeldBack
        ensures free { self.now.held_since ≡ None → result ≡ record { ahead = 0; left = 0 } }
        ensures held { (self.now.held_since ≡ None → ⊥) → result.ahead ≡ shown - self.now.at }
    {
        let Some(since) = self.held_since else {
            return HeldBack { ahead: 0, left: 0 };
        };
        let held = millis_in(self.steady.saturating_duration_since(since));
        HeldBack {
            ahead: shown.saturating_sub(self.at),
            left: millis_in(grace).saturating_sub(held),
        }
    }
}

/// The clock that a broker goes by: the system's, where that is not held back. Where it was set ahead by more than an hour between two
/// looks, it goes on from what it showed before for as long as the grace is, and then by what it shows. What comes to the greatest moment
/// that was told, or less than an hour behind that, is believed at once: a clock that was set back, and is set right again.
#[derive(Drop)]
pub(crate) struct HeldClock {
    grace: Duration,
    told: Mutex<Option<Told>>,
    // How it was held back at the last look.
    ahead: AtomicU64,
    left: AtomicU64,
}

impl HeldClock {
    /// A clock that is held back for so long. Without a grace it never is.
    pub(crate) fn new(grace: Duration) -> HeldClock
        ensures { result.grace ≡ grace }
    {
        HeldClock {
            grace,
            told: Mutex::new(None),
            ahead: AtomicU64::new(0),
            left: AtomicU64::new(0),
        }
    }

    /// How it was held back at the last look.
    pub(crate) fn held_back(&self) -> HeldBack {
        HeldBack {
            ahead: self.ahead.load(Ordering::SeqCst),
            left: self.left.load(Ordering::SeqCst),
        }
    }

    fn note(&self, held: HeldBack) {
        self.ahead.store(held.ahead, Ordering::SeqCst);
        self.left.store(held.left, Ordering::SeqCst);
    }

    // What is told where the clock shows this: it is remembered for the next look.
    fn tell<R: Wait>(&self, rt: &R, shown: u64, steady: Instant) -> u64 {
        let mut last = self.told.lock(rt);
        let told = match *last {
            Some(last) => last.next(shown, steady, self.grace),
            None => Told::shown(shown, steady, shown),
        };
        *last = Some(told);
        self.note(told.held_back(shown, self.grace));
        told.at
    }

    /// The moment now, by this clock. There is none where the clock cannot be read, or shows a time before 1970.
    pub(crate) fn now<R: Wait + Clock>(&self, rt: &R) -> Result<Moment, NoClock>
        ensures { IfOk result (λ moment. FitsClock (system_time_nanos moment.shown)) }
    {
        let shown = Moment::now(rt)?;
        if self.grace.is_zero() {
            return Ok(shown);
        }
        let Ok(steady) = Instant::now(rt) else {
            return Ok(shown);
        };
        let told = self.tell(rt, shown.millis(), steady);
        Ok(shown.before(shown.millis().saturating_sub(told)))
    }
}
