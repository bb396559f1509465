// How long a commit waits for those who ask at the same time.
use receipts::{Office, Trace};
use std::sync::Wait;
use std::sync::ledger::Ledger;
use std::thread;
use std::time::{Clock, Duration, Instant};

/// How long behind the last commit a wait ends at most, in microseconds.
const MOST_MICROS: u64 = 2400;

/// Behind a commit that took less than that, in microseconds, nobody is waited for: a sleep may take as long as a flush.
const LEAST_MICROS: u64 = 1000;

/// A wait ends where nobody came for so long behind the last who did, in microseconds.
const QUIET_MICROS: u64 = 250;

/// How long a sleep between two looks is at least, in microseconds.
const PAUSE_MICROS: u64 = 20;

/// How many looks a commit waits for at most, whatever the clock says.
const MOST_LOOKS: u64 = 1000;

/// How many a commit waits for at most: with these it is worth its flushes.
const MOST_AWAITED: u64 = 16;

/// How many commits do not wait, since one waited in vain.
const MOST_PASSES: u8 = 8;

/// What the last commit tells of the next one. Those who were answered by it ask again soon, each once its reply has come. Whoever
/// asks behind the start of a flush waits for three in place of two. So the next commit waits for all of them, where few are half
/// committed beside them: these want the next flush, and are waited for in their turn. So all come to go on together.
#[derive(Clone, Copy)]
pub(crate) struct Gathering {
    /// When the last commit may have begun, as far as the clock says.
    begun: Option<Instant>,
    /// When it had ended, as far as the clock says.
    ended: Option<Instant>,
    /// How many commands were durable then.
    durable: u64,
    /// How many were pending when it began.
    before: u64,
    /// How many were pending when it had ended.
    left: u64,
    /// How many are waited for.
    awaited: u64,
    /// How long behind the end of that commit a wait may end, in microseconds.
    limit: u64,
    /// How many commits do not wait.
    passes: u8,
}

// How many microseconds have passed since then, as far as the clock says.
fn micros_since<R: Clock>(rt: &R, then: Option<Instant>) -> Option<u128> {
    match then?.elapsed(rt) {
        Ok(passed) => Some(passed.as_micros()),
        Err(_) => None,
    }
}

// Whether less time than that has passed since then, in microseconds, as far as the clock says.
fn is_within<R: Clock>(rt: &R, then: Option<Instant>, limit: u64) -> bool {
    match micros_since(rt, then) {
        Some(passed) => passed < u128::from(limit),
        None => false,
    }
}

// When more came, where more are pending than then.
fn came_at<R: Clock>(rt: &R, pending: u64, then: u64, last: Option<Instant>) -> Option<Instant> {
    if pending > then {
        Instant::now(rt).ok()
    } else {
        last
    }
}

impl Gathering {
    /// No commit was made yet.
    pub(crate) const NONE: Gathering = Gathering {
        begun: None,
        ended: None,
        durable: 0,
        before: 0,
        left: 0,
        awaited: 0,
        limit: 0,
        passes: 0,
    };

    // Notes a commit that has ended: it made so many commands durable, and so many are pending behind it.
    fn note<R: Clock>(&mut self, rt: &R, committed: u64, pending: u64) {
        let took = micros_since(rt, self.begun).unwrap_or(0);
        let half_committed = self.before.saturating_sub(committed);
        let is_worth_it = took >= u128::from(LEAST_MICROS) && committed > half_committed;
        self.awaited = if is_worth_it {
            committed.min(MOST_AWAITED)
        } else {
            0
        };
        self.limit = (took / 2).min(u128::from(MOST_MICROS)) as u64;
        self.left = pending;
        self.ended = Instant::now(rt).ok();
    }

    // Waits until those who are awaited came, and not for long: how many are pending then.
    fn come<R: Wait + Clock, L: Ledger, T: Trace>(
        &self,
        rt: &R,
        office: &Office<L, T>,
        first: u64,
    ) -> u64 {
        let wanted = self.left.saturating_add(self.awaited);
        let mut pending = first;
        let mut last = came_at(rt, first, self.left, None);
        for _look in 0..MOST_LOOKS {
            let is_quiet = last.is_some() && !is_within(rt, last, QUIET_MICROS);
            if pending >= wanted || is_quiet || !is_within(rt, self.ended, self.limit) {
                break;
            }
            thread::sleep(rt, Duration::from_micros(PAUSE_MICROS));
            let now = office.pending(rt).answer as u64;
            last = came_at(rt, now, pending, last);
            pending = now;
        }
        pending
    }

    // The same, where no wait was in vain of late. It is where not even half of them came.
    fn wait_for_more<R: Wait + Clock, L: Ledger, T: Trace>(
        &mut self,
        rt: &R,
        office: &Office<L, T>,
        first: u64,
    ) -> u64 {
        if self.passes > 0 {
            self.passes -= 1;
            return first;
        }
        let pending = self.come(rt, office, first);
        let came = pending.saturating_sub(self.left);
        if came.saturating_mul(2) < self.awaited {
            self.passes = MOST_PASSES;
        }
        pending
    }

    /// Waits before a commit for those who may ask soon. So many commands are durable.
    pub(crate) fn wait<R: Wait + Clock, L: Ledger, T: Trace>(
        &mut self,
        rt: &R,
        office: &Office<L, T>,
        durable: u64,
    ) {
        let mut pending = office.pending(rt).answer as u64;
        let committed = durable.saturating_sub(self.durable);
        if committed > 0 {
            self.note(rt, committed, pending);
        }
        if pending > 0 && self.awaited > 0 {
            pending = self.wait_for_more(rt, office, pending);
            self.awaited = 0;
        }
        self.durable = durable;
        self.before = pending;
        self.begun = Instant::now(rt).ok();
    }
}
