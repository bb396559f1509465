// What is noticed of a broker's premises, beside its requests.
ghost use Rattle.std.specs.Prelude.{IfOk};
ghost use Rattle.std.specs.Time.{system_time_nanos, FitsClock};

use crate::held_clock::{HeldBack, HeldClock};
use crate::lines::Lines;
use crate::moment::{Moment, NoClock};
use std::alloc::{AllocError, Global};
use std::sync::atomic::{AtomicI64, AtomicU64, Ordering};
use std::sync::{Arc, Wait};
use std::time::{Clock, Duration};

/// What is noticed of a broker's premises: a flush that takes long, a clock that is set, and lines that nobody read. Who looks notes
/// it, and the operator's port shows it. The clock that all go by is here, too.
#[derive(Drop)]
pub struct Premises {
    clock: HeldClock,
    flush_seconds: AtomicU64,
    clock_steps: AtomicU64,
    last_step: AtomicI64,
    lines: Arc<Lines>,
}

/// What was noticed up to now.
#[derive(Clone, Copy)]
pub struct Noticed {
    /// For how many seconds the flush that is under way has been, once these are five; else 0.
    pub flush_seconds: u64,
    /// How often the clock was set, by a second and more.
    pub clock_steps: u64,
    /// By how many milliseconds it was last: ahead, or back where they are negative.
    pub last_step: i64,
    /// How the clock was held back at the last look at it.
    pub held_back: HeldBack,
    /// How many lines standard error did not take.
    pub lines_dropped: u64,
}

impl Premises {
    /// Nothing was noticed. What is told on standard error is told by these lines. A clock that is set ahead by more than an hour is held
    /// back for so long.
    pub fn new(
        alloc: Global,
        lines: Arc<Lines>,
        grace: Duration,
    ) -> Result<Arc<Premises>, AllocError> {
        let premises = Premises {
            clock: HeldClock::new(grace),
            flush_seconds: AtomicU64::new(0),
            clock_steps: AtomicU64::new(0),
            last_step: AtomicI64::new(0),
            lines,
        };
        Ok(Arc::new(alloc, premises)?)
    }

    /// For how many seconds the flush that is under way has been: 0 where none is, or not for long.
    pub fn note_flush(&self, seconds: u64) {
        self.flush_seconds.store(seconds, Ordering::SeqCst);
    }

    /// The clock was set by so many milliseconds: ahead, or back where they are negative.
    pub fn note_step(&self, millis: i64) {
        self.last_step.store(millis, Ordering::SeqCst);
        self.clock_steps.fetch_add(1, Ordering::SeqCst);
    }

    /// The moment now, by the clock that all go by. There is none where the clock cannot be read, or shows a time before 1970.
    pub fn moment<R: Wait + Clock>(&self, rt: &R) -> Result<Moment, NoClock>
        ensures { IfOk result (λ moment. FitsClock (system_time_nanos moment.shown)) }
    {
        self.clock.now(rt)
    }

    /// Standard error.
    pub fn lines(&self) -> &Arc<Lines> {
        &self.lines
    }

    /// What was noticed up to now.
    pub fn read(&self) -> Noticed {
        Noticed {
            flush_seconds: self.flush_seconds.load(Ordering::SeqCst),
            clock_steps: self.clock_steps.load(Ordering::SeqCst),
            last_step: self.last_step.load(Ordering::SeqCst),
            held_back: self.clock.held_back(),
            lines_dropped: self.lines.dropped(),
        }
    }
}
