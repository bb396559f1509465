// Looking whether the system's clock was set.
use port_meters::Moment;
use std::time::{Clock, Duration, Instant};

/// From how many seconds on a step of the clock is one.
const LEAST_STEP: u64 = 1;
/// How many milliseconds may go by while both clocks are read. Who is held up between them for longer would see a step.
const LONGEST_LOOK: u128 = 100;

/// The system's clock beside the one that only goes on, at a look.
#[derive(Clone, Copy)]
pub(crate) struct ClockLook {
    shown: u64,
    steady: Instant,
}

impl ClockLook {
    /// Both clocks now. None where one cannot be read, or this thread was held up meanwhile.
    pub(crate) fn now<R: Clock>(rt: &R) -> Option<ClockLook> {
        let begun = Instant::now(rt).ok()?;
        let shown = Moment::now(rt).ok()?.millis();
        let steady = Instant::now(rt).ok()?;
        let took = steady.saturating_duration_since(begun).as_millis();
        (took <= LONGEST_LOOK).then_some(ClockLook { shown, steady })
    }

    /// By how many milliseconds the clock was set between an earlier look and this one: ahead, or back where they are negative. None
    /// where it was not.
    pub(crate) fn step_since(&self, earlier: &ClockLook) -> Option<i64> {
        let gone = self.steady.saturating_duration_since(earlier.steady);
        let gone = u64::try_from(gone.as_millis()).unwrap_or(u64::MAX);
        let expected = earlier.shown.saturating_add(gone);
        let ahead = i64::try_from(self.shown.saturating_sub(expected)).unwrap_or(i64::MAX);
        let behind = i64::try_from(expected.saturating_sub(self.shown)).unwrap_or(i64::MAX);
        let step = ahead.saturating_sub(behind);
        let least = Duration::from_secs(LEAST_STEP).as_millis();
        (least <= u128::from(step.unsigned_abs())).then_some(step)
    }
}
