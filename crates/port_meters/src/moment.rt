// A moment as the clock shows it.
ghost use Rattle.std.specs.Prelude.{◌≡◌, ◌≤◌, IfOk};
ghost use Rattle.std.specs.Time.{system_time_nanos, FitsClock};
ghost use Rattle.port_meters.specs.Moments.{millis_in};

use invoke_records::GREATEST_MOMENT;
use std::io;
use std::time::{Clock, Duration, SystemTime};

/// Why there is no moment: the clock could not be read. Only a look at the clock gives it.
#[derive(Drop)]
pub struct NoClock {
    why: io::Error,
}

impl From<NoClock> for io::Error {
    ghost from_gives = { λ none error. error ≡ none.why };

    fn from(none: NoClock) -> io::Error {
        let NoClock { why } = none;
        why
    }
}

/// A moment as the clock showed it, or as it was told where the clock was held back. Only a look at the clock gives one.
#[derive(Clone, Copy)]
pub struct Moment {
    shown: SystemTime,
}

impl Moment {
    /// The moment now. There is none where the clock cannot be read, or shows a time before 1970.
    pub fn now<C: Clock>(rt: &C) -> Result<Moment, NoClock>
        ensures { IfOk result (λ moment. FitsClock (system_time_nanos moment.shown)) }
    {
        match SystemTime::now(rt) {
            Ok(shown) => Ok(Moment { shown }),
            Err(why) => Err(NoClock { why }),
        }
    }

    // So many milliseconds before it, where that is no earlier than 1970.
    pub(crate) fn before(self, millis: u64) -> Moment
        ensures { FitsClock (system_time_nanos self.shown) → FitsClock (system_time_nanos result.shown) }
    {
        match self.shown.checked_sub(Duration::from_millis(millis)) {
            Some(shown) => Moment { shown },
            None => self,
        }
    }

    /// In milliseconds since 1970. A clock that shows a year after 9999 counts as its end.
    pub fn millis(self) -> u64
        // claim: A moment in milliseconds is its time rounded down, to the end of the year 9999 at most.
        ensures is { result ≡ millis_in self.shown }
        ensures few { result ≤ 253402300799999 }
    {
        match self.shown.duration_since(SystemTime::UNIX_EPOCH) {
            Ok(since) => since.as_millis().min(u128::from(GREATEST_MOMENT)) as u64,
            Err(_) => 0,
        }
    }
}
