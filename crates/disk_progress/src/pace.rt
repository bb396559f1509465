// How often it is told how far a work is.
ghost use Rattle.std.specs.Prelude.{◌≡◌};
ghost use Rattle.disk_progress.specs.Pace.{millis_between, is_due};

use libc::{STDERR_FILENO, isatty};

/// How many milliseconds lie between two lines where one is written over the other.
const SOON: u64 = 200;

/// How many lie between two lines that stay: ten seconds.
const SELDOM: u64 = 50 * SOON;

/// How often it is told how far a work is.
#[derive(Clone, Copy, Debug, PartialEq, Eq)]
pub enum Pace {
    /// On a terminal, where each line is written over the last one.
    WrittenOver,
    /// Where each line stays.
    LineByLine,
}

impl Pace {
    /// How many milliseconds lie between two lines.
    pub fn millis(self) -> u64
        ensures { result ≡ millis_between self }
    {
        match self {
            Pace::WrittenOver => SOON,
            Pace::LineByLine => SELDOM,
        }
    }

    /// Whether a line is due now where the last one was told then, each in milliseconds by one clock.
    pub fn is_due(self, told: u64, now: u64) -> bool
        // claim: A line is due ten seconds after the last one, and on a terminal a fifth of a second after it. [Pace::millis]
        ensures { result ≡ is_due self told now }
    {
        now.saturating_sub(told) >= self.millis()
    }
}

/// The pace of standard error: lines that are written over where it is a terminal.
pub fn pace_of_standard_error() -> Pace {
    if isatty(STDERR_FILENO) == 1 {
        Pace::WrittenOver
    } else {
        Pace::LineByLine
    }
}
