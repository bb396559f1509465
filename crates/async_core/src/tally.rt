// What is counted of the rows.
ghost use Rattle.std.specs.Prelude.{◌≡◌, ◌+◌, ◌<◌, ◌≤◌, ◌^◌, if◌then◌else◌};
ghost use Rattle.async_core.specs.Tallies as meant;

use crate::choice::{Side, ended_on};
use crate::standings::is_running;
use invoke_records::Standing;

/// How many rows run, and how many have ended on each side.
#[derive(Clone, Copy)]
pub(crate) struct Tally {
    pub running: usize,
    pub successes: usize,
    pub failures: usize,
}

/// How many there are, where of these one was there or not, and is or is not now.
fn recounted(count: usize, was: bool, is: bool) -> usize
    requires some { (if was then 1 else 0) ≤ count }
    requires fits { count < 2 ^ 63 }
    ensures { result + (if was then 1 else 0) ≡ count + (if is then 1 else 0) }
{
    if was == is {
        return count;
    }
    if is { count + 1 } else { count - 1 }
}

impl Tally {
    /// That of no rows.
    pub(crate) fn empty() -> Tally
        ensures { (result.running ≡ 0) × (result.successes ≡ 0) × (result.failures ≡ 0) }
    {
        Tally {
            running: 0,
            successes: 0,
            failures: 0,
        }
    }

    /// The tally where one row stood there, and stands elsewhere now. An event that is not held is unknown.
    pub(crate) fn with(self, old: Standing, new: Standing) -> Tally
        requires some { meant.HasOne self old }
        requires few { meant.IsFew self }
        ensures { meant.Retallies self old new result }
    {
        Tally {
            running: recounted(self.running, is_running(old), is_running(new)),
            successes: recounted(
                self.successes,
                ended_on(Side::Success, old),
                ended_on(Side::Success, new),
            ),
            failures: recounted(
                self.failures,
                ended_on(Side::Failure, old),
                ended_on(Side::Failure, new),
            ),
        }
    }

    /// How many have ended on this side.
    pub(crate) fn ended(self, side: Side) -> usize
        ensures success { side ≡ Side.Success → result ≡ self.successes }
        ensures failure { side ≡ Side.Failure → result ≡ self.failures }
    {
        match side {
            Side::Success => self.successes,
            Side::Failure => self.failures,
        }
    }
}
