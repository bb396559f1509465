// When an event moves otherwise than now, by time alone. No reader takes memory.
ghost use Rattle.std.specs.Prelude.{◌≡◌, None};
ghost use Rattle.async_core.specs.Keys.{row_key};
ghost use Rattle.async_core.specs.NextMoment as meant;
ghost use Rattle.async_core.specs.NextMoment.{IsNextMoment, IsFirstSeen, ripe_of};
ghost use Rattle.async_core.specs.Rules.{too_old_at};

use crate::Table;
use crate::choice::ripe_by;
use crate::held::Held;
use crate::keys::Index;
use crate::situation::expiry_of;

/// The moment from which an event has something to do: the first such moment from this one on.
fn first_ripe(held: &Held, low: u128) -> Option<u128>
    ensures { IsFirstSeen (row_key Index.Ripe low None) held.now ripe_of result }
{
    match held.first_in(Index::Ripe, low, None) {
        Some(row) => Some(ripe_by(expiry_of(row), row.standing)),
        None => None,
    }
}

/// The moment from which an event that waits for an attempt is too old: the first such moment from this one on.
fn first_expiry(held: &Held, low: u128) -> Option<u128>
    ensures { IsFirstSeen (row_key Index.Idle low None) held.now too_old_at result }
{
    match held.first_in(Index::Idle, low, None) {
        Some(row) => Some(expiry_of(row)),
        None => None,
    }
}

fn earlier(one: Option<u128>, other: Option<u128>) -> Option<u128>
    ensures { result ≡ meant.earlier one other }
{
    match one {
        Some(one) => match other {
            Some(other) => Some(one.min(other)),
            None => Some(one),
        },
        None => other,
    }
}

fn next_moment_in(held: &Held, now: u64) -> Option<u128>
    ensures { IsNextMoment held.now now result }
{
    let low = u128::from(now) + 1;
    earlier(first_ripe(held, low), first_expiry(held, low))
}

impl Table {
    /// The first moment after this one at which some event would do something else than now, whatever runs and whichever
    /// environments are ready: it comes due, its deadline passes, or it grows too old. Until then a table that does not change
    /// has no other move than now. None where time alone changes nothing.
    pub fn next_moment(&self, now: u64) -> Option<u128>
        // claim: Until the next moment each event moves as now, and then one does not. An accepted event is due at once; else
        // one is due, or its attempt late, a second or more after, if the timeout is as long. [a_wait_takes_a_second]
        ensures { IsNextMoment self.now.table.rows now result }
    {
        next_moment_in(&self.held, now)
    }
}
