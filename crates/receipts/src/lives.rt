// How long events took from their acceptance to their end.
ghost use Rattle.std.specs.Prelude.{◌≡◌, [], ◌∷◌};
ghost use Rattle.async_core.specs.Rules.{standing_at, row_at};
ghost use Rattle.async_core.specs.Readers.{accepted_at};
ghost use Rattle.receipts.specs.Lives.{no_lives, may_end, life_by, life_ended, lives_with, raised, one_more};

use async_core::Table;
use hall_core::Issued;
use invoke_records::{Kind, Standing};

/// How long events took from their acceptance to their end, of those that ended since an office was opened.
#[derive(Clone, Copy)]
pub struct Lives {
    /// How many took at most 0.01, 0.1, 1, 10, 60, 300, 3600 and 21600 seconds. Each counts those of the one before it too.
    pub buckets: [u64; 8],
    pub all: u64,
    /// How long they took in all, in milliseconds.
    pub milliseconds: u64,
}

// Whether a command of this kind may end an event.
fn may_end(kind: Kind) -> bool
    ensures { result ≡ may_end kind }
{
    matches!(kind, Kind::Succeed | Kind::Fail(_) | Kind::Expire)
}

// How long an event that stands so took that was accepted then, in milliseconds, if it has ended.
fn life_by(standing: Standing, accepted: Option<u64>) -> Option<u64>
    ensures { result ≡ life_by standing accepted }
{
    match (standing, accepted) {
        (Standing::Ended { at, .. }, Some(accepted)) => Some(at.saturating_sub(accepted)),
        _ => None,
    }
}

// How long the event took that was ended by what was issued last, in milliseconds, if one was.
fn life_ended(table: &Table, issued: Option<Issued>) -> Option<u64>
    ensures { result ≡ life_ended table.now.table issued }
{
    let Issued { kind, id, .. } = issued?;
    if may_end(kind) {
        life_by(table.standing(&id), table.accepted(&id))
    } else {
        None
    }
}

// One more in a bucket of this bound, where it took no longer.
fn raised(took: u64, bound: u64, bucket: u64) -> u64
    ensures { result ≡ raised took bound bucket }
{
    if took <= bound {
        bucket.saturating_add(1)
    } else {
        bucket
    }
}

// One life more, which took so many milliseconds.
fn one_more(took: u64, lives: Lives) -> Lives
    ensures { result ≡ one_more took lives }
{
    let buckets = lives.buckets;
    Lives {
        buckets: [
            raised(took, 10, buckets[0]),
            raised(took, 100, buckets[1]),
            raised(took, 1_000, buckets[2]),
            raised(took, 10_000, buckets[3]),
            raised(took, 60_000, buckets[4]),
            raised(took, 300_000, buckets[5]),
            raised(took, 3_600_000, buckets[6]),
            raised(took, 21_600_000, buckets[7]),
        ],
        all: lives.all.saturating_add(1),
        milliseconds: lives.milliseconds.saturating_add(took),
    }
}

impl Lives {
    /// No event has ended.
    pub(crate) fn new() -> Lives
        ensures { result ≡ no_lives }
    {
        Lives {
            buckets: [0; 8],
            all: 0,
            milliseconds: 0,
        }
    }

    /// Counts the event that was ended by what was issued last, if one was, by the table behind that.
    pub(crate) fn count_end(&mut self, table: &Table, issued: Option<Issued>)
        ensures { self.new ≡ lives_with table.now.table issued self.old }
    {
        if let Some(took) = life_ended(table, issued) {
            *self = one_more(took, *self);
        }
    }
}
