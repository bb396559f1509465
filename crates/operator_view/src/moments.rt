// When an event is due, and when it ended.
ghost use Rattle.std.specs.Prelude.{◌≡◌};
ghost use Rattle.operator_view.specs.Census.{end_of};
ghost use Rattle.operator_view.specs.Waiting.{deadline_of, due_of, is_due, expires_soon};

use crate::standings::waits;
use invoke_records::{EventRow, Standing};

/// When it is due, if it waits.
pub(crate) fn due_of(standing: Standing) -> Option<u64>
    ensures { result ≡ due_of standing }
{
    match standing {
        Standing::Waiting { due } => Some(due),
        Standing::DueAgain { due } => Some(due),
        _ => None,
    }
}

pub(crate) fn is_due(now: u64, row: &EventRow) -> bool
    ensures { result ≡ is_due now row.now }
{
    match due_of(row.standing) {
        Some(due) => due <= now,
        None => false,
    }
}

/// Whether it waits, and has reached five sixths of its age.
pub(crate) fn expires_soon(now: u64, row: &EventRow) -> bool
    ensures { result ≡ expires_soon now row.now }
{
    let waited = u128::from(now.saturating_sub(row.accepted));
    waits(row.standing) && 5000 * u128::from(row.policy.age) <= 6 * waited
}

/// By when its attempt is to be done, if one runs.
pub(crate) fn deadline_of(standing: Standing) -> Option<u64>
    ensures { result ≡ deadline_of standing }
{
    match standing {
        Standing::Running { deadline, .. } => Some(deadline),
        _ => None,
    }
}

/// When it ended, if it has.
pub(crate) fn end_of(standing: Standing) -> Option<u64>
    ensures { result ≡ end_of standing }
{
    match standing {
        Standing::Ended { at, .. } => Some(at),
        _ => None,
    }
}
