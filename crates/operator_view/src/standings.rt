// Tests of where an event stands.
ghost use Rattle.std.specs.Prelude.{◌≡◌};
ghost use Rattle.async_core.specs.Standings.{is_running, is_ended};
ghost use Rattle.operator_view.specs.Standings.{is_waiting, is_due_again, waits, ended_with, is_failure, shows, ended_on};

use async_core::Side;
use invoke_records::{Outcome, Standing};

/// Which events are shown.
#[derive(Clone, Copy)]
pub enum Which {
    All,
    /// Those that wait for an attempt, the first or another.
    Waiting,
    Running,
    Success,
    /// Those that ended otherwise.
    Failure,
}

pub(crate) fn is_waiting(standing: Standing) -> bool
    ensures { result ≡ is_waiting standing }
{
    matches!(standing, Standing::Waiting { .. })
}

pub(crate) fn is_due_again(standing: Standing) -> bool
    ensures { result ≡ is_due_again standing }
{
    matches!(standing, Standing::DueAgain { .. })
}

// It waits for an attempt, the first or another.
pub(crate) fn waits(standing: Standing) -> bool
    ensures { result ≡ waits standing }
{
    matches!(
        standing,
        Standing::Waiting { .. } | Standing::DueAgain { .. }
    )
}

pub(crate) fn is_running(standing: Standing) -> bool
    ensures { result ≡ is_running standing }
{
    matches!(standing, Standing::Running { .. })
}

pub(crate) fn is_ended(standing: Standing) -> bool
    ensures { result ≡ is_ended standing }
{
    matches!(standing, Standing::Ended { .. })
}

pub(crate) fn ended_with(standing: Standing, outcome: Outcome) -> bool
    ensures { result ≡ ended_with outcome standing }
{
    match standing {
        Standing::Ended { outcome: how, .. } => how == outcome,
        _ => false,
    }
}

pub(crate) fn is_failure(standing: Standing) -> bool
    ensures { result ≡ is_failure standing }
{
    match standing {
        Standing::Ended { outcome, .. } => outcome != Outcome::Success,
        _ => false,
    }
}

impl Which {
    pub(crate) fn shows(self, standing: Standing) -> bool
        ensures { result ≡ shows self standing }
    {
        match self {
            Which::All => true,
            Which::Waiting => waits(standing),
            Which::Running => is_running(standing),
            Which::Success => ended_with(standing, Outcome::Success),
            Which::Failure => is_failure(standing),
        }
    }
}

// It ended on this side, or on either where none is named.
pub(crate) fn ended_on(side: Option<Side>, standing: Standing) -> bool
    ensures { result ≡ ended_on side standing }
{
    match side {
        None => is_ended(standing),
        Some(Side::Success) => ended_with(standing, Outcome::Success),
        Some(Side::Failure) => is_failure(standing),
    }
}
