// What a commit answers.

use crate::broken_hall::BrokenHall;
use crate::mark::{Mark, Trace};
use crate::witness::Witnessed;
use broker_core::Durable;
use hall_core::HallError;
use std::sync::ledger::Ledger;

/// What a commit answered. Proofs see beside it what stood under the lock around each of its steps.
#[derive(Drop)]
pub struct Committed<L: Ledger, T: Trace = Mark> {
    pub answer: Result<Durable, HallError>,
    /// Around the step that lent what was pending, or nothing.
    pub(crate) lent: Witnessed<(), L, T>,
    /// Around the step that settled what became of that, if something was lent.
    pub(crate) settled: Option<Witnessed<(), L, T>>,
    /// The hall that the last step left, where it is broken.
    pub broken: Option<BrokenHall>,
}
