// How the loops of a front slept.
use crate::ending::LookAtRest;
use crate::wake::{Paused, Slept};
use port_meters::{Moment, NoClock};
use receipts::{Trace, Witnessed};
use std::sync::ledger::Ledger;

/// That a committer slept, and what it saw before.
#[derive(Drop)]
pub(crate) struct CommitterSlept<L: Ledger, T: Trace> {
    pub(crate) look: LookAtRest<L, T>,
    pub(crate) slept: Slept,
}

/// That a ticker slept, and why so long.
#[derive(Drop)]
pub(crate) enum TickerSlept<L: Ledger, T: Trace> {
    /// It is not known that no move was due.
    Unknown(Paused),
    /// The clock cannot be read.
    Blind(NoClock, Paused),
    /// Until the next moment of what it saw, at a moment that the clock showed.
    Until(Witnessed<(), L, T>, Moment, Slept),
}
