// What came of a try to make a move.
ghost use Rattle.std.specs.Prelude.{◌≡◌};

use port_meters::Moment;
use receipts::{Trace, Witnessed};
use std::sync::ledger::Ledger;

/// What came of a try to make a move.
#[derive(Clone, Copy)]
pub(crate) enum Tried {
    /// It was made.
    Made,
    /// None is due.
    NothingDue,
    /// It was refused: it may be due still.
    Refused,
}

impl Tried {
    ghost use Rattle.http_front.specs.Marking.{is_made};

    /// Whether one was made.
    pub(crate) fn is_made(self) -> bool
        ensures { result ≡ is_made self }
    {
        matches!(self, Tried::Made)
    }
}

/// What the office held when a move was looked for, at a moment that the clock showed, and what came of it.
#[derive(Drop)]
pub(crate) struct Looked<L: Ledger, T: Trace> {
    pub(crate) seen: Witnessed<(), L, T>,
    pub(crate) at: Moment,
    pub(crate) tried: Tried,
}
