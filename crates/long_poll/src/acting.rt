// By what an operator's calls come to the hall.
ghost use Rattle.std.specs.Prelude.{IfSome};
ghost use Rattle.receipts.specs.Locked.{hall_in};
ghost use Rattle.long_poll.specs.Port.{IsDoneFor};

use crate::waiting::Waiting;
use api_core::Call;
use receipts::Trace;
use std::sync::Wait;
use std::sync::ledger::Ledger;

/// By what an operator's calls come to the hall, as those of callers do.
pub trait Acting<R: Wait, L: Ledger, T: Trace>: Drop {
    /// That the committer was called. Only a call gives it.
    type Called: Drop;

    /// Its committer was called.
    ghost calls: { Self → Self.Called → Type 0 };

    /// A call comes now, and its reply waits. None where it is refused, and then nothing has changed.
    fn act(&self, rt: R, call: Call) -> Option<Waiting<R, L, T>>
        ensures { IfSome result (λ waiting. IsDoneFor call (hall_in waiting.seen.before.value.hall)
            (hall_in waiting.seen.after.value.hall) waiting.slot) };

    /// Has what was issued committed.
    fn commit(&self, rt: R) -> Self::Called
        ensures { calls self.now result };
}
