// The gates of a front's loops.
ghost use Rattle.std.specs.Prelude.{◌≡◌, ◌⊎◌, IfOk, IfErr, if◌then◌else◌};
ghost use Rattle.commit_loop.specs.declared.gate.Turn.TheVariants as turn;

use crate::ending::{FrontOver, LookAtEnding};
use crate::front_state::FrontState;
use commit_loop::{Gate, Turn};
use receipts::Trace;
use std::sync::Wait;
use std::sync::ledger::Ledger;

/// The gate of a front's committer: its owner's, until all is done.
#[derive(Drop)]
pub(crate) struct UntilOver<'a, R, L: Ledger, T: Trace, G> {
    pub(crate) rt: &'a R,
    pub(crate) front: &'a FrontState<L, T>,
    pub(crate) inner: &'a G,
}

impl<R: Wait, L: Ledger, T: Trace, G: Gate> Gate for UntilOver<'_, R, L, T, G> {
    type Seen = Result<G::Seen, FrontOver>;

    ghost says = { λ gate pending said. (said ≡ turn.End) ⊎ G.says gate.inner.now pending said };

    ghost leads_to = { λ seen said. IfOk seen (λ inner. G.leads_to inner said) × IfErr seen (λ _. said ≡ turn.End) };

    fn turn(&self, pending: usize) -> (Turn, Result<G::Seen, FrontOver>) {
        match self.front.ended(self.rt) {
            Some(ended) => (Turn::End, Err(ended.over())),
            None => {
                let (said, seen) = self.inner.turn(pending);
                (said, Ok(seen))
            }
        }
    }
}

/// The gate of a front's ticker: it ticks until the front ends.
#[derive(Drop)]
pub(crate) struct UntilEnding<'a, L: Ledger, T: Trace> {
    pub(crate) front: &'a FrontState<L, T>,
}

impl<L: Ledger, T: Trace> Gate for UntilEnding<'_, L, T> {
    type Seen = LookAtEnding;

    ghost says = { λ _ _ said. (said ≡ turn.End) ⊎ (said ≡ turn.Commit) };

    ghost leads_to = { λ look said. said ≡ (if look.ends then turn.End else turn.Commit) };

    fn turn(&self, _pending: usize) -> (Turn, LookAtEnding) {
        let look = self.front.look_at_ending();
        if look.ends() {
            (Turn::End, look)
        } else {
            (Turn::Commit, look)
        }
    }
}
