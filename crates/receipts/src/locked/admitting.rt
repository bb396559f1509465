// Which requests come to the hall, and with which slot.
ghost use Rattle.std.specs.Prelude.{◌≡◌, ◌<◌, ◌≤◌, ◌^◌, IfOk, IfErr, OnOk};
ghost use Rattle.broker_core.specs.Issuer.{issued_in};
ghost use Rattle.hall_core.specs.Hall.{CanBeAsked};
ghost use Rattle.receipts.specs.Answers.{IsSlotOf, IsArrivalRefusal};
ghost use Rattle.receipts.specs.Locked.{hall_in, issuer_in};
ghost use Rattle.receipts.specs.UnderLock.{next_slot, IsNotMade};

use super::{Locked, MOST_DESKS, MOST_SLOTS};
use crate::desk::Desk;
use crate::mark::Trace;
use api_core::Call;
use hall_core::HallError;
use std::sync::ledger::Ledger;

impl<L: Ledger, T: Trace> Locked<L, T> {
    ghost use Rattle.hall_plans.specs.declared.error.HallError.TheVariants.{WornOut};

    // The next slot of a desk.
    fn next_slot(&self, desk: &Desk<L, T>) -> Result<u64, HallError>
        ensures slot { IfOk result (IsSlotOf desk.now.number) }
        ensures next { IfOk result (λ slot. slot ≡ next_slot self.now.slots desk.now.number) }
        ensures room { OnOk result (self.now.slots < 2 ^ 58) }
        ensures err { IfErr result (λ why. (why ≡ WornOut) × (2 ^ 58 ≤ self.now.slots)) }
    {
        if self.slots >= MOST_SLOTS {
            return Err(HallError::WornOut);
        }
        Ok(MOST_DESKS * self.slots + desk.number)
    }

    // The next slot of a desk, for a request that the hall can be asked with it.
    pub(super) fn admit(
        &self,
        desk: &Desk<L, T>,
        call: &Call,
        now: u64,
        words: &[u64; 2],
    ) -> Result<u64, HallError>
        ensures slot { IfOk result (IsSlotOf desk.now.number) }
        ensures next { IfOk result (λ slot. slot ≡ next_slot self.now.slots desk.now.number) }
        ensures told { OnOk result (desk.now.told ≤ issued_in (issuer_in self.now.hall)) }
        ensures room { OnOk result (self.now.slots < 2 ^ 58) }
        ensures can { IfOk result (λ slot. CanBeAsked (hall_in self.now.hall) slot call.now now words.now) }
        ensures refused { IfErr result (IsArrivalRefusal desk.now.told) }
        ensures reason { IfErr result (IsNotMade (hall_in self.now.hall) self.now.slots
            (record { told = desk.now.told; desk = desk.now.number; call = call.now; now = now; words = words.now })) }
    {
        self.check(desk)?;
        let slot = self.next_slot(desk)?;
        if !self.hall.fits(slot, call, now, words) {
            return Err(HallError::Unfit);
        }
        Ok(slot)
    }
}
