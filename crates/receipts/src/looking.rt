// What is read of an office under its lock, which stays as it is.
ghost use Rattle.std.specs.Prelude.{◌≡◌, ◌≤◌, map, IfOk, length};
ghost use Rattle.broker_core.specs.Issuer.{issued_in};
ghost use Rattle.hall_core.specs.Hall.{ForEachPast, pending_in, open_slot_count};
ghost use Rattle.hall_plans.specs.Slots.{open_slots};
ghost use Rattle.receipts.specs.Locked.{hall_in, issuer_in};
ghost use Rattle.receipts.specs.NextMoment.{IsNextMomentOf};
ghost use Rattle.receipts.specs.Views.{IsViewOf};

use crate::mark::Trace;
use crate::office::Office;
use crate::view::Unreleased;
use crate::witness::Witnessed;
use broker_core::Ticket;
use hall_core::Sought;
use std::alloc::AllocError;
use std::sync::Wait;
use std::sync::ledger::Ledger;

/// What is left for an office to do.
#[derive(Clone, Copy)]
pub struct Rest {
    /// Whether a request asked the broker to stop.
    pub stops: bool,
    /// How many commands are issued and not durable.
    pub pending: usize,
    /// How many slots are open.
    pub open_slots: usize,
}

impl<L: Ledger, T: Trace> Office<L, T> {
    /// How many commands are issued and not durable: at most 256.
    pub fn pending<R: Wait>(&self, rt: &R) -> Witnessed<usize, L, T>
        ensures is { result.answer ≡ pending_in (issuer_in result.before.value.hall) }
        ensures few { result.answer ≤ 256 }
        ensures same { result.after.value ≡ result.before.value }
    {
        let locked = self.locked.lock(rt);
        Witnessed::of_look(locked.pending(), &locked)
    }

    /// How many slots are open.
    pub fn open_slots<R: Wait>(&self, rt: &R) -> Witnessed<usize, L, T>
        // claim: Open slots, pending commands, a reply's point, the next moment, and whether the hall is broken or
        // stops are those of the hall under the lock, which stays so. [Office::pending: is, few, same;
        // Office::is_broken: is, same; Office::rest: stops, pending, open, same; Office::point: by_past, by_events,
        // same; Office::next_moment: is, same]
        ensures by_parts { result.answer ≡ open_slot_count (hall_in result.before.value.hall) }
        ensures by_past { ForEachPast (hall_in result.before.value.hall)
            (λ past. result.answer ≡ length (open_slots (issuer_in result.before.value.hall).broken past)) }
        ensures same { result.after.value ≡ result.before.value }
    {
        let locked = self.locked.lock(rt);
        Witnessed::of_look(locked.open_slots(), &locked)
    }

    /// What an operator is shown of the office who seeks this, at this moment, in milliseconds since 1970, unreleased until all of
    /// it is durable, with a ticket of that. It changes nothing, copies no byte of a payload, and is refused only for want of memory.
    pub fn look<R: Wait>(
        &self,
        rt: &R,
        sought: Sought,
        at: u64,
    ) -> Witnessed<Result<(Unreleased, Ticket), AllocError>, L, T>
        // claim: An operator gets the hall under the lock, counts of its marks by kind, and how long events took that
        // ended, unreleased, with a ticket of all issued. Nothing changes. [: shows, lives, ticket, same]
        ensures shows { IfOk result.answer (λ r.
            IsViewOf (hall_in result.before.value.hall) (map T.mark result.before.value.marks.all.items) sought at r.0) }
        ensures lives { IfOk result.answer (λ r. r.0.view.lives ≡ result.before.value.lives) }
        ensures ticket { IfOk result.answer (λ r. r.1 ≡ issued_in (issuer_in result.before.value.hall)) }
        ensures same { result.after.value ≡ result.before.value }
    {
        let locked = self.locked.lock(rt);
        Witnessed::of_look(locked.look_with_ticket(sought, at), &locked)
    }

    /// Whether a request asked the broker to stop, how many commands are pending and how many slots are open, all at one moment.
    pub fn rest<R: Wait>(&self, rt: &R) -> Witnessed<Rest, L, T>
        ensures stops { result.answer.stops ≡ (hall_in result.before.value.hall).stops }
        ensures pending { result.answer.pending ≡ pending_in (issuer_in result.before.value.hall) }
        ensures open { result.answer.open_slots ≡ open_slot_count (hall_in result.before.value.hall) }
        ensures same { result.after.value ≡ result.before.value }
    {
        let locked = self.locked.lock(rt);
        let rest = Rest {
            stops: locked.is_stopping(),
            pending: locked.pending(),
            open_slots: locked.open_slots(),
        };
        Witnessed::of_look(rest, &locked)
    }

    /// The first moment after this one at which some event would do something else than now, as `Table::next_moment` says. It
    /// takes no memory.
    pub fn next_moment<R: Wait>(&self, rt: &R, now: u64) -> Witnessed<Option<u128>, L, T>
        ensures is { IsNextMomentOf (hall_in result.before.value.hall) now result.answer }
        ensures same { result.after.value ≡ result.before.value }
    {
        let locked = self.locked.lock(rt);
        Witnessed::of_look(locked.next_moment(now), &locked)
    }

    /// Whether the device failed: the disk has to be opened again.
    pub fn is_broken<R: Wait>(&self, rt: &R) -> Witnessed<bool, L, T>
        ensures is { result.answer ≡ (issuer_in result.before.value.hall).broken }
        ensures same { result.after.value ≡ result.before.value }
    {
        let locked = self.locked.lock(rt);
        Witnessed::of_look(locked.is_broken(), &locked)
    }
}
