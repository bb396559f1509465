// What a hall says of itself to those that end it.
ghost use Rattle.std.specs.Prelude.{◌≡◌, ◌↔◌, [], IsTrue, length};
ghost use Rattle.broker_core.specs.Broker.{pending_of};
ghost use Rattle.hall_plans.specs.Slots.{open_slots, is_open};
ghost use Rattle.hall_core.specs.Hall.{view_of, pending_in, is_slot_open, open_slot_count, ForEachPast};

use crate::hall::Hall;
use api_core::Dialect;
use broker_core::{Broker, Issuer};
use sector_disk::Disk;

impl<I: Issuer> Hall<I> {
    /// How many slots are open: a request came with them, and their reply was not taken. A slot whose reply is not wanted is
    /// open until that is computed, or until the hall breaks.
    pub fn open_slots(&self) -> usize
        // claim: Which slots are open, and how many, is as defined, of a broken hall too. [Hall::is_open]
        ensures by_parts { result ≡ open_slot_count (view_of I.view self.now) }
        ensures by_past { ForEachPast (view_of I.view self.now) (λ past. result ≡ length (open_slots (I.view self.now.issuer).broken past)) }
    {
        self.slots.open_count(self.broken)
    }

    /// Whether a slot is open.
    pub fn is_open(&self, slot: u64) -> bool
        ensures by_parts { result ≡ is_slot_open (view_of I.view self.now) slot }
        ensures by_past { ForEachPast (view_of I.view self.now) (λ past. result ≡ is_open (I.view self.now.issuer).broken past slot) }
    {
        self.slots.is_open(slot, self.broken)
    }

    /// In which words it tells its replies.
    pub fn dialect(&self) -> Dialect
        ensures { result ≡ self.now.dialect }
    {
        self.dialect
    }

    /// Whether a request asked it to stop.
    pub fn is_stopping(&self) -> bool
        ensures { result ≡ self.now.stops }
    {
        self.stops
    }

    /// Whether its issuer failed: the disk has to be opened again.
    pub fn is_broken(&self) -> bool
        ensures { result ≡ (I.view self.now.issuer).broken }
    {
        self.broken
    }

    /// How many commands are issued and not durable.
    pub fn pending(&self) -> u64
        ensures { result ≡ pending_in (I.view self.now.issuer) }
    {
        self.issuer
            .issued()
            .saturating_sub(self.issuer.durable().number())
    }
}

impl<D: Disk> Hall<Broker<D>> {
    /// Whether all that was issued is durable, so that the hall can be split.
    pub fn is_all_durable(&self) -> bool
        ensures { IsTrue result ↔ (pending_of self.now.issuer ≡ []) }
    {
        self.pending() == 0
    }
}
