// The slots of a hall.
ghost use Rattle.std.specs.Prelude.{◌≡◌, IfNone, OnSome, OnOk, OnErr, None, Some, is_some, option_map, length, false, true};

use crate::open_slot::{OpenSlot, SlotStanding};
use api_core::Reply;
use broker_core::{Receipt, Ticket};
use std::alloc::{AllocError, Global};
use std::collections::BTreeMap;
use std::marker::Model;

/// The slots with which requests came: for each the reply that waits to be taken, once there is one.
///
/// They keep what became of each slot, so that a reply is told once, and only where it is still wanted. All of them are
/// open, save that in a broken hall those are closed whose reply is not wanted.
#[derive(Drop)]
pub(crate) struct Slots {
    slots: BTreeMap<u64, OpenSlot>,
}

impl Model for Slots {
    ghost use Rattle.hall_core.specs.OpenSlots.{Entries};

    ghost Value = { Entries };

    ghost view = { λ s. s.slots.entries };
}

impl Slots {
    ghost use Rattle.std.specs.Prelude.{[]};
    ghost use Rattle.api_core.specs.declared.call.Call.{Call};
    ghost use Rattle.api_core.specs.Replies.{Told, Words, reply_in};
    ghost use Rattle.hall_plans.specs.Past.{asked, replied, taken, forgotten};
    ghost use Rattle.hall_plans.specs.Slots.{open_among, is_open_in, released_in, point_in};
    ghost use Rattle.hall_core.specs.OpenSlots.{entry_at, has_open, open_count, told_in, unavailable_in, KeepFor, ForEachKept, KeepMore, IsUndone};
    ghost use Rattle.hall_core.specs.SlotSteps.{PutsEntry, standing_of, with_reply, marked, released_at, point_at};

    /// No request came yet. It takes no memory.
    pub(crate) fn new(alloc: Global) -> Slots
        ensures { (w : Words) → KeepFor w result [] }
    {
        Slots {
            slots: BTreeMap::new(alloc),
        }
    }

    /// How many are open, in a hall that is broken or is not.
    pub(crate) fn open_count(&self, is_broken: bool) -> usize
        ensures by_entries { result ≡ open_count is_broken self.now }
        ensures by_events { ForEachKept self.now (λ _ events. result ≡ length (open_among is_broken events)) }
    {
        if is_broken {
            self.wanted_count()
        } else {
            self.slots.len()
        }
    }

    // How many are open in a broken hall.
    fn wanted_count(&self) -> usize
        ensures by_entries { result ≡ open_count true self.now }
        ensures by_events { ForEachKept self.now (λ _ events. result ≡ length (open_among true events)) }
    {
        self.slots
            .values()
            .filter(|entry| entry.is_open(true))
            .count()
    }

    /// Whether a slot is open, in a hall that is broken or is not.
    pub(crate) fn is_open(&self, slot: u64, is_broken: bool) -> bool
        ensures by_entry { result ≡ has_open is_broken self.now slot }
        ensures by_events { ForEachKept self.now (λ _ events. result ≡ is_open_in is_broken events slot) }
    {
        match self.slots.get(&slot) {
            Some(entry) => entry.is_open(is_broken),
            None => false,
        }
    }

    /// Opens a slot for a request that came with it. A refusal changes nothing.
    pub(crate) fn open(&mut self, slot: u64, unavailable: Reply) -> Result<(), AllocError>
        requires { has_open false self.old slot ≡ false }
        ensures ok { ForEachKept self.old (λ w events. unavailable ≡ unavailable_in w
            → OnOk result ((call : Call) → KeepMore w self.new events (asked slot call))) }
        ensures err { OnErr result (self.new ≡ self.old) }
    {
        self.put(slot, OpenSlot::new(unavailable))
    }

    /// Takes back that a slot was opened, where nothing became of it since. It takes no memory.
    pub(crate) fn undo(&mut self, slot: u64)
        ensures { IsUndone self.old self.new slot }
    {
        let _ = self.close(slot);
    }

    /// Replies to a slot: all up to the ticket has to be durable before it is told. The first reply stays, and
    /// a slot whose reply is not wanted is closed. It takes no memory.
    pub(crate) fn reply(&mut self, slot: u64, reply: Reply, ticket: Ticket)
        ensures { ForEachKept self.old (λ w events. (answer : Told) → reply ≡ reply_in w answer
            → KeepMore w self.new events (replied slot answer ticket)) }
    {
        match self.standing(slot) {
            Some(SlotStanding::Waiting) => self.set_reply(slot, reply, ticket),
            Some(SlotStanding::Forgotten) => {
                let _ = self.close(slot);
            }
            Some(SlotStanding::Replied) => {}
            None => {}
        }
    }

    /// The reply of a slot and its receipt, if it is told where all up to this receipt is durable; the slot is
    /// then closed. It takes no memory.
    pub(crate) fn take(
        &mut self,
        slot: u64,
        is_broken: bool,
        receipt: Receipt,
    ) -> Option<(Reply, Receipt)>
        ensures gives { ForEachKept self.old (λ w events. result ≡ option_map (told_in w) (released_in is_broken receipt events slot)) }
        ensures some { ForEachKept self.old (λ w events. OnSome result (KeepMore w self.new events (taken slot))) }
        ensures none { IfNone result (self.new ≡ self.old) }
    {
        self.release(slot, is_broken, receipt)
    }

    /// How many commands have to be durable before the reply of a slot is told, where it is computed and wanted. It takes
    /// no memory.
    pub(crate) fn point(&self, slot: u64) -> Option<u64>
        ensures by_entry { result ≡ point_at (entry_at self.now slot) }
        ensures by_events { ForEachKept self.now (λ _ events. result ≡ point_in events slot) }
    {
        match self.slots.get(&slot) {
            Some(entry) => entry.point(),
            None => None,
        }
    }

    /// Notes that the reply of a slot is not wanted: it is closed now, or once it is replied to or the hall breaks. It takes
    /// no memory.
    pub(crate) fn forget(&mut self, slot: u64)
        ensures by_events { ForEachKept self.old (λ w events. KeepMore w self.new events (forgotten slot)) }
        ensures closed { has_open true self.new slot ≡ false }
    {
        match self.standing(slot) {
            Some(SlotStanding::Waiting) => self.mark(slot),
            Some(SlotStanding::Replied) => {
                let _ = self.close(slot);
            }
            Some(SlotStanding::Forgotten) => {}
            None => {}
        }
    }

    // Keeps this of a slot.
    fn put(&mut self, slot: u64, entry: OpenSlot) -> Result<(), AllocError>
        ensures ok { OnOk result (PutsEntry self.old self.new slot (Some entry)) }
        ensures err { OnErr result (self.new ≡ self.old) }
    {
        self.slots.insert(slot, entry)?;
        Ok(())
    }

    // Whether the reply of a slot is told where so many commands are durable.
    fn is_told(&self, slot: u64, is_broken: bool, receipt: Receipt) -> bool
        ensures { result ≡ is_some (released_at is_broken receipt (entry_at self.now slot)) }
    {
        match self.slots.get(&slot) {
            Some(entry) => entry.is_told(is_broken, receipt),
            None => false,
        }
    }

    // Closes a slot whose reply is told.
    fn release(&mut self, slot: u64, is_broken: bool, receipt: Receipt) -> Option<(Reply, Receipt)>
        ensures gives { result ≡ released_at is_broken receipt (entry_at self.old slot) }
        ensures some { OnSome result (PutsEntry self.old self.new slot None) }
        ensures none { IfNone result (self.new ≡ self.old) }
    {
        if !self.is_told(slot, is_broken, receipt) {
            return None;
        }
        match self.close(slot) {
            Some(entry) => Some(entry.into_told(receipt)),
            None => None,
        }
    }

    // Where a slot stands, if something is kept of it.
    fn standing(&self, slot: u64) -> Option<SlotStanding>
        ensures { result ≡ option_map standing_of (entry_at self.now slot) }
    {
        match self.slots.get(&slot) {
            Some(entry) => Some(entry.standing()),
            None => None,
        }
    }

    // Closes a slot, and gives what was kept of it.
    fn close(&mut self, slot: u64) -> Option<OpenSlot>
        ensures entry { result ≡ entry_at self.old slot }
        ensures closed { PutsEntry self.old self.new slot None }
    {
        self.slots.remove(&slot)
    }

    // Gives a slot this reply, if something is kept of it.
    fn set_reply(&mut self, slot: u64, reply: Reply, ticket: Ticket)
        ensures { PutsEntry self.old self.new slot (option_map (with_reply (reply, ticket)) (entry_at self.old slot)) }
    {
        if let Some(entry) = self.slots.get_mut(&slot) {
            entry.reply = Some((reply, ticket));
        }
    }

    // Notes that the reply of a slot is not wanted, if something is kept of it.
    fn mark(&mut self, slot: u64)
        ensures { PutsEntry self.old self.new slot (option_map marked (entry_at self.old slot)) }
    {
        if let Some(entry) = self.slots.get_mut(&slot) {
            entry.is_forgotten = true;
        }
    }
}
