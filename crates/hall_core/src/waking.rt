// What a hall says of its replies to those that wait for them.
ghost use Rattle.std.specs.Prelude.{◌≡◌, []};
ghost use Rattle.hall_plans.specs.Slots.{point_in, point_of};
ghost use Rattle.hall_core.specs.OpenSlots.{ForEachKept};
ghost use Rattle.hall_core.specs.Hall.{view_of, answered_slots, ForEachPast, IsSameHall};
ghost use Rattle.hall_core.specs.Halves.{HasSameParts};

use crate::hall::Hall;
use broker_core::Issuer;
use std::mem::replace;

impl<I: Issuer> Hall<I> {
    /// Hands out the slots of the polls that the last request or move answered, in the order of their replies: none are
    /// left, and nothing else changes. It takes no memory.
    pub fn take_answered(&mut self) -> Vec<u64>
        ensures slots { result.items ≡ answered_slots self.old }
        ensures none_left { answered_slots self.new ≡ [] }
        ensures issuer { self.new.issuer ≡ self.old.issuer }
        ensures parts { HasSameParts (view_of I.view self.old) (view_of I.view self.new) }
        ensures same { IsSameHall (view_of I.view self.old) (view_of I.view self.new) }
    {
        replace(&mut self.answered, Vec::new(self.alloc))
    }

    /// How many commands have to be durable before the reply of this slot is told, where it is computed and still wanted.
    /// None where the slot is not open, its reply is not wanted, or it is not computed yet. It takes no memory.
    pub fn point(&self, slot: u64) -> Option<u64>
        // claim: A slot's point, if any, is how many commands its reply needs durable. [: by_past, by_events]
        ensures by_past { ForEachPast (view_of I.view self.now) (λ past. result ≡ point_of past slot) }
        ensures by_events { ForEachKept self.now.slots (λ _ events. result ≡ point_in events slot) }
    {
        self.slots.point(slot)
    }
}
