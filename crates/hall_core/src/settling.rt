// Giving replies to their slots.
ghost use Rattle.std.specs.Prelude.{◌≡◌, ◌++◌, ℕ, List, Option, option_map};
ghost use Rattle.api_core.specs.Replies.{Told, reply_in};
ghost use Rattle.broker_core.specs.Issuer.{issued_in};
ghost use Rattle.hall_core.specs.OpenSlots.{KeepFor, ForEachKept};
ghost use Rattle.hall_plans.specs.Settling.{replies_told, replied_at, own_at};

use crate::slots::Slots;
use api_core::Reply;
use broker_core::{Issuer, Ticket};

impl Slots {
    /// Gives these replies to their slots: all that is issued has to be durable before they are told.
    pub(crate) fn reply_all<I: Issuer>(&mut self, replies: Vec<(u64, Reply)>, issuer: &I)
        ensures { ForEachKept self.old (λ w events. (told : List (ℕ × Told)) → replies.items ≡ replies_told w told
            → KeepFor w self.new (events ++ replied_at (issued_in (I.view issuer.now)) told)) }
    {
        for (slot, reply) in replies {
            self.reply(slot, reply, issuer.ticket());
        }
    }

    /// Gives the reply to the caller's slot, if there is one now.
    pub(crate) fn reply_own(&mut self, slot: u64, own: Option<Reply>, ticket: Ticket)
        ensures { ForEachKept self.old (λ w events. (told : Option Told) → own ≡ option_map (reply_in w) told
            → KeepFor w self.new (events ++ own_at slot ticket told)) }
    {
        if let Some(reply) = own {
            self.reply(slot, reply, ticket);
        }
    }
}
