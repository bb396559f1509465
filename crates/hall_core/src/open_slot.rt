// One open slot.
ghost use Rattle.std.specs.Prelude.{◌≡◌, is_some};

use api_core::Reply;
use broker_core::{Receipt, Ticket};

/// A slot with which a request came: its reply waits to be taken, or is not there yet.
#[derive(Drop)]
pub(crate) struct OpenSlot {
    /// Its reply is not wanted.
    pub(crate) is_forgotten: bool,
    /// The reply, and the ticket of all that has to be durable before it is told.
    pub(crate) reply: Option<(Reply, Ticket)>,
    /// What a broken hall tells in its place. It stands in the program, so that no memory is needed.
    pub(crate) unavailable: Reply,
}

/// Where a slot stands.
#[derive(Clone, Copy)]
pub(crate) enum SlotStanding {
    /// It has no reply yet.
    Waiting,
    /// It has none, and none is wanted.
    Forgotten,
    /// Its reply waits to be taken.
    Replied,
}

impl OpenSlot {
    ghost use Rattle.hall_core.specs.OpenSlots.{is_open_entry};
    ghost use Rattle.hall_core.specs.SlotSteps.{fresh_entry, standing_of, released_entry, point_by, told_entry};

    /// A slot that was just opened.
    pub(crate) fn new(unavailable: Reply) -> OpenSlot
        ensures { result ≡ fresh_entry unavailable }
    {
        OpenSlot {
            is_forgotten: false,
            reply: None,
            unavailable,
        }
    }

    /// Where it stands.
    pub(crate) fn standing(&self) -> SlotStanding
        ensures { result ≡ standing_of self.now }
    {
        if self.reply.is_some() {
            SlotStanding::Replied
        } else if self.is_forgotten {
            SlotStanding::Forgotten
        } else {
            SlotStanding::Waiting
        }
    }

    /// Whether it is open. In a broken hall it is not where its reply is not wanted: nothing will compute that.
    pub(crate) fn is_open(&self, is_broken: bool) -> bool
        ensures { result ≡ is_open_entry is_broken self.now }
    {
        !(is_broken && self.is_forgotten)
    }

    /// Whether its reply can be told: it is wanted and durable, or the hall is broken.
    pub(crate) fn is_told(&self, is_broken: bool, receipt: Receipt) -> bool
        ensures { result ≡ is_some (released_entry is_broken receipt self.now) }
    {
        let is_durable = match &self.reply {
            Some((_, ticket)) => ticket.number() <= receipt.number(),
            None => false,
        };
        !self.is_forgotten && (is_durable || is_broken)
    }

    /// How many commands have to be durable before its reply is told, where it has one that is wanted.
    pub(crate) fn point(&self) -> Option<u64>
        ensures { result ≡ point_by self.now }
    {
        match &self.reply {
            Some((_, ticket)) if !self.is_forgotten => Some(ticket.number()),
            _ => None,
        }
    }

    /// Its reply with the receipt that goes with it: its own where that is durable by this one, else that it is not
    /// available, with this one.
    pub(crate) fn into_told(self, receipt: Receipt) -> (Reply, Receipt)
        ensures { result ≡ told_entry receipt self }
    {
        let OpenSlot {
            reply,
            unavailable,
            ..
        } = self;
        let Some((reply, ticket)) = reply else {
            return (unavailable, receipt);
        };
        match ticket.settled_by(receipt.number()) {
            Ok(told) => (reply, told),
            Err(_) => (unavailable, receipt),
        }
    }
}
