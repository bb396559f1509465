// A reply that is told.
ghost use Rattle.std.specs.Prelude.{◌≡◌};

use api_core::Reply;
use broker_core::Receipt;

/// A reply that may be told, since all that it shows is durable by this receipt. Only a hall makes one, for one slot.
#[derive(Drop)]
pub struct Released {
    reply: Reply,
    pub receipt: Receipt,
    slot: u64,
}

impl Released {
    ghost use Rattle.hall_core.specs.Hall.{slot_told};

    pub(crate) fn new(slot: u64, reply: Reply, receipt: Receipt) -> Released
        ensures { result ≡ record { reply = reply; receipt = receipt; slot = slot } }
    {
        Released {
            reply,
            receipt,
            slot,
        }
    }

    /// The slot that is told it.
    pub fn slot(&self) -> u64
        ensures { result ≡ slot_told self.now }
    {
        self.slot
    }

    /// The HTTP status of the reply.
    pub fn status(&self) -> u16
        ensures { result ≡ self.now.reply.status }
    {
        self.reply.status
    }

    /// The reply, as it was released: nobody can change it in here.
    pub fn into_reply(self) -> Reply
        ensures { result ≡ self.reply }
    {
        let Released { reply, .. } = self;
        reply
    }
}
