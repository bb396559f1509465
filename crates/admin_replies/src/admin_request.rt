// What a request to the operator's port asks for.
ghost use Rattle.std.specs.Prelude.{◌≡◌};
ghost use Rattle.admin_replies.specs.Seeking.{sought_by};

use async_core::Side;
use hall_core::Sought;
use operator_view::Which;

/// What a request to the operator's port asks for.
#[derive(Clone, Copy)]
pub enum AdminRequest {
    /// `/`: the page for a person.
    Page,
    /// `/metrics`: the numbers, as text.
    Metrics,
    /// `/history`: the numbers of the last minutes, as text.
    History,
    /// `/healthz`: whether the broker serves, and with `?deep` what is wrong with it too.
    Health {
        is_deep: bool,
    },
    /// `/events`: a list of events.
    Events {
        which: Which,
        /// Only those behind this one.
        after: Option<[u8; 16]>,
        /// At most so many, 1 to 1000.
        limit: usize,
    },
    /// `/events/ID`: one event.
    Event([u8; 16]),
    /// `/records/success` and `/records/failure`: a list of records.
    Records {
        side: Side,
        /// Only those behind this one.
        after: Option<[u8; 16]>,
        /// At most so many, 1 to 1000.
        limit: usize,
    },
}

impl AdminRequest {
    /// What is sought of a table to tell this.
    pub fn sought(&self) -> Sought
        // claim: All rows are sought for lists of events and of records alone, and for one event its own.
        ensures { result ≡ sought_by self.now }
    {
        match self {
            AdminRequest::Events { .. } | AdminRequest::Records { .. } => Sought::Rows,
            AdminRequest::Event(id) => Sought::Event(*id),
            _ => Sought::Numbers,
        }
    }
}
