//! Long polls: the future of one reply, which waits until the reply may be told.
//!
//! It looks at the board for its ticket without a lock, and asks the office only once the ticket is durable or the bell says
//! that the hall broke. Where the reply may not be told yet, it registers at the bell, which wakes those that can go on. The
//! crates above use that it gives the reply of its own slot, and that a poll which is pending has registered.
#![tactic(auto)]

mod acting;
mod admin_reader;
mod pending_view;
mod port;
mod waiting;

pub use acting::Acting;
pub use admin_reader::{AdminReader, TicketedView};
pub use bell::{Answered, Bell, Rung, RungForAll, SaidBroken};
pub use pending_view::{DurableView, PendingView, ViewError};
pub use port::{Arrived, Port};
pub use waiting::Waiting;
