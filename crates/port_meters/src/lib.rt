//! What all ports of a broker have in common, whomever they serve: what they ask of the machine, the moment that its clock
//! shows, and what their threads count for an operator.
//!
//! A counter is seen as the record of its numbers, a moment as the milliseconds that the clock showed. The crates above use
//! that each thing is counted once, and that only a look at the clock makes a moment: at that of the `Premises`, which may hold a jump
//! ahead back. A thing that is served beside a front implements `Beside`.
#![tactic(auto)]

mod beside;
mod counters;
mod held_clock;
mod histogram;
mod lines;
mod machine;
mod meters;
mod moment;
mod opening;
mod port_meter;
mod ports;
mod premises;
mod version;

pub use beside::Beside;
pub use counters::{Counters, Refusals};
pub use held_clock::HeldBack;
pub use histogram::{Histogram, Spread};
pub use lines::{Lines, Stream, takes_a_line};
pub use machine::Machine;
pub use meters::{DiskState, Meters, micros_since};
pub use moment::{Moment, NoClock};
pub use opening::Opening;
pub use port_meter::{PortMeter, Unread, UnreadCounts};
pub use ports::{PortMeters, Ports};
pub use premises::{Noticed, Premises};
pub use version::{BARE_VERSION, STAMP_ROOM, Stamp, Version};
