//! The bell: tasks wait there, each for a number that has to be durable, or for the answer of its poll.
//!
//! A ring wakes those whose number is durable, and no others. The crates above use that a task which waits has registered, and
//! that what shows a ring, a telling or a broken hall names its bell.
#![tactic(auto)]

mod bell;
mod waiters;

pub use bell::{Answered, Bell, RungForAll, SaidBroken};
pub use waiters::{Left, Parked, Registered, Rung};
