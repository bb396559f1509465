//! Copying a broker to a new disk with a longer age for each event that has not ended, where its callee is down for longer than that.
//!
//! The crate above uses that the new disk goes on with a history that leaves just that table, so all that is promised of a disk is
//! promised of this one. That history has a Configure before each command, so each number of a command is twice what it was.
#![tactic(auto)]

mod aging;
mod copying;
mod laws;

pub use copying::copy_with_age;
pub use laws::a_longer_age_goes_on;
