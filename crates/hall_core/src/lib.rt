//! The hall: one call gives at most one command and one reply, and the reply is held back until all that it shows is
//! durable.
//!
//! A hall stands for what its run did: the history, the calls of its environments, and what became of slots. What is
//! meant is said over the list of all calls that were not refused. The crates above use that each call answers the
//! command that the definitions give, and then stands for the run with it, and that `take` gives exactly the replies
//! that may be told. What a call does is decided below, in `hall_plans`.
#![tactic(auto)]

mod fitting;
mod hall;
mod issuing;
mod looking;
mod open_slot;
mod over_broker;
mod over_half;
mod released;
mod reporting;
mod seeking;
mod settling;
mod slots;
mod waking;

pub use env_phase::{MOST_EXTENSIONS, Phase};
pub use hall::Hall;
pub use hall_plans::{EnvironmentStatus, HallError, Issued, drawn_id, examples, laws};
pub use looking::HallStatus;
pub use over_broker::HallFailure;
pub use over_half::{HallJoinFailure, HallSplitFailure};
pub use released::Released;
pub use seeking::{Sides, Sought};
