//! What is done before callers are served, and what needs no front: a disk is opened in turn, attempts that the last stop cut off
//! are interrupted, ports are listened on, and a broker elsewhere is asked to stop.
//!
//! It stands beside the front, so that neither waits for the other's proofs. The crate above serves the hall that it opens, of
//! which it uses that nothing runs there.
#![tactic(auto)]

mod asking;
mod error;
mod listening;
mod losing;
mod naming;
mod notes;
mod opening;
mod output;
mod own_stamp;
mod resting;
mod standby;
mod stopping;
mod thread_room;

pub use asking::ask_to_stop;
pub use error::OpeningError;
pub use naming::check_name;
pub use notes::{note_stop, warn, warn_of_layers, warn_of_unproved};
pub use opening::{OpenedDisk, open_to_serve};
pub use output::{Output, keep_numbers};
pub use own_stamp::own_version;
pub use standby::{OpenDisk, open_in_turn};
pub use stopping::{StoppingError, stop_broker};
