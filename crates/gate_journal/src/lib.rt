//! The journal of a segment: frames of commands, each behind a gate that is opened once the frame is on the disk.
//!
//! A journal is seen by its place: its generation, the sector of the closed gate after its last frame, where its area
//! ends, and the number of the next command. The crates above use that a stop at any moment of an append leaves the
//! commands from before it, or those and the whole batch.
#![tactic(auto)]

mod area;
mod error;
mod head;
mod journal;
mod laws;
mod reading;
mod staged;
mod staging;
mod writing;

pub use area::Area;
pub use error::{AppendError, ReadError};
pub use journal::{Journal, MOST_IN_FRAME};
pub use laws::what_is_read_is_what_was_written;
pub use staged::Staged;
