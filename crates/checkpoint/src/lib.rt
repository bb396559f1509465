//! The segments of a disk: a header with the settings, a snapshot of the table, and a journal behind it.
//!
//! A disk is seen by what an image of it recovers to: the settings and the table after the snapshot and each command
//! behind an open gate, or what is wrong and where. Segments of version 1 of the format are read by their own sizes, and
//! only version 2 is written: a disk whose live segment is of version 1 recovers to nothing, until a switch writes version 2.
//! The crates above use that `open` gives just this, and that a stop at any moment of `append` leaves the table from before
//! it or after the whole batch.
#![tactic(auto)]

mod choosing;
mod error;
mod formatting;
mod header;
mod laws;
mod legality;
mod older;
mod opened;
mod opening;
mod pieces;
mod reading;
mod seeding;
mod segment;
mod sizes;
mod snapshot;
mod staging;
mod switching;
mod writing;

pub use error::{FormatError, OpenError, SeedError, SwitchError};
pub use formatting::format;
pub use gate_journal::{AppendError, Staged};
pub use header::MOST_GENERATIONS;
pub use laws::what_is_recovered_is_what_was_written;
pub use older::read_older;
pub use opened::Opened;
pub use opening::{open, open_either};
pub use seeding::seed;
pub use sizes::least_sectors;
pub use switching::switch;
