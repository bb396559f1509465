//! How far the long work on a disk is.
//!
//! `ProgressDisk` counts the bytes that its reads and writes were handed, and tells them to a log. It does what the disk within does, and
//! who is told has no say in it. A `Pace` says when a line is due: on a terminal soon, since it is written over, and else seldom.
#![tactic(auto)]

mod pace;
mod progress_disk;

pub use pace::{Pace, pace_of_standard_error};
pub use progress_disk::{ProgressDisk, ProgressLog};
