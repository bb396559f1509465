//! Runs the worked cases: files of steps with the expected answer beside each.
//!
//! This crate reads the files and does each case's steps on a `Fixture`, which a program over it brings. It has what the steps
//! of several programs read: words, bytes, settings and commands. All of it is plain code without contracts: what a step
//! calls is proved, and what a case says is compared. `CONTRIBUTING.md` has the language of the cases.
#![tactic(auto)]

mod bytes;
mod case;
mod files;
mod orders;
mod running;
mod settings;
mod step_reply;
mod text_buffer;
mod words;

pub use bytes::{body, hex_bytes};
pub use files::{Tally, run_file};
pub use orders::{CommandRange, is_kind, kind_word, read_command, read_environment, read_order};
pub use running::Fixture;
pub use settings::{set, usual_settings};
pub use step_reply::StepReply;
pub use text_buffer::TextBuffer;
pub use words::{T, Words, id_of, number_of, number_of_id, range_of};
