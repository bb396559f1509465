//! The broker: commands are issued into memory, committed in groups, and recovered after a stop.
//!
//! A broker stands for a history, the list of all commands issued since the disk was formatted, and a durable number.
//! The crates above use that at each moment of each call every image of the disk recovers to a legal stop: the table
//! after a prefix of that history with at least the durable commands. A disk of version 1 of the format is not opened.
#![tactic(auto)]

mod batch;
mod broker;
mod committing;
mod copying;
mod disk_half;
mod error;
mod figures;
mod issue_half;
mod issuer;
mod issuing;
mod joining;
mod recovery;
mod resuming;
mod splitting;
mod staging;
mod taking;
mod token;

pub use batch::{Batch, Failed, Written};
pub use broker::{Broker, MOST_COMMANDS, MOST_PENDING, without_disk};
pub use checkpoint::{FormatError, OpenError, format};
pub use copying::copy_command;
pub use disk_half::DiskHalf;
pub use error::{
    CommitError, IssueError, JoinError, JoinFailure, LendError, OpenFailure, SettleError,
    SplitError, SplitFailure, WriteError,
};
pub use issue_half::IssueHalf;
pub use issuer::Issuer;
pub use recovery::table_behind;
pub use token::{Durable, Receipt, Ticket};
