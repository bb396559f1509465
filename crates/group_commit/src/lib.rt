//! The broker, its scripts and its migration.
//!
//! The broker itself is `broker_core`'s, and has its names here too. `drill` and `drill_split` run scripts on it, stops
//! among their steps, on a disk in memory: their answers are those of one history. `migrate` makes a disk of version 1 of the
//! format one of version 2, and at each moment of that every image reads, as one or the other, to the same table.
#![tactic(auto)]

mod drilling;
mod error;
mod migrating;
mod script;
mod split_drilling;
mod split_script;

pub use broker_core::{
    Batch, Broker, CommitError, DiskHalf, Durable, Failed, FormatError, IssueError, IssueHalf,
    Issuer, JoinError, JoinFailure, LendError, MOST_COMMANDS, MOST_PENDING, OpenError, OpenFailure,
    Receipt, SettleError, SplitError, SplitFailure, Ticket, WriteError, Written, format,
    without_disk,
};
pub use drilling::drill;
pub use error::{MigrateError, MigrateFailure};
pub use migrating::migrate;
pub use script::{Drill, DrillFailure, Step, StepAnswer};
pub use split_drilling::drill_split;
pub use split_script::{SplitAnswer, SplitDrill, SplitStep};
