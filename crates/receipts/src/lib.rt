//! The office: one hall under a lock, and a desk for each thread that asks it.
//!
//! Under the lock the office marks each command that was issued since it was opened, and each desk keeps the marks of its
//! own. What is kept of a mark is a type parameter, a `Trace`: the mark itself, or `Gone`, which has no bytes and which
//! proofs alone see. The crates above use that what a desk was told is never undercut, that a call adds the mark of the
//! command that it tells and no other, and that at the end each desk that kept its marks has its history among all marks.
//! Whenever the lock is free the table tells what the marks tell. Beside each answer of an office proofs see what stood
//! under the lock before its call and after it, of which the clauses say what was done. What an operator is shown is unreleased until
//! all of it is durable.
#![tactic(auto)]

mod advancing;
mod broken_hall;
mod command_counters;
mod committed;
mod desk;
mod desk_count;
mod drill;
mod error;
mod finishing;
pub mod laws;
mod lives;
mod locked;
mod looking;
mod mark;
mod marks;
mod noting;
mod office;
mod opening;
mod unlocked;
mod view;
mod witness;

pub use broken_hall::BrokenHall;
pub use command_counters::CommandCounters;
pub use committed::Committed;
pub use desk::{Desk, desks};
pub use drill::{Ask, DeskStep};
pub use error::{FinishError, OfficeFailure, UnlockedFailure};
pub use lives::Lives;
pub use looking::Rest;
pub use mark::{Gone, Mark, SharedTrace, Trace};
pub use office::Office;
pub use opening::{GoneTable, OpeningTrace, SharedOpening};
pub use unlocked::Unlocked;
pub use view::{Unreleased, View};
pub use witness::Witnessed;
