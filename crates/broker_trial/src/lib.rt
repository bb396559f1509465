//! One event accepted, committed and recovered, on a disk in memory. It rests on the clauses of `broker_core` alone.
#![tactic(auto)]

mod printing;
mod trial;

pub use trial::{Trial, TrialError, run_trial};
