// Why an office is not opened or not closed.
use crate::desk::Desk;
use crate::unlocked::Unlocked;
use broker_core::{DiskHalf, JoinError, SplitError};
use sector_disk::Disk;
use std::sync::ledger::{Blank, Ledger};
use thiserror::Error;

/// A hall over which no office was made, and why. It is handed back with the blank ledger.
#[derive(Drop)]
pub struct OfficeFailure<H> {
    pub cause: SplitError,
    pub hall: H,
    pub blank: Blank,
}

/// Why an office was not closed.
#[derive(Clone, Copy, Debug, PartialEq, Eq, Error)]
pub enum FinishError {
    /// The desks do not have each desk number once, or the marks of a desk are not those that the office has of it.
    #[error("the desks are not those of the office")]
    Mismatch,
    /// The hall was not joined with the disk half.
    #[error("{0}")]
    NotJoined(JoinError),
}

/// An office that was not closed, and why. All is handed back, the office out of its lock.
#[derive(Drop)]
pub struct UnlockedFailure<D: Disk, L: Ledger> {
    pub cause: FinishError,
    pub office: Unlocked<L>,
    pub desks: Vec<Desk<L>>,
    /// The half over the disk, with what it took.
    pub disk: DiskHalf<D>,
}
