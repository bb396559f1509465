// Why a disk was not opened to be served.
ghost use Rattle.std.specs.Prelude.{◌≡◌};
ghost use Rattle.broker_opening.specs.Faults.{is_opening_fault};

use broker_commands::DiskError;
use broker_core::{CommitError, IssueError, OpenError};
use std::alloc::AllocError;
use std::io;
use thiserror::Error;

/// Why a disk was not opened to be served.
#[derive(Debug, Drop, Error)]
pub enum OpeningError {
    #[error("out of memory")]
    OutOfMemory(#[from] AllocError),
    #[error("{0}")]
    Disk(#[from] DiskError),
    #[error("{0}")]
    Open(#[from] OpenError),
    /// A port is in use, or may not be used.
    #[error("port in use")]
    Port,
    /// The system does not give so many threads to serve the callers, beside those that it takes else.
    #[error("no room for {threads} threads of callers")]
    Threads { threads: u8 },
    /// The clock could not be read, or a line not be printed.
    #[error("{0}")]
    System(#[from] io::Error),
    /// No Interrupt was issued for an attempt that the last stop cut off.
    #[error("{0}")]
    Resume(#[from] IssueError),
    #[error("{0}")]
    Commit(#[from] CommitError),
    /// It is another function's disk: this one's.
    #[error("the disk is of function {name}")]
    OtherFunction { name: String },
    /// The device failed before.
    #[error("device fault")]
    Broken,
}

impl OpeningError {
    /// Whether the device failed.
    pub fn is_device_fault(&self) -> bool
        ensures { result ≡ is_opening_fault self.now }
    {
        match self {
            OpeningError::Disk(why) => why.is_device_fault(),
            OpeningError::Open(why) => matches!(why, OpenError::Fault),
            OpeningError::Commit(why) => matches!(why, CommitError::Fault),
            OpeningError::Broken => true,
            _ => false,
        }
    }
}
