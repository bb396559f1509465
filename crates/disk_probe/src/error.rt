// Why a disk was not probed.
ghost use Rattle.std.specs.Prelude.{◌≡◌};
ghost use Rattle.disk_probe.specs.Faults.{is_device_fault};

use resized_disk::ResizedError;
use sector_disk::{Fault, FileError};
use std::alloc::AllocError;
use std::io;
use thiserror::Error;

/// Why a disk was not probed.
#[derive(Debug, Drop, Error)]
pub enum ProbeError {
    #[error("out of memory")]
    OutOfMemory(#[from] AllocError),
    /// The disk was not opened, or failed.
    #[error("{0}")]
    File(#[from] FileError),
    /// It has no sector.
    #[error("no sectors")]
    Empty,
    /// The witness was not opened, or failed.
    #[error("the witness: {0}")]
    Witness(FileError),
    /// The witness is no attachment of the same volume: it has so many sectors.
    #[error("the witness has {sectors} sectors")]
    OtherSize { sectors: u64 },
    /// The clock could not be read.
    #[error("{0}")]
    System(#[from] io::Error),
}

impl ProbeError {
    /// Whether the device failed.
    pub fn is_device_fault(&self) -> bool
        ensures { result ≡ is_device_fault self.now }
    {
        matches!(
            self,
            ProbeError::File(FileError::Fault) | ProbeError::Witness(FileError::Fault)
        )
    }
}

impl From<Fault> for ProbeError {
    fn from(_: Fault) -> Self {
        ProbeError::File(FileError::Fault)
    }
}

impl From<ResizedError> for ProbeError {
    fn from(why: ResizedError) -> Self {
        match why {
            ResizedError::OutOfMemory => ProbeError::OutOfMemory(AllocError),
            ResizedError::Fault => ProbeError::File(FileError::Fault),
        }
    }
}
