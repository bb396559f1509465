// Why a journal cannot be read or written.
use sector_disk::Fault;
use std::alloc::AllocError;
use thiserror::Error;

/// Why the frames of an area cannot be read.
#[derive(Clone, Copy, Debug, Error)]
pub enum ReadError {
    /// The device failed.
    #[error("device fault")]
    Fault,
    #[error("out of memory")]
    OutOfMemory,
    /// An open gate stands before a body that is none: its sector.
    #[error("damaged at sector {sector}")]
    Damaged { sector: u64 },
}

impl From<Fault> for ReadError {
    ghost use Rattle.std.specs.Prelude.{◌≡◌};
    ghost use Rattle.gate_journal.specs.declared.error.ReadError.TheVariants as read_error;

    ghost from_gives = { λ _ e. e ≡ read_error.Fault };

    fn from(_: Fault) -> Self {
        ReadError::Fault
    }
}

impl From<AllocError> for ReadError {
    ghost use Rattle.std.specs.Prelude.{◌≡◌};
    ghost use Rattle.gate_journal.specs.declared.error.ReadError.TheVariants as read_error;

    ghost from_gives = { λ _ e. e ≡ read_error.OutOfMemory };

    fn from(_: AllocError) -> Self {
        ReadError::OutOfMemory
    }
}

/// Why a batch was not appended.
#[derive(Clone, Copy, Debug, Error)]
pub enum AppendError {
    /// The frame does not fit behind the last one.
    #[error("no room")]
    NoRoom,
    #[error("out of memory")]
    OutOfMemory,
    /// The device failed.
    #[error("device fault")]
    Fault,
}

impl From<Fault> for AppendError {
    ghost use Rattle.std.specs.Prelude.{◌≡◌};
    ghost use Rattle.gate_journal.specs.declared.error.AppendError.TheVariants as append_error;

    ghost from_gives = { λ _ e. e ≡ append_error.Fault };

    fn from(_: Fault) -> Self {
        AppendError::Fault
    }
}

impl From<AllocError> for AppendError {
    ghost use Rattle.std.specs.Prelude.{◌≡◌};
    ghost use Rattle.gate_journal.specs.declared.error.AppendError.TheVariants as append_error;

    ghost from_gives = { λ _ e. e ≡ append_error.OutOfMemory };

    fn from(_: AllocError) -> Self {
        AppendError::OutOfMemory
    }
}
