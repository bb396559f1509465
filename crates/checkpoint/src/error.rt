// Why a disk cannot be formatted or opened.
ghost use Rattle.std.specs.Prelude.{◌≡◌};
ghost use Rattle.checkpoint.specs.Opening.{open_error_of};
ghost use Rattle.checkpoint.specs.declared.error.FormatError.TheVariants as format_error;
ghost use Rattle.checkpoint.specs.declared.error.OpenError.TheVariants as open_error;
ghost use Rattle.checkpoint.specs.declared.error.SeedError.TheVariants as seed_error;
ghost use Rattle.checkpoint.specs.declared.error.SwitchError.TheVariants as switch_error;

use gate_journal::ReadError;
use sector_disk::Fault;
use std::alloc::{AllocError, AllocFailed};
use thiserror::Error;

/// Why a disk was not formatted.
#[derive(Clone, Copy, Debug, Error)]
pub enum FormatError {
    /// The disk has fewer sectors than the settings need: the least number.
    #[error("too small, least {least}")]
    TooSmall { least: u64 },
    #[error("out of memory")]
    OutOfMemory,
    /// The device failed.
    #[error("device fault")]
    Fault,
}

impl From<AllocError> for FormatError {
    ghost from_gives = { λ _ e. e ≡ format_error.OutOfMemory };

    fn from(_: AllocError) -> Self {
        FormatError::OutOfMemory
    }
}

impl From<Fault> for FormatError {
    ghost from_gives = { λ _ e. e ≡ format_error.Fault };

    fn from(_: Fault) -> Self {
        FormatError::Fault
    }
}

/// Why a disk was not formatted with a table.
#[derive(Clone, Copy, Debug, Error)]
pub enum SeedError {
    /// The disk has fewer sectors than the settings need: the least number.
    #[error("too small, least {least}")]
    TooSmall { least: u64 },
    /// The table has no spelling, or is past the limits of the settings.
    #[error("bad snapshot")]
    BadKind,
    #[error("out of memory")]
    OutOfMemory,
    /// The device failed.
    #[error("device fault")]
    Fault,
}

impl From<AllocError> for SeedError {
    ghost from_gives = { λ _ e. e ≡ seed_error.OutOfMemory };

    fn from(_: AllocError) -> Self {
        SeedError::OutOfMemory
    }
}

impl From<Fault> for SeedError {
    ghost from_gives = { λ _ e. e ≡ seed_error.Fault };

    fn from(_: Fault) -> Self {
        SeedError::Fault
    }
}

/// Why a disk was not opened.
#[derive(Clone, Copy, Debug, Error)]
pub enum OpenError {
    /// The device failed.
    #[error("device fault")]
    Fault,
    #[error("out of memory")]
    OutOfMemory,
    /// No segment's gate is open, or the disk has fewer than 6 sectors.
    #[error("not formatted")]
    NotFormatted,
    /// What stands at this sector is no part of a formatted disk.
    #[error("damaged at sector {sector}")]
    Damaged { sector: u64 },
    /// All of the disk can be read, and its live segment is of version 1 of the format: it has to be migrated.
    #[error("old version")]
    OldVersion,
}

impl From<AllocError> for OpenError {
    ghost from_gives = { λ _ e. e ≡ open_error.OutOfMemory };

    fn from(_: AllocError) -> Self {
        OpenError::OutOfMemory
    }
}

impl<T: Drop> From<AllocFailed<T>> for OpenError {
    ghost from_gives = { λ _ e. e ≡ open_error.OutOfMemory };

    fn from(_: AllocFailed<T>) -> Self {
        OpenError::OutOfMemory
    }
}

impl From<Fault> for OpenError {
    ghost from_gives = { λ _ e. e ≡ open_error.Fault };

    fn from(_: Fault) -> Self {
        OpenError::Fault
    }
}

impl From<ReadError> for OpenError {
    ghost from_gives = { λ why e. e ≡ open_error_of why };

    fn from(why: ReadError) -> Self {
        match why {
            ReadError::Fault => OpenError::Fault,
            ReadError::OutOfMemory => OpenError::OutOfMemory,
            ReadError::Damaged { sector } => OpenError::Damaged { sector },
        }
    }
}

/// Why a switch to the other segment was refused.
#[derive(Clone, Copy, Debug, Error)]
pub enum SwitchError {
    /// The snapshot has no spelling, or is past the limits of the settings: no history leaves such a table.
    #[error("bad snapshot")]
    BadKind,
    #[error("out of memory")]
    OutOfMemory,
    /// The device failed.
    #[error("device fault")]
    Fault,
}

impl From<AllocError> for SwitchError {
    ghost from_gives = { λ _ e. e ≡ switch_error.OutOfMemory };

    fn from(_: AllocError) -> Self {
        SwitchError::OutOfMemory
    }
}

impl From<Fault> for SwitchError {
    ghost from_gives = { λ _ e. e ≡ switch_error.Fault };

    fn from(_: Fault) -> Self {
        SwitchError::Fault
    }
}
