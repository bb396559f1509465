// Why a record cannot be written or read.
ghost use Rattle.std.specs.Prelude.{◌≡◌};
ghost use Rattle.invoke_records.specs.declared.error.RecordError.TheVariants.{OutOfMemory};

use std::alloc::{AllocError, AllocFailed};
use thiserror::Error;

/// Why a record has no spelling, or bytes begin with none.
#[derive(Clone, Copy, Debug, Error)]
pub enum RecordError {
    /// The bytes end within the record.
    #[error("the record is cut off")]
    Truncated,
    /// A field is outside its range.
    #[error("a field of the record is out of range")]
    BadKind,
    /// A length or a count is above its greatest value.
    #[error("the record is too long")]
    TooLong,
    #[error("out of memory")]
    OutOfMemory,
}

impl From<AllocError> for RecordError {
    ghost from_gives = { λ _ e. e ≡ OutOfMemory };

    fn from(_e: AllocError) -> RecordError {
        RecordError::OutOfMemory
    }
}

impl<T: Drop> From<AllocFailed<T>> for RecordError {
    ghost from_gives = { λ _ e. e ≡ OutOfMemory };

    fn from(_e: AllocFailed<T>) -> RecordError {
        RecordError::OutOfMemory
    }
}
