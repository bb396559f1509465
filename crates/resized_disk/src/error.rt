// Why a disk was not judged.
ghost use Rattle.std.specs.Prelude.{◌≡◌};
ghost use Rattle.resized_disk.specs.declared.error.ResizedError.TheVariants as resized_error;

use sector_disk::Fault;
use std::alloc::AllocError;
use thiserror::Error;

/// Why it was not told whether a disk is resized, or blank.
#[derive(Clone, Copy, Debug, Error)]
pub enum ResizedError {
    #[error("out of memory")]
    OutOfMemory,
    /// The device failed.
    #[error("device fault")]
    Fault,
}

impl From<AllocError> for ResizedError {
    ghost from_gives = { λ _ e. e ≡ resized_error.OutOfMemory };

    fn from(_: AllocError) -> Self {
        ResizedError::OutOfMemory
    }
}

impl From<Fault> for ResizedError {
    ghost from_gives = { λ _ e. e ≡ resized_error.Fault };

    fn from(_: Fault) -> Self {
        ResizedError::Fault
    }
}
