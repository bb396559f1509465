// Why a broker is not copied.
ghost use Rattle.std.specs.Prelude.{◌≡◌};
ghost use Rattle.disk_copy.specs.Copying.{of_change, of_seed};
ghost use Rattle.disk_copy.specs.declared.error.CopyError.TheVariants as copy_error;

use crate::ChangeError;
use checkpoint::SeedError;
use retry_rules::Field;
use std::alloc::AllocError;
use thiserror::Error;

/// Why a broker was not copied to a new disk. The first that holds is told, in this order; the memory may fail before.
#[derive(Clone, Copy, Debug, Error)]
pub enum CopyError {
    /// A field of the new settings is outside its range: the first, in the order of the fields.
    #[error("bad settings: {field}")]
    BadSettings { field: Field },
    /// A limit is smaller than that of the old settings: the first, in the order of the fields.
    #[error("smaller limit: {field}")]
    Smaller { field: Field },
    /// The new disk has fewer sectors than its settings need: the least number.
    #[error("too small, least {least}")]
    TooSmall { least: u64 },
    /// The table has no spelling, or is past the limits of the new settings. No history leaves such a table: it was read so
    /// from the old disk.
    #[error("bad table")]
    BadTable,
    #[error("out of memory")]
    OutOfMemory,
    /// The new disk's device failed.
    #[error("device fault")]
    Fault,
}

impl From<AllocError> for CopyError {
    ghost from_gives = { λ _ e. e ≡ copy_error.OutOfMemory };

    fn from(_: AllocError) -> Self {
        CopyError::OutOfMemory
    }
}

impl From<ChangeError> for CopyError {
    ghost from_gives = { λ why e. e ≡ of_change why };

    fn from(why: ChangeError) -> Self {
        match why {
            ChangeError::BadSettings { field } => CopyError::BadSettings { field },
            ChangeError::Smaller { field } => CopyError::Smaller { field },
            ChangeError::OutOfMemory => CopyError::OutOfMemory,
        }
    }
}

impl From<SeedError> for CopyError {
    ghost from_gives = { λ why e. e ≡ of_seed why };

    fn from(why: SeedError) -> Self {
        match why {
            SeedError::TooSmall { least } => CopyError::TooSmall { least },
            SeedError::BadKind => CopyError::BadTable,
            SeedError::OutOfMemory => CopyError::OutOfMemory,
            SeedError::Fault => CopyError::Fault,
        }
    }
}
