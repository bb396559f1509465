// Why there is no page.
ghost use Rattle.std.specs.Prelude.{◌≡◌};
ghost use Rattle.operator_view.specs.declared.error.PageError.TheVariants.{OutOfMemory};

use std::alloc::{AllocError, AllocFailed};
use thiserror::Error;

/// Why there is no page.
#[derive(Clone, Copy, Debug, Error)]
pub enum PageError {
    #[error("out of memory")]
    OutOfMemory,
    /// The event that the page was to begin behind is not in this list: it was collected, or stands elsewhere.
    #[error("no event of this id is in this list")]
    After,
}

impl From<AllocError> for PageError {
    ghost from_gives = { λ _ error. error ≡ OutOfMemory };

    fn from(_error: AllocError) -> PageError {
        PageError::OutOfMemory
    }
}
