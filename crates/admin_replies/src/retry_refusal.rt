// Why a record is not tried again.
ghost use Rattle.std.specs.Prelude.{◌≡◌};
ghost use Rattle.admin_replies.specs.Retrying.{status_of};
ghost use Rattle.admin_replies.specs.declared.retry_refusal.RetryRefusal.TheVariants.{OutOfMemory};

use std::alloc::AllocError;
use thiserror::Error;

/// Why a record is not tried again.
#[derive(Clone, Copy, Debug, Error)]
pub enum RetryRefusal {
    #[error("the path names no event: its id is no UUID")]
    Id,
    #[error("no event of this id is held")]
    Unknown,
    #[error("the event has not ended: only a failed record is tried again")]
    NotEnded,
    #[error("the event succeeded: only a failed record is tried again")]
    Succeeded,
    #[error("out of memory")]
    OutOfMemory,
}

impl From<AllocError> for RetryRefusal {
    ghost from_gives = { λ _ error. error ≡ OutOfMemory };

    fn from(_why: AllocError) -> RetryRefusal {
        RetryRefusal::OutOfMemory
    }
}

impl RetryRefusal {
    /// The status that it is answered with.
    pub fn status(self) -> u16
        ensures { result ≡ status_of self }
    {
        match self {
            RetryRefusal::Id => 400,
            RetryRefusal::Unknown => 404,
            RetryRefusal::NotEnded => 409,
            RetryRefusal::Succeeded => 409,
            RetryRefusal::OutOfMemory => 503,
        }
    }
}
