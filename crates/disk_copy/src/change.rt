// What a copy's settings have other than the old disk's.
ghost use Rattle.std.specs.Prelude.{◌≡◌};
ghost use Rattle.disk_copy.specs.declared.change.ChangeError.TheVariants.{OutOfMemory};

use retry_rules::{Field, Text};
use std::alloc::AllocError;
use thiserror::Error;

/// What a copy's settings have other than the old disk's: what is `None` stays as it is.
#[derive(Debug, Drop)]
pub struct Change {
    /// How many environments there are.
    pub environments: Option<u8>,
    /// How many events may be held at once.
    pub events: Option<u16>,
    /// The greatest payload, in bytes.
    pub payload: Option<u32>,
    /// The greatest response or error body, in bytes.
    pub response: Option<u32>,
    /// The function's name.
    pub name: Option<Text>,
    /// The function's handler.
    pub handler: Option<Text>,
    /// The function's ARN.
    pub arn: Option<Text>,
}

/// Why settings were refused for a copy. The first that holds is told, in this order; the memory may fail before.
#[derive(Clone, Copy, Debug, Error)]
pub enum ChangeError {
    /// A field of the new settings is outside its range: the first, in the order of the fields.
    #[error("bad settings: {field}")]
    BadSettings { field: Field },
    /// A limit is smaller than that of the old settings: the first, in the order of the fields.
    #[error("smaller limit: {field}")]
    Smaller { field: Field },
    #[error("out of memory")]
    OutOfMemory,
}

impl From<AllocError> for ChangeError {
    ghost from_gives = { λ _ error. error ≡ OutOfMemory };

    fn from(_error: AllocError) -> ChangeError {
        ChangeError::OutOfMemory
    }
}
