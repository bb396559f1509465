// Why an environment refuses a call.
ghost use Rattle.std.specs.Prelude.{◌≡◌};
ghost use Rattle.env_phase.specs.declared.refusal.EnvError.TheVariants.{OutOfMemory};

use std::alloc::AllocError;
use thiserror::Error;

/// Why an environment does not accept a call now.
#[derive(Clone, Copy, Debug, Error)]
pub enum Refusal {
    #[error("extension is not registered")]
    UnknownExtension,
    #[error("registration is closed")]
    RegistrationClosed,
    #[error("at most 10 extensions")]
    TooManyExtensions,
    #[error("identifier is registered already")]
    InUse,
    #[error("not allowed in this phase")]
    WrongPhase,
}

/// Why a call was not made. It changed nothing.
#[derive(Clone, Copy, Debug, Error)]
pub enum EnvError {
    #[error("{0}")]
    Refused(Refusal),
    #[error("out of memory")]
    OutOfMemory,
}

impl From<AllocError> for EnvError {
    ghost from_gives = { λ _ error. error ≡ OutOfMemory };

    fn from(_error: AllocError) -> EnvError {
        EnvError::OutOfMemory
    }
}
