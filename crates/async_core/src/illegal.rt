// Why a command is refused.
ghost use Rattle.std.specs.Prelude.{◌≡◌};
ghost use Rattle.async_core.specs.declared.illegal.ApplyError.TheVariants.{OutOfMemory};

use std::alloc::AllocError;
use thiserror::Error;

/// Why a command is not legal now.
#[derive(Clone, Copy, Debug, Error)]
#[error("{}", self.text())]
pub enum Illegal {
    BadKind,
    TooLong,
    ClockBack,
    Unknown,
    InUse,
    Full,
    NotDue,
    TooOld,
    NotRunning,
    Late,
    NotEnded,
    AtLimit,
    BelowLimit,
    EnvBusy,
}

impl Illegal {
    // Its words. A message at each variant would make `Display` dear to prove.
    fn text(self) -> &'static str {
        match self {
            Illegal::BadKind => "a field of the command is out of range",
            Illegal::TooLong => "the command's bytes are too long",
            Illegal::ClockBack => "the command is earlier than the last one",
            Illegal::Unknown => "no event of this id is held",
            Illegal::InUse => "an event of this id is held",
            Illegal::Full => "as many events are held as may be",
            Illegal::NotDue => "the event is not due",
            Illegal::TooOld => "the event is too old",
            Illegal::NotRunning => "the event is not running",
            Illegal::Late => "the deadline has passed",
            Illegal::NotEnded => "the event has not ended",
            Illegal::AtLimit => "as many attempts run as may run at once",
            Illegal::BelowLimit => "fewer attempts run than may run at once",
            Illegal::EnvBusy => "the environment runs another event",
        }
    }
}

/// Why a command was not applied.
#[derive(Clone, Copy, Debug, Error)]
pub enum ApplyError {
    #[error("{0}")]
    Illegal(Illegal),
    #[error("out of memory")]
    OutOfMemory,
}

impl From<AllocError> for ApplyError {
    ghost from_gives = { λ _ error. error ≡ OutOfMemory };

    fn from(_error: AllocError) -> ApplyError {
        ApplyError::OutOfMemory
    }
}
