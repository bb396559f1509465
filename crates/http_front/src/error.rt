// Why a front was not served, or a request did not come to its hall.
ghost use Rattle.std.specs.Prelude.{◌≡◌};
ghost use Rattle.hall_plans.specs.declared.error.HallError.TheVariants.{OutOfMemory};
ghost use Rattle.http_front.specs.declared.error.ArrivalError.TheVariants.{Hall, System};
ghost use Rattle.http_front.specs.declared.error.ServeError.TheVariants as serve_error;

use broker_core::SplitError;
use hall_core::HallError;
use port_meters::NoClock;
use std::alloc::AllocError;
use std::io;
use thiserror::Error;

/// Why a front was not served, or was not served to its end.
#[derive(Debug, Drop, Error)]
pub enum ServeError {
    #[error("out of memory")]
    OutOfMemory(AllocError),
    /// No office was opened over the hall.
    #[error("{0}")]
    Office(SplitError),
    /// There are more listeners than ports: one for callers and one for each environment, at least six.
    #[error("too many ports")]
    TooManyPorts,
    /// The system gave no thread, or nothing to wait for sockets with.
    #[error("{0}")]
    System(io::Error),
}

impl From<AllocError> for ServeError {
    ghost from_gives = { λ why error. error ≡ serve_error.OutOfMemory why };

    fn from(why: AllocError) -> ServeError {
        ServeError::OutOfMemory(why)
    }
}

impl From<io::Error> for ServeError {
    ghost from_gives = { λ why error. error ≡ serve_error.System why };

    fn from(why: io::Error) -> ServeError {
        ServeError::System(why)
    }
}

/// Why a request did not come to the hall, which is as it was.
#[derive(Debug, Drop, Error)]
pub(crate) enum ArrivalError {
    /// The hall refused it.
    #[error("{0}")]
    Hall(HallError),
    /// The clock or the source of random words failed.
    #[error("{0}")]
    System(io::Error),
}

impl From<AllocError> for ArrivalError {
    ghost from_gives = { λ _ error. error ≡ Hall OutOfMemory };

    fn from(_why: AllocError) -> ArrivalError {
        ArrivalError::Hall(HallError::OutOfMemory)
    }
}

impl From<HallError> for ArrivalError {
    ghost from_gives = { λ why error. error ≡ Hall why };

    fn from(why: HallError) -> ArrivalError {
        ArrivalError::Hall(why)
    }
}

impl From<NoClock> for ArrivalError {
    ghost from_gives = { λ none error. error ≡ System none.why };

    fn from(none: NoClock) -> ArrivalError {
        ArrivalError::System(io::Error::from(none))
    }
}

impl From<io::Error> for ArrivalError {
    ghost from_gives = { λ why error. error ≡ System why };

    fn from(why: io::Error) -> ArrivalError {
        ArrivalError::System(why)
    }
}
