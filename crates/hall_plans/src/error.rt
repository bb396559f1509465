// Why a hall refuses a call.
ghost use Rattle.std.specs.Prelude.{◌≡◌};
ghost use Rattle.hall_plans.specs.declared.error.HallError.TheVariants.{OutOfMemory};

use std::alloc::AllocError;
use thiserror::Error;

/// Why a call was not made. What an environment or the table refuses to a request is an answer and none of these.
#[derive(Clone, Copy, Debug, PartialEq, Eq, Error)]
pub enum HallError {
    /// The device failed in an earlier call; the disk has to be opened again.
    #[error("the broker is broken")]
    Broken,
    /// A request asked the broker to stop.
    #[error("the broker is stopping")]
    Stopping,
    /// 2^62 commands were issued, and the call has one.
    #[error("worn out")]
    WornOut,
    /// 1024 slots are open, or 256 commands are pending and the call has one.
    #[error("too many requests are pending")]
    Backlog,
    /// A commit needs a switch, and the table, which was read from a disk, has no spelling: it is that of no history.
    #[error("the table has no spelling")]
    BadKind,
    /// The table, which was read from a disk, is that of no history: it refuses the command of a call, or an environment
    /// refuses what the command does to it.
    #[error("the table is that of no history")]
    NoHistory,
    #[error("out of memory")]
    OutOfMemory,
    /// The device failed in this call; the disk has to be opened again.
    #[error("device fault")]
    Fault,
    /// A batch is out, and has to be settled first.
    #[error("a batch is out")]
    Lent,
    /// What is settled is not what became of the batch that is out, or the half over the disk does not go on with it.
    #[error("the batch is not one of this half")]
    OtherHalf,
    /// Fewer commands were issued than a desk was told before. Only an office answers this.
    #[error("told {told}, found {found}")]
    Mismatch { told: u64, found: u64 },
    /// A request to an environment that is not there, with an answer above the settings' limit, or at a moment past the end
    /// of the year 9999. Only an office answers this: it judges under its lock what else is a condition of the call.
    #[error("the request does not fit the settings")]
    Unfit,
}

impl From<AllocError> for HallError {
    ghost from_gives = { λ _ error. error ≡ OutOfMemory };

    fn from(_error: AllocError) -> HallError {
        HallError::OutOfMemory
    }
}
