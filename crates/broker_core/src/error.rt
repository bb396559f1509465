// Why the broker and its halves refuse.
use crate::{Broker, DiskHalf, IssueHalf};
use async_core::Illegal;
use checkpoint::OpenError;
use sector_disk::Disk;
use thiserror::Error;

/// Why a command was not issued.
#[derive(Clone, Copy, Debug, Error)]
pub enum IssueError {
    /// The device failed in an earlier call; the disk has to be opened again.
    #[error("the broker is broken")]
    Broken,
    /// 2^62 commands were issued.
    #[error("worn out")]
    WornOut,
    /// The command is not legal now.
    #[error("{0}")]
    Illegal(Illegal),
    /// 256 commands are pending.
    #[error("too many commands are pending")]
    Backlog,
    #[error("out of memory")]
    OutOfMemory,
}

/// Why what is pending was not committed, or the table was not written to the other segment.
#[derive(Clone, Copy, Debug, Error)]
pub enum CommitError {
    /// The device failed in an earlier call; the disk has to be opened again.
    #[error("the broker is broken")]
    Broken,
    /// A switch is needed, and the generation has reached 2^62.
    #[error("worn out")]
    WornOut,
    /// A switch is needed, and the table has no spelling or is past its settings' limits. No history leaves such a table:
    /// it was read so from the disk.
    #[error("bad table")]
    BadKind,
    #[error("out of memory")]
    OutOfMemory,
    /// The device failed in this call; the disk has to be opened again.
    #[error("device fault")]
    Fault,
}

/// A disk that was not opened, and why.
#[derive(Drop)]
pub struct OpenFailure<D> {
    pub cause: OpenError,
    /// The disk, which is handed back.
    pub disk: D,
}

/// Why nothing was lent.
#[derive(Clone, Copy, Debug, Error)]
pub enum LendError {
    /// The device failed in an earlier write or advance; the disk has to be opened again.
    #[error("the issue half is broken")]
    Broken,
    /// A batch is out.
    #[error("a batch is out")]
    Lent,
    #[error("out of memory")]
    OutOfMemory,
}

/// Why a batch was not written.
#[derive(Clone, Copy, Debug, Error)]
pub enum WriteError {
    /// The device failed in an earlier call; the disk has to be opened again.
    #[error("the disk half is broken")]
    Broken,
    /// The batch does not go on from the half's list: it begins behind a gap or ends too early, or a command is not legal.
    #[error("the batch does not go on from what was written")]
    Mismatch,
    /// 2^62 commands were issued, or a switch is needed, and the generation has reached 2^62.
    #[error("worn out")]
    WornOut,
    /// 256 commands are pending.
    #[error("too many commands are pending")]
    Backlog,
    /// A switch is needed, and the table, which was read from a disk, is that of no history.
    #[error("bad table")]
    BadKind,
    #[error("out of memory")]
    OutOfMemory,
    /// The device failed in this call; the disk has to be opened again.
    #[error("device fault")]
    Fault,
}

/// Why a result was not settled, or what it was.
#[derive(Clone, Copy, Debug, Error)]
pub enum SettleError {
    /// No batch is out, or the result is that of another.
    #[error("no such batch is out")]
    Mismatch,
    /// The batch was not written.
    #[error("{0}")]
    NotWritten(WriteError),
}

/// Why a broker was not split.
#[derive(Clone, Copy, Debug, Error)]
pub enum SplitError {
    /// The device failed in an earlier call; the disk has to be opened again.
    #[error("the broker is broken")]
    Broken,
    #[error("out of memory")]
    OutOfMemory,
}

/// A broker that was not split, and why.
#[derive(Drop)]
pub struct SplitFailure<D: Disk> {
    pub cause: SplitError,
    /// The broker, which is handed back.
    pub broker: Broker<D>,
}

/// Why two halves were not joined.
#[derive(Clone, Copy, Debug, PartialEq, Eq, Error)]
pub enum JoinError {
    /// A batch is out.
    #[error("a batch is out")]
    Lent,
    /// 256 commands are pending in the disk half.
    #[error("too many commands are pending")]
    Backlog,
    #[error("out of memory")]
    OutOfMemory,
    /// The tables differ.
    #[error("the halves differ")]
    Mismatch,
}

/// Two halves that were not joined, and why.
#[derive(Drop)]
pub struct JoinFailure<D: Disk> {
    pub cause: JoinError,
    /// The half that issues, which is handed back.
    pub issue: IssueHalf,
    /// The half over the disk, which is handed back with what it took.
    pub disk: DiskHalf<D>,
}
