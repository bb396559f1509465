// Scripts of steps of two halves, and what they answer.
use broker_core::{DiskHalf, IssueError, IssueHalf, LendError, SettleError, WriteError};
use invoke_records::Command;
use sector_disk::MemDisk;

/// A step of a script.
#[derive(Drop)]
pub enum SplitStep {
    Issue(Command),
    /// The issue half lends what is pending, and the batch is held.
    Lend,
    /// The half over the disk writes the batch that is held, and the result is held.
    Write,
    /// The issue half settles the result that is held.
    Settle,
    /// The issue half lends what is pending and not lent, the half over the disk advances by it, and what came of that is
    /// settled. Where a batch or a result is held, nothing is done.
    Advance,
    /// Both halves are given up, and the disk stops: an unsettled sector that is listed takes the listed bytes. Then it is
    /// opened and split again.
    Stop(Vec<(u64, [u8; 512])>),
}

/// What a step answered.
#[derive(Clone, Copy)]
pub enum SplitAnswer {
    /// The number of the command that was issued, the last number of the batch that was lent or written, how many commands
    /// are durable after it was settled or after an advance, or how many were recovered after a stop.
    Number(u64),
    /// Nothing is pending that could be lent, no batch is held that could be written, no result that could be settled; or a batch or
    /// a result is held, so that no advance is made.
    Idle,
    IssueRefused(IssueError),
    LendRefused(LendError),
    WriteRefused(WriteError),
    SettleRefused(SettleError),
}

/// A script that was run to its end.
#[derive(Drop)]
pub struct SplitDrill {
    /// One for each step.
    pub answers: Vec<SplitAnswer>,
    pub issue: IssueHalf,
    pub disk: DiskHalf<MemDisk>,
}
