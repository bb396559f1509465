// Scripts of steps, and what they answer.
use broker_core::{Broker, CommitError, IssueError};
use checkpoint::OpenError;
use invoke_records::Command;
use sector_disk::MemDisk;

/// A step of a script.
#[derive(Drop)]
pub enum Step {
    Issue(Command),
    Commit,
    /// The table is written to the other segment, whether it has to be or not.
    Switch,
    /// The running event that was accepted first is marked as interrupted, at this moment (milliseconds since 1970, one past
    /// the greatest is taken as that) or the last command's, whichever is later.
    Resume(u64),
    /// The disk stops: an unsettled sector that is listed takes the listed bytes. Then it is opened again.
    Stop(Vec<(u64, [u8; 512])>),
}

/// What a step answered.
#[derive(Clone, Copy)]
pub enum StepAnswer {
    /// The number of the command that was issued (0 where a resumption found nothing that runs), how many commands are
    /// durable after a commit or a switch, or how many were recovered after a stop.
    Number(u64),
    IssueRefused(IssueError),
    CommitRefused(CommitError),
}

/// A script that was run to its end.
#[derive(Drop)]
pub struct Drill {
    /// One for each step.
    pub answers: Vec<StepAnswer>,
    pub broker: Broker<MemDisk>,
}

/// A script that was cut off, since a disk was not opened or memory ran out.
#[derive(Clone, Copy)]
pub enum DrillFailure {
    /// The disk was not opened at first, and no step was begun.
    AtOpening(OpenError),
    /// A step was cut off: how many were done before it.
    AtStep { step: usize, cause: OpenError },
}
