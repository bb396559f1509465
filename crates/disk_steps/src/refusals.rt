//! What is answered for each refusal.
use case_runner::{StepReply, TextBuffer};
use checkpoint::{FormatError, OpenError};
use gate_journal::AppendError;
use group_commit::{
    CommitError, IssueError, JoinError, LendError, MigrateError, SettleError, WriteError,
};
use table_steps::illegal;

/// Why a command is not issued.
pub fn issue(why: IssueError) -> &'static str {
    match why {
        IssueError::Broken => "broken",
        IssueError::WornOut => "worn out",
        IssueError::Illegal(why) => illegal(why),
        IssueError::Backlog => "backlog",
        IssueError::OutOfMemory => "out of memory",
    }
}

/// Why a commit or a switch fails.
pub fn commit(why: CommitError) -> &'static str {
    match why {
        CommitError::Broken => "broken",
        CommitError::WornOut => "worn out",
        CommitError::BadKind => "bad kind",
        CommitError::OutOfMemory => "out of memory",
        CommitError::Fault => "fault",
    }
}

/// Why nothing is lent.
pub fn lend(why: LendError) -> &'static str {
    match why {
        LendError::Broken => "broken",
        LendError::Lent => "lent",
        LendError::OutOfMemory => "out of memory",
    }
}

/// Why a batch is not written.
pub fn write(why: WriteError) -> &'static str {
    match why {
        WriteError::Broken => "broken",
        WriteError::Mismatch => "mismatch",
        WriteError::WornOut => "worn out",
        WriteError::Backlog => "backlog",
        WriteError::BadKind => "bad kind",
        WriteError::OutOfMemory => "out of memory",
        WriteError::Fault => "fault",
    }
}

/// Why a batch is not settled.
pub fn settle(why: SettleError) -> &'static str {
    match why {
        SettleError::Mismatch => "mismatch",
        SettleError::NotWritten(why) => write(why),
    }
}

/// Why halves are not joined.
pub fn join(why: JoinError) -> &'static str {
    match why {
        JoinError::Lent => "lent",
        JoinError::Backlog => "backlog",
        JoinError::OutOfMemory => "out of memory",
        JoinError::Mismatch => "mismatch",
    }
}

/// Why a frame is not appended.
pub fn append(why: AppendError) -> &'static str {
    match why {
        AppendError::NoRoom => "no room",
        AppendError::OutOfMemory => "out of memory",
        AppendError::Fault => "device fault",
    }
}

/// Why a disk is not opened.
pub fn open(why: OpenError, answer: &mut TextBuffer) -> StepReply {
    match why {
        OpenError::Fault => StepReply::Refused("fault"),
        OpenError::OutOfMemory => StepReply::Refused("out of memory"),
        OpenError::NotFormatted => StepReply::Refused("not formatted"),
        OpenError::Damaged { sector } => {
            answer.add_with("damaged ", sector);
            StepReply::RefusalTold
        }
        OpenError::OldVersion => StepReply::Refused("old version"),
    }
}

/// Why a disk is not migrated.
pub fn migrate(why: MigrateError, answer: &mut TextBuffer) -> StepReply {
    match why {
        MigrateError::NotFormatted => StepReply::Refused("not formatted"),
        MigrateError::Damaged { sector } => {
            answer.add_with("damaged ", sector);
            StepReply::RefusalTold
        }
        MigrateError::NotOld => StepReply::Refused("not old"),
        MigrateError::TooSmall { least } => {
            answer.add_with("too small ", least);
            StepReply::RefusalTold
        }
        MigrateError::WornOut => StepReply::Refused("worn out"),
        MigrateError::BadKind => StepReply::Refused("bad table"),
        MigrateError::OutOfMemory => StepReply::Refused("out of memory"),
        MigrateError::Fault => StepReply::Refused("fault"),
    }
}

/// Why a disk is not formatted.
pub fn format(why: FormatError, answer: &mut TextBuffer) -> StepReply {
    match why {
        FormatError::TooSmall { least } => {
            answer.add_with("too small ", least);
            StepReply::RefusalTold
        }
        FormatError::OutOfMemory => StepReply::Refused("out of memory"),
        FormatError::Fault => StepReply::Refused("fault"),
    }
}
