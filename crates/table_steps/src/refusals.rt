// What is answered for each refusal of a record and of a command.
use async_core::Illegal;
use case_runner::StepReply;
use invoke_records::RecordError;

/// The word for the check that a command fails.
pub fn illegal(why: Illegal) -> &'static str {
    match why {
        Illegal::BadKind => "bad kind",
        Illegal::TooLong => "too long",
        Illegal::ClockBack => "clock back",
        Illegal::Unknown => "unknown",
        Illegal::InUse => "in use",
        Illegal::Full => "full",
        Illegal::NotDue => "not due",
        Illegal::TooOld => "too old",
        Illegal::NotRunning => "not running",
        Illegal::Late => "late",
        Illegal::NotEnded => "not ended",
        Illegal::AtLimit => "at limit",
        Illegal::BelowLimit => "below limit",
        Illegal::EnvBusy => "environment busy",
    }
}

/// Why a record is not spelled or not read.
pub fn record(why: RecordError) -> StepReply {
    StepReply::Refused(match why {
        RecordError::Truncated => "truncated",
        RecordError::BadKind => "bad kind",
        RecordError::TooLong => "too long",
        RecordError::OutOfMemory => "out of memory",
    })
}
