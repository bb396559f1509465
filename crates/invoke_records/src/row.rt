// A row of the table of events.
use crate::Bytes;
use retry_rules::RetryPolicy;

/// How an event ended: the condition of its destination record.
#[derive(Clone, Copy, Debug, PartialEq, Eq)]
pub enum Outcome {
    Success,
    RetriesExhausted,
    EventAgeExceeded,
}

/// Where an event stands.
#[derive(Clone, Copy, Debug, PartialEq, Eq)]
pub enum Standing {
    /// No event of this id is held.
    Unknown,
    /// It was accepted, and waits for its first attempt.
    Waiting { due: u64 },
    /// It waits for another attempt.
    DueAgain { due: u64 },
    /// An attempt runs in this environment. From the deadline on it has timed out.
    Running { environment: u16, deadline: u64 },
    /// It has ended, and is held until it is collected.
    Ended { outcome: Outcome, at: u64 },
}

/// What a runtime answered last in the life of an event.
#[derive(Drop)]
pub enum Answer {
    None,
    Response(Bytes),
    Error(Bytes),
}

/// An event that is held. Moments are milliseconds since 1970.
#[derive(Drop)]
pub struct EventRow {
    pub id: [u8; 16],
    /// When it was accepted.
    pub accepted: u64,
    /// The number of the command that accepted it.
    pub number: u64,
    /// The number of the last command that names it.
    pub last_number: u64,
    pub standing: Standing,
    /// How many attempts were started.
    pub starts: u32,
    /// How many of them failed.
    pub failures: u32,
    /// How often it was pushed back since its last failure.
    pub push_backs: u32,
    /// What was in force when it was accepted: by this it is judged for all of its life.
    pub policy: RetryPolicy,
    pub payload: Bytes,
    pub answer: Answer,
}
