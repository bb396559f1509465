// The names of the numbers that are told.

/// A number that is told.
#[derive(Clone, Copy)]
pub(crate) enum Metric {
    Held(HeldMetric),
    Wait(WaitMetric),
    Phase(PhaseMetric),
    Life(LifeMetric),
    Refusal(RefusalMetric),
    Unread(UnreadMetric),
    Open(OpenMetric),
    /// How long requests took, of which kind.
    Reply(ReplyMetric, TimeMetric),
    Commit(TimeMetric),
    /// How long events took from their acceptance to their end.
    Event(TimeMetric),
    State(StateMetric),
    Notice(NoticeMetric),
    Limit(LimitMetric),
    /// Whether something is wrong, by its place among the problems.
    Problem(u8),
}

/// Events that are held.
#[derive(Clone, Copy)]
pub(crate) enum HeldMetric {
    Waiting,
    DueAgain,
    Running,
    Success,
    RetriesExhausted,
    EventAgeExceeded,
}

/// What waits, and for how long.
#[derive(Clone, Copy)]
pub(crate) enum WaitMetric {
    OldestWait,
    OldestRecord,
    Pending,
    OpenSlots,
    ParkedPolls,
}

/// Environments in a phase.
#[derive(Clone, Copy)]
pub(crate) enum PhaseMetric {
    Init,
    Ready,
    Busy,
    Closing,
}

/// What became of commands, events and attempts.
#[derive(Clone, Copy)]
pub(crate) enum LifeMetric {
    Issued,
    Durable,
    Accepted,
    Success,
    RetriesExhausted,
    EventAgeExceeded,
    Collected,
    Started,
    Failed,
    Throttled,
    Interrupted,
}

/// What is allowed at most.
#[derive(Clone, Copy)]
pub(crate) enum LimitMetric {
    Events,
    Concurrency,
    Timeout,
    Retries,
    Age,
    Payload,
    Response,
}

/// What was noticed of the premises.
#[derive(Clone, Copy)]
pub(crate) enum NoticeMetric {
    /// For how long a flush has been under way.
    Flush,
    /// By how much the clock was set last.
    ClockStep,
    ClockSteps,
    LinesDropped,
}

/// Requests that were refused.
#[derive(Clone, Copy)]
pub(crate) enum RefusalMetric {
    BadRequest,
    NotFound,
    Conflict,
    TooLarge,
    TooMany,
    Unavailable,
    Other,
}

/// Requests that were refused before they were read, or not read.
#[derive(Clone, Copy)]
pub(crate) enum UnreadMetric {
    BadHead,
    HeadTooLarge,
    HeadCutOff,
    HeadLate,
    BodyCutOff,
    BodyLate,
    Forbidden,
}

/// Connections that are open, by port.
#[derive(Clone, Copy)]
pub(crate) enum OpenMetric {
    Callers,
    Environments,
    Operator,
}

/// Requests that were answered, by kind.
#[derive(Clone, Copy)]
pub(crate) enum ReplyMetric {
    Call,
    Report,
    Poll,
}

/// Things that took some time.
#[derive(Clone, Copy)]
pub(crate) enum TimeMetric {
    /// Those of a bucket, by its index.
    Within(u8),
    All,
    /// How long they took in all.
    Time,
}

/// The disk and the process.
#[derive(Clone, Copy)]
pub(crate) enum StateMetric {
    Switches,
    WrittenBytes,
    Generation,
    Bytes,
    FreeBytes,
    ResidentBytes,
    StartedAt,
    Stopping,
    Fault,
}
