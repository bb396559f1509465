// What can be wrong with a broker.

/// How many kinds of problem there are.
pub const PROBLEMS: usize = 16;

/// Something that is wrong with a broker, with its numbers, in the order in which it is told: causes come before what follows from
/// them. Those of `seconds` beside counts say in how many these were counted.
#[derive(Clone, Copy)]
pub enum Problem {
    /// A flush has been under way for so long.
    DiskHangs {
        seconds: u64,
    },
    /// The last command's moment is ahead of the system's clock by so much.
    ClockIsBehind {
        seconds: u64,
    },
    /// The system's clock was set ahead, and is not believed for so many seconds more.
    ClockIsHeldBack {
        ahead: u64,
        left: u64,
    },
    /// Events were given up, and the clock was set ahead.
    EventsExpiredByAJump {
        expired: u64,
        steps: u64,
        ahead: u64,
        seconds: u64,
    },
    /// Nobody polls an environment.
    NobodyPolls {
        without_poll: u64,
        environments: u64,
        due: u64,
    },
    /// An environment lacks a poll, or an attempt runs, for long, and the others work. What is not so is 0.
    EnvironmentHangs {
        environment: u64,
        unpolled: u64,
        running: u64,
    },
    /// Nothing ends for longer than an attempt may run, while something is due.
    NothingEnds {
        seconds: u64,
        due: u64,
        timeout: u16,
        started: u64,
    },
    MostAttemptsFail {
        failed: u64,
        succeeded: u64,
        seconds: u64,
    },
    CommitsAreSlow {
        commits: u64,
        microseconds: u64,
        late: u64,
        seconds: u64,
    },
    /// Each environment is busy, with so many attempts in all, and an event has been due for so long.
    AllBusy {
        environments: u64,
        running: u64,
        due: u64,
        waited: u64,
    },
    /// More events come than end, and one has been due for so long.
    BacklogGrows {
        accepted: u64,
        ended: u64,
        waited: u64,
        seconds: u64,
    },
    RecordsNotCollected {
        records: u64,
        seconds: u64,
    },
    TableFull {
        held: u64,
        most: u64,
        ended: u64,
    },
    TableNearlyFull {
        held: u64,
        most: u64,
        ended: u64,
    },
    /// Callers, or runtimes, are answered 429 or 503.
    CallersAreRefused {
        full: u64,
        busy: u64,
        seconds: u64,
    },
    /// Events will soon be given up for their age, or were.
    EventsExpire {
        expiring: u64,
        expired: u64,
        seconds: u64,
    },
}
