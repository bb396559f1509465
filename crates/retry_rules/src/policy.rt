// How often and for how long an event is tried.

/// How often and for how long an event is tried: what a command Configure sets for all events accepted after it.
#[derive(Clone, Copy, Debug, PartialEq, Eq)]
pub struct RetryPolicy {
    /// `MaximumRetryAttempts`: how often an event is tried again after a function error, 0 to 2.
    pub retries: u8,
    /// `MaximumEventAgeInSeconds`: 60 to 21600 seconds.
    pub age: u32,
}
