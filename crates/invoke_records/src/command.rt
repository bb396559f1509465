// A command: one step of the life of an event.
use crate::Bytes;
use retry_rules::RetryPolicy;

/// The greatest moment, the end of the year 9999, in milliseconds since 1970.
pub const GREATEST_MOMENT: u64 = 253402300799999;

/// Why an attempt failed.
#[derive(Clone, Copy, PartialEq, Eq)]
pub enum Cause {
    /// The runtime reported an error.
    Reported,
    /// The timeout had passed.
    Timeout,
    /// The runtime or an extension exited.
    Exited,
}

/// What a command does to its event.
#[derive(Clone, Copy, PartialEq, Eq)]
pub enum Kind {
    /// The event is accepted, with its payload.
    Accept,
    /// An attempt starts in an environment.
    Start,
    /// The attempt succeeded, with its response.
    Succeed,
    /// The attempt failed; where it was reported, with the error's body.
    Fail(Cause),
    /// The event was due while as many attempts ran as may run at once.
    Throttle,
    /// The attempt was cut off by a stop of the broker.
    Interrupt,
    /// The event is too old.
    Expire,
    /// The ended event's outcome was taken; its id is free.
    Collect,
    /// Another retry policy is in force for all events that are accepted from here on. It is of no event.
    Configure(RetryPolicy),
}

/// One step of the life of an event.
#[derive(Drop)]
pub struct Command {
    pub kind: Kind,
    /// The event's id, which is a UUID's bytes; zeros of a Configure.
    pub id: [u8; 16],
    /// The environment, from 1 on, of a Start; 0 of any other command.
    pub environment: u16,
    /// When, in milliseconds since 1970, at most 253402300799999.
    pub time: u64,
    /// An Accept's payload, a Succeed's response, the body of a reported error; else none.
    pub bytes: Bytes,
}
