// What an environment tells the polls that wait in it.

/// Why an environment is reset or shut down, as its extensions are told (Extensions API, Shutdown phase).
#[derive(Clone, Copy)]
pub enum Reason {
    Spindown,
    Timeout,
    Failure,
}

/// What a poll that waits is answered. Deadlines are milliseconds since 1970.
#[derive(Clone, Copy)]
pub enum PollAnswer {
    /// To the runtime: an event to run, and until when.
    RuntimeEvent { id: [u8; 16], deadline: u64 },
    /// To an extension: the event that runs, and until when.
    Invoke { id: [u8; 16], deadline: u64 },
    /// To an extension that asked for it: the environment ends.
    Shutdown { reason: Reason, deadline: u64 },
    /// A newer poll of the same party took its place.
    Replaced,
    /// The environment ends, and the party did not ask to be told.
    Reset,
}
