// The calls of an environment, and who makes them.

/// Who polls an environment, and what it is told.
#[derive(Clone, Copy)]
pub struct Party {
    /// The runtime has none.
    pub identifier: Option<[u8; 16]>,
    pub gets_events: bool,
    pub gets_shutdown: bool,
}

/// A party and the slot on which it is parked.
#[derive(Clone, Copy)]
pub struct Waiter {
    pub party: Party,
    pub slot: Option<u64>,
}

/// A call that changes an environment. Slots name requests that wait; moments are milliseconds since 1970.
#[derive(Clone, Copy)]
pub enum EnvCall {
    /// The runtime asks for the next event.
    RuntimeNext {
        slot: u64,
    },
    /// An extension registers for events, for the end of the environment, for both or neither.
    Register {
        identifier: [u8; 16],
        invoke: bool,
        shutdown: bool,
    },
    /// An extension asks for what it registered for.
    ExtensionNext {
        identifier: [u8; 16],
        slot: u64,
    },
    /// An event is given to the runtime and to the extensions that registered for events.
    Give {
        id: [u8; 16],
        deadline: u64,
    },
    /// The runtime answers the event.
    Answer {
        id: [u8; 16],
    },
    /// The runtime reports that it could not start.
    InitError {
        now: u64,
    },
    /// An extension reports that it could not start, or that it ends.
    ExtensionError {
        identifier: [u8; 16],
        in_init: bool,
        now: u64,
    },
    /// The event was not answered in time.
    Timeout {
        now: u64,
    },
    /// The environment is to end for good.
    Shutdown {
        now: u64,
    },
}
