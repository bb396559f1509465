// The numbers of a disk at rest.
use crate::report::Older;
use operator_view::Census;

/// The numbers of a disk at rest.
#[derive(Clone, Copy)]
pub struct Figures {
    /// The generation of the live segment.
    pub generation: u64,
    /// How many commands it recovers to.
    pub number: u64,
    /// How many events stand where.
    pub census: Census,
    /// When the first event that waits for an attempt was accepted, in milliseconds since 1970.
    pub oldest_waiting: Option<u64>,
    /// When the first of the events that ended did so, in milliseconds since 1970.
    pub oldest_record: Option<u64>,
    pub older: Older,
    /// How often an event that is accepted next is tried again after a function error.
    pub retries: u8,
    /// Its greatest age, in seconds.
    pub age: u32,
}
