// The numbers of some events.

/// How many events are held, and how many of them stand where.
#[derive(Clone, Copy)]
pub struct Census {
    pub held: usize,
    /// For their first attempt.
    pub waiting: usize,
    /// For another one.
    pub due_again: usize,
    pub running: usize,
    pub success: usize,
    pub retries_exhausted: usize,
    pub event_age_exceeded: usize,
}

/// The numbers of some events at a moment.
#[derive(Clone, Copy)]
pub struct Tally {
    pub census: Census,
    /// When the first event that waits, for its first attempt or for another, was accepted. Rows stand in the order of acceptance.
    pub oldest_waiting: Option<u64>,
    /// When the first of the events that ended did so.
    pub oldest_record: Option<u64>,
    /// The first moment at which an event that waits is due.
    pub first_due: Option<u64>,
    /// How many events are due at that moment.
    pub due: usize,
    /// How many events that wait have then reached five sixths of their age.
    pub expiring: usize,
    /// The first moment by which an attempt that runs is to be done.
    pub first_deadline: Option<u64>,
    /// The last command's moment.
    pub last_moment: u64,
}
