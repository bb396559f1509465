// What an operator's port sees of a broker.
use crate::memory::Growth;

/// What an operator's port sees of a broker at one moment.
#[derive(Clone, Copy)]
pub struct Sight {
    /// The moment, in milliseconds since 1970.
    pub at: u64,
    /// For how many seconds a flush has been under way, once that is long; else 0.
    pub flush_seconds: u64,
    /// The last command's moment, in milliseconds since 1970.
    pub last_moment: u64,
    /// By how many milliseconds the clock was set ahead when it was set last; 0 where it was set back.
    pub set_ahead: u64,
    /// By how many milliseconds the system's clock is ahead of the moment, where it is held back; else 0.
    pub held_ahead: u64,
    /// For how many milliseconds it is held back yet.
    pub held_left: u64,
    pub environments: u64,
    /// In how many environments a poll is missing.
    pub without_poll: u64,
    /// How many environments have an attempt, or have answered and do not poll.
    pub busy: u64,
    /// How many attempts run.
    pub running: u64,
    /// The environment in which a poll is known to be missing for the longest; 0 where none is missing.
    pub unpolled: u64,
    /// For how many milliseconds it is known to be missing there.
    pub unpolled_for: u64,
    /// For how many milliseconds the attempt runs that is to be done first; 0 where none runs.
    pub running_for: u64,
    /// How many events are held.
    pub held: u64,
    /// How many events are held at most.
    pub most_events: u64,
    /// How many of those that are held have ended.
    pub ended: u64,
    /// For how many seconds an attempt may run.
    pub timeout: u16,
    /// How many events are due.
    pub due: u64,
    /// The first moment at which an event that waits is due.
    pub first_due: Option<u64>,
    /// For how many milliseconds no event has ended, as far as is known, by a clock that nobody sets.
    pub quiet: u64,
    /// How many events that wait have reached five sixths of their age.
    pub expiring: u64,
    /// How long ago the oldest record that is held came to be, in milliseconds.
    pub oldest_record_age: Option<u64>,
    pub lately: Growth,
}
