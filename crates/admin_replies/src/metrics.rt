// The numbers that a monitor collects.

use crate::measuring::ClockSet;
use operator_view::{Census, PROBLEMS, Problem};
use port_meters::{Ports, Refusals};
use receipts::Lives;

/// The numbers that a monitor collects, as they are at one moment.
#[derive(Clone, Copy)]
pub struct Metrics {
    pub census: Census,
    /// How long ago the oldest event that waits was accepted, in milliseconds.
    pub oldest_wait_age: Option<u64>,
    /// How long ago the oldest record that is held came to be, in milliseconds.
    pub oldest_record_age: Option<u64>,
    /// Commands.
    pub issued: u64,
    /// Commands.
    pub durable: u64,
    /// Commands that are issued and not yet durable.
    pub pending: u64,
    /// Requests that wait for their reply.
    pub open_slots: u64,
    /// Long polls that wait for something to tell.
    pub parked_polls: u64,
    pub environments: Phases,
    pub events: EventCounters,
    /// Of the events that ended.
    pub lives: Lives,
    pub process: Process,
    /// What was counted of connections and requests.
    pub ports: Ports,
    pub limits: Limits,
    pub noticed: Premise,
    /// What is wrong, in the order in which it is told.
    pub problems: [Option<Problem>; PROBLEMS],
}

/// What was noticed of the premises.
#[derive(Clone, Copy)]
pub struct Premise {
    /// For how many seconds a flush has been under way, once these are five; else 0.
    pub flush_seconds: u64,
    pub clock: ClockSet,
    /// How many lines standard error did not take.
    pub lines_dropped: u64,
}

/// The settings that are numbers, with the retries and the age that are in force.
#[derive(Clone, Copy)]
pub struct Limits {
    pub retries: u64,
    pub age: u64,
    pub timeout: u64,
    pub concurrency: u64,
    pub events: u64,
    pub payload: u64,
    pub response: u64,
}

/// How many environments are in which phase.
#[derive(Clone, Copy)]
pub struct Phases {
    pub init: u64,
    pub ready: u64,
    pub busy: u64,
    pub closing: u64,
}

/// How often something happened to an event.
#[derive(Clone, Copy)]
pub struct EventCounters {
    pub accepted: u64,
    pub success: u64,
    pub retries_exhausted: u64,
    pub event_age_exceeded: u64,
    pub collected: u64,
    pub started: u64,
    pub failed: u64,
    pub throttled: u64,
    pub interrupted: u64,
}

/// What the process does with its disk and its ports.
#[derive(Clone, Copy)]
pub struct Process {
    pub commits: u64,
    /// To the other segment of the disk.
    pub switches: u64,
    /// To the disk.
    pub written_bytes: u64,
    /// How long the commits took in all.
    pub commit_microseconds: u64,
    /// How many commits took at most 0.001, 0.0025, 0.005, 0.01, 0.025, 0.1, 0.5 and 2.5 seconds. Each counts those of the
    /// one before it too.
    pub buckets: [u64; 8],
    /// Of the segment that is written.
    pub generation: u64,
    /// Of the disk.
    pub bytes: u64,
    /// In the segment that is written.
    pub free_bytes: u64,
    pub resident_bytes: u64,
    /// When the program was started to serve, in milliseconds since 1970.
    pub started_at: u64,
    pub is_stopping: bool,
    /// The disk has failed.
    pub has_fault: bool,
    pub refused: Refusals,
}
