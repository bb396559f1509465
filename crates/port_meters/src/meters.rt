// What the threads of a broker's ports count for its operator.
use crate::counters::Counters;
use std::io;
use std::sync::{Mutex, Wait};
use std::time::{Clock, Instant};

/// How a disk stands: the generation of its live segment, how many sectors it has, and how many that segment has left.
#[derive(Clone, Copy)]
pub struct DiskState {
    pub generation: u64,
    pub sectors: u64,
    pub free_sectors: u64,
}

/// What the threads of a broker's ports count for its operator, behind a lock that is held for no longer than an addition.
#[derive(Drop)]
pub struct Meters {
    counters: Mutex<Counters>,
}

impl Meters {
    /// Nothing was counted.
    pub fn new() -> Meters {
        Meters {
            counters: Mutex::new(Counters::new()),
        }
    }

    /// What was counted.
    pub fn read<R: Wait>(&self, rt: &R) -> Counters {
        *self.counters.lock(rt)
    }

    /// A commit that began then was made, or was not, and left the disk so. One that was not is not counted. Where the clock
    /// cannot be read, it took no time.
    pub fn note_commit<R: Wait + Clock>(
        &self,
        rt: &R,
        begun: io::Result<Instant>,
        is_made: bool,
        disk: DiskState,
    ) {
        let took = micros_since(rt, begun);
        if !is_made {
            return;
        }
        let mut counters = self.counters.lock(rt);
        counters.note_commit(took);
        counters.note_disk(disk.generation, disk.sectors, disk.free_sectors);
    }

    /// How the disk of a broker stands that is opened.
    pub fn note_opening<R: Wait>(&self, rt: &R, disk: DiskState) {
        let mut counters = self.counters.lock(rt);
        counters.note_opening(disk.generation, disk.sectors, disk.free_sectors);
    }

    /// A reply had this status.
    pub fn note_status<R: Wait>(&self, rt: &R, status: u16) {
        if status >= 400 {
            self.counters.lock(rt).note_refusal(status);
        }
    }
}

/// How many microseconds have passed, as far as the clock says.
pub fn micros_since<R: Clock>(rt: &R, begun: io::Result<Instant>) -> u64 {
    match (begun, Instant::now(rt)) {
        (Ok(begun), Ok(now)) => now
            .saturating_duration_since(begun)
            .as_micros()
            .min(u128::from(u64::MAX)) as u64,
        _ => 0,
    }
}
