// What becomes of what a disk holds, by the clock.
use async_core::Table;
use invoke_records::{EventRow, Standing};
use retry_rules::too_old;
use std::alloc::{AllocError, Global};
use std::time::Duration;

/// The clock is behind a disk that it is so many seconds behind, and more.
const BEHIND: u64 = 5;

/// What becomes of the events that a disk holds once it is served, by the clock.
#[derive(Clone, Copy)]
pub struct Prospects {
    /// How many events wait that are past their age, and are given up at once.
    pub past_age: u64,
    /// How many milliseconds ago the oldest of these was accepted.
    pub oldest: u64,
    /// By how many milliseconds the last moment on the disk lies ahead of the clock.
    pub behind: u64,
}

// So many milliseconds in whole seconds.
fn seconds_in(millis: u64) -> u64 {
    Duration::from_millis(millis).as_secs()
}

// Whether it waits, and is past its age.
fn is_past_age(row: &EventRow, now: u64) -> bool {
    match row.standing {
        Standing::Waiting { .. } | Standing::DueAgain { .. } => {
            too_old(row.accepted, row.policy.age, now)
        }
        _ => false,
    }
}

/// What becomes of what this table holds, now, in milliseconds since 1970. It takes no memory.
pub fn prospects_of(table: &Table, now: u64) -> Prospects {
    let mut prospects = Prospects {
        past_age: 0,
        oldest: 0,
        behind: table.last_moment().saturating_sub(now),
    };
    for row in table.rows() {
        if is_past_age(row, now) {
            prospects.past_age = prospects.past_age.saturating_add(1);
            prospects.oldest = prospects.oldest.max(now.saturating_sub(row.accepted));
        }
    }
    prospects
}

impl Prospects {
    /// A line that tells how many events are given up, where some are.
    pub fn age_line(&self, alloc: Global, path: &str) -> Result<Option<String>, AllocError> {
        let (count, seconds) = (self.past_age, seconds_in(self.oldest));
        if count == 0 {
            return Ok(None);
        }
        let line = format!(in alloc;
            "warning: {count} events of {path} are past their age, the oldest was accepted {seconds} s ago: serving gives them up"
        )?;
        Ok(Some(line))
    }

    /// A line that tells by how much the clock is behind, where it is.
    pub fn clock_line(&self, alloc: Global, path: &str) -> Result<Option<String>, AllocError> {
        if u128::from(self.behind) <= Duration::from_secs(BEHIND).as_millis() {
            return Ok(None);
        }
        let seconds = seconds_in(self.behind);
        let line = format!(in alloc;
            "warning: the last moment of {path} lies {seconds} s ahead of the clock: until then waits, ages and timeouts stand still"
        )?;
        Ok(Some(line))
    }
}
