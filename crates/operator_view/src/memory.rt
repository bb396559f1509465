// What is remembered of earlier looks at a broker.
ghost use Rattle.std.specs.Prelude.{◌≡◌};
ghost use Rattle.operator_view.specs.Memory.{grown, none_at, begun, quiet_after, looked, lately};

/// For how long counts are kept before the next ones take their place, in milliseconds: five minutes for both that are kept.
const KEPT: u64 = 150_000;

/// From when on kept counts say nothing of what happens lately, in milliseconds.
const STALE: u64 = 600_000;

/// What was counted since the broker was opened, at one moment. Each number only grows.
#[derive(Clone, Copy)]
pub struct Counts {
    /// For how many milliseconds the broker was looked at by then, by a clock that nobody sets.
    pub at: u64,
    /// How many events were accepted.
    pub accepted: u64,
    /// How many attempts were started.
    pub started: u64,
    pub succeeded: u64,
    pub failed: u64,
    /// How many events have ended.
    pub ended: u64,
    /// How many of them because of their age.
    pub expired: u64,
    pub commits: u64,
    /// How long they took together, in microseconds.
    pub commit_microseconds: u64,
    /// How many took at most half a second.
    pub quick_commits: u64,
    /// How many requests were answered 429.
    pub refused_full: u64,
    /// How many requests were answered 503.
    pub refused_busy: u64,
    /// How often the system's clock was set.
    pub clock_steps: u64,
}

/// What happened lately: by how much the counts have grown in so many seconds.
#[derive(Clone, Copy)]
pub struct Growth {
    pub seconds: u64,
    pub accepted: u64,
    pub started: u64,
    pub succeeded: u64,
    pub failed: u64,
    pub ended: u64,
    pub expired: u64,
    pub commits: u64,
    pub commit_microseconds: u64,
    pub quick_commits: u64,
    pub refused_full: u64,
    pub refused_busy: u64,
    pub clock_steps: u64,
}

impl Counts {
    // Nothing was counted until then.
    fn none(at: u64) -> Counts
        ensures { result ≡ none_at at }
    {
        Counts {
            at,
            accepted: 0,
            started: 0,
            succeeded: 0,
            failed: 0,
            ended: 0,
            expired: 0,
            commits: 0,
            commit_microseconds: 0,
            quick_commits: 0,
            refused_full: 0,
            refused_busy: 0,
            clock_steps: 0,
        }
    }

    // By how much they have grown since these.
    fn since(&self, earlier: &Counts) -> Growth
        ensures { result ≡ grown earlier.now self.now }
    {
        Growth {
            seconds: self.at.saturating_sub(earlier.at) / 1000,
            accepted: self.accepted.saturating_sub(earlier.accepted),
            started: self.started.saturating_sub(earlier.started),
            succeeded: self.succeeded.saturating_sub(earlier.succeeded),
            failed: self.failed.saturating_sub(earlier.failed),
            ended: self.ended.saturating_sub(earlier.ended),
            expired: self.expired.saturating_sub(earlier.expired),
            commits: self.commits.saturating_sub(earlier.commits),
            commit_microseconds: self
                .commit_microseconds
                .saturating_sub(earlier.commit_microseconds),
            quick_commits: self.quick_commits.saturating_sub(earlier.quick_commits),
            refused_full: self.refused_full.saturating_sub(earlier.refused_full),
            refused_busy: self.refused_busy.saturating_sub(earlier.refused_busy),
            clock_steps: self.clock_steps.saturating_sub(earlier.clock_steps),
        }
    }
}

/// What is remembered of the looks at a broker.
#[derive(Clone, Copy)]
pub struct Memory {
    pub older: Counts,
    pub newer: Counts,
    /// How many events had ended at the last look.
    pub ended: u64,
    /// Since when that number is known to be the same.
    pub quiet_since: u64,
}

impl Memory {
    /// Of a broker that is looked at from now on.
    pub fn begun(now: u64) -> Memory
        ensures { result ≡ begun now }
    {
        let none = Counts::none(now);
        Memory {
            older: none,
            newer: none,
            ended: 0,
            quiet_since: now,
        }
    }

    // Since when no event has ended, as far as looks tell.
    fn quiet_after(self, seen: Counts) -> u64
        ensures { result ≡ quiet_after self seen }
    {
        if self.ended == seen.ended {
            self.quiet_since
        } else {
            seen.at
        }
    }

    /// After a look at which so much was counted.
    pub fn after(self, seen: Counts) -> Memory
        ensures { result ≡ looked self seen }
    {
        let quiet_since = self.quiet_after(seen);
        let ended = seen.ended;
        if KEPT <= seen.at.saturating_sub(self.newer.at) {
            Memory {
                older: self.newer,
                newer: seen,
                ended,
                quiet_since,
            }
        } else {
            Memory {
                older: self.older,
                newer: self.newer,
                ended,
                quiet_since,
            }
        }
    }

    /// What happened lately, up to these counts: since the older ones, or since the newer ones where those are stale.
    pub fn lately(&self, seen: &Counts) -> Growth
        ensures { result ≡ lately self.now seen.now }
    {
        if seen.at.saturating_sub(self.older.at) <= STALE {
            seen.since(&self.older)
        } else {
            seen.since(&self.newer)
        }
    }
}
