// What the opening of a broker did, before anything of it was counted.
ghost use Rattle.std.specs.Prelude.{◌≡◌};
ghost use Rattle.port_meters.specs.Counting.{with_opening};

use crate::counters::Counters;

/// What the opening of a broker did before its ports were served: what it issued became durable by one commit.
#[derive(Clone, Copy)]
pub struct Opening {
    /// The generation of the live segment that was found.
    pub generation: u64,
    /// How many attempts it interrupted.
    pub interrupted: u64,
    /// How long the commit took, in microseconds, where there was one.
    pub commit_microseconds: u64,
}

impl Opening {
    /// One that did nothing.
    pub fn new() -> Opening {
        Opening {
            generation: 0,
            interrupted: 0,
            commit_microseconds: 0,
        }
    }

    /// These counters, with its commit, and with a switch that this made.
    pub fn counted(&self, counters: Counters) -> Counters
        ensures { result ≡ with_opening self.now counters }
    {
        let mut counted = counters;
        counted.first_generation = self.generation;
        if 0 < self.interrupted {
            counted.note_commit(self.commit_microseconds);
        }
        counted
    }
}
