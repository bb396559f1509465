// What is remembered of the phases of environments.
ghost use Rattle.std.specs.Prelude.{◌≡◌, ◌++◌, [], IfOk, OnOk};
ghost use Rattle.admin_replies.specs.Phases.{seen_after, phases_noted, unpolled_from};

use env_phase::Phase;
use hall_core::EnvironmentStatus;
use std::alloc::{AllocError, Global};

/// In which phase a look found an environment, and since when each one did. Moments are those of a clock that nobody sets, in
/// milliseconds.
#[derive(Clone, Copy)]
pub struct SeenPhase {
    pub phase: Phase,
    pub since: u64,
}

/// What is remembered of the phases of environments.
#[derive(Drop)]
pub struct PhaseMemory {
    /// One for each, in the order of their numbers.
    pub seen: Vec<SeenPhase>,
}

/// In which environment a poll has been missing for the longest, and for how many milliseconds; 0 where in none.
#[derive(Clone, Copy)]
pub struct Unpolled {
    pub environment: u64,
    pub time: u64,
}

// What is remembered of an environment that is in this phase now.
fn seen_after(before: SeenPhase, phase: Phase, now: u64) -> SeenPhase
    ensures { result ≡ seen_after before phase now }
{
    if before.phase == phase {
        before
    } else {
        SeenPhase { phase, since: now }
    }
}

// Puts what is remembered of each of these environments, of which that was remembered.
fn put_noted(
    out: &mut Vec<SeenPhase>,
    seen: &[SeenPhase],
    environments: &[EnvironmentStatus],
    now: u64,
) -> Result<(), AllocError>
    ensures { OnOk result (out.new.items ≡ out.old.items ++ phases_noted environments.now seen.now now) }
{
    match environments {
        [] => Ok(()),
        [status, rest @ ..] => match seen {
            [] => {
                out.push(SeenPhase {
                    phase: status.phase,
                    since: now,
                })?;
                put_noted(out, seen, rest, now)
            }
            [before, others @ ..] => {
                out.push(seen_after(*before, status.phase, now))?;
                put_noted(out, others, rest, now)
            }
        },
    }
}

impl PhaseMemory {
    /// Of environments that nobody has looked at.
    pub fn new(alloc: Global) -> PhaseMemory
        ensures { result.seen.items ≡ [] }
    {
        PhaseMemory {
            seen: Vec::new(alloc),
        }
    }

    /// What is remembered after a look at these environments.
    pub fn after(
        &self,
        alloc: Global,
        environments: &[EnvironmentStatus],
        now: u64,
    ) -> Result<PhaseMemory, AllocError>
        // claim: Of each environment is remembered in which phase the last look found it, and since when each one did.
        ensures { IfOk result (λ memory. memory.seen.items ≡ phases_noted environments.now self.now.seen.items now) }
    {
        let mut seen = Vec::new(alloc);
        put_noted(&mut seen, self.seen.as_slice(), environments, now)?;
        Ok(PhaseMemory { seen })
    }
}

/// Where a poll has been missing for the longest, among these environments, of which the first has this number.
pub(crate) fn unpolled_from(seen: &[SeenPhase], number: u64, now: u64) -> Unpolled
    ensures { result ≡ unpolled_from seen.now number now }
{
    match seen {
        [] => Unpolled {
            environment: 0,
            time: 0,
        },
        [first, more @ ..] => {
            let later = unpolled_from(more, number.saturating_add(1), now);
            let time = now.saturating_sub(first.since);
            if first.phase == Phase::Init && later.time <= time {
                Unpolled {
                    environment: number,
                    time,
                }
            } else {
                later
            }
        }
    }
}
