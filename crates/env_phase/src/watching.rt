// What is shown of an environment: its phase, and how many poll it.
ghost use Rattle.std.specs.Prelude.{◌≡◌, count_by};
ghost use Rattle.env_phase.specs.Environment.{phase_of, parties, is_parked};
ghost use Rattle.env_phase.specs.State.{ForEachList};
ghost use Rattle.env_phase.specs.Steps as step;
ghost use Rattle.env_phase.specs.Watching.{phase_told};

use crate::call::Waiter;
use crate::env::Env;
use crate::phase::Phase;

// How many of these parties are parked.
fn parked_among(waiters: &[Waiter]) -> usize
    ensures { result ≡ count_by step.is_parked_at waiters.now }
{
    waiters
        .iter()
        .filter(|waiter| waiter.slot.is_some())
        .count()
}

impl Env {
    /// In which phase it is.
    #[tactic(auto, using(crate::specs::laws::Watching::phase_in_kept))]
    pub fn phase(&self) -> Phase
        ensures { ForEachList self.now (λ calls. phase_told result ≡ phase_of self.now.wanted calls) }
    {
        if self.is_shut {
            Phase::Closing
        } else if self.is_met() {
            Phase::Ready
        } else if self.has_met {
            Phase::Busy
        } else {
            Phase::Init
        }
    }

    /// How many of its parties are parked: of the runtime and the extensions that are registered, those whose last poll
    /// nothing has answered.
    #[tactic(auto, using(crate::specs::laws::Watching::parked_kept))]
    pub fn parked(&self) -> usize
        ensures { ForEachList self.now (λ calls. result ≡ count_by (is_parked calls) (parties calls)) }
    {
        let extensions = parked_among(&self.extensions);
        if self.runtime_slot.is_some() {
            extensions + 1
        } else {
            extensions
        }
    }
}
