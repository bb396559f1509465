// What an operator is shown of an environment.
ghost use Rattle.std.specs.Prelude.{◌≡◌};
ghost use Rattle.env_phase.specs.State.{ForEachList};
ghost use Rattle.hall_plans.specs.Showing.{IsShownAfter};

use env_phase::{Env, Phase};

/// What is shown of one environment.
#[derive(Clone, Copy)]
pub struct EnvironmentStatus {
    /// Its number, from 1 on.
    pub number: u16,
    pub phase: Phase,
    /// How many of its parties are parked, of the runtime and the extensions that are registered.
    pub parked: usize,
}

/// What is shown of an environment. It takes no memory.
pub(crate) fn environment_status(env: &Env) -> EnvironmentStatus
    ensures number { result.number ≡ env.now.number }
    ensures shown { ForEachList env.now (λ calls. IsShownAfter env.now.wanted calls result) }
{
    EnvironmentStatus {
        number: env.number(),
        phase: env.phase(),
        parked: env.parked(),
    }
}
