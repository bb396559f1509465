// What becomes of the environments, made before anything changes.
ghost use Rattle.std.specs.Prelude.{◌≡◌, ◌++◌, List, ℕ, length, flat_map, IfOk};
ghost use Rattle.env_phase.specs.declared.call.EnvCall.{EnvCall};
ghost use Rattle.hall_plans.specs.Environments.{ForEachMade, HoldFor};
ghost use Rattle.hall_plans.specs.Changes.{IsWithin, LeadsTo, answered_to};

use crate::environments::Environments;
use env_phase::Env;

/// What becomes of the environments.
#[derive(Drop)]
pub enum Changes {
    Nothing,
    /// This one comes in the place of the one of its number.
    One(Env),
    /// These come in the place of all.
    All(Environments),
}

impl Environments {
    /// Makes the changes. It takes no memory.
    pub fn change(&mut self, changes: Changes)
        requires { IsWithin self.old changes }
        ensures length { length self.new ≡ length self.old }
        ensures hold { (more : List (ℕ × EnvCall)) → LeadsTo self.old changes more
            → ForEachMade self.old (λ wanted made. HoldFor wanted self.new (made ++ more)) }
    {
        match changes {
            Changes::Nothing => {}
            Changes::One(env) => self.put(env),
            Changes::All(environments) => *self = environments,
        }
    }
}
