// Calling environments: on copies, so that nothing changes yet.
ghost use Rattle.std.specs.Prelude.{◌≡◌, IfOk, IfErr};
ghost use Rattle.hall_plans.specs.Environments.{ForEachMade};
ghost use Rattle.hall_plans.specs.Plans.{AreCallable, calls_made};
ghost use Rattle.hall_plans.specs.declared.plan.Made.TheVariants as Made;
ghost use Rattle.hall_plans.specs.Changes.{IsWithin, LeadsTo, answered_to, IsUncalled};

use crate::changes::Changes;
use crate::environments::Environments;
use crate::error::HallError;
use crate::plan::Made;
use env_phase::{Answered, EnvCall, EnvError};
use std::alloc::{AllocError, Global};

impl Environments {
    // One environment after a call that it accepts.
    fn call_one(&self, environment: u16, call: EnvCall) -> Result<(Changes, Answered), HallError>
        requires { AreCallable self.now (Made.One environment call) }
        ensures within { IfOk result (λ made. IsWithin self.now made.0) }
        ensures leads { IfOk result (λ made. LeadsTo self.now made.0 (calls_made (Made.One environment call))) }
        ensures answers { IfOk result (λ made. ForEachMade self.now (λ wanted before.
            made.1.items ≡ answered_to before (calls_made (Made.One environment call)))) }
        ensures refused { IfErr result (IsUncalled self.now (calls_made (Made.One environment call))) }
    {
        match self.called(environment, call) {
            Ok((env, answers)) => Ok((Changes::One(env), answers)),
            Err(EnvError::OutOfMemory) => Err(HallError::OutOfMemory),
            Err(EnvError::Refused(_)) => Err(HallError::NoHistory),
        }
    }

    // All environments after their shutdown.
    fn call_all(&self, count: usize, now: u64) -> Result<(Changes, Answered), AllocError>
        requires { AreCallable self.now (Made.ShutdownAll count now) }
        ensures within { IfOk result (λ made. IsWithin self.now made.0) }
        ensures leads { IfOk result (λ made. LeadsTo self.now made.0 (calls_made (Made.ShutdownAll count now))) }
        ensures answers { IfOk result (λ made. ForEachMade self.now (λ wanted before.
            made.1.items ≡ answered_to before (calls_made (Made.ShutdownAll count now)))) }
    {
        let (ended, answers) = self.shut_down(now)?;
        Ok((Changes::All(ended), answers))
    }

    /// What becomes of the environments by these calls, and the polls that are answered.
    ///
    /// It is refused by `OutOfMemory`, or by `NoHistory` where the environment refuses a call.
    pub(crate) fn call(&self, alloc: Global, made: Made) -> Result<(Changes, Answered), HallError>
        requires { AreCallable self.now made }
        ensures within { IfOk result (λ done. IsWithin self.now done.0) }
        ensures leads { IfOk result (λ done. LeadsTo self.now done.0 (calls_made made)) }
        ensures answers { IfOk result (λ done. ForEachMade self.now (λ wanted before. done.1.items ≡ answered_to before (calls_made made))) }
        ensures refused { IfErr result (IsUncalled self.now (calls_made made)) }
    {
        match made {
            Made::Nothing => Ok((Changes::Nothing, Vec::new(alloc))),
            Made::One { environment, call } => self.call_one(environment, call),
            Made::ShutdownAll { count, now } => match self.call_all(count, now) {
                Ok(done) => Ok(done),
                Err(AllocError) => Err(HallError::OutOfMemory),
            },
        }
    }
}
