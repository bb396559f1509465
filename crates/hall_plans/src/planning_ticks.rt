// What a tick does.
ghost use Rattle.std.specs.Prelude.{◌≡◌, ◌+◌, ◌*◌, is_some, true, false};
ghost use Rattle.env_phase.specs.Calls.{IsMoment};
ghost use Rattle.invoke_records.specs.declared.command.Cause.{Cause};
ghost use Rattle.invoke_records.specs.declared.command.Kind.TheVariants.{Start, Fail};
ghost use Rattle.hall_plans.specs.Past.{ready_in};
ghost use Rattle.hall_plans.specs.Effects.{moves_event};
ghost use Rattle.hall_plans.specs.Planner.{ForEachScene};
ghost use Rattle.hall_plans.specs.Plans.{AnyIn, AreCallable, PlansTick};
ghost use Rattle.hall_plans.specs.Steps.{moves_next, goes_on};

use crate::environments::Environments;
use crate::plan::{Made, Plan, told_to};
use crate::planner::Planner;
use async_core::Table;
use env_phase::EnvCall;
use invoke_records::{Bytes, Cause, Command, Kind};

impl<'a> Planner<'a> {
    #[tactic(auto, unfolding(crate::specs::Past::calls_of))]
    fn ready(&self) -> Option<u16>
        ensures ready { ForEachScene self.now (λ x. result ≡ ready_in x.settings x.past) }
        ensures within { AnyIn self.now.environments.now result }
    {
        self.environments.ready()
    }

    // Until when an attempt may run that starts now.
    fn deadline(&self) -> u64
        ensures { ForEachScene self.now (λ x. result ≡ x.now + 1000 * x.settings.timeout) }
    {
        let timeout = u64::from(self.table.settings().timeout);
        self.moment + 1000 * timeout
    }

    // An attempt starts: the event is given to the environment that is ready.
    fn start(&self, ready: Option<u16>, id: [u8; 16]) -> Plan<'a>
        requires { AnyIn self.now.environments.now ready }
        ensures effect { ForEachScene self.now (λ x. result.effect ≡ moves_event x ready id Start) }
        ensures within { AreCallable self.now.environments.now result.called }
    {
        let command = Command {
            kind: Kind::Start,
            id,
            environment: ready.unwrap_or(0),
            time: self.moment,
            bytes: Bytes::empty(),
        };
        let give = EnvCall::Give {
            id,
            deadline: self.deadline(),
        };
        Plan::does(command, told_to(ready, give))
    }

    // An attempt's time is over: the environment that holds the event is reset.
    fn fail(&self, ready: Option<u16>, id: [u8; 16], cause: Cause) -> Plan<'a>
        ensures effect { ForEachScene self.now (λ x. result.effect ≡ moves_event x ready id (Fail cause)) }
        ensures within { AreCallable self.now.environments.now result.called }
    {
        let timeout = EnvCall::Timeout { now: self.moment };
        Plan::does(
            self.bare(Kind::Fail(cause), id),
            told_to(self.holder(&id), timeout),
        )
    }

    fn move_event(&self, ready: Option<u16>, id: [u8; 16], kind: Kind) -> Plan<'a>
        requires { AnyIn self.now.environments.now ready }
        ensures effect { ForEachScene self.now (λ x. result.effect ≡ moves_event x ready id kind) }
        ensures within { AreCallable self.now.environments.now result.called }
    {
        match kind {
            Kind::Start => self.start(ready, id),
            Kind::Fail(cause) => self.fail(ready, id, cause),
            Kind::Accept
            | Kind::Succeed
            | Kind::Throttle
            | Kind::Interrupt
            | Kind::Expire
            | Kind::Collect
            | Kind::Configure(_) => Plan::does(self.bare(kind, id), Made::Nothing),
        }
    }

    // The event that moves next, where this environment is ready.
    fn next_move(&self, ready: Option<u16>) -> Plan<'a>
        requires { AnyIn self.now.environments.now ready }
        ensures effect { ForEachScene self.now (λ x. result.effect ≡ moves_next x ready) }
        ensures within { AreCallable self.now.environments.now result.called }
    {
        match self.table.next_move(self.moment, ready) {
            Some(next) => self.move_event(ready, next.id, next.kind),
            None => Plan::nothing(),
        }
    }

    // An Interrupt, else the next move.
    fn tick(&self) -> Plan<'a>
        ensures effect { ForEachScene self.now (λ x. result.effect ≡ goes_on x) }
        ensures within { AreCallable self.now.environments.now result.called }
    {
        match self.first_unheld() {
            Some(id) => Plan::does(self.bare(Kind::Interrupt, id), Made::Nothing),
            None => self.next_move(self.ready()),
        }
    }
}

/// What a tick does now, decided before anything changes: nothing once the broker stops, an Interrupt for the running event
/// that was accepted first of those that no environment holds, or else the next move of the table. It takes no memory.
pub fn plan_tick<'a>(
    table: &'a Table,
    environments: &'a Environments,
    is_stopping: bool,
    now: u64,
) -> Plan<'a>
    requires { IsMoment now }
    ensures effect { PlansTick table.now environments.now is_stopping now result.effect }
    ensures moving { is_some result.effect.command ≡ true → is_stopping ≡ false }
    ensures within { AreCallable environments.now result.called }
{
    if is_stopping {
        return Plan::nothing();
    }
    Planner::new(table, environments, now).tick()
}
