// What a call is planned from, and what a request does.
ghost use Rattle.std.specs.Prelude.{◌≡◌};
ghost use Rattle.env_phase.specs.Calls.{IsMoment};
ghost use Rattle.hall_plans.specs.Effects.{effect_of_request};
ghost use Rattle.hall_plans.specs.Asked.{MayAsk};
ghost use Rattle.hall_plans.specs.Plans.{AreCallable, PlansRequest, IsToOneOf, drawn_by};

use crate::drawing::drawn_id;
use crate::environments::Environments;
use crate::plan::Plan;
use api_core::{Answer, Call};
use async_core::Table;
use invoke_records::{Bytes, Cause, Command, GREATEST_MOMENT, Kind, Standing};

/// What a call is planned from: the table, the environments, and the moment of the call.
#[derive(Clone, Copy)]
pub(crate) struct Planner<'a> {
    pub(crate) table: &'a Table,
    pub(crate) environments: &'a Environments,
    /// In milliseconds since 1970, not earlier than the last command.
    pub(crate) moment: u64,
    ghost in_time: { IsMoment moment },
}

impl<'a> Planner<'a> {
    ghost use Rattle.std.specs.Prelude.{[], max, min};
    ghost use Rattle.invoke_records.specs.Spelling.{greatest_moment};
    ghost use Rattle.hall_plans.specs.Effects.{command_for, is_late};
    ghost use Rattle.hall_plans.specs.Planner.{ForEachScene};

    /// For a call that comes now: its moment is that of the last command where that is later. No command is of a moment
    /// later than the greatest that a record holds.
    pub(crate) fn new(table: &'a Table, environments: &'a Environments, now: u64) -> Planner<'a>
        ensures table { result.table.now ≡ table.now }
        ensures environments { result.environments.now ≡ environments.now }
        ensures moment { result.moment ≡ min (max now table.now.table.last_moment) greatest_moment }
    {
        Planner {
            table,
            environments,
            moment: now.max(table.last_moment()).min(GREATEST_MOMENT),
        }
    }

    /// A command that names this event, without an environment.
    pub(crate) fn command(&self, kind: Kind, id: [u8; 16], bytes: Bytes) -> Command
        ensures { result ≡ command_for kind id self.now.moment bytes }
    {
        Command {
            kind,
            id,
            environment: 0,
            time: self.moment,
            bytes,
        }
    }

    /// The same without bytes.
    pub(crate) fn bare(&self, kind: Kind, id: [u8; 16]) -> Command
        ensures { result ≡ command_for kind id self.now.moment [] }
    {
        self.command(kind, id, Bytes::empty())
    }

    /// Whether the event runs and its attempt's time is over.
    pub(crate) fn is_late(&self, id: &[u8; 16]) -> bool
        ensures { ForEachScene self.now (λ x. result ≡ is_late x id.now) }
    {
        match self.table.standing(id) {
            Standing::Running { deadline, .. } => deadline <= self.moment,
            _ => false,
        }
    }

    // What a request does, where this id was drawn for it.
    fn request_of(&self, slot: u64, drawn: [u8; 16], call: Call) -> Plan<'a>
        requires { IsToOneOf self.now.environments.now call }
        ensures effect { ForEachScene self.now (λ x. result.effect ≡ effect_of_request x slot drawn call) }
        ensures within { AreCallable self.now.environments.now result.called }
        ensures asked { MayAsk drawn call result.effect.command }
    {
        match call {
            Call::Invoke { payload } => self.accept(drawn, payload, Answer::Accepted(drawn)),
            Call::InvokeAsync { payload } => self.accept_async(drawn, payload),
            Call::Describe(what) => Plan::says(Answer::Described(what)),
            Call::Oldest(side) => self.oldest(side),
            Call::Delete(id) => self.collect(id),
            Call::StopBroker => self.stop(),
            Call::RuntimeNext { environment } => self.runtime_next(environment, slot),
            Call::Response {
                environment,
                id,
                body,
            } => self.respond(environment, Kind::Succeed, id, body),
            Call::RuntimeError {
                environment,
                id,
                body,
            } => self.respond(environment, Kind::Fail(Cause::Reported), id, body),
            Call::RuntimeInitError { environment } => self.init_error(environment),
            Call::Register {
                environment,
                invoke,
                shutdown,
                account,
                ..
            } => self.register(environment, drawn, invoke, shutdown, account),
            Call::ExtensionNext {
                environment,
                identifier,
            } => self.extension_next(environment, identifier, slot),
            Call::ExtensionInitError {
                environment,
                identifier,
            } => self.extension_init_error(environment, identifier),
            Call::ExtensionExitError {
                environment,
                identifier,
            } => self.exit(environment, identifier),
            Call::Subscribe { stream, .. } => Plan::says(Answer::NotSupported(stream)),
        }
    }
}

/// What a request does that comes with this slot now, decided before anything changes. Two random words draw the id of an
/// event that is accepted, or of an extension that registers. It takes no memory: a payload or a body is moved into the
/// command.
///
/// The request's environment is one of these, by condition.
pub fn plan_request<'a>(
    table: &'a Table,
    environments: &'a Environments,
    slot: u64,
    call: Call,
    now: u64,
    words: [u64; 2],
) -> Plan<'a>
    requires moment { IsMoment now }
    requires environment { IsToOneOf environments.now call }
    ensures effect { PlansRequest table.now environments.now slot call now words result.effect }
    ensures within { AreCallable environments.now result.called }
    ensures asked { MayAsk (drawn_by words) call result.effect.command }
{
    Planner::new(table, environments, now).request_of(slot, drawn_id(words), call)
}
