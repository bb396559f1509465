// What a call does, as values: decided before anything changes.
ghost use Rattle.std.specs.Prelude.{◌≡◌, Some, [], List, is_some, option_map};
ghost use Rattle.api_core.specs.Replies.{told_by};
ghost use Rattle.hall_plans.specs.Effects as effect;
ghost use Rattle.env_phase.specs.Calls.{moment_by, IsMoment};
ghost use Rattle.env_phase.specs.State.{EnvState};
ghost use Rattle.hall_plans.specs.declared.plan.Made.TheVariants.{Nothing};
ghost use Rattle.hall_plans.specs.Plans.{AnyIn, AreCallable, calls_made, moment_told};

use api_core::{Answer, Audience, Refusal};
use env_phase::EnvCall;
use invoke_records::Command;
use std::marker::Model;

/// Which environments a call calls.
#[derive(Clone, Copy)]
pub(crate) enum Made {
    Nothing,
    /// This call of one environment.
    One { environment: u16, call: EnvCall },
    /// The shutdown of each, from 1 to this count, at a moment in milliseconds since 1970.
    ShutdownAll { count: usize, now: u64 },
}

/// What a call does: the command that it issues, the calls that it makes of environments, and the answer to its caller,
/// which is none while it is parked.
#[derive(Drop)]
pub struct Plan<'a> {
    pub(crate) command: Option<Command>,
    pub(crate) made: Made,
    pub(crate) reply: Option<Answer<'a>>,
}

impl<'a> Model for Plan<'a> {
    ghost use Rattle.std.specs.Prelude.{option_map};
    ghost use Rattle.api_core.specs.Replies.{told_by};
    ghost use Rattle.env_phase.specs.Calls.{IsMoment};
    ghost use Rattle.hall_plans.specs.Plans.{PlanView, calls_made, moment_replied};

    ghost Value = { PlanView };

    ghost view = { λ plan. record {
      effect = record {
        command = plan.command;
        made = calls_made plan.made;
        reply = option_map told_by plan.reply;
      };
      called = plan.made;
    } };

    ghost invariant = { λ plan. IsMoment (moment_replied plan.reply) };
}

/// A call of this environment, if it is one.
pub(crate) fn told_to(environment: Option<u16>, call: EnvCall) -> Made
    requires { IsMoment (moment_by call) }
    ensures calls { calls_made result ≡ effect.told_to environment call }
    ensures within { (envs : List EnvState) → AnyIn envs environment → AreCallable envs result }
{
    match environment {
        Some(environment) => Made::One { environment, call },
        None => Made::Nothing,
    }
}

impl<'a> Plan<'a> {
    /// Whether it has a command.
    pub fn has_command(&self) -> bool
        ensures { result ≡ is_some self.now.effect.command }
    {
        self.command.is_some()
    }

    pub(crate) fn nothing() -> Plan<'a>
        ensures { result ≡ record { effect = effect.nothing; called = Nothing } }
    {
        Plan {
            command: None,
            made: Made::Nothing,
            reply: None,
        }
    }

    /// An answer alone.
    pub(crate) fn says(answer: Answer<'a>) -> Plan<'a>
        requires { IsMoment (moment_told answer) }
        ensures { result ≡ record { effect = effect.says (told_by answer.entry); called = Nothing } }
    {
        Plan {
            command: None,
            made: Made::Nothing,
            reply: Some(answer),
        }
    }

    /// A refusal alone, of a runtime or an extension.
    pub(crate) fn refuses(why: Refusal) -> Plan<'a>
        ensures { result ≡ record { effect = effect.refuses why; called = Nothing } }
    {
        Plan::says(Answer::Refusal(Audience::Environment, why))
    }

    /// A refusal alone, of a caller.
    pub(crate) fn refuses_caller(why: Refusal) -> Plan<'a>
        ensures { result ≡ record { effect = effect.refuses_caller why; called = Nothing } }
    {
        Plan::says(Answer::Refusal(Audience::Caller, why))
    }

    /// A command and an answer.
    pub(crate) fn issues(command: Command, answer: Answer<'a>) -> Plan<'a>
        requires { IsMoment (moment_told answer) }
        ensures effect { result.effect ≡ record { command = Some command; made = []; reply = Some (told_by answer.entry) } }
        ensures called { result.called ≡ Nothing }
    {
        Plan {
            command: Some(command),
            made: Made::Nothing,
            reply: Some(answer),
        }
    }

    /// A command without a reply, and calls of environments.
    pub(crate) fn does(command: Command, made: Made) -> Plan<'a>
        ensures { result ≡ record { effect = effect.does command (calls_made made); called = made } }
    {
        Plan {
            command: Some(command),
            made,
            reply: None,
        }
    }
}
