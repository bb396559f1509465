// What requests to an environment do.
ghost use Rattle.std.specs.Prelude.{◌≡◌, ◌⊎◌, true, Some, None, IfSome, option_map};
ghost use Rattle.invoke_records.specs.declared.command.Kind.TheVariants.{Fail};
ghost use Rattle.invoke_records.specs.declared.command.Cause.TheVariants.{Timeout};
ghost use Rattle.env_phase.specs.declared.call.EnvCall.TheVariants.{RuntimeNext, ExtensionNext, InitError, ExtensionError};
ghost use Rattle.env_phase.specs.Calls.{moment_by, IsMoment};
ghost use Rattle.env_phase.specs.Environment.{running, runs};
ghost use Rattle.api_core.specs.Replies.{told_by};
ghost use Rattle.hall_plans.specs.Past.{calls_of};
ghost use Rattle.env_phase.specs.Polls.{refusal_of};
ghost use Rattle.hall_plans.specs.Effects.{refusal_by, requests, is_late, responds, answers_event, exit_of, exits};
ghost use Rattle.hall_plans.specs.Asked.{EndsBy, FailsByExit};
ghost use Rattle.hall_plans.specs.Environments.{IsNumberIn};
ghost use Rattle.hall_plans.specs.Planner.{ForEachScene};
ghost use Rattle.hall_plans.specs.Plans.{AreCallable, moment_replied};
ghost use Rattle.hall_plans.specs.Steps.{parks, reports, registers, times_out};

use crate::plan::{Made, Plan};
use crate::planner::Planner;
use api_core::{Answer, Audience, Refusal};
use env_phase::EnvCall;
use invoke_records::{Bytes, Cause, Command, Kind};

fn refusal_by(why: env_phase::Refusal) -> Refusal
    ensures { result ≡ refusal_by why }
{
    match why {
        env_phase::Refusal::UnknownExtension => Refusal::UnknownExtension,
        env_phase::Refusal::RegistrationClosed => Refusal::RegistrationClosed,
        env_phase::Refusal::TooManyExtensions => Refusal::TooManyExtensions,
        env_phase::Refusal::InUse => Refusal::IdInUse,
        env_phase::Refusal::WrongPhase => Refusal::WrongPhase,
    }
}

impl<'a> Planner<'a> {
    fn running(&self, environment: u16) -> Option<[u8; 16]>
        requires { IsNumberIn self.now.environments.now environment }
        ensures { ForEachScene self.now (λ x. result ≡ running (calls_of x.past environment)) }
    {
        self.environments.running(environment)
    }

    pub(crate) fn runs(&self, environment: u16, id: &[u8; 16]) -> bool
        requires { IsNumberIn self.now.environments.now environment }
        ensures { ForEachScene self.now (λ x. result ≡ runs (calls_of x.past environment) id.now) }
    {
        match self.running(environment) {
            Some(other) => *id == other,
            None => false,
        }
    }

    fn judge(&self, environment: u16, call: EnvCall) -> Option<env_phase::Refusal>
        requires { IsNumberIn self.now.environments.now environment }
        ensures { ForEachScene self.now (λ x. result ≡ refusal_of x.past.wanted (calls_of x.past environment) call) }
    {
        self.environments.judge(environment, call)
    }

    /// A call of the environment with this command and reply, where the environment accepts it.
    pub(crate) fn request(
        &self,
        environment: u16,
        call: EnvCall,
        command: Option<Command>,
        reply: Option<Answer<'a>>,
    ) -> Plan<'a>
        requires number { IsNumberIn self.now.environments.now environment }
        requires called_at { IsMoment (moment_by call) }
        requires told_at { IsMoment (moment_replied reply) }
        ensures effect { ForEachScene self.now (λ x. result.effect ≡ requests x environment call command (option_map told_by reply.entry)) }
        ensures within { AreCallable self.now.environments.now result.called }
        ensures command { (result.effect.command ≡ command) ⊎ (result.effect.command ≡ None) }
    {
        match self.judge(environment, call) {
            None => Plan {
                command,
                made: Made::One { environment, call },
                reply,
            },
            Some(why) => Plan::refuses(refusal_by(why)),
        }
    }

    // The attempt is over before its answer came: the environment is reset.
    fn time_out(&self, environment: u16, id: [u8; 16]) -> Plan<'a>
        requires { IsNumberIn self.now.environments.now environment }
        ensures effect { ForEachScene self.now (λ x. result.effect ≡ times_out x environment id) }
        ensures within { AreCallable self.now.environments.now result.called }
        ensures asked { IfSome result.effect.command (λ c. (c.kind ≡ Fail Timeout) × (c.id ≡ id)) }
    {
        Plan {
            command: Some(self.bare(Kind::Fail(Cause::Timeout), id)),
            made: Made::One {
                environment,
                call: EnvCall::Timeout { now: self.moment },
            },
            reply: Some(Answer::Refusal(Audience::Environment, Refusal::InvalidRequestId)),
        }
    }

    // An answer in time ends the attempt, a late one is its timeout.
    fn answer_event(&self, environment: u16, kind: Kind, id: [u8; 16], bytes: Bytes) -> Plan<'a>
        requires { IsNumberIn self.now.environments.now environment }
        ensures effect { ForEachScene self.now (λ x. result.effect ≡ answers_event x environment kind id bytes) }
        ensures within { AreCallable self.now.environments.now result.called }
        ensures asked { IfSome result.effect.command (λ c. EndsBy kind (Some id) c.kind c.id) }
    {
        if self.is_late(&id) {
            return self.time_out(environment, id);
        }
        Plan {
            command: Some(self.command(kind, id, bytes)),
            made: Made::One {
                environment,
                call: EnvCall::Answer { id },
            },
            reply: Some(Answer::Taken),
        }
    }

    /// A response or an error for the event that the environment runs. Its body is moved into the command.
    pub(crate) fn respond(
        &self,
        environment: u16,
        kind: Kind,
        id: Option<[u8; 16]>,
        bytes: Bytes,
    ) -> Plan<'a>
        requires { IsNumberIn self.now.environments.now environment }
        ensures effect { ForEachScene self.now (λ x. result.effect ≡ responds x environment kind id bytes) }
        ensures within { AreCallable self.now.environments.now result.called }
        ensures asked { IfSome result.effect.command (λ c. EndsBy kind id c.kind c.id) }
    {
        match id {
            Some(id) if self.runs(environment, &id) => {
                self.answer_event(environment, kind, id, bytes)
            }
            _ => Plan::refuses(Refusal::InvalidRequestId),
        }
    }

    // How an attempt fails whose environment an extension has left.
    fn exit_command(&self, id: [u8; 16]) -> Command
        ensures command { ForEachScene self.now (λ x. result ≡ exit_of x id) }
        ensures asked { FailsByExit result.kind }
    {
        let cause = if self.is_late(&id) {
            Cause::Timeout
        } else {
            Cause::Exited
        };
        self.bare(Kind::Fail(cause), id)
    }

    /// A poll of the runtime or of an extension: its slot is parked.
    fn park(&self, environment: u16, call: EnvCall) -> Plan<'a>
        requires number { IsNumberIn self.now.environments.now environment }
        requires called_at { IsMoment (moment_by call) }
        ensures effect { ForEachScene self.now (λ x. result.effect ≡ parks x environment call) }
        ensures within { AreCallable self.now.environments.now result.called }
        ensures none { result.effect.command ≡ None }
    {
        self.request(environment, call, None, None)
    }

    /// The runtime asks for the next event.
    pub(crate) fn runtime_next(&self, environment: u16, slot: u64) -> Plan<'a>
        requires { IsNumberIn self.now.environments.now environment }
        ensures effect { ForEachScene self.now (λ x. result.effect ≡ parks x environment (RuntimeNext slot)) }
        ensures within { AreCallable self.now.environments.now result.called }
        ensures none { result.effect.command ≡ None }
    {
        self.park(environment, EnvCall::RuntimeNext { slot })
    }

    /// An extension asks for the next event.
    pub(crate) fn extension_next(
        &self,
        environment: u16,
        identifier: [u8; 16],
        slot: u64,
    ) -> Plan<'a>
        requires { IsNumberIn self.now.environments.now environment }
        ensures effect { ForEachScene self.now (λ x. result.effect ≡ parks x environment (ExtensionNext identifier slot)) }
        ensures within { AreCallable self.now.environments.now result.called }
        ensures none { result.effect.command ≡ None }
    {
        self.park(environment, EnvCall::ExtensionNext { identifier, slot })
    }

    /// The runtime could not start.
    pub(crate) fn init_error(&self, environment: u16) -> Plan<'a>
        requires { IsNumberIn self.now.environments.now environment }
        ensures effect { ForEachScene self.now (λ x. result.effect ≡ reports x environment (InitError x.now)) }
        ensures within { AreCallable self.now.environments.now result.called }
        ensures none { result.effect.command ≡ None }
    {
        let call = EnvCall::InitError { now: self.moment };
        self.request(environment, call, None, Some(Answer::Taken))
    }

    /// An extension registers under the identifier that was drawn.
    pub(crate) fn register(
        &self,
        environment: u16,
        drawn: [u8; 16],
        invoke: bool,
        shutdown: bool,
        account: bool,
    ) -> Plan<'a>
        requires { IsNumberIn self.now.environments.now environment }
        ensures effect { ForEachScene self.now (λ x. result.effect ≡ registers x environment drawn invoke shutdown account) }
        ensures within { AreCallable self.now.environments.now result.called }
        ensures none { result.effect.command ≡ None }
    {
        let call = EnvCall::Register {
            identifier: drawn,
            invoke,
            shutdown,
        };
        let answer = Answer::Registered {
            identifier: drawn,
            account,
        };
        self.request(environment, call, None, Some(answer))
    }

    /// An extension could not start.
    pub(crate) fn extension_init_error(&self, environment: u16, identifier: [u8; 16]) -> Plan<'a>
        requires { IsNumberIn self.now.environments.now environment }
        ensures effect { ForEachScene self.now (λ x. result.effect ≡ reports x environment (ExtensionError identifier true x.now)) }
        ensures within { AreCallable self.now.environments.now result.called }
        ensures none { result.effect.command ≡ None }
    {
        let call = EnvCall::ExtensionError {
            identifier,
            in_init: true,
            now: self.moment,
        };
        self.request(environment, call, None, Some(Answer::Taken))
    }

    /// An extension exits: the event that runs fails.
    pub(crate) fn exit(&self, environment: u16, identifier: [u8; 16]) -> Plan<'a>
        requires { IsNumberIn self.now.environments.now environment }
        ensures effect { ForEachScene self.now (λ x. result.effect ≡ exits x environment identifier) }
        ensures within { AreCallable self.now.environments.now result.called }
        ensures asked { IfSome result.effect.command (λ c. FailsByExit c.kind) }
    {
        let command = match self.running(environment) {
            Some(id) => Some(self.exit_command(id)),
            None => None,
        };
        let call = EnvCall::ExtensionError {
            identifier,
            in_init: false,
            now: self.moment,
        };
        self.request(environment, call, command, Some(Answer::Taken))
    }
}
