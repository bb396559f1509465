// What requests of callers do.
ghost use Rattle.std.specs.Prelude.{◌≡◌, Some, None, IfSome, option_map};
ghost use Rattle.invoke_records.specs.declared.command.Kind.TheVariants.{Accept};
ghost use Rattle.async_core.specs.Readers.{told, ending_after};
ghost use Rattle.api_core.specs.Replies.{told_by, accepted_async};
ghost use Rattle.env_phase.specs.Calls.{IsMoment};
ghost use Rattle.hall_plans.specs.Effects.{command_for, record_counts, accepts, collects, tells_oldest, stops};
ghost use Rattle.hall_plans.specs.Planner.{ForEachScene};
ghost use Rattle.hall_plans.specs.Asked.{Accepts, Collects};
ghost use Rattle.hall_plans.specs.Plans.{AreCallable, moment_told};
ghost use Rattle.hall_plans.specs.Steps.{why_not_accepted, why_not_collected};

use crate::plan::{Made, Plan};
use crate::planner::Planner;
use api_core::{Answer, Audience, Refusal};
use async_core::{Ended, Illegal, Side};
use invoke_records::{Bytes, GREATEST_MOMENT, Kind};

fn why_not_collected(why: Illegal, id: [u8; 16]) -> Answer<'static>
    ensures told { told_by result ≡ why_not_collected id why }
    ensures moment { moment_told result ≡ 0 }
{
    match why {
        Illegal::NotEnded => Answer::NotEnded(id),
        _ => Answer::Refusal(Audience::Caller, Refusal::UnknownEvent),
    }
}

impl<'a> Planner<'a> {
    fn why_not_accepted(&self, why: Illegal) -> Answer<'a>
        ensures told { ForEachScene self.now (λ x. told_by result ≡ why_not_accepted (record_counts x) why) }
        ensures moment { moment_told result ≡ 0 }
    {
        match why {
            Illegal::Full => Answer::TableFull(self.table),
            _ => Answer::Refusal(Audience::Caller, Refusal::IdInUse),
        }
    }

    /// An invocation: an event is accepted under the id that was drawn, and told so. The payload is moved into the command.
    pub(crate) fn accept(&self, drawn: [u8; 16], payload: Bytes, answer: Answer<'a>) -> Plan<'a>
        requires { IsMoment (moment_told answer) }
        ensures effect { ForEachScene self.now (λ x. result.effect ≡ accepts (told_by answer.entry) x (command_for Accept drawn x.now payload)) }
        ensures within { AreCallable self.now.environments.now result.called }
        ensures asked { IfSome result.effect.command (λ c. Accepts drawn c.kind c.id) }
    {
        let command = self.command(Kind::Accept, drawn, payload);
        match self.table.judge(&command) {
            Ok(()) => Plan::issues(command, answer),
            Err(why) => Plan::says(self.why_not_accepted(why)),
        }
    }

    /// The same, told as InvokeAsync tells it.
    pub(crate) fn accept_async(&self, drawn: [u8; 16], payload: Bytes) -> Plan<'a>
        ensures effect { ForEachScene self.now (λ x. result.effect ≡ accepts (accepted_async drawn) x (command_for Accept drawn x.now payload)) }
        ensures within { AreCallable self.now.environments.now result.called }
        ensures asked { IfSome result.effect.command (λ c. Accepts drawn c.kind c.id) }
    {
        self.accept(drawn, payload, Answer::AcceptedAsync(drawn))
    }

    fn collect_event(&self, id: [u8; 16]) -> Plan<'a>
        ensures effect { ForEachScene self.now (λ x. result.effect ≡ collects x (Some id)) }
        ensures within { AreCallable self.now.environments.now result.called }
        ensures asked { IfSome result.effect.command (λ c. Collects (Some id) c.kind c.id) }
    {
        let command = self.bare(Kind::Collect, id);
        match self.table.judge(&command) {
            Ok(()) => Plan::issues(command, Answer::Deleted(id)),
            Err(why) => Plan::says(why_not_collected(why, id)),
        }
    }

    /// An event that has ended is collected.
    pub(crate) fn collect(&self, id: Option<[u8; 16]>) -> Plan<'a>
        ensures effect { ForEachScene self.now (λ x. result.effect ≡ collects x id) }
        ensures within { AreCallable self.now.environments.now result.called }
        ensures asked { IfSome result.effect.command (λ c. Collects id c.kind c.id) }
    {
        match id {
            Some(id) => self.collect_event(id),
            None => Plan::refuses_caller(Refusal::UnknownEvent),
        }
    }

    // What an event leaves that has ended. None has ended at a moment that has no text.
    fn ended(&self, id: &[u8; 16]) -> Option<Ended<'a>>
        ensures moment { IfSome result (λ ended. IsMoment ended.at) }
        ensures told { ForEachScene self.now (λ x. option_map told result ≡ ending_after x.settings id.now x.past.history) }
    {
        let Some(ended) = self.table.ended(id) else {
            return None;
        };
        if ended.at <= GREATEST_MOMENT {
            Some(ended)
        } else {
            None
        }
    }

    /// The record of the event that ended first on this side.
    pub(crate) fn oldest(&self, side: Side) -> Plan<'a>
        ensures effect { ForEachScene self.now (λ x. result.effect ≡ tells_oldest x side) }
        ensures within { AreCallable self.now.environments.now result.called }
        ensures none { result.effect.command ≡ None }
    {
        let Some(id) = self.table.oldest_ended(side) else {
            return Plan::says(Answer::NoRecord);
        };
        match self.ended(&id) {
            Some(ended) => Plan::says(Answer::Record(ended)),
            None => Plan::says(Answer::NoRecord),
        }
    }

    /// Each environment is shut down.
    pub(crate) fn stop(&self) -> Plan<'a>
        ensures effect { ForEachScene self.now (λ x. result.effect ≡ stops x) }
        ensures within { AreCallable self.now.environments.now result.called }
        ensures none { result.effect.command ≡ None }
    {
        Plan {
            command: None,
            made: Made::ShutdownAll {
                count: self.environments.len(),
                now: self.moment,
            },
            reply: Some(Answer::Taken),
        }
    }
}
