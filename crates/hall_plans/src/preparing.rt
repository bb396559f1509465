// What a call will change, made before anything changes.
ghost use Rattle.std.specs.Prelude.{◌≡◌, IfOk, IfErr, option_map};
ghost use Rattle.env_phase.specs.Calls.{IsMoment};
ghost use Rattle.api_core.specs.Replies.{told_by, reply_of_told};
ghost use Rattle.hall_plans.specs.Plans.{AreCallable, moment_replied};
ghost use Rattle.hall_plans.specs.Changes.{IsUncalled};
ghost use Rattle.hall_plans.specs.Prepared.{IsPreparedFor};

use crate::answering::{replies_to_polls, slots_of_polls};
use crate::changes::Changes;
use crate::environments::Environments;
use crate::error::HallError;
use crate::plan::Plan;
use api_core::{Answer, Dialect, Reply, reply_text};
use async_core::Table;
use invoke_records::Command;
use retry_rules::Settings;
use std::alloc::{AllocError, Global};

/// What a call will change: its command, what becomes of the environments, and the replies, to polls and to the caller.
#[derive(Drop)]
pub struct Prepared {
    pub command: Option<Command>,
    pub changes: Changes,
    /// Each with its slot.
    pub replies: Vec<(u64, Reply)>,
    /// The slots of the polls that are answered.
    pub answered: Vec<u64>,
    pub own: Option<Reply>,
}

// The reply to the caller, if it has one now.
#[tactic(auto, using(crate::specs::Plans::is_tellable))]
fn own_reply(
    alloc: Global,
    dialect: Dialect,
    settings: &Settings,
    reply: Option<Answer<'_>>,
) -> Result<Option<Reply>, AllocError>
    requires { IsMoment (moment_replied reply) }
    ensures { IfOk result (λ own. own ≡ option_map (reply_of_told dialect settings.now) (option_map told_by reply.entry)) }
{
    match reply {
        Some(answer) => Ok(Some(reply_text(alloc, dialect, &answer, settings)?)),
        None => Ok(None),
    }
}

/// Makes all that a call will change, with its replies in a dialect, and asks for its memory. Nothing changes.
///
/// It is refused by `OutOfMemory`, or by `NoHistory` where an environment refuses the call that is planned, which it does
/// not where a history leaves the table.
pub fn prepare(
    alloc: Global,
    dialect: Dialect,
    table: &Table,
    environments: &Environments,
    plan: Plan<'_>,
) -> Result<Prepared, HallError>
    requires { AreCallable environments.now plan.called }
    ensures ok { IfOk result (IsPreparedFor dialect table.now environments.now plan.entry.effect) }
    ensures refused { IfErr result (IsUncalled environments.now plan.entry.effect.made) }
{
    let Plan {
        command,
        made,
        reply,
    } = plan;
    let own = own_reply(alloc, dialect, table.settings(), reply)?;
    let (changes, answered) = environments.call(alloc, made)?;
    let replies = replies_to_polls(alloc, dialect, table, &answered)?;
    let answered = slots_of_polls(alloc, &answered)?;
    Ok(Prepared {
        command,
        changes,
        replies,
        answered,
        own,
    })
}
