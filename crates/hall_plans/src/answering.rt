// What the polls are told that a call of an environment answers.
ghost use Rattle.std.specs.Prelude.{◌≡◌, map, IfOk};
ghost use Rattle.async_core.specs.Lives.{life, payload_of};
ghost use Rattle.async_core.specs.Histories.{ForEachLegalHistory};
ghost use Rattle.api_core.specs.Replies.{IsTellable, told_by, reply_of_told};
ghost use Rattle.hall_plans.specs.Run.{reason_told, reply_to_poll, slots_of};
ghost use Rattle.hall_plans.specs.Answering.{words_of, polls_told, poll_told};

use api_core::{Answer, Audience, Dialect, Refusal, Reply, ShutdownReason, reply_text};
use async_core::Table;
use env_phase::{PollAnswer, Reason};
use std::alloc::{AllocError, Global};

fn reason_of(reason: Reason) -> ShutdownReason
    ensures { result ≡ reason_told reason }
{
    match reason {
        Reason::Spindown => ShutdownReason::Spindown,
        Reason::Timeout => ShutdownReason::Timeout,
        Reason::Failure => ShutdownReason::Failure,
    }
}

// The payload of an event, none of one that is not held.
fn payload_in<'a>(table: &'a Table, id: &[u8; 16]) -> &'a [u8]
    ensures { ForEachLegalHistory table.now (λ s history. result.now ≡ payload_of (life id.now history)) }
{
    match table.payload(id) {
        Some(payload) => payload,
        None => b"",
    }
}

// What a poll is answered: an event comes to the runtime with its payload.
fn answer_to_poll<'a>(table: &'a Table, told: &PollAnswer) -> Answer<'a>
    ensures tellable { IsTellable result }
    ensures told { ForEachLegalHistory table.now (λ s history. told_by result ≡ reply_to_poll history told.now) }
{
    match told {
        PollAnswer::RuntimeEvent { id, deadline } => Answer::RuntimeEvent {
            id: *id,
            deadline: *deadline,
            payload: payload_in(table, id),
        },
        PollAnswer::Invoke { id, deadline } => Answer::Invoke {
            id: *id,
            deadline: *deadline,
        },
        PollAnswer::Shutdown { reason, deadline } => Answer::Shutdown {
            reason: reason_of(*reason),
            deadline: *deadline,
        },
        PollAnswer::Replaced => Answer::Refusal(Audience::Environment, Refusal::Replaced),
        PollAnswer::Reset => Answer::Refusal(Audience::Environment, Refusal::EnvironmentReset),
    }
}

// The reply to one poll.
fn reply_to(
    alloc: Global,
    dialect: Dialect,
    table: &Table,
    told: &PollAnswer,
) -> Result<Reply, AllocError>
    ensures { ForEachLegalHistory table.now (λ s history. IfOk result (λ reply. reply ≡ reply_of_told dialect s (reply_to_poll history told.now))) }
{
    reply_text(
        alloc,
        dialect,
        &answer_to_poll(table, told),
        table.settings(),
    )
}

/// The replies to the polls that are answered, each with its slot. The payload of an event is copied once.
pub(crate) fn replies_to_polls(
    alloc: Global,
    dialect: Dialect,
    table: &Table,
    answered: &[(u64, PollAnswer)],
) -> Result<Vec<(u64, Reply)>, AllocError>
    ensures { ForEachLegalHistory table.now (λ s history. IfOk result (λ replies. replies.items ≡ polls_told (words_of dialect s) history answered.now)) }
{
    let mut replies = Vec::with_capacity(alloc, answered.len())?;
    for (slot, told) in answered {
        let reply = reply_to(alloc, dialect, table, told)?;
        replies.push((*slot, reply))?;
    }
    Ok(replies)
}

/// The slots of the polls that are answered.
pub(crate) fn slots_of_polls(
    alloc: Global,
    answered: &[(u64, PollAnswer)],
) -> Result<Vec<u64>, AllocError>
    ensures { IfOk result (λ slots. slots.items ≡ slots_of answered.now) }
{
    let mut slots = Vec::with_capacity(alloc, answered.len())?;
    for (slot, _) in answered {
        slots.push(*slot)?;
    }
    Ok(slots)
}
