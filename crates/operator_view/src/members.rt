// The members of an event as JSON, piece by piece.
ghost use Rattle.std.specs.Prelude.{◌≡◌, ◌++◌, length, OnOk, string_bytes};
ghost use Rattle.invoke_records.specs.Spelling.{moment_in};
ghost use Rattle.operator_view.specs.EventText.{standing_text, answer_bytes, name_members, moment_members, environment_member, count_members, policy_members, size_members, members_text};

use destination_json::id_text;
use invoke_records::{Answer, EventRow, Outcome, Standing};
use std::alloc::{AllocError, Global};

/// The words for where an event stands, as an audit and the lists have them.
pub fn standing_text(standing: Standing) -> &'static str
    ensures { result.now ≡ standing_text standing }
{
    match standing {
        Standing::Unknown => "unknown",
        Standing::Waiting { .. } => "waiting",
        Standing::DueAgain { .. } => "due again",
        Standing::Running { .. } => "running",
        Standing::Ended { outcome, .. } => match outcome {
            Outcome::Success => "ended Success",
            Outcome::RetriesExhausted => "ended RetriesExhausted",
            Outcome::EventAgeExceeded => "ended EventAgeExceeded",
        },
    }
}

/// When an event that stands so is due, times out, or ended; 0 of one that is not held.
pub fn moment_of(standing: Standing) -> u64
    ensures { result ≡ moment_in standing }
{
    match standing {
        Standing::Unknown => 0,
        Standing::Waiting { due } => due,
        Standing::DueAgain { due } => due,
        Standing::Running { deadline, .. } => deadline,
        Standing::Ended { at, .. } => at,
    }
}

fn answer_len(answer: &Answer) -> usize
    ensures { result ≡ length (answer_bytes answer.now) }
{
    match answer {
        Answer::None => 0,
        Answer::Response(bytes) => bytes.len(),
        Answer::Error(bytes) => bytes.len(),
    }
}

fn put_names(
    alloc: Global,
    out: &mut String,
    id: &[u8; 16],
    standing: Standing,
) -> Result<(), AllocError>
    ensures { OnOk result (string_bytes out.new ≡ string_bytes out.old ++ name_members id.now standing) }
{
    let id = id_text(alloc, id)?;
    let text = standing_text(standing);
    write!(out, "\"id\":\"{id}\",\"standing\":\"{text}\"")
}

fn put_moments(out: &mut String, accepted: u64, standing: Standing) -> Result<(), AllocError>
    ensures { OnOk result (string_bytes out.new ≡ string_bytes out.old ++ moment_members accepted standing) }
{
    let moment = moment_of(standing);
    write!(out, ",\"accepted\":{accepted},\"moment\":{moment}")
}

fn put_environment(out: &mut String, standing: Standing) -> Result<(), AllocError>
    ensures { OnOk result (string_bytes out.new ≡ string_bytes out.old ++ environment_member standing) }
{
    match standing {
        Standing::Running { environment, .. } => write!(out, ",\"environment\":{environment}"),
        _ => out.push_str(",\"environment\":null"),
    }
}

fn put_counts(
    out: &mut String,
    starts: u32,
    failures: u32,
    push_backs: u32,
) -> Result<(), AllocError>
    ensures { OnOk result (string_bytes out.new ≡ string_bytes out.old ++ count_members starts failures push_backs) }
{
    write!(
        out,
        ",\"starts\":{starts},\"failures\":{failures},\"pushbacks\":{push_backs}"
    )
}

fn put_policy(out: &mut String, retries: u8, age: u32) -> Result<(), AllocError>
    ensures { OnOk result (string_bytes out.new ≡ string_bytes out.old ++ policy_members retries age) }
{
    write!(out, ",\"retries\":{retries},\"age\":{age}")
}

fn put_sizes(out: &mut String, payload: usize, answer: usize) -> Result<(), AllocError>
    ensures { OnOk result (string_bytes out.new ≡ string_bytes out.old ++ size_members payload answer) }
{
    write!(out, ",\"payloadBytes\":{payload},\"answerBytes\":{answer}")
}

/// Puts the members of an event behind a text.
#[tactic(auto, unfolding(crate::specs::EventText::members_text))]
pub(crate) fn put_members(alloc: Global, out: &mut String, row: &EventRow) -> Result<(), AllocError>
    ensures { OnOk result (string_bytes out.new ≡ string_bytes out.old ++ members_text row.now) }
{
    put_names(alloc, out, &row.id, row.standing)?;
    put_moments(out, row.accepted, row.standing)?;
    put_environment(out, row.standing)?;
    put_counts(out, row.starts, row.failures, row.push_backs)?;
    put_policy(out, row.policy.retries, row.policy.age)?;
    put_sizes(out, row.payload.len(), answer_len(&row.answer))
}
