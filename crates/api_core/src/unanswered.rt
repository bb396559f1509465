// The record of an event, as a dialect tells it.
ghost use Rattle.std.specs.Prelude.{◌≡◌, ◌≤◌, IfOk};
ghost use Rattle.invoke_records.specs.Spelling.{greatest_moment};
ghost use Rattle.async_core.specs.Readers.{told};
ghost use Rattle.destination_json.specs.Record.{record_text};
ghost use Rattle.api_core.specs.Unanswered.{after_seconds, ended_message, waited_message, unanswered_message, unanswered_text, with_error, ending_told};

use crate::Dialect;
use crate::object::Object;
use crate::texts::{digits, naming};
use async_core::Ended;
use destination_json::{id_text, record};
use invoke_records::{Answer, Bytes, Outcome};
use retry_rules::Settings;
use std::alloc::{AllocError, Global};

fn after_seconds(outcome: Outcome) -> &'static str
    ensures { result.now ≡ after_seconds outcome }
{
    match outcome {
        Outcome::EventAgeExceeded => ".00 seconds, or the broker ended",
        _ => ".00 seconds",
    }
}

// The words for an event whose attempts had no answer.
fn ended_message(
    alloc: Global,
    settings: &Settings,
    ended: &Ended<'_>,
) -> Result<Vec<u8>, AllocError>
    ensures { IfOk result (λ text. text.items ≡ ended_message settings.now (told ended.now)) }
{
    let id = id_text(alloc, ended.id)?;
    let timeout = digits(alloc, settings.timeout as u64)?;
    let causes = naming(
        alloc,
        " Process exited before completing request, or Task timed out after ",
        timeout.as_bytes(),
        after_seconds(ended.outcome).as_bytes(),
    )?;
    naming(alloc, "RequestId: ", id.as_bytes(), &causes)
}

// The words for an event that was never started.
fn waited_message(alloc: Global, ended: &Ended<'_>) -> Result<Vec<u8>, AllocError>
    ensures { IfOk result (λ text. text.items ≡ waited_message (told ended.now)) }
{
    let id = id_text(alloc, ended.id)?;
    let cause = " Event expired before its first attempt";
    naming(alloc, "RequestId: ", id.as_bytes(), cause.as_bytes())
}

fn unanswered_message(
    alloc: Global,
    settings: &Settings,
    ended: &Ended<'_>,
) -> Result<Vec<u8>, AllocError>
    ensures { IfOk result (λ text. text.items ≡ unanswered_message settings.now (told ended.now)) }
{
    if ended.starts > 0 {
        ended_message(alloc, settings, ended)
    } else {
        waited_message(alloc, ended)
    }
}

// The error in place of the answer that an event has not.
fn unanswered_text(
    alloc: Global,
    settings: &Settings,
    ended: &Ended<'_>,
) -> Result<Vec<u8>, AllocError>
    ensures { IfOk result (λ text. text.items ≡ unanswered_text settings.now (told ended.now)) }
{
    let message = unanswered_message(alloc, settings, ended)?;
    Object::of_text(alloc, "errorMessage", &message).end()
}

// The record of an event that has no answer, with an error in its place.
fn unanswered_record(
    alloc: Global,
    settings: &Settings,
    ended: &Ended<'_>,
) -> Result<Vec<u8>, AllocError>
    requires { ended.now.at ≤ greatest_moment }
    ensures { IfOk result (λ text. text.items ≡ record_text settings.now (with_error settings.now (told ended.now))) }
{
    let text = unanswered_text(alloc, settings, ended)?;
    let answer = Answer::Error(Bytes::from_vec(text)?);
    let answered = Ended {
        id: ended.id,
        payload: ended.payload,
        answer: &answer,
        outcome: ended.outcome,
        at: ended.at,
        starts: ended.starts,
    };
    record(alloc, &answered, settings)
}

/// The record of an event that has ended, in the words of a dialect.
pub(crate) fn record_told(
    alloc: Global,
    dialect: Dialect,
    settings: &Settings,
    ended: &Ended<'_>,
) -> Result<Vec<u8>, AllocError>
    requires { ended.now.at ≤ greatest_moment }
    ensures { IfOk result (λ text. text.items ≡ record_text settings.now (ending_told dialect settings.now (told ended.now))) }
{
    match (dialect, ended.answer) {
        (Dialect::Aws, Answer::None) => unanswered_record(alloc, settings, ended),
        _ => record(alloc, ended, settings),
    }
}
