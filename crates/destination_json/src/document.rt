// The record of an event that has ended.
ghost use Rattle.std.specs.Prelude.{◌≡◌, ◌≤◌, ◌++◌, IfOk, OnOk};
ghost use Rattle.invoke_records.specs.Spelling.{greatest_moment};
ghost use Rattle.async_core.specs.Readers.{told};
ghost use Rattle.destination_json.specs.Steps.{after_commas};
ghost use Rattle.destination_json.specs.Stamp.{stamp_text};
ghost use Rattle.destination_json.specs.Record.{record_text, function_error, response_members, answer_members};

use crate::context::add_context;
use crate::moment::stamp;
use crate::texts::add_answer_json;
use async_core::Ended;
use invoke_records::{Answer, Outcome};
use retry_rules::Settings;
use std::alloc::{AllocError, Global};

// More than a record takes beside the ARN, the payload and an answer that is copied.
const FRAME: usize = 384;

// What a record says of a function error.
fn error_member(outcome: Outcome) -> &'static str
    ensures { result.now ≡ after_commas (function_error outcome) }
{
    match outcome {
        Outcome::Success => "",
        Outcome::RetriesExhausted | Outcome::EventAgeExceeded => ",\"functionError\":\"Unhandled\"",
    }
}

fn add_response(
    alloc: Global,
    out: &mut Vec<u8>,
    outcome: Outcome,
    answer: &[u8],
) -> Result<(), AllocError>
    ensures { OnOk result (out.new.items ≡ out.old.items ++ after_commas (response_members outcome answer.now)) }
{
    out.extend_from_slice(
        b",\"responseContext\":{\"statusCode\":200,\"executedVersion\":\"$LATEST\"",
    )?;
    out.extend_from_slice(error_member(outcome).as_bytes())?;
    out.extend_from_slice(b"},\"responsePayload\":")?;
    add_answer_json(alloc, out, answer)?;
    Ok(())
}

fn add_answer(
    alloc: Global,
    out: &mut Vec<u8>,
    outcome: Outcome,
    answer: &Answer,
) -> Result<(), AllocError>
    ensures { OnOk result (out.new.items ≡ out.old.items ++ after_commas (answer_members outcome answer.now)) }
{
    match answer {
        Answer::None => Ok(()),
        Answer::Response(bytes) => add_response(alloc, out, outcome, bytes.as_slice()),
        Answer::Error(bytes) => add_response(alloc, out, outcome, bytes.as_slice()),
    }
}

// How much memory to ask for at once, so that a record grows only where its answer is quoted.
fn room(ended: &Ended<'_>, settings: &Settings) -> usize {
    let answer = match ended.answer {
        Answer::None => 0,
        Answer::Response(bytes) | Answer::Error(bytes) => bytes.len(),
    };
    let copied = ended.payload.len().saturating_add(answer);
    let named = settings.arn.as_bytes().len().saturating_add(FRAME);
    copied.saturating_add(named)
}

fn add_stamp(alloc: Global, out: &mut Vec<u8>, at: u64) -> Result<(), AllocError>
    requires { at ≤ greatest_moment }
    ensures { OnOk result (out.new.items ≡ out.old.items ++ stamp_text at) }
{
    let text = stamp(alloc, at)?;
    out.extend_from_slice(text.as_bytes())
}

// Puts the record behind a text.
fn add_record(
    alloc: Global,
    out: &mut Vec<u8>,
    ended: &Ended<'_>,
    settings: &Settings,
) -> Result<(), AllocError>
    requires { ended.now.at ≤ greatest_moment }
    ensures { OnOk result (out.new.items ≡ out.old.items ++ record_text settings.now (told ended.now)) }
{
    out.extend_from_slice(b"{\"version\":\"1.0\",\"timestamp\":\"")?;
    add_stamp(alloc, out, ended.at)?;
    out.extend_from_slice(b"\",\"requestContext\":")?;
    add_context(alloc, out, ended, settings)?;
    out.extend_from_slice(b",\"requestPayload\":")?;
    out.extend_from_slice(ended.payload)?;
    add_answer(alloc, out, ended.outcome, ended.answer)?;
    out.extend_from_slice(b"}")?;
    Ok(())
}

/// The destination record of an event that has ended: one JSON object, without spaces outside copied bytes.
///
/// Its members are those of the AWS Lambda Developer Guide, "Capturing records of Lambda asynchronous invocations", in its
/// order. Only want of memory is refused. The moment, in milliseconds since 1970, is at most the end of the year 9999.
pub fn record(alloc: Global, ended: &Ended<'_>, settings: &Settings) -> Result<Vec<u8>, AllocError>
    requires { ended.now.at ≤ greatest_moment }
    // claim: An ended event's record is, byte for byte, that of the definitions: JSON is copied, any other answer quoted.
    ensures { IfOk result (λ bytes. bytes.items ≡ record_text settings.now (told ended.now)) }
{
    let mut out = Vec::with_capacity(alloc, room(ended, settings))?;
    add_record(alloc, &mut out, ended, settings)?;
    Ok(out)
}
