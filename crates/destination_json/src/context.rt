// What a record tells of the request: its id, the function, why the event ended, and after how many attempts.
ghost use Rattle.std.specs.Prelude.{◌≡◌, ◌++◌, IfOk, OnOk, string_bytes, decimal};
ghost use Rattle.async_core.specs.Readers.{told};
ghost use Rattle.destination_json.specs.Record.{condition_text, id_text, request_context};

use async_core::Ended;
use invoke_records::Outcome;
use retry_rules::Settings;
use std::alloc::{AllocError, Global};
use uuid::Uuid;

fn condition(outcome: Outcome) -> &'static str
    ensures { result.now ≡ condition_text outcome }
{
    match outcome {
        Outcome::Success => "Success",
        Outcome::RetriesExhausted => "RetriesExhausted",
        Outcome::EventAgeExceeded => "EventAgeExceeded",
    }
}

/// The text of an id: with its hyphens, in lower case, as headers and records have it.
#[tactic(auto, unfolding(crate::specs::Record::id_text))]
pub fn id_text(alloc: Global, id: &[u8; 16]) -> Result<String, AllocError>
    ensures { IfOk result (λ text. string_bytes text ≡ id_text id.now) }
{
    let mut buffer = Uuid::encode_buffer();
    let id = Uuid::from_bytes(*id);
    String::from_str(alloc, id.hyphenated().encode_lower(&mut buffer))
}

fn add_id(alloc: Global, out: &mut Vec<u8>, id: &[u8; 16]) -> Result<(), AllocError>
    ensures { OnOk result (out.new.items ≡ out.old.items ++ id_text id.now) }
{
    let text = id_text(alloc, id)?;
    out.extend_from_slice(text.as_bytes())
}

fn add_count(alloc: Global, out: &mut Vec<u8>, starts: u32) -> Result<(), AllocError>
    ensures { OnOk result (out.new.items ≡ out.old.items ++ decimal starts) }
{
    let text = format!(in alloc; "{starts}")?;
    out.extend_from_slice(text.as_bytes())
}

/// Puts the context behind a text.
pub(crate) fn add_context(
    alloc: Global,
    out: &mut Vec<u8>,
    ended: &Ended<'_>,
    settings: &Settings,
) -> Result<(), AllocError>
    ensures { OnOk result (out.new.items ≡ out.old.items ++ request_context settings.now (told ended.now)) }
{
    out.extend_from_slice(b"{\"requestId\":\"")?;
    add_id(alloc, out, ended.id)?;
    out.extend_from_slice(b"\",\"functionArn\":\"")?;
    out.extend_from_slice(settings.arn.as_bytes())?;
    out.extend_from_slice(b":$LATEST\",\"condition\":\"")?;
    out.extend_from_slice(condition(ended.outcome).as_bytes())?;
    out.extend_from_slice(b"\",\"approximateInvokeCount\":")?;
    add_count(alloc, out, ended.starts)?;
    out.extend_from_slice(b"}")?;
    Ok(())
}
