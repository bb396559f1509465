// Which bytes are JSON, and how an answer stands in a record.
ghost use Rattle.std.specs.Prelude.{◌≡◌, ◌++◌, IfOk, OnOk, string_bytes};
ghost use Rattle.json.specs.Print.{quoted};
ghost use Rattle.destination_json.specs.Json.{is_json};
ghost use Rattle.destination_json.specs.Record.{answer_json};

use serde_json::Value;
use std::alloc::{AllocError, Global};

/// Whether the bytes are a JSON text: UTF-8 that `serde_json` reads. It takes numbers that a 64-bit float holds, no
/// lone surrogates, and nests at most 127 deep. Only want of memory is refused.
pub fn is_json(alloc: Global, bytes: &[u8]) -> Result<bool, AllocError>
    ensures { IfOk result (λ answer. answer ≡ is_json bytes.now) }
{
    match Value::from_slice(alloc, bytes) {
        Ok(_) => Ok(true),
        Err(why) => {
            if why.is_memory() {
                return Err(AllocError);
            }
            Ok(false)
        }
    }
}

// A text as a JSON string.
fn quote(alloc: Global, text: String) -> Result<Vec<u8>, AllocError>
    ensures { IfOk result (λ json. json.items ≡ quoted (string_bytes text)) }
{
    Value::String(text).to_vec(alloc)
}

/// Puts an answer behind a text as it stands in a record: copied where it is JSON, else its text in quotes.
#[tactic(auto, unfolding(crate::specs::Record::answer_json))]
pub(crate) fn add_answer_json(
    alloc: Global,
    out: &mut Vec<u8>,
    bytes: &[u8],
) -> Result<(), AllocError>
    ensures { OnOk result (out.new.items ≡ out.old.items ++ answer_json bytes.now) }
{
    if is_json(alloc, bytes)? {
        return out.extend_from_slice(bytes);
    }
    let text = String::from_utf8_lossy(alloc, bytes)?;
    let json = quote(alloc, text)?;
    out.extend_from_slice(json.as_slice())
}
