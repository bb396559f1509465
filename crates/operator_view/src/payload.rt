// The beginning of a payload as a JSON string.
ghost use Rattle.std.specs.Prelude.{◌≡◌, ◌++◌, OnOk, take, string_bytes, IfOk};
ghost use Rattle.json.specs.Print.{quoted};
ghost use Rattle.operator_view.specs.EventText.{beginning};

use serde_json::Value;
use std::alloc::{AllocError, Global};
use std::str;

// How many bytes of a payload are shown.
const SHOWN: usize = 1024;

// Its first bytes, at most so many.
fn front(payload: &[u8], most: usize) -> &[u8]
    ensures { result.now ≡ take most payload.now }
{
    if payload.len() <= most {
        return payload;
    }
    &payload[..most]
}

// As much of it as is whole characters.
fn beginning(payload: &[u8]) -> &str
    ensures { result.now ≡ beginning payload.now }
{
    let front = front(payload, SHOWN);
    match str::from_utf8(front) {
        Ok(text) => text,
        Err(why) => match str::from_utf8(&front[..why.valid_up_to()]) {
            Ok(text) => text,
            Err(_) => "",
        },
    }
}

// A text as a JSON string.
fn quote(alloc: Global, text: &str) -> Result<Vec<u8>, AllocError>
    ensures { IfOk result (λ json. json.items ≡ quoted text.now) }
{
    Value::String(String::from_str(alloc, text)?).to_vec(alloc)
}

/// Puts the beginning of a payload behind a text.
pub(crate) fn add_beginning(
    alloc: Global,
    out: &mut Vec<u8>,
    payload: &[u8],
) -> Result<(), AllocError>
    ensures { OnOk result (out.new.items ≡ out.old.items ++ quoted (beginning payload.now)) }
{
    let json = quote(alloc, beginning(payload))?;
    out.extend_from_slice(json.as_slice())
}
