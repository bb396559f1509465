// What the body of a request says.
ghost use Rattle.std.specs.Prelude.{◌≡◌, option_map, IfOk};
ghost use Rattle.std.specs.List.{list_any, list_all};
ghost use Rattle.serde_json.specs.View.{view, items_view};
ghost use Rattle.api_core.specs.Bodies.{or_empty_object, json_value, is_text, is_known, any_is, all_known};
ghost use Rattle.api_core.specs.Bodies.{when_known, events_of, subscription_of};

use serde_json::Value;
use std::alloc::{AllocError, Global};

/// A body, or an empty object where it is empty.
pub(crate) fn or_empty_object(body: &[u8]) -> &[u8]
    ensures { result.now ≡ or_empty_object body.now }
{
    match body {
        [] => b"{}",
        [_, ..] => body,
    }
}

fn is_text(text: &str, value: &Value) -> bool
    ensures { result ≡ is_text text.now (view value.now) }
{
    match value.as_str() {
        Some(own) => own == text,
        None => false,
    }
}

fn is_known(value: &Value) -> bool
    ensures { result ≡ is_known (view value.now) }
{
    is_text("INVOKE", value) || is_text("SHUTDOWN", value)
}

fn any_value(text: &str, list: &Vec<Value>) -> bool
    ensures { result ≡ list_any (λ value. is_text text.now (view value)) list.now.items }
{
    list.iter().any(|value| is_text(text, value))
}

fn all_values(list: &Vec<Value>) -> bool
    ensures { result ≡ list_all (λ value. is_known (view value)) list.now.items }
{
    list.iter().all(is_known)
}

fn any_is(text: &str, list: &Vec<Value>) -> bool
    ensures { result ≡ any_is text.now (items_view list.now.items) }
{
    let found = any_value(text, list);
    found
}

fn all_known(list: &Vec<Value>) -> bool
    ensures { result ≡ all_known (items_view list.now.items) }
{
    let all = all_values(list);
    all
}

fn when_known(list: &Vec<Value>) -> Option<(bool, bool)>
    ensures { result ≡ when_known (items_view list.now.items) }
{
    if all_known(list) {
        Some((any_is("INVOKE", list), any_is("SHUTDOWN", list)))
    } else {
        None
    }
}

fn events_of(value: &Value) -> Option<(bool, bool)>
    ensures { result ≡ events_of (view value.now) }
{
    match value.as_object() {
        None => None,
        Some(_) => match value.get("events") {
            None => Some((false, false)),
            Some(events) => match events.as_array() {
                Some(list) => when_known(list),
                None => None,
            },
        },
    }
}

// The value of a JSON text.
fn read_value(alloc: Global, bytes: &[u8]) -> Result<Option<Value>, AllocError>
    ensures { IfOk result (λ value. option_map view value ≡ json_value bytes.now) }
{
    match Value::from_slice(alloc, bytes) {
        Ok(value) => Ok(Some(value)),
        Err(error) => {
            if error.is_memory() {
                Err(AllocError)
            } else {
                Ok(None)
            }
        }
    }
}

/// Whether a body subscribes to INVOKE and to SHUTDOWN, or None where it does not say so as it should.
#[tactic(auto, unfolding(crate::specs::Bodies::subscription_of))]
pub(crate) fn subscription_of(
    alloc: Global,
    body: &[u8],
) -> Result<Option<(bool, bool)>, AllocError>
    ensures { IfOk result (λ events. events ≡ subscription_of body.now) }
{
    match read_value(alloc, or_empty_object(body))? {
        Some(value) => Ok(events_of(&value)),
        None => Ok(None),
    }
}
