// The settings of a case.
use crate::step_reply::StepReply;
use crate::words::{Words, number_of};
use retry_rules::{Settings, Text};
use std::alloc::Global;

fn text(alloc: Global, bytes: &[u8]) -> Option<Text> {
    match Vec::from_slice(alloc, bytes) {
        Ok(bytes) => Some(Text::from_vec(bytes)),
        Err(_) => None,
    }
}

/// The settings of a case that names no others: None where memory is refused.
pub fn usual_settings(alloc: Global) -> Option<Settings> {
    let name = text(alloc, b"my-function");
    let handler = text(alloc, b"app.main");
    let arn = text(
        alloc,
        b"arn:aws:lambda:us-east-2:123456789012:function:my-function",
    );
    let (Some(name), Some(handler), Some(arn)) = (name, handler, arn) else {
        return None;
    };
    Some(Settings {
        retries: 2,
        age: 21600,
        timeout: 3,
        concurrency: 10,
        environments: 1,
        events: 4,
        payload: 1024,
        response: 1024,
        name,
        handler,
        arn,
    })
}

// Puts the number that a word stands for into a field, if that is wide enough.
fn put_number<T: TryFrom<u64>>(field: &mut T, word: &str) -> StepReply
where
    T::Error: Drop,
    T: Drop,
{
    let Some(number) = number_of(word) else {
        return StepReply::Unreadable;
    };
    match T::try_from(number) {
        Ok(number) => {
            *field = number;
            StepReply::Done
        }
        Err(_) => StepReply::Unreadable,
    }
}

fn put_text(alloc: Global, field: &mut Text, word: &str) -> StepReply {
    match text(alloc, word.as_bytes()) {
        Some(text) => {
            *field = text;
            StepReply::Done
        }
        None => StepReply::NoMemory,
    }
}

fn set_field(alloc: Global, settings: &mut Settings, field: &str, value: &str) -> StepReply {
    match field {
        "retries" => put_number(&mut settings.retries, value),
        "age" => put_number(&mut settings.age, value),
        "timeout" => put_number(&mut settings.timeout, value),
        "concurrency" => put_number(&mut settings.concurrency, value),
        "environments" => put_number(&mut settings.environments, value),
        "events" => put_number(&mut settings.events, value),
        "payload" => put_number(&mut settings.payload, value),
        "response" => put_number(&mut settings.response, value),
        "name" => put_text(alloc, &mut settings.name, value),
        "handler" => put_text(alloc, &mut settings.handler, value),
        "arn" => put_text(alloc, &mut settings.arn, value),
        _ => StepReply::Unreadable,
    }
}

/// Sets the fields `FIELD=VALUE` of a line.
pub fn set(alloc: Global, settings: &mut Settings, words: &mut Words) -> StepReply {
    for word in words.rest().split_whitespace() {
        let Some((field, value)) = word.split_once('=') else {
            return StepReply::Unreadable;
        };
        let reply = set_field(alloc, settings, field, value);
        if !matches!(reply, StepReply::Done) {
            return reply;
        }
    }
    StepReply::Done
}
