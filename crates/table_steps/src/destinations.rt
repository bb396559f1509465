// Steps on the records of events that have ended, and on their members.
use async_core::Table;
use case_runner::{StepReply, TextBuffer, Words, id_of};
use destination_json::{record, stamp};
use invoke_records::GREATEST_MOMENT;
use serde_json::Value;
use std::alloc::Global;

const NO_MEMORY: StepReply = StepReply::Refused("out of memory");

/// `MOMENT`: its text.
pub fn tell_stamp(alloc: Global, words: &mut Words, answer: &mut TextBuffer) -> StepReply {
    let moment = words.number();
    if moment > GREATEST_MOMENT {
        return StepReply::Unreadable;
    }
    match stamp(alloc, moment) {
        Ok(text) => {
            answer.add(text.as_str());
            StepReply::Told
        }
        Err(_) => NO_MEMORY,
    }
}

/// `ID`: the record of an event that has ended. It is kept for `member`.
pub fn tell_record(
    alloc: Global,
    table: &Table,
    kept: &mut Vec<u8>,
    words: &mut Words,
    answer: &mut TextBuffer,
) -> StepReply {
    let id = id_of(words.number());
    if words.are_bad() {
        return StepReply::Unreadable;
    }
    kept.clear();
    let Some(ended) = table.ended(&id) else {
        return StepReply::NONE;
    };
    if ended.at > GREATEST_MOMENT {
        return StepReply::Unreadable;
    }
    match record(alloc, &ended, table.settings()) {
        Ok(bytes) => {
            answer.add_body(&bytes);
            *kept = bytes;
            StepReply::Told
        }
        Err(_) => NO_MEMORY,
    }
}

// The member of a value at the names between the dots of a path.
fn member_at<'a>(value: &'a Value, path: &str) -> Option<&'a Value> {
    let mut member = Some(value);
    for name in path.split('.') {
        member = match member {
            Some(value) => value.get(name),
            None => None,
        };
    }
    member
}

// A string as it is, and any other value as JSON.
fn tell_value(alloc: Global, value: &Value, answer: &mut TextBuffer) -> StepReply {
    if let Some(text) = value.as_str() {
        answer.add(text);
        return StepReply::Told;
    }
    match value.to_string(alloc) {
        Ok(text) => {
            answer.add(text.as_str());
            StepReply::Told
        }
        Err(_) => NO_MEMORY,
    }
}

/// `PATH`: a member of the record that was told last, as `serde_json` reads it.
pub fn tell_member(
    alloc: Global,
    record: &[u8],
    words: &mut Words,
    answer: &mut TextBuffer,
) -> StepReply {
    let value = match Value::from_slice(alloc, record) {
        Ok(value) => value,
        Err(why) if why.is_memory() => return NO_MEMORY,
        Err(_) => return StepReply::Unreadable,
    };
    match member_at(&value, words.word()) {
        Some(member) => tell_value(alloc, member, answer),
        None => StepReply::NONE,
    }
}
