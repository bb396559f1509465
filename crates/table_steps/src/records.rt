// Steps on records and rules alone: how a record is spelled, and what is read from bytes. They need no disk.
use crate::destinations::tell_stamp;
use crate::refusals;
use case_runner::{StepReply, TextBuffer, Words, hex_bytes, kind_word, number_of_id, read_command};
use invoke_records::{Command, EventRow, Kind, RecordError, Rows, SettingsRecord, Snapshot};
use retry_rules::{
    RetryPolicy, Settings, after_failure, after_pushback, has_name_bytes, has_plain_bytes, too_old,
};
use std::alloc::Global;

/// A record's spelling in hexadecimal digits, or why it has none.
pub fn spelling(spelled: Result<Vec<u8>, RecordError>, answer: &mut TextBuffer) -> StepReply {
    match spelled {
        Ok(bytes) => {
            answer.add_hex(&bytes);
            StepReply::Told
        }
        Err(why) => refusals::record(why),
    }
}

fn tell_size(size: usize, answer: &mut TextBuffer) -> StepReply {
    answer.add_with(" of ", size as u64);
    answer.add(" bytes");
    StepReply::Told
}

fn tell_policy(policy: RetryPolicy, answer: &mut TextBuffer) {
    answer.add_with(" retries ", policy.retries as u64);
    answer.add_with(" age ", policy.age as u64);
}

fn tell_command(command: &Command, answer: &mut TextBuffer) {
    answer.add(kind_word(command.kind));
    if let Kind::Configure(policy) = command.kind {
        tell_policy(policy, answer);
        answer.add_with(" at ", command.time);
        return;
    }
    answer.add_with(" ", number_of_id(&command.id));
    answer.add_with(" in ", command.environment as u64);
    answer.add_with(" at ", command.time);
    answer.add(" ");
    answer.add_body(command.bytes.as_slice());
}

fn tell_row(row: &EventRow, answer: &mut TextBuffer) {
    answer.add_number(number_of_id(&row.id));
    answer.add_with(" by ", row.last_number);
    tell_policy(row.policy, answer);
    answer.add(" ");
    answer.add_body(row.payload.as_slice());
}

fn tell_snapshot(snapshot: &Snapshot, answer: &mut TextBuffer) {
    answer.add_with("number ", snapshot.number);
    answer.add_with(" moment ", snapshot.last_moment);
    tell_policy(snapshot.policy, answer);
    answer.add_with(" rows ", snapshot.rows.as_slice().len() as u64);
}

fn tell_settings(settings: &Settings, answer: &mut TextBuffer) {
    answer.add_with("age ", settings.age as u64);
    answer.add_with(" events ", settings.events as u64);
    answer.add(" handler ");
    answer.add_body(settings.handler.as_bytes());
}

fn decode_command(alloc: Global, bytes: &[u8], answer: &mut TextBuffer) -> StepReply {
    match Command::decode(alloc, bytes) {
        Ok((command, size)) => {
            tell_command(&command, answer);
            tell_size(size, answer)
        }
        Err(why) => refusals::record(why),
    }
}

fn decode_row(alloc: Global, bytes: &[u8], answer: &mut TextBuffer) -> StepReply {
    match EventRow::decode(alloc, bytes) {
        Ok((row, size)) => {
            tell_row(&row, answer);
            tell_size(size, answer)
        }
        Err(why) => refusals::record(why),
    }
}

fn decode_snapshot(alloc: Global, bytes: &[u8], answer: &mut TextBuffer) -> StepReply {
    match Snapshot::decode(alloc, bytes) {
        Ok((snapshot, size)) => {
            tell_snapshot(&snapshot, answer);
            tell_size(size, answer)
        }
        Err(why) => refusals::record(why),
    }
}

fn decode_settings(alloc: Global, bytes: &[u8], answer: &mut TextBuffer) -> StepReply {
    match Settings::decode(alloc, bytes) {
        Ok((settings, size)) => {
            tell_settings(&settings, answer);
            tell_size(size, answer)
        }
        Err(why) => refusals::record(why),
    }
}

// `RECORD HEX`: what is read from the front of these bytes, and of how many.
fn read(alloc: Global, words: &mut Words, answer: &mut TextBuffer) -> StepReply {
    let record = words.word();
    let bytes = match hex_bytes(alloc, words.rest()) {
        Ok(bytes) => bytes,
        Err(reply) => return reply,
    };
    match record {
        "command" => decode_command(alloc, &bytes, answer),
        "row" => decode_row(alloc, &bytes, answer),
        "snapshot" => decode_snapshot(alloc, &bytes, answer),
        "settings" => decode_settings(alloc, &bytes, answer),
        _ => StepReply::Unreadable,
    }
}

fn spell_empty(alloc: Global, settings: &Settings, answer: &mut TextBuffer) -> StepReply {
    let empty = Snapshot {
        number: 0,
        last_moment: 0,
        policy: settings.policy(),
        rows: Rows::empty(alloc),
    };
    spelling(empty.encode(alloc), answer)
}

fn spell_command(alloc: Global, words: &mut Words, answer: &mut TextBuffer) -> StepReply {
    match read_command(alloc, words) {
        Ok(command) => spelling(command.encode(alloc), answer),
        Err(reply) => reply,
    }
}

// `COMMAND`, `settings` (those of the case) or `empty` (the snapshot of no commands under them).
fn spell(
    alloc: Global,
    settings: &Settings,
    words: &mut Words,
    answer: &mut TextBuffer,
) -> StepReply {
    if words.takes("settings") {
        spelling(settings.encode(alloc), answer)
    } else if words.takes("empty") {
        spell_empty(alloc, settings, answer)
    } else {
        spell_command(alloc, words, answer)
    }
}

// A number of 32 bits.
fn small(words: &mut Words) -> u32 {
    u32::try_from(words.number_to(u32::MAX as u64)).unwrap_or(0)
}

// `failure N` or `pushback N`: how long an event waits after it, in milliseconds.
fn wait(words: &mut Words) -> StepReply {
    let after = words.word();
    let count = small(words);
    match after {
        "failure" => StepReply::Number(after_failure(count)),
        "pushback" if count > 0 => StepReply::Number(after_pushback(count)),
        _ => StepReply::Unreadable,
    }
}

// `ACCEPTED AGE at NOW`: whether an event that was accepted then is older than so many seconds.
fn is_too_old(words: &mut Words) -> StepReply {
    let accepted = words.number();
    let age = small(words);
    words.expect("at");
    StepReply::yes_or_no(too_old(accepted, age, words.number()))
}

/// Whether settings are good.
pub fn check(settings: &Settings, answer: &mut TextBuffer) -> StepReply {
    match settings.check() {
        Ok(()) => StepReply::Done,
        Err(why) => {
            answer.add_reason(&why);
            StepReply::RefusalTold
        }
    }
}

/// What a step that needs no disk answers.
pub fn record_step(
    alloc: Global,
    settings: &Settings,
    word: &str,
    words: &mut Words,
    answer: &mut TextBuffer,
) -> StepReply {
    match word {
        "spell" => spell(alloc, settings, words, answer),
        "read" => read(alloc, words, answer),
        "wait" => wait(words),
        "too-old" => is_too_old(words),
        "check" => check(settings, answer),
        "stamp" => tell_stamp(alloc, words, answer),
        "is-name" => StepReply::yes_or_no(has_name_bytes(words.rest().as_bytes())),
        "is-plain" => StepReply::yes_or_no(has_plain_bytes(words.rest().as_bytes())),
        _ => StepReply::NoStep,
    }
}
