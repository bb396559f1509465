// Steps that read the table of an open broker.
use crate::records::spelling;
use crate::refusals;
use async_core::{Ended, Side, Table};
use case_runner::{
    StepReply, TextBuffer, Words, id_of, kind_word, number_of_id, read_command, read_environment,
};
use invoke_records::{Answer, Outcome, Standing};
use std::alloc::{AllocError, Global};

fn outcome_word(outcome: Outcome) -> &'static str {
    match outcome {
        Outcome::Success => "Success",
        Outcome::RetriesExhausted => "RetriesExhausted",
        Outcome::EventAgeExceeded => "EventAgeExceeded",
    }
}

fn tell_standing(standing: Standing, answer: &mut TextBuffer) -> StepReply {
    match standing {
        Standing::Unknown => answer.add("unknown"),
        Standing::Waiting { due } => answer.add_with("waiting due ", due),
        Standing::DueAgain { due } => answer.add_with("due again ", due),
        Standing::Running {
            environment,
            deadline,
        } => {
            answer.add_with("running in ", environment as u64);
            answer.add_with(" until ", deadline);
        }
        Standing::Ended { outcome, at } => {
            answer.add("ended ");
            answer.add(outcome_word(outcome));
            answer.add_with(" ", at);
        }
    }
    StepReply::Told
}

fn tell_answer(told: &Answer, answer: &mut TextBuffer) {
    match told {
        Answer::None => answer.add(" no answer"),
        Answer::Response(bytes) => {
            answer.add(" response ");
            answer.add_body(bytes.as_slice());
        }
        Answer::Error(bytes) => {
            answer.add(" error ");
            answer.add_body(bytes.as_slice());
        }
    }
}

fn tell_ended(told: Option<Ended>, answer: &mut TextBuffer) -> StepReply {
    let Some(told) = told else {
        return StepReply::NONE;
    };
    answer.add(outcome_word(told.outcome));
    answer.add_with(" ", told.at);
    answer.add_with(" starts ", told.starts as u64);
    answer.add(" payload ");
    answer.add_body(told.payload);
    tell_answer(told.answer, answer);
    StepReply::Told
}

fn tell_counts(counts: Option<(u32, u32, u32)>, answer: &mut TextBuffer) -> StepReply {
    let Some((starts, failures, push_backs)) = counts else {
        return StepReply::NONE;
    };
    answer.add_with("starts ", starts as u64);
    answer.add_with(" failures ", failures as u64);
    answer.add_with(" pushbacks ", push_backs as u64);
    StepReply::Told
}

// Retries and an age.
fn tell_policy(policy: Option<(u8, u32)>, answer: &mut TextBuffer) -> StepReply {
    let Some((retries, age)) = policy else {
        return StepReply::NONE;
    };
    answer.add_with("retries ", retries as u64);
    answer.add_with(" age ", age as u64);
    StepReply::Told
}

fn tell_payload(bytes: Option<&[u8]>, answer: &mut TextBuffer) -> StepReply {
    let Some(bytes) = bytes else {
        return StepReply::NONE;
    };
    answer.add_body(bytes);
    StepReply::Told
}

fn tell_outcome(outcome: Option<Outcome>) -> StepReply {
    match outcome {
        Some(outcome) => StepReply::Word(outcome_word(outcome)),
        None => StepReply::NONE,
    }
}

// What is told of one event.
fn event_step(table: &Table, word: &str, id: &[u8; 16], answer: &mut TextBuffer) -> StepReply {
    match word {
        "standing" => tell_standing(table.standing(id), answer),
        "counts" => tell_counts(table.counts(id), answer),
        "judged-by" => tell_policy(table.judged_by(id), answer),
        "payload" => tell_payload(table.payload(id), answer),
        "ended" => tell_ended(table.ended(id), answer),
        "accepted" => StepReply::number_or_none(table.accepted(id)),
        "outcome" => tell_outcome(table.outcome(id)),
        _ => StepReply::NoStep,
    }
}

// `success` or `failure`.
fn read_side(words: &mut Words) -> Option<Side> {
    match words.word() {
        "success" => Some(Side::Success),
        "failure" => Some(Side::Failure),
        _ => None,
    }
}

// The event that ended first on a side.
fn oldest(table: &Table, words: &mut Words) -> StepReply {
    let Some(side) = read_side(words) else {
        return StepReply::Unreadable;
    };
    match table.oldest_ended(side) {
        Some(id) => StepReply::Number(number_of_id(&id)),
        None => StepReply::NONE,
    }
}

// The event that ended first on a side behind a command, and the command that ended it.
fn ended_next(table: &Table, words: &mut Words, answer: &mut TextBuffer) -> StepReply {
    let Some(side) = read_side(words) else {
        return StepReply::Unreadable;
    };
    words.expect("behind");
    let Some(row) = table.next_ended(side, words.number()) else {
        return StepReply::NONE;
    };
    answer.add_number(number_of_id(&row.id));
    answer.add_with(" by ", row.last_number);
    StepReply::Told
}

fn ended_count(table: &Table, words: &mut Words) -> StepReply {
    match read_side(words) {
        Some(side) => StepReply::Number(table.ended_count(side) as u64),
        None => StepReply::Unreadable,
    }
}

fn running(table: &Table, words: &mut Words, answer: &mut TextBuffer) -> StepReply {
    words.expect("after");
    let Some(first) = table.next_running(words.number()) else {
        return StepReply::NONE;
    };
    let id = first.1;
    answer.add_number(number_of_id(&id));
    answer.add_with(" by ", first.0);
    StepReply::Told
}

fn next_move(table: &Table, words: &mut Words, answer: &mut TextBuffer) -> StepReply {
    words.expect("at");
    let now = words.number();
    let Some(next) = table.next_move(now, read_environment(words, "ready")) else {
        return StepReply::NONE;
    };
    answer.add(kind_word(next.kind));
    answer.add_with(" ", number_of_id(&next.id));
    if next.environment != 0 {
        answer.add_with(" in ", next.environment as u64);
    }
    StepReply::Told
}

fn judge(alloc: Global, table: &Table, words: &mut Words) -> StepReply {
    let command = match read_command(alloc, words) {
        Ok(command) => command,
        Err(reply) => return reply,
    };
    match table.judge(&command) {
        Ok(()) => StepReply::Word("legal"),
        Err(why) => StepReply::Refused(refusals::illegal(why)),
    }
}

// The spelling of one event's row.
fn spell_row(alloc: Global, table: &Table, event: u64, answer: &mut TextBuffer) -> StepReply {
    match table.row(&id_of(event)) {
        Ok(Some(row)) => spelling(row.encode(alloc), answer),
        Ok(None) => StepReply::NONE,
        Err(_) => StepReply::NoMemory,
    }
}

// The spelling of the table's snapshot.
fn spell_all(alloc: Global, table: &Table, answer: &mut TextBuffer) -> StepReply {
    match table.snapshot() {
        Ok(snapshot) => spelling(snapshot.encode(alloc), answer),
        Err(_) => StepReply::NoMemory,
    }
}

/// What a table answers to a step that reads it.
pub fn table_step(
    alloc: Global,
    table: &Table,
    word: &str,
    words: &mut Words,
    answer: &mut TextBuffer,
) -> StepReply {
    match word {
        "oldest" => oldest(table, words),
        "ended-next" => ended_next(table, words, answer),
        "ended-count" => ended_count(table, words),
        "running" => running(table, words, answer),
        "next" => next_move(table, words, answer),
        "judge" => judge(alloc, table, words),
        "number" => StepReply::Number(table.number()),
        "moment" => StepReply::Number(table.last_moment()),
        "in-force" => tell_policy(Some(table.in_force()), answer),
        "snapshot" => spell_all(alloc, table, answer),
        "row" => spell_row(alloc, table, words.number(), answer),
        _ => {
            // The words are left to another step where it is none of an event's.
            let mut others = *words;
            let id = id_of(others.number());
            let reply = event_step(table, word, &id, answer);
            if !reply.is_no_step() {
                *words = others;
            }
            reply
        }
    }
}

// A table that is taken up from its snapshot.
fn retake(alloc: Global, table: &Table) -> Result<Table, AllocError> {
    Table::from_snapshot(alloc, table.snapshot()?, table.settings().copy()?)
}

/// `STEP`: what a table that is taken up from this one's snapshot answers to a step that reads it.
pub fn retaken_step(
    alloc: Global,
    table: &Table,
    words: &mut Words,
    answer: &mut TextBuffer,
) -> StepReply {
    let word = words.word();
    match retake(alloc, table) {
        Ok(table) => table_step(alloc, &table, word, words, answer),
        Err(_) => StepReply::NoMemory,
    }
}
