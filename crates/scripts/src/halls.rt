// Steps of a hall: requests and ticks, commits, and the replies that are told.
use broker_core::{Broker, Issuer};
use case_runner::{StepReply, TextBuffer, Words, kind_word, number_of_id};
use hall_core::{Hall, HallError, Issued};
use invoke_records::GREATEST_MOMENT;
use request_steps::{read_call, tell_reply};
use retry_rules::Settings;
use sector_disk::Disk;
use std::alloc::Global;
use table_steps::table_step;

/// Why a hall refuses a call.
pub fn refusal(why: HallError) -> &'static str {
    match why {
        HallError::Broken => "broken",
        HallError::Stopping => "stopping",
        HallError::WornOut => "worn out",
        HallError::Backlog => "backlog",
        HallError::BadKind => "bad kind",
        HallError::NoHistory => "no history",
        HallError::OutOfMemory => "out of memory",
        HallError::Fault => "fault",
        HallError::Lent => "lent",
        HallError::OtherHalf => "other half",
        HallError::Mismatch { .. } => "mismatch",
        HallError::Unfit => "unfit",
    }
}

// `KIND ID at MOMENT by NUMBER`, or `no command`.
fn tell_issued(issued: Result<Option<Issued>, HallError>, answer: &mut TextBuffer) -> StepReply {
    match issued {
        Ok(Some(issued)) => {
            answer.add(kind_word(issued.kind));
            answer.add_with(" ", number_of_id(&issued.id));
            answer.add_with(" at ", issued.time);
            answer.add_with(" by ", issued.number);
            StepReply::Told
        }
        Ok(None) => StepReply::Word("no command"),
        Err(why) => StepReply::Refused(refusal(why)),
    }
}

// `SLOT at MOMENT [draw N] REQUEST`: what is issued. What is refused before it comes to the hall is told at once.
fn ask<I: Issuer>(
    alloc: Global,
    hall: &mut Hall<I>,
    settings: &Settings,
    words: &mut Words,
    answer: &mut TextBuffer,
) -> StepReply {
    let slot = words.number();
    words.expect("at");
    let now = words.number();
    let drawn = if words.takes("draw") {
        words.number()
    } else {
        0
    };
    let call = match read_call(alloc, settings, words) {
        Ok(call) => call,
        Err(reply) => return reply,
    };
    let random = [0, drawn];
    if !hall.fits(slot, &call, now, &random) {
        return StepReply::Unreadable;
    }
    tell_issued(hall.arrive(slot, call, now, random), answer)
}

// `at MOMENT`
fn tick<I: Issuer>(hall: &mut Hall<I>, words: &mut Words, answer: &mut TextBuffer) -> StepReply {
    words.expect("at");
    let now = words.number();
    if words.are_bad() || now > GREATEST_MOMENT {
        return StepReply::Unreadable;
    }
    tell_issued(hall.tick(now), answer)
}

// `SLOT`: the reply and the number of its receipt, or `none`.
fn take<I: Issuer>(hall: &mut Hall<I>, words: &mut Words, answer: &mut TextBuffer) -> StepReply {
    let slot = words.number();
    if words.are_bad() {
        return StepReply::Unreadable;
    }
    let Some(released) = hall.take(slot) else {
        return StepReply::NONE;
    };
    answer.add_with("by ", released.receipt.number());
    answer.add(" ");
    tell_reply(Ok(released.into_reply()), answer)
}

fn forget<I: Issuer>(hall: &mut Hall<I>, words: &mut Words) -> StepReply {
    let slot = words.number();
    if words.are_bad() {
        return StepReply::Unreadable;
    }
    hall.forget(slot);
    StepReply::Done
}

fn commit<D: Disk>(hall: &mut Hall<Broker<D>>) -> StepReply {
    match hall.commit() {
        Ok(durable) => StepReply::Number(durable.number()),
        Err(why) => StepReply::Refused(refusal(why)),
    }
}

/// What an open hall answers to a step.
pub fn hall_step<I: Issuer>(
    alloc: Global,
    hall: &mut Hall<I>,
    settings: &Settings,
    word: &str,
    words: &mut Words,
    answer: &mut TextBuffer,
) -> StepReply {
    match word {
        "ask" => ask(alloc, hall, settings, words, answer),
        "tick" => tick(hall, words, answer),
        "take" => take(hall, words, answer),
        "forget" => forget(hall, words),
        "issued" => StepReply::Number(hall.issued()),
        "durable" => StepReply::Number(hall.durable().number()),
        "is-open" => StepReply::yes_or_no(hall.is_open(words.number())),
        _ => table_step(alloc, hall.table(), word, words, answer),
    }
}

/// What a hall over a broker answers to a step.
pub fn whole_hall_step<D: Disk>(
    alloc: Global,
    hall: &mut Hall<Broker<D>>,
    settings: &Settings,
    word: &str,
    words: &mut Words,
    answer: &mut TextBuffer,
) -> StepReply {
    if word == "commit" {
        commit(hall)
    } else {
        hall_step(alloc, hall, settings, word, words, answer)
    }
}
