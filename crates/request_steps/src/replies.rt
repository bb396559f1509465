// Steps on replies alone: the status, the headers and the body that tell an answer.
use crate::requests::{dialect, type_of};
use api_core::{
    Answer, Audience, Description, Dialect, Refusal, ShutdownReason, Stream, reply_text,
};
use case_runner::{StepReply, TextBuffer, Words, body, id_of};
use retry_rules::Settings;
use std::alloc::{AllocError, Global};

/// The refusals, in the order of their statuses.
const REFUSALS: [Refusal; 19] = [
    Refusal::UnsupportedInvocationType,
    Refusal::InvalidRequestContent,
    Refusal::InvalidRequestId,
    Refusal::InvalidExtensionHeader,
    Refusal::BadSubscription,
    Refusal::UnknownExtension,
    Refusal::RegistrationClosed,
    Refusal::TooManyExtensions,
    Refusal::WrongPhase,
    Refusal::NotFound,
    Refusal::UnknownEvent,
    Refusal::MethodNotAllowed,
    Refusal::Replaced,
    Refusal::NotEnded,
    Refusal::TooLarge,
    Refusal::TooManyEvents,
    Refusal::EnvironmentReset,
    Refusal::IdInUse,
    Refusal::Unavailable,
];

/// `STATUS NAME: VALUE .. BODY`
pub fn tell_reply(
    replied: Result<api_core::Reply, AllocError>,
    answer: &mut TextBuffer,
) -> StepReply {
    let Ok(replied) = replied else {
        return StepReply::Refused("out of memory");
    };
    answer.add_number(replied.status as u64);
    for place in 0..replied.headers.len() {
        if let Some((name, value)) = replied.headers.get(place) {
            answer.add(" ");
            answer.add(name);
            answer.add(": ");
            answer.add_body(value);
        }
    }
    if !replied.body.as_slice().is_empty() {
        answer.add(" ");
        answer.add_body(replied.body.as_slice());
    }
    StepReply::Told
}

// The refusal of this type.
fn refusal(words: &mut Words) -> Refusal {
    let word = words.word();
    for why in REFUSALS {
        if type_of(why) == word {
            return why;
        }
    }
    words.refuse();
    Refusal::Unavailable
}

fn reason(words: &mut Words) -> ShutdownReason {
    match words.word() {
        "spindown" => return ShutdownReason::Spindown,
        "timeout" => return ShutdownReason::Timeout,
        "failure" => {}
        _ => words.refuse(),
    }
    ShutdownReason::Failure
}

// `until MOMENT`
fn deadline(words: &mut Words) -> u64 {
    words.expect("until");
    words.number()
}

// `ID until MOMENT BYTES`
fn tell_event(
    alloc: Global,
    dialect: Dialect,
    settings: &Settings,
    words: &mut Words,
    answer: &mut TextBuffer,
) -> StepReply {
    let id = id_of(words.number());
    let deadline = deadline(words);
    let payload = match body(alloc, words.rest()) {
        Ok(payload) => payload,
        Err(reply) => return reply,
    };
    if words.are_bad() {
        return StepReply::Unreadable;
    }
    let event = Answer::RuntimeEvent {
        id,
        deadline,
        payload: &payload,
    };
    tell_reply(reply_text(alloc, dialect, &event, settings), answer)
}

// `to an environment`, or to a caller.
fn audience(words: &mut Words) -> Audience {
    if words.takes("environment") {
        Audience::Environment
    } else {
        Audience::Caller
    }
}

// The answer that these words name, but for records and events.
fn plain_answer(words: &mut Words) -> Answer<'static> {
    match words.word() {
        "accepted" => Answer::Accepted(id_of(words.number())),
        "no-record" => Answer::NoRecord,
        "accepted-async" => Answer::AcceptedAsync(id_of(words.number())),
        "deleted" => Answer::Deleted(id_of(1)),
        "not-ended" => Answer::NotEnded(id_of(1)),
        "dry-run" => Answer::Described(Description::DryRun),
        "function" => Answer::Described(Description::Function),
        "configuration" => Answer::Described(Description::Configuration),
        "taken" => Answer::Taken,
        "registered" => Answer::Registered {
            identifier: id_of(words.number()),
            account: words.takes("account"),
        },
        "invoke" => Answer::Invoke {
            id: id_of(words.number()),
            deadline: deadline(words),
        },
        "shutdown" => Answer::Shutdown {
            reason: reason(words),
            deadline: deadline(words),
        },
        "refusal" => Answer::Refusal(audience(words), refusal(words)),
        "telemetry" => Answer::NotSupported(Stream::Telemetry),
        "logs" => Answer::NotSupported(Stream::Logs),
        _ => {
            words.refuse();
            Answer::NoRecord
        }
    }
}

// The reply of an answer that is no record.
fn tell_plain(
    alloc: Global,
    dialect: Dialect,
    settings: &Settings,
    plain: &Answer,
    answer: &mut TextBuffer,
) -> StepReply {
    match plain {
        Answer::Record(_) => StepReply::Unreadable,
        _ => tell_reply(reply_text(alloc, dialect, plain, settings), answer),
    }
}

/// `[aws]`, then, of event 1 where none is named, `accepted ID`, `accepted-async ID`, `no-record`, `deleted`, `not-ended`, `dry-run`, `function`, `configuration`, `taken`, `registered N [account]`, `event ID until MOMENT BYTES`, `invoke ID until MOMENT`,
/// `shutdown REASON until MOMENT`, `telemetry`, `logs` or `refusal [environment] TYPE`: the reply.
pub fn reply_step(
    alloc: Global,
    settings: &Settings,
    words: &mut Words,
    answer: &mut TextBuffer,
) -> StepReply {
    let dialect = dialect(words);
    if words.takes("event") {
        return tell_event(alloc, dialect, settings, words, answer);
    }
    let plain = plain_answer(words);
    if words.are_bad() {
        return StepReply::Unreadable;
    }
    tell_plain(alloc, dialect, settings, &plain, answer)
}
