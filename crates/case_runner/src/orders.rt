// Commands as a script writes them: `KIND ID [in ENVIRONMENT] at MOMENT [BYTES]`, after `fail` with its cause, and
// `configure RETRIES AGE at MOMENT`.
use crate::bytes::body;
use crate::step_reply::StepReply;
use crate::words::{Words, id_of};
use invoke_records::{Bytes, Cause, Command, Kind};
use retry_rules::RetryPolicy;
use std::alloc::Global;

/// A command for each of the events of a range; a Configure, which is of no event, for the range of 0 alone.
#[derive(Clone, Copy)]
pub struct CommandRange<'a> {
    kind: Kind,
    pub first: u64,
    pub last: u64,
    environment: u16,
    time: u64,
    body: &'a str,
}

impl CommandRange<'_> {
    /// The command of one of the events.
    pub fn command(self, alloc: Global, number: u64) -> Result<Command, StepReply> {
        let bytes = if self.body.is_empty() {
            Bytes::empty()
        } else {
            let Ok(bytes) = Bytes::from_vec(body(alloc, self.body)?) else {
                return Err(StepReply::NoMemory);
            };
            bytes
        };
        let id = match self.kind {
            Kind::Configure(_) => [0; 16],
            _ => id_of(number),
        };
        Ok(Command {
            kind: self.kind,
            id,
            environment: self.environment,
            time: self.time,
            bytes,
        })
    }
}

fn read_cause(words: &mut Words) -> Cause {
    match words.word() {
        "reported" => return Cause::Reported,
        "timeout" => return Cause::Timeout,
        "exited" => {}
        _ => words.refuse(),
    }
    Cause::Exited
}

fn read_policy(words: &mut Words) -> RetryPolicy {
    let retries = words.number_to(u8::MAX as u64);
    let age = words.number_to(u32::MAX as u64);
    RetryPolicy {
        retries: u8::try_from(retries).unwrap_or(0),
        age: u32::try_from(age).unwrap_or(0),
    }
}

fn read_kind(word: &str, words: &mut Words) -> Kind {
    match word {
        "accept" => return Kind::Accept,
        "start" => return Kind::Start,
        "succeed" => return Kind::Succeed,
        "fail" => return Kind::Fail(read_cause(words)),
        "throttle" => return Kind::Throttle,
        "interrupt" => return Kind::Interrupt,
        "expire" => return Kind::Expire,
        "configure" => return Kind::Configure(read_policy(words)),
        "collect" => {}
        _ => words.refuse(),
    }
    Kind::Collect
}

/// The word `word` and an environment, where it is the next one.
pub fn read_environment(words: &mut Words, word: &str) -> Option<u16> {
    if !words.takes(word) {
        return None;
    }
    u16::try_from(words.number_to(65535)).ok()
}

/// Reads a command behind this word of its kind.
pub fn read_order<'a>(word: &str, words: &mut Words<'a>) -> CommandRange<'a> {
    let kind = read_kind(word, words);
    let (first, last) = match kind {
        Kind::Configure(_) => (0, 0),
        _ => words.range(),
    };
    let environment = read_environment(words, "in").unwrap_or(0);
    words.expect("at");
    let time = words.number();
    CommandRange {
        kind,
        first,
        last,
        environment,
        time,
        body: words.rest(),
    }
}

/// Reads the command of one event.
pub fn read_command(alloc: Global, words: &mut Words) -> Result<Command, StepReply> {
    let order = read_order(words.word(), words);
    if words.are_bad() {
        return Err(StepReply::Unreadable);
    }
    order.command(alloc, order.first)
}

/// Whether a step of this first word is a command.
pub fn is_kind(word: &str) -> bool {
    [
        "accept",
        "start",
        "succeed",
        "fail",
        "throttle",
        "interrupt",
        "expire",
        "collect",
        "configure",
    ]
    .contains(&word)
}

/// A kind's word, as `next` answers it.
pub fn kind_word(kind: Kind) -> &'static str {
    match kind {
        Kind::Accept => "accept",
        Kind::Start => "start",
        Kind::Succeed => "succeed",
        Kind::Fail(Cause::Reported) => "fail reported",
        Kind::Fail(Cause::Timeout) => "fail timeout",
        Kind::Fail(Cause::Exited) => "fail exited",
        Kind::Throttle => "throttle",
        Kind::Interrupt => "interrupt",
        Kind::Expire => "expire",
        Kind::Collect => "collect",
        Kind::Configure(_) => "configure",
    }
}
