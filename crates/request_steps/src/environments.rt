// Steps on one environment alone: which calls it accepts, and which polls each of them answers.
use case_runner::{StepReply, TextBuffer, Words, id_of, number_of_id};
use env_phase::{Answered, Env, EnvError, MOST_EXTENSIONS, PollAnswer, Reason, Refusal};
use invoke_records::GREATEST_MOMENT;
use std::alloc::Global;

fn refusal(why: EnvError) -> &'static str {
    match why {
        EnvError::Refused(Refusal::UnknownExtension) => "unknown extension",
        EnvError::Refused(Refusal::RegistrationClosed) => "registration closed",
        EnvError::Refused(Refusal::TooManyExtensions) => "too many extensions",
        EnvError::Refused(Refusal::InUse) => "in use",
        EnvError::Refused(Refusal::WrongPhase) => "wrong phase",
        EnvError::OutOfMemory => "out of memory",
    }
}

fn reason_word(reason: Reason) -> &'static str {
    match reason {
        Reason::Spindown => "spindown",
        Reason::Timeout => "timeout",
        Reason::Failure => "failure",
    }
}

fn tell_event(word: &str, id: &[u8; 16], deadline: u64, answer: &mut TextBuffer) {
    answer.add_with(word, number_of_id(id));
    answer.add_with(" until ", deadline);
}

fn tell_poll(slot: u64, told: &PollAnswer, answer: &mut TextBuffer) {
    answer.add_with(" ", slot);
    match told {
        PollAnswer::RuntimeEvent { id, deadline } => tell_event(" event ", id, *deadline, answer),
        PollAnswer::Invoke { id, deadline } => tell_event(" invoke ", id, *deadline, answer),
        PollAnswer::Shutdown { reason, deadline } => {
            answer.add(" ");
            answer.add(reason_word(*reason));
            answer.add_with(" until ", *deadline);
        }
        PollAnswer::Replaced => answer.add(" replaced"),
        PollAnswer::Reset => answer.add(" reset"),
    }
}

// `answered SLOT WHAT SLOT WHAT ..`, or `answered none`.
fn tell_answered(answered: Result<Answered, EnvError>, answer: &mut TextBuffer) -> StepReply {
    let polls = match answered {
        Ok(polls) => polls,
        Err(why) => return StepReply::Refused(refusal(why)),
    };
    if polls.is_empty() {
        return StepReply::Word("answered none");
    }
    answer.add("answered");
    for (slot, told) in &polls {
        tell_poll(*slot, told, answer);
    }
    StepReply::Told
}

// `at MOMENT`
fn moment(words: &mut Words) -> u64 {
    words.expect("at");
    words.number()
}

// `on SLOT`
fn slot(words: &mut Words) -> u64 {
    words.expect("on");
    words.number()
}

// `N [invoke] [shutdown]`
fn register(env: &mut Env, words: &mut Words, answer: &mut TextBuffer) -> StepReply {
    let identifier = id_of(words.number());
    let invoke = words.takes("invoke");
    let shutdown = words.takes("shutdown");
    if words.are_bad() {
        return StepReply::Unreadable;
    }
    tell_answered(env.register(&identifier, b"name", invoke, shutdown), answer)
}

// `on SLOT`, or `N on SLOT` of an extension.
fn next(env: &mut Env, is_runtime: bool, words: &mut Words, answer: &mut TextBuffer) -> StepReply {
    let identifier = id_of(if is_runtime { 0 } else { words.number() });
    let slot = slot(words);
    if words.are_bad() {
        return StepReply::Unreadable;
    }
    let answered = if is_runtime {
        env.runtime_next(slot)
    } else {
        env.extension_next(&identifier, slot)
    };
    tell_answered(answered, answer)
}

// `ID until DEADLINE`
fn give(env: &mut Env, words: &mut Words, answer: &mut TextBuffer) -> StepReply {
    let id = id_of(words.number());
    words.expect("until");
    let deadline = words.number();
    if words.are_bad() || !env.ready() {
        return StepReply::Unreadable;
    }
    tell_answered(env.give(&id, deadline), answer)
}

// `ID`
fn answer_event(env: &mut Env, words: &mut Words, answer: &mut TextBuffer) -> StepReply {
    let id = id_of(words.number());
    if words.are_bad() {
        return StepReply::Unreadable;
    }
    tell_answered(env.answer(&id), answer)
}

// `N at MOMENT`
fn extension_error(
    env: &mut Env,
    in_init: bool,
    words: &mut Words,
    answer: &mut TextBuffer,
) -> StepReply {
    let identifier = id_of(words.number());
    let now = moment(words);
    if words.are_bad() || now > GREATEST_MOMENT {
        return StepReply::Unreadable;
    }
    tell_answered(env.extension_error(&identifier, in_init, now), answer)
}

// `at MOMENT`
fn end(env: &mut Env, word: &str, words: &mut Words, answer: &mut TextBuffer) -> StepReply {
    let now = moment(words);
    if words.are_bad() || now > GREATEST_MOMENT {
        return StepReply::Unreadable;
    }
    let answered = match word {
        "runtime-error" => env.init_error(now),
        "timeout" => env.timeout(now),
        _ => env.shutdown(now),
    };
    tell_answered(answered, answer)
}

fn tell_running(running: Option<[u8; 16]>) -> StepReply {
    StepReply::number_or_none(match running {
        Some(id) => Some(number_of_id(&id)),
        None => None,
    })
}

// What the environment answers to a call.
fn call(env: &mut Env, word: &str, words: &mut Words, answer: &mut TextBuffer) -> StepReply {
    match word {
        "runtime-next" => next(env, true, words, answer),
        "register" => register(env, words, answer),
        "next" => next(env, false, words, answer),
        "give" => give(env, words, answer),
        "answer" => answer_event(env, words, answer),
        "init-error" => extension_error(env, true, words, answer),
        "exit-error" => extension_error(env, false, words, answer),
        "runtime-error" | "timeout" | "shutdown" => end(env, word, words, answer),
        "ready" => StepReply::yes_or_no(env.ready()),
        "runs" => tell_running(env.running()),
        _ => StepReply::Unreadable,
    }
}

/// `[waiting N]`: for how many extensions an environment waits.
pub fn extensions_wanted(words: &mut Words) -> u8 {
    if !words.takes("waiting") {
        return 0;
    }
    u8::try_from(words.number_to(MOST_EXTENSIONS as u64)).unwrap_or(0)
}

// `NUMBER [waiting N]`: an environment in which nobody has asked for anything.
fn begin(alloc: Global, env: &mut Option<Env>, words: &mut Words) -> StepReply {
    let number = words.number_to(65535);
    let wanted = extensions_wanted(words);
    match u16::try_from(number) {
        Ok(number) if !words.are_bad() => {
            *env = Some(Env::waiting_for(alloc, number, wanted));
            StepReply::Done
        }
        _ => StepReply::Unreadable,
    }
}

/// `new NUMBER [waiting N]`, `copy` (a copy takes its place), or a call and what is said to it.
pub fn environment_step(
    alloc: Global,
    env: &mut Option<Env>,
    words: &mut Words,
    answer: &mut TextBuffer,
) -> StepReply {
    let word = words.word();
    if word == "new" {
        return begin(alloc, env, words);
    }
    let Some(env) = env else {
        return StepReply::Unreadable;
    };
    if word != "copy" {
        return call(env, word, words, answer);
    }
    match env.copy() {
        Ok(copy) => {
            *env = copy;
            StepReply::Done
        }
        Err(_) => StepReply::Refused("out of memory"),
    }
}
