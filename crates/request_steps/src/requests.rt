// Steps on requests alone: which call one is, or which check refuses it.
use api_core::{Body, Call, Description, Dialect, Refusal, RequestError, Stream, read_request};
use async_core::Side;
use case_runner::{StepReply, TextBuffer, Words, body, number_of_id};
use http::Method;
use http::header::{HeaderMap, HeaderName, HeaderNameError, HeaderValue, HeaderValueError};
use invoke_records::Bytes;
use retry_rules::Settings;
use std::alloc::Global;

/// A refusal's type, as its reply tells it.
pub fn type_of(why: Refusal) -> &'static str {
    match why {
        Refusal::UnsupportedInvocationType => "UnsupportedInvocationType",
        Refusal::InvalidRequestContent => "InvalidRequestContent",
        Refusal::InvalidRequestId => "InvalidRequestID",
        Refusal::InvalidExtensionHeader => "InvalidExtensionHeader",
        Refusal::BadSubscription => "BadSubscription",
        Refusal::UnknownExtension => "UnknownExtension",
        Refusal::RegistrationClosed => "RegistrationClosed",
        Refusal::TooManyExtensions => "TooManyExtensions",
        Refusal::WrongPhase => "WrongPhase",
        Refusal::NotFound => "NotFound",
        Refusal::UnknownEvent => "UnknownEvent",
        Refusal::MethodNotAllowed => "MethodNotAllowed",
        Refusal::Replaced => "Replaced",
        Refusal::NotEnded => "NotEnded",
        Refusal::TooLarge => "TooLarge",
        Refusal::TooManyEvents => "TooManyEvents",
        Refusal::EnvironmentReset => "EnvironmentReset",
        Refusal::IdInUse => "IdInUse",
        Refusal::Unavailable => "Unavailable",
    }
}

// ` ID`, or ` none` where it is no id.
fn tell_id(id: Option<[u8; 16]>, answer: &mut TextBuffer) {
    match id {
        Some(id) => answer.add_with(" ", number_of_id(&id)),
        None => answer.add(" none"),
    }
}

// ` ENVIRONMENT ID BODY`
fn tell_attempt(
    word: &str,
    environment: u16,
    id: Option<[u8; 16]>,
    body: &[u8],
    answer: &mut TextBuffer,
) {
    answer.add_with(word, environment as u64);
    tell_id(id, answer);
    answer.add(" ");
    answer.add_body(body);
}

// ` ENVIRONMENT IDENTIFIER`
fn tell_extension(word: &str, environment: u16, identifier: &[u8; 16], answer: &mut TextBuffer) {
    answer.add_with(word, environment as u64);
    answer.add_with(" ", number_of_id(identifier));
}

fn tell_registration(
    environment: u16,
    name: &[u8],
    invoke: bool,
    shutdown: bool,
    account: bool,
    answer: &mut TextBuffer,
) {
    answer.add_with("register ", environment as u64);
    answer.add(" ");
    answer.add_body(name);
    answer.add(if invoke { " invoke" } else { "" });
    answer.add(if shutdown { " shutdown" } else { "" });
    answer.add(if account { " account" } else { "" });
}

// A call of a runtime or of an extension.
fn tell_environment_call(call: &Call, answer: &mut TextBuffer) {
    match call {
        Call::RuntimeNext { environment } => answer.add_with("runtime next ", *environment as u64),
        Call::Response {
            environment,
            id,
            body,
        } => tell_attempt("response ", *environment, *id, body.as_slice(), answer),
        Call::RuntimeError {
            environment,
            id,
            body,
        } => tell_attempt("error ", *environment, *id, body.as_slice(), answer),
        Call::RuntimeInitError { environment } => {
            answer.add_with("runtime init error ", *environment as u64)
        }
        Call::Register {
            environment,
            name,
            invoke,
            shutdown,
            account,
        } => tell_registration(
            *environment,
            name.as_slice(),
            *invoke,
            *shutdown,
            *account,
            answer,
        ),
        Call::ExtensionNext {
            environment,
            identifier,
        } => tell_extension("next ", *environment, identifier, answer),
        Call::ExtensionInitError {
            environment,
            identifier,
        } => tell_extension("init error ", *environment, identifier, answer),
        Call::ExtensionExitError {
            environment,
            identifier,
        } => tell_extension("exit error ", *environment, identifier, answer),
        Call::Subscribe {
            environment,
            stream,
        } => {
            answer.add(match stream {
                Stream::Telemetry => "telemetry ",
                Stream::Logs => "logs ",
            });
            answer.add_number(*environment as u64);
        }
        _ => {}
    }
}

// A payload of more than 64 bytes is told by its length.
fn tell_payload(word: &str, payload: &[u8], answer: &mut TextBuffer) {
    if payload.len() > 64 {
        answer.add_with(word, payload.len() as u64);
        answer.add(" bytes");
    } else {
        answer.add(word);
        answer.add_body(payload);
    }
}

fn tell_call(call: &Call, answer: &mut TextBuffer) -> StepReply {
    match call {
        Call::Invoke { payload } => tell_payload("invoke ", payload.as_slice(), answer),
        Call::InvokeAsync { payload } => tell_payload("invoke async ", payload.as_slice(), answer),
        Call::Describe(Description::DryRun) => answer.add("dry run"),
        Call::Describe(Description::Function) => answer.add("function"),
        Call::Describe(Description::Configuration) => answer.add("configuration"),
        Call::Oldest(Side::Success) => answer.add("oldest success"),
        Call::Oldest(Side::Failure) => answer.add("oldest failure"),
        Call::Delete(id) => {
            answer.add("delete");
            tell_id(*id, answer);
        }
        Call::StopBroker => answer.add("stop"),
        _ => tell_environment_call(call, answer),
    }
    StepReply::Told
}

// Adds the header `NAME=VALUE`, in which `~` stands for a space.
fn add_header(alloc: Global, headers: &mut HeaderMap, pair: &str) -> StepReply {
    let (name, value) = pair.split_once('=').unwrap_or((pair, ""));
    let Ok(value) = value.replace(alloc, "~", " ") else {
        return StepReply::NoMemory;
    };
    let name = match HeaderName::from_bytes(alloc, name.as_bytes()) {
        Ok(name) => name,
        Err(HeaderNameError::Invalid) => return StepReply::Unreadable,
        Err(HeaderNameError::OutOfMemory) => return StepReply::NoMemory,
    };
    let value = match HeaderValue::from_bytes(alloc, value.as_bytes()) {
        Ok(value) => value,
        Err(HeaderValueError::Invalid) => return StepReply::Unreadable,
        Err(HeaderValueError::OutOfMemory) => return StepReply::NoMemory,
    };
    match headers.append(name, value) {
        Ok(_) => StepReply::Done,
        Err(_) => StepReply::NoMemory,
    }
}

/// `aws` before other words: in which words a request is read and an answer told.
pub fn dialect(words: &mut Words) -> Dialect {
    if words.takes("aws") {
        Dialect::Aws
    } else {
        Dialect::Profile
    }
}

// `too-large`, or the bytes of a body.
fn body_of(alloc: Global, text: &str) -> Result<Body, StepReply> {
    if text == "too-large" {
        return Ok(Body::TooLarge);
    }
    match Bytes::from_vec(body(alloc, text)?) {
        Ok(bytes) => Ok(Body::Whole(bytes)),
        Err(_) => Err(StepReply::NoMemory),
    }
}

/// The call of the request `[aws] PORT METHOD TARGET [NAME=VALUE ..] [body BYTES]`, or what is answered at once.
pub fn read_call(alloc: Global, settings: &Settings, words: &mut Words) -> Result<Call, StepReply> {
    let dialect = dialect(words);
    let port = u16::try_from(words.number_to(65535)).unwrap_or(0);
    let Ok(method) = Method::from_bytes(alloc, words.word().as_bytes()) else {
        return Err(StepReply::Unreadable);
    };
    let target = words.word();
    let (pairs, text) = parts_of_rest(words.rest());
    let mut headers: HeaderMap = HeaderMap::new(alloc);
    for pair in pairs.split_whitespace() {
        match add_header(alloc, &mut headers, pair) {
            StepReply::Done => {}
            reply => return Err(reply),
        }
    }
    let body = body_of(alloc, text)?;
    if words.are_bad() {
        return Err(StepReply::Unreadable);
    }
    match read_request(
        alloc, dialect, settings, port, &method, target, &headers, body,
    ) {
        Ok(call) => Ok(call),
        Err(RequestError::Refused(why)) => Err(StepReply::Refused(type_of(why))),
        Err(RequestError::OutOfMemory) => Err(StepReply::Refused("out of memory")),
    }
}

// The headers of a request, and its body.
fn parts_of_rest(rest: &str) -> (&str, &str) {
    match rest.strip_prefix("body ") {
        Some(text) => ("", text),
        None => rest.split_once(" body ").unwrap_or((rest, "")),
    }
}

/// `[aws] PORT METHOD TARGET [NAME=VALUE ..] [body BYTES]`: the call, or why it is refused.
pub fn request_step(
    alloc: Global,
    settings: &Settings,
    words: &mut Words,
    answer: &mut TextBuffer,
) -> StepReply {
    match read_call(alloc, settings, words) {
        Ok(call) => tell_call(&call, answer),
        Err(reply) => reply,
    }
}
