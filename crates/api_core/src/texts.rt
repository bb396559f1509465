// The bodies of replies.
ghost use Rattle.std.specs.Prelude.{◌≡◌, ℕ, List, ◌∷◌, ◌++◌, IfOk, decimal, string_bytes};
ghost use Rattle.api_core.specs.Refusals.{error_object, error_text, service_message, full_message, service_object, response_too_large, fault_of};
ghost use Rattle.api_core.specs.Replies.{ok_body, trace_id, tracing, invoke_text, reason_text, shutdown_text, function_members, account_member, account_members, function_text, not_supported_text, async_body};
ghost use Rattle.api_core.specs.Replies.{configuration_text, concurrency_text, described_text};
ghost use Rattle.api_core.specs.Steps.{Begun};

use crate::functions::account_of;
use crate::object::Object;
use crate::{Dialect, Refusal, ShutdownReason, Stream};
use destination_json::id_text;
use retry_rules::Settings;
use std::alloc::{AllocError, Global};

/// What is told where something that was reported is taken.
pub(crate) const OK_BODY: &[u8] = b"{\"status\":\"OK\"}";

/// What InvokeAsync tells of an event that is accepted.
pub(crate) const ASYNC_BODY: &[u8] = b"{\"Status\":202}";

/// No request is traced.
pub(crate) const TRACE_ID: &[u8] = b"Root=1-00000000-000000000000000000000000;Sampled=0";

const TRACING: &[u8] =
    b"{\"type\":\"X-Amzn-Trace-Id\",\"value\":\"Root=1-00000000-000000000000000000000000;Sampled=0\"}";

/// A number in decimal digits.
pub(crate) fn digits(alloc: Global, n: u64) -> Result<String, AllocError>
    ensures { IfOk result (λ text. string_bytes text ≡ decimal n) }
{
    format!(in alloc; "{n}")
}

// An error, as the Lambda runtime API tells it.
fn error_object(alloc: Global, message: &str, error_type: &str) -> Result<Vec<u8>, AllocError>
    ensures { IfOk result (λ text. text.items ≡ error_object message.now error_type.now) }
{
    let mut object = Object::of_text(alloc, "errorMessage", message.as_bytes());
    object.add_text("errorType", error_type.as_bytes());
    object.end()
}

/// What is told of a refusal, in this broker's own words.
pub(crate) fn error_text(alloc: Global, why: Refusal) -> Result<Vec<u8>, AllocError>
    ensures { IfOk result (λ text. text.items ≡ error_text (fault_of why)) }
{
    let (error_type, message) = why.words();
    error_object(alloc, message, error_type)
}

/// A name between two texts.
pub(crate) fn naming(
    alloc: Global,
    before: &str,
    name: &[u8],
    after: &[u8],
) -> Result<Vec<u8>, AllocError>
    ensures { IfOk result (λ text. text.items ≡ before.now ++ (name.now ++ after.now)) }
{
    let mut text = Vec::from_slice(alloc, before.as_bytes())?;
    text.extend_from_slice(name)?;
    text.extend_from_slice(after)?;
    Ok(text)
}

// The function's name and a limit of it, each between two texts.
fn limiting(
    alloc: Global,
    before: &str,
    settings: &Settings,
    between: &str,
    most: u64,
    after: &[u8],
) -> Result<Vec<u8>, AllocError>
    ensures { IfOk result (λ text. text.items ≡ before.now ++ (settings.now.name ++ (between.now ++ (decimal most ++ after.now)))) }
{
    let most = digits(alloc, most)?;
    let limit = naming(alloc, between, most.as_bytes(), after)?;
    naming(alloc, before, settings.name.as_bytes(), &limit)
}

/// What a caller is told of a refusal.
pub(crate) fn service_message(
    alloc: Global,
    settings: &Settings,
    why: Refusal,
) -> Result<Vec<u8>, AllocError>
    ensures { IfOk result (λ text. text.items ≡ service_message settings.now why) }
{
    match why {
        Refusal::UnsupportedInvocationType => {
            Vec::from_slice(alloc, b"InvocationType must be Event or DryRun")
        }
        Refusal::InvalidRequestContent => naming(
            alloc,
            "Could not parse request body into json: the payload for ",
            settings.name.as_bytes(),
            b" is not JSON",
        ),
        Refusal::NotFound => naming(
            alloc,
            "no such path or function: only ",
            settings.arn.as_bytes(),
            b" is here",
        ),
        Refusal::TooLarge => limiting(
            alloc,
            "body is too large: a payload for ",
            settings,
            " has at most ",
            settings.payload as u64,
            b" bytes, any other body 4096",
        ),
        _ => {
            let (_, message) = why.words();
            Vec::from_slice(alloc, message.as_bytes())
        }
    }
}

/// The same where the table is full, with so many records of each side in it.
pub(crate) fn full_message(
    alloc: Global,
    settings: &Settings,
    successes: usize,
    failures: usize,
) -> Result<Vec<u8>, AllocError>
    ensures { IfOk result (λ text. text.items ≡ full_message settings.now successes failures) }
{
    let successes = digits(alloc, successes as u64)?;
    let failures = digits(alloc, failures as u64)?;
    let failed = naming(
        alloc,
        " records wait to be collected at /broker/destinations/success, ",
        failures.as_bytes(),
        b" at /broker/destinations/failure",
    )?;
    let ended = naming(alloc, " events; ", successes.as_bytes(), &failed)?;
    limiting(
        alloc,
        "table is full: ",
        settings,
        " holds at most ",
        settings.events as u64,
        &ended,
    )
}

/// What is told of a refusal with this message, in the words of AWS's services.
pub(crate) fn service_object(
    alloc: Global,
    why: Refusal,
    message: &[u8],
) -> Result<Vec<u8>, AllocError>
    ensures { IfOk result (λ text. text.items ≡ service_object why message.now) }
{
    let mut object = Object::of_text(alloc, "Type", why.blamed().as_bytes());
    object.add_text("message", message);
    object.add_text("Message", message);
    object.end()
}

/// The function's error in place of a response that is too large.
pub(crate) fn response_too_large(alloc: Global, settings: &Settings) -> Result<Vec<u8>, AllocError>
    ensures { IfOk result (λ text. text.items ≡ response_too_large settings.now) }
{
    let most = digits(alloc, settings.response as u64)?;
    let message = naming(
        alloc,
        "Response payload size exceeded maximum allowed payload size (",
        most.as_bytes(),
        b" bytes).",
    )?;
    let mut object = Object::of_text(alloc, "errorType", b"Function.ResponseSizeTooLarge");
    object.add_text("errorMessage", &message);
    object.end()
}

/// The function's configuration, as GetFunctionConfiguration tells it.
pub(crate) fn configuration_text(alloc: Global, settings: &Settings) -> Result<Vec<u8>, AllocError>
    ensures { IfOk result (λ text. text.items ≡ configuration_text settings.now) }
{
    let timeout = digits(alloc, settings.timeout as u64)?;
    let mut object = Object::of_text(alloc, "FunctionName", settings.name.as_bytes());
    object.add_text("FunctionArn", settings.arn.as_bytes());
    object.add_text("Handler", settings.handler.as_bytes());
    object.add_member("Timeout", timeout.as_bytes());
    object.add_text("Version", b"$LATEST");
    object.add_text("State", b"Active");
    object.add_text("LastUpdateStatus", b"Successful");
    object.end()
}

fn concurrency_text(alloc: Global, settings: &Settings) -> Result<Vec<u8>, AllocError>
    ensures { IfOk result (λ text. text.items ≡ concurrency_text settings.now) }
{
    let most = digits(alloc, settings.concurrency as u64)?;
    Object::of_member(alloc, "ReservedConcurrentExecutions", most.as_bytes()).end()
}

/// What the function is, as GetFunction tells it.
pub(crate) fn described_text(alloc: Global, settings: &Settings) -> Result<Vec<u8>, AllocError>
    ensures { IfOk result (λ text. text.items ≡ described_text settings.now) }
{
    let configuration = configuration_text(alloc, settings)?;
    let concurrency = concurrency_text(alloc, settings)?;
    let mut object = Object::of_member(alloc, "Configuration", &configuration);
    object.add_member("Concurrency", &concurrency);
    object.end()
}

/// What is told of a stream that is not sent.
pub(crate) fn not_supported_text(alloc: Global, stream: Stream) -> Result<Vec<u8>, AllocError>
    ensures { IfOk result (λ text. text.items ≡ not_supported_text stream) }
{
    match stream {
        Stream::Telemetry => error_object(
            alloc,
            "Telemetry API is not supported",
            "Telemetry.NotSupported",
        ),
        Stream::Logs => error_object(alloc, "Logs API is not supported", "Logs.NotSupported"),
    }
}

// The account that an extension is told, which is empty where it is told none.
fn account_told(dialect: Dialect, settings: &Settings, account: bool) -> &[u8]
    ensures { account_member result.now ≡ account_members dialect settings.now account }
{
    match dialect {
        Dialect::Aws if account => account_of(settings.arn.as_bytes()),
        _ => b"",
    }
}

// What an extension is told of the function, to which a member may be added.
fn function_object(alloc: Global, settings: &Settings) -> Object
    ensures { Begun (function_members settings.now) result }
{
    let mut object = Object::of_text(alloc, "functionName", settings.name.as_bytes());
    object.add_text("functionVersion", b"$LATEST");
    object.add_text("handler", settings.handler.as_bytes());
    object
}

// An object to which an account is added, where there is one.
fn with_account(mut object: Object, account: &[u8]) -> Object
    ensures { (first : List ℕ) (members : List (List ℕ)) → Begun (first ∷ members) object
        → Begun (first ∷ (members ++ account_member account.now)) result }
{
    match account {
        [] => object,
        [_, ..] => {
            object.add_text("accountId", account);
            object
        }
    }
}

/// What a registered extension is told of the function, and of the account where it accepts that.
pub(crate) fn function_text(
    alloc: Global,
    dialect: Dialect,
    settings: &Settings,
    account: bool,
) -> Result<Vec<u8>, AllocError>
    ensures { IfOk result (λ text. text.items ≡ function_text dialect settings.now account) }
{
    let account = account_told(dialect, settings, account);
    let object = with_account(function_object(alloc, settings), account);
    object.end()
}

/// What an extension is told of an event that runs.
pub(crate) fn invoke_text(
    alloc: Global,
    settings: &Settings,
    id: &[u8; 16],
    deadline: u64,
) -> Result<Vec<u8>, AllocError>
    ensures { IfOk result (λ text. text.items ≡ invoke_text settings.now id.now deadline) }
{
    let id = id_text(alloc, id)?;
    let deadline = digits(alloc, deadline)?;
    let mut object = Object::of_text(alloc, "eventType", b"INVOKE");
    object.add_member("deadlineMs", deadline.as_bytes());
    object.add_text("requestId", id.as_bytes());
    object.add_text("invokedFunctionArn", settings.arn.as_bytes());
    object.add_member("tracing", TRACING);
    object.end()
}

fn reason_text(dialect: Dialect, reason: ShutdownReason) -> &'static str
    ensures { result.now ≡ reason_text dialect reason }
{
    match (dialect, reason) {
        (Dialect::Profile, ShutdownReason::Spindown) => "SPINDOWN",
        (Dialect::Profile, ShutdownReason::Timeout) => "TIMEOUT",
        (Dialect::Profile, ShutdownReason::Failure) => "FAILURE",
        (Dialect::Aws, ShutdownReason::Spindown) => "spindown",
        (Dialect::Aws, ShutdownReason::Timeout) => "timeout",
        (Dialect::Aws, ShutdownReason::Failure) => "failure",
    }
}

/// What an extension is told of its environment's end.
pub(crate) fn shutdown_text(
    alloc: Global,
    dialect: Dialect,
    reason: ShutdownReason,
    deadline: u64,
) -> Result<Vec<u8>, AllocError>
    ensures { IfOk result (λ text. text.items ≡ shutdown_text dialect reason deadline) }
{
    let deadline = digits(alloc, deadline)?;
    let mut object = Object::of_text(alloc, "eventType", b"SHUTDOWN");
    object.add_text("shutdownReason", reason_text(dialect, reason).as_bytes());
    object.add_member("deadlineMs", deadline.as_bytes());
    object.end()
}
