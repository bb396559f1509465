// The reply of an answer.
ghost use Rattle.std.specs.Prelude.{◌≡◌, ◌⊎◌, [], ◌∷◌, ◌++◌, IfOk};
ghost use Rattle.retry_rules.specs.declared.settings.Settings.{Settings as SettingsValue};
ghost use Rattle.api_core.specs.Replies.{bare, with_json, request_id, of_event, refusing, service_reply, full_of, describing, IsTellable, reply_text, async_body, refused};
ghost use Rattle.api_core.specs.declared.refusal.Refusal.TheVariants.{Unavailable, NotEnded};
ghost use Rattle.api_core.specs.declared.dialect.Dialect.TheVariants.{Aws};
ghost use Rattle.api_core.specs.declared.dialect.Audience.TheVariants.{Caller};
ghost use Rattle.api_core.specs.Replies.{reply_of_told, registered, runtime_headers, with_request_id};

use crate::drafts::HeaderDraft;
use crate::reply::FixedHeader;
use crate::texts::{
    ASYNC_BODY, OK_BODY, TRACE_ID, configuration_text, described_text, digits, error_text,
    full_message, function_text, invoke_text, not_supported_text, service_message, service_object,
    shutdown_text,
};
use crate::unanswered::record_told;
use crate::{Answer, Audience, Description, Dialect, Headers, Refusal, Reply};
use async_core::{Side, Table};
use destination_json::id_text;
use retry_rules::Settings;
use std::alloc::{AllocError, Global};

/// The header that tells the id of a request.
const REQUEST_ID: &str = "X-Amzn-RequestId";

const JSON: FixedHeader = FixedHeader {
    name: "Content-Type",
    value: b"application/json",
};

const SERVICE_EXCEPTION: FixedHeader = FixedHeader {
    name: "X-Amzn-ErrorType",
    value: b"ServiceException",
};

const UNAVAILABLE_HEADERS: [FixedHeader; 1] = [JSON];

const AWS_UNAVAILABLE_HEADERS: [FixedHeader; 2] = [SERVICE_EXCEPTION, JSON];

const UNAVAILABLE: &[u8] =
    b"{\"errorMessage\":\"broker is not available\",\"errorType\":\"Unavailable\"}";

const AWS_UNAVAILABLE: &[u8] =
    b"{\"Type\":\"Service\",\"message\":\"broker is not available\",\"Message\":\"broker is not available\"}";

// A reply without headers and body.
fn empty(alloc: Global, status: u16) -> Result<Reply, AllocError>
    ensures { IfOk result (λ reply. reply ≡ bare status []) }
{
    HeaderDraft::new(alloc).bare(status)
}

// A reply whose only header is the type of its body.
fn json(alloc: Global, status: u16, text: Vec<u8>) -> Result<Reply, AllocError>
    ensures { IfOk result (λ reply. reply ≡ with_json status [] text.items) }
{
    HeaderDraft::new(alloc).with_json(status, text)
}

fn accepted(alloc: Global, id: &[u8; 16]) -> Result<Reply, AllocError>
    ensures { IfOk result (λ reply. reply ≡ bare 202 (request_id id.now ∷ [])) }
{
    let id = id_text(alloc, id)?;
    let mut headers = HeaderDraft::new(alloc);
    headers.add(REQUEST_ID, id.as_bytes());
    headers.bare(202)
}

fn accepted_async(alloc: Global, id: &[u8; 16]) -> Result<Reply, AllocError>
    ensures { IfOk result (λ reply. reply ≡ with_json 202 (request_id id.now ∷ []) async_body) }
{
    let id = id_text(alloc, id)?;
    let mut headers = HeaderDraft::new(alloc);
    headers.add(REQUEST_ID, id.as_bytes());
    headers.with_json(202, Vec::from_slice(alloc, ASYNC_BODY)?)
}

// A reply that tells of an event, with its id in a dialect that tells it.
fn of_event(
    alloc: Global,
    dialect: Dialect,
    id: &[u8; 16],
    reply: Reply,
) -> Result<Reply, AllocError>
    ensures { IfOk result (λ told. told ≡ of_event dialect id.now reply) }
{
    match dialect {
        Dialect::Profile => Ok(reply),
        Dialect::Aws => {
            let id = id_text(alloc, id)?;
            let Reply {
                status,
                mut headers,
                body,
            } = reply;
            headers.try_add(alloc, REQUEST_ID, id.as_bytes())?;
            Ok(Reply {
                status,
                headers,
                body,
            })
        }
    }
}

fn describing(alloc: Global, settings: &Settings, what: Description) -> Result<Reply, AllocError>
    ensures { IfOk result (λ reply. reply ≡ describing settings.now what) }
{
    match what {
        Description::DryRun => empty(alloc, 204),
        Description::Function => json(alloc, 200, described_text(alloc, settings)?),
        Description::Configuration => json(alloc, 200, configuration_text(alloc, settings)?),
    }
}

fn registered(
    alloc: Global,
    dialect: Dialect,
    settings: &Settings,
    identifier: &[u8; 16],
    account: bool,
) -> Result<Reply, AllocError>
    ensures { IfOk result (λ reply. reply ≡ reply_of_told dialect settings.now (registered identifier.now account)) }
{
    let identifier = id_text(alloc, identifier)?;
    let text = function_text(alloc, dialect, settings, account)?;
    let mut headers = HeaderDraft::new(alloc);
    headers.add("Lambda-Extension-Identifier", identifier.as_bytes());
    headers.with_json(200, text)
}

// The payload is copied once.
fn runtime_event(
    alloc: Global,
    settings: &Settings,
    id: &[u8; 16],
    deadline: u64,
    payload: &[u8],
) -> Result<Reply, AllocError>
    ensures { IfOk result (λ reply. reply ≡ with_json 200 (runtime_headers settings.now id.now deadline) payload.now) }
{
    let id = id_text(alloc, id)?;
    let deadline = digits(alloc, deadline)?;
    let payload = Vec::from_slice(alloc, payload)?;
    let mut headers = HeaderDraft::new(alloc);
    headers.add("Lambda-Runtime-Aws-Request-Id", id.as_bytes());
    headers.add("Lambda-Runtime-Deadline-Ms", deadline.as_bytes());
    headers.add(
        "Lambda-Runtime-Invoked-Function-Arn",
        settings.arn.as_bytes(),
    );
    headers.add("Lambda-Runtime-Trace-Id", TRACE_ID);
    headers.with_json(200, payload)
}

// A refusal in the words of AWS's services, whose kits look for its name in a header.
fn service_reply(alloc: Global, why: Refusal, message: &[u8]) -> Result<Reply, AllocError>
    ensures { IfOk result (λ reply. reply ≡ service_reply why message.now) }
{
    let text = service_object(alloc, why, message)?;
    let mut headers = HeaderDraft::new(alloc);
    headers.add("X-Amzn-ErrorType", why.error_name().as_bytes());
    headers.with_json(why.status(), text)
}

fn refusing(
    alloc: Global,
    dialect: Dialect,
    settings: &Settings,
    audience: Audience,
    why: Refusal,
) -> Result<Reply, AllocError>
    ensures { IfOk result (λ reply. reply ≡ refusing dialect settings.now audience why) }
{
    match (dialect, audience) {
        (Dialect::Aws, Audience::Caller) => {
            let message = service_message(alloc, settings, why)?;
            service_reply(alloc, why, &message)
        }
        _ => json(alloc, why.status(), error_text(alloc, why)?),
    }
}

// The refusal of a caller since this table is full, in the words of AWS's services.
fn service_full(alloc: Global, settings: &Settings, table: &Table) -> Result<Reply, AllocError>
    ensures { IfOk result (λ reply. reply ≡ reply_of_told Aws settings.now (full_of table.now.table.rows)) }
{
    let successes = table.ended_count(Side::Success);
    let failures = table.ended_count(Side::Failure);
    let message = full_message(alloc, settings, successes, failures)?;
    service_reply(alloc, Refusal::TooManyEvents, &message)
}

// The refusal of a caller since this table is full.
fn refusing_full(
    alloc: Global,
    dialect: Dialect,
    settings: &Settings,
    table: &Table,
) -> Result<Reply, AllocError>
    ensures { IfOk result (λ reply. reply ≡ reply_of_told dialect settings.now (full_of table.now.table.rows)) }
{
    match dialect {
        Dialect::Profile => {
            refusing(
                alloc,
                dialect,
                settings,
                Audience::Caller,
                Refusal::TooManyEvents,
            )
        }
        Dialect::Aws => service_full(alloc, settings, table),
    }
}

// The refusal of a caller since an event has not ended.
fn not_ended(
    alloc: Global,
    dialect: Dialect,
    settings: &Settings,
    id: &[u8; 16],
) -> Result<Reply, AllocError>
    ensures { IfOk result (λ reply. reply ≡ of_event dialect id.now (refusing dialect settings.now Caller NotEnded)) }
{
    let reply = refusing(
        alloc,
        dialect,
        settings,
        Audience::Caller,
        Refusal::NotEnded,
    )?;
    of_event(alloc, dialect, id, reply)
}

/// The reply that tells a caller that the broker is not available. It stands in the program, so that it takes no memory.
pub fn unavailable(alloc: Global, dialect: Dialect) -> Reply
    // claim: That the broker is not available is told as in the definitions, whatever the settings.
    ensures { (settings : SettingsValue) → result ≡ reply_of_told dialect settings (refused Caller Unavailable) }
{
    match dialect {
        Dialect::Profile => Reply::fixed(alloc, 503, &UNAVAILABLE_HEADERS, UNAVAILABLE),
        Dialect::Aws => Reply::fixed(alloc, 503, &AWS_UNAVAILABLE_HEADERS, AWS_UNAVAILABLE),
    }
}

/// The reply of an answer, in the words of a dialect: its status, its headers in their order, and the bytes of its body.
///
/// In the dialect `Profile` errors have a type and a message of this broker's own; in `Aws` a caller is told them as the
/// public models of the Lambda API have them. The polls of a runtime and of extensions are answered as the Lambda runtime
/// API and the Lambda extensions API have it. Memory is the only refusal.
pub fn reply_text(
    alloc: Global,
    dialect: Dialect,
    answer: &Answer<'_>,
    settings: &Settings,
) -> Result<Reply, AllocError>
    requires { IsTellable answer.now }
    // claim: A reply, and a refusal's status, is byte for byte that of the definitions, in each dialect. [Refusal::status]
    ensures { IfOk result (λ reply. reply ≡ reply_text dialect settings.now answer.now) }
{
    match answer {
        Answer::Accepted(id) => accepted(alloc, id),
        Answer::AcceptedAsync(id) => accepted_async(alloc, id),
        Answer::Record(ended) => {
            let text = record_told(alloc, dialect, settings, ended)?;
            let reply = json(alloc, 200, text)?;
            of_event(alloc, dialect, ended.id, reply)
        }
        Answer::NoRecord => empty(alloc, 204),
        Answer::Deleted(id) => of_event(alloc, dialect, id, empty(alloc, 204)?),
        Answer::NotEnded(id) => not_ended(alloc, dialect, settings, id),
        Answer::TableFull(table) => refusing_full(alloc, dialect, settings, table),
        Answer::Described(what) => describing(alloc, settings, *what),
        Answer::Taken => json(alloc, 202, Vec::from_slice(alloc, OK_BODY)?),
        Answer::Registered {
            identifier,
            account,
        } => registered(alloc, dialect, settings, identifier, *account),
        Answer::RuntimeEvent {
            id,
            deadline,
            payload,
        } => runtime_event(alloc, settings, id, *deadline, payload),
        Answer::Invoke { id, deadline } => {
            json(alloc, 200, invoke_text(alloc, settings, id, *deadline)?)
        }
        Answer::Shutdown { reason, deadline } => {
            json(
                alloc,
                200,
                shutdown_text(alloc, dialect, *reason, *deadline)?,
            )
        }
        Answer::NotSupported(stream) => json(alloc, 202, not_supported_text(alloc, *stream)?),
        Answer::Refusal(audience, why) => refusing(alloc, dialect, settings, *audience, *why),
    }
}

// These headers with the id of a request. Where memory is wanting they stay as they are.
fn with_id(alloc: Global, mut headers: Headers, id: &[u8; 16]) -> Headers
    ensures { (result ≡ headers ++ request_id id.now ∷ []) ⊎ (result ≡ headers) }
{
    match id_text(alloc, id) {
        Ok(text) => {
            headers.add(alloc, REQUEST_ID, text.as_bytes());
            headers
        }
        Err(_) => headers,
    }
}

/// The reply with the id of its request, where it does not tell one: an accepted event's is its own, any other request's is
/// this one. Where memory is wanting the reply stays as it is.
pub fn with_request_id(alloc: Global, reply: Reply, id: &[u8; 16]) -> Reply
    // claim: A reply that tells no request's id is given one, or stays as it is.
    ensures { (result ≡ with_request_id id.now reply) ⊎ (result ≡ reply) }
{
    if reply.headers.has(REQUEST_ID) {
        return reply;
    }
    let Reply {
        status,
        headers,
        body,
    } = reply;
    Reply {
        status,
        headers: with_id(alloc, headers, id),
        body,
    }
}
