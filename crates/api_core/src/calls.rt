// What a request calls that passes the checks.
ghost use Rattle.std.specs.Prelude.{◌≡◌, [], IfOk};
ghost use Rattle.percent_encoding.specs.Percent.{percent_decode};
ghost use Rattle.api_core.specs.Ids.{id_of};
ghost use Rattle.api_core.specs.Bodies.{or_empty_object};
ghost use Rattle.api_core.specs.Requests.{call_by, call_with, invoked_by, bytes_of, name_or_none, events_or_none, identifier_or_zeros};
ghost use Rattle.api_core.specs.Refusals.{response_too_large};

use crate::bodies::subscription_of;
use crate::checks::is_too_large;
use crate::features::accepts_account;
use crate::headers::{extension_identifier, extension_name, features, is_dry_run};
use crate::ids::read_id;
use crate::route::Route;
use crate::texts::response_too_large;
use crate::{Body, Call, Description, Dialect, Stream};
use async_core::Side;
use http::header::HeaderMap;
use invoke_records::Bytes;
use percent_encoding::percent_decode;
use retry_rules::Settings;
use std::alloc::{AllocError, Global};
use std::mem;

// The id that a part of a path is, decoded.
fn id_in(alloc: Global, part: &str) -> Result<Option<[u8; 16]>, AllocError>
    ensures { IfOk result (λ id. id ≡ id_of (percent_decode part.now)) }
{
    let text = percent_decode(part.as_bytes()).into_cow(alloc)?;
    Ok(read_id(&text))
}

// A payload is an empty object where the body is empty.
fn payload(alloc: Global, bytes: Bytes) -> Result<Bytes, AllocError>
    ensures { IfOk result (λ payload. payload ≡ or_empty_object bytes) }
{
    if bytes.as_slice().is_empty() {
        Bytes::from_slice(alloc, b"{}")
    } else {
        Ok(bytes)
    }
}

fn invoked_by(
    alloc: Global,
    dialect: Dialect,
    headers: &HeaderMap,
    bytes: Bytes,
) -> Result<Call, AllocError>
    ensures { IfOk result (λ call. call ≡ invoked_by dialect headers.now bytes) }
{
    if is_dry_run(dialect, headers) {
        return Ok(Call::Describe(Description::DryRun));
    }
    let payload = payload(alloc, bytes)?;
    Ok(Call::Invoke { payload })
}

fn invoked_async(alloc: Global, bytes: Bytes) -> Result<Call, AllocError>
    ensures { IfOk result (λ call. call ≡ Call.InvokeAsync (or_empty_object bytes)) }
{
    let payload = payload(alloc, bytes)?;
    Ok(Call::InvokeAsync { payload })
}

fn name_in(alloc: Global, headers: &HeaderMap) -> Result<Bytes, AllocError>
    ensures { IfOk result (λ name. name ≡ name_or_none headers.now) }
{
    match extension_name(headers) {
        Some(name) => Bytes::from_slice(alloc, name),
        None => Ok(Bytes::empty()),
    }
}

fn identifier_in(headers: &HeaderMap) -> [u8; 16]
    ensures { result ≡ identifier_or_zeros headers.now }
{
    match extension_identifier(headers) {
        Some(identifier) => identifier,
        None => [0; 16],
    }
}

fn events_in(alloc: Global, body: &[u8]) -> Result<(bool, bool), AllocError>
    ensures { IfOk result (λ events. events ≡ events_or_none body.now) }
{
    match subscription_of(alloc, body)? {
        Some(events) => Ok(events),
        None => Ok((false, false)),
    }
}

fn response(alloc: Global, environment: u16, part: &str, body: Bytes) -> Result<Call, AllocError>
    ensures { IfOk result (λ call. call ≡ Call.Response environment (id_of (percent_decode part.now)) body) }
{
    let id = id_in(alloc, part)?;
    Ok(Call::Response {
        environment,
        id,
        body,
    })
}

fn runtime_error(
    alloc: Global,
    environment: u16,
    part: &str,
    body: Bytes,
) -> Result<Call, AllocError>
    ensures { IfOk result (λ call. call ≡ Call.RuntimeError environment (id_of (percent_decode part.now)) body) }
{
    let id = id_in(alloc, part)?;
    Ok(Call::RuntimeError {
        environment,
        id,
        body,
    })
}

fn register(
    alloc: Global,
    dialect: Dialect,
    environment: u16,
    headers: &HeaderMap,
    body: &[u8],
) -> Result<Call, AllocError>
    ensures { IfOk result (λ call. call ≡ call_with dialect environment headers.now body.now [] Route.Register) }
{
    let (invoke, shutdown) = events_in(alloc, body)?;
    let account = accepts_account(alloc, dialect, features(headers))?;
    let name = name_in(alloc, headers)?;
    Ok(Call::Register {
        environment,
        name,
        invoke,
        shutdown,
        account,
    })
}

// The bytes, which are none from now on.
fn taken(bytes: &mut Bytes) -> Bytes
    ensures { result ≡ bytes.old }
{
    mem::replace(bytes, Bytes::empty())
}

// What a request with these bytes calls, which it may take. They are not its own, since each of its arms would then drop them.
fn call_with(
    alloc: Global,
    dialect: Dialect,
    environment: u16,
    headers: &HeaderMap,
    bytes: &mut Bytes,
    part: &str,
    route: Route,
) -> Result<Call, AllocError>
    ensures { IfOk result (λ call. call ≡ call_with dialect environment headers.now bytes.old (percent_decode part.now) route) }
{
    let identifier = identifier_in(headers);
    match route {
        Route::Invoke => invoked_by(alloc, dialect, headers, taken(bytes)),
        Route::InvokeAsync | Route::InvokeAsyncSlash => invoked_async(alloc, taken(bytes)),
        Route::GetFunction => Ok(Call::Describe(Description::Function)),
        Route::GetConfiguration => Ok(Call::Describe(Description::Configuration)),
        Route::OldestSuccess => Ok(Call::Oldest(Side::Success)),
        Route::OldestFailure => Ok(Call::Oldest(Side::Failure)),
        Route::Delete => Ok(Call::Delete(id_in(alloc, part)?)),
        Route::StopBroker => Ok(Call::StopBroker),
        Route::RuntimeNext => Ok(Call::RuntimeNext { environment }),
        Route::Response => response(alloc, environment, part, taken(bytes)),
        Route::RuntimeError => runtime_error(alloc, environment, part, taken(bytes)),
        Route::RuntimeInitError => Ok(Call::RuntimeInitError { environment }),
        Route::Register => register(alloc, dialect, environment, headers, bytes.as_slice()),
        Route::ExtensionNext => Ok(Call::ExtensionNext {
            environment,
            identifier,
        }),
        Route::ExtensionInitError => Ok(Call::ExtensionInitError {
            environment,
            identifier,
        }),
        Route::ExtensionExitError => Ok(Call::ExtensionExitError {
            environment,
            identifier,
        }),
        Route::Telemetry => Ok(Call::Subscribe {
            environment,
            stream: Stream::Telemetry,
        }),
        Route::Logs => Ok(Call::Subscribe {
            environment,
            stream: Stream::Logs,
        }),
    }
}

// What a response that is too large calls.
fn too_large(
    alloc: Global,
    settings: &Settings,
    environment: u16,
    part: &str,
) -> Result<Call, AllocError>
    ensures { IfOk result (λ call. call ≡ Call.RuntimeError environment (id_of (percent_decode part.now)) (response_too_large settings.now)) }
{
    let text = Bytes::from_vec(response_too_large(alloc, settings)?)?;
    runtime_error(alloc, environment, part, text)
}

/// What a request calls that passes the checks. A payload or a body is moved.
pub(crate) fn call_by(
    alloc: Global,
    dialect: Dialect,
    settings: &Settings,
    environment: u16,
    headers: &HeaderMap,
    body: Body,
    part: &str,
    route: Route,
) -> Result<Call, AllocError>
    ensures { IfOk result (λ call. call ≡ call_by dialect settings.now environment headers.now body (percent_decode part.now) route) }
{
    if is_too_large(settings, &body, route) {
        return too_large(alloc, settings, environment, part);
    }
    let mut bytes = match body {
        Body::Whole(bytes) => bytes,
        Body::TooLarge => Bytes::empty(),
    };
    call_with(
        alloc,
        dialect,
        environment,
        headers,
        &mut bytes,
        part,
        route,
    )
}
