// The checks behind that of the line, in their order.
ghost use Rattle.std.specs.Prelude.{◌≡◌, not, IfOk};
ghost use Rattle.percent_encoding.specs.Percent.{percent_decode};
ghost use Rattle.api_core.specs.Requests.{failed, refusal_of, most_bytes, bytes_of, is_too_large, is_told_as_error};
ghost use Rattle.api_core.specs.Requests.{function_check, header_check, size_check, content_check};

use crate::bodies::{or_empty_object, subscription_of};
use crate::functions::{has_good_qualifier, is_function};
use crate::headers::{extension_identifier, has_extension_name, is_dry_run, is_event};
use crate::route::Route;
use crate::texts::response_too_large;
use crate::{Body, Dialect, Refusal};
use destination_json::is_json;
use http::header::HeaderMap;
use retry_rules::Settings;
use std::alloc::{AllocError, Global};

// The refusal, unless the check holds.
fn unless(holds: bool, why: Refusal) -> Option<Refusal>
    ensures { result ≡ failed (not holds, why) }
{
    if holds { None } else { Some(why) }
}

// What is wrong with the function that is named, or with its qualifier.
fn bad_function(
    alloc: Global,
    dialect: Dialect,
    settings: &Settings,
    target: &str,
    part: &str,
    route: Route,
) -> Result<Option<Refusal>, AllocError>
    ensures { IfOk result (λ bad. bad ≡ failed (function_check dialect settings.now target.now (percent_decode part.now) route)) }
{
    match route {
        Route::Invoke
        | Route::InvokeAsync
        | Route::InvokeAsyncSlash
        | Route::GetFunction
        | Route::GetConfiguration => {
            let is_named = is_function(alloc, dialect, settings, part)?;
            let is_qualified = has_good_qualifier(target);
            Ok(unless(is_named && is_qualified, Refusal::NotFound))
        }
        _ => Ok(None),
    }
}

// What is wrong with the headers.
fn bad_headers(dialect: Dialect, headers: &HeaderMap, route: Route) -> Option<Refusal>
    ensures { result ≡ failed (header_check dialect headers.now route) }
{
    match route {
        Route::Invoke => unless(
            is_event(headers) || is_dry_run(dialect, headers),
            Refusal::UnsupportedInvocationType,
        ),
        Route::Register => unless(has_extension_name(headers), Refusal::InvalidExtensionHeader),
        Route::ExtensionNext | Route::ExtensionInitError | Route::ExtensionExitError => unless(
            extension_identifier(headers).is_some(),
            Refusal::InvalidExtensionHeader,
        ),
        _ => None,
    }
}

// How many bytes a body may have.
fn most_bytes(settings: &Settings, route: Route) -> u32
    ensures { result ≡ most_bytes settings.now route }
{
    match route {
        Route::Invoke | Route::InvokeAsync | Route::InvokeAsyncSlash => settings.payload,
        Route::Response | Route::RuntimeError => settings.response,
        _ => 4096,
    }
}

/// What was read of a body.
pub(crate) fn bytes_of(body: &Body) -> &[u8]
    ensures { result.now ≡ bytes_of body.now }
{
    match body {
        Body::Whole(bytes) => bytes.as_slice(),
        Body::TooLarge => &[],
    }
}

/// Whether a body has more bytes than its request may have.
pub(crate) fn is_too_large(settings: &Settings, body: &Body, route: Route) -> bool
    ensures { result ≡ is_too_large settings.now body.now route }
{
    match body {
        Body::Whole(bytes) => bytes.len() > most_bytes(settings, route) as usize,
        Body::TooLarge => true,
    }
}

// Whether a body that is too large is told as the function's error.
fn is_told_as_error(
    alloc: Global,
    dialect: Dialect,
    settings: &Settings,
    route: Route,
) -> Result<bool, AllocError>
    ensures { IfOk result (λ answer. answer ≡ is_told_as_error dialect settings.now route) }
{
    match (dialect, route) {
        (Dialect::Aws, Route::Response) => {
            let text = response_too_large(alloc, settings)?;
            Ok(text.len() <= settings.response as usize)
        }
        _ => Ok(false),
    }
}

// What is wrong with the size of a body.
fn bad_size(
    alloc: Global,
    dialect: Dialect,
    settings: &Settings,
    body: &Body,
    route: Route,
) -> Result<Option<Refusal>, AllocError>
    ensures { IfOk result (λ bad. bad ≡ failed (size_check dialect settings.now body.now route)) }
{
    if !is_too_large(settings, body, route) {
        return Ok(None);
    }
    let is_told = is_told_as_error(alloc, dialect, settings, route)?;
    Ok(unless(is_told, Refusal::TooLarge))
}

// What is wrong with what a body says.
fn bad_content(alloc: Global, body: &[u8], route: Route) -> Result<Option<Refusal>, AllocError>
    ensures { IfOk result (λ bad. bad ≡ failed (content_check body.now route)) }
{
    match route {
        Route::Invoke | Route::InvokeAsync | Route::InvokeAsyncSlash => {
            let is_good = is_json(alloc, or_empty_object(body))?;
            Ok(unless(is_good, Refusal::InvalidRequestContent))
        }
        Route::Register => {
            let events = subscription_of(alloc, body)?;
            Ok(unless(events.is_some(), Refusal::BadSubscription))
        }
        _ => Ok(None),
    }
}

/// The first check that fails, of those behind the route.
pub(crate) fn first_failed(
    alloc: Global,
    dialect: Dialect,
    settings: &Settings,
    target: &str,
    headers: &HeaderMap,
    body: &Body,
    part: &str,
    route: Route,
) -> Result<Option<Refusal>, AllocError>
    ensures { IfOk result (λ bad. bad ≡ refusal_of dialect settings.now target.now headers.now body.now (percent_decode part.now) route) }
{
    if let Some(why) = bad_function(alloc, dialect, settings, target, part, route)? {
        return Ok(Some(why));
    }
    if let Some(why) = bad_headers(dialect, headers, route) {
        return Ok(Some(why));
    }
    if let Some(why) = bad_size(alloc, dialect, settings, body, route)? {
        return Ok(Some(why));
    }
    match bad_content(alloc, bytes_of(body), route)? {
        Some(why) => Ok(Some(why)),
        None => Ok(None),
    }
}
