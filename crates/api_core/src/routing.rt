// Which route a method and the parts of a path have.
ghost use Rattle.std.specs.Prelude.{◌≡◌, filter, IfOk};
ghost use Rattle.std.specs.Cmp.Lexicographic.{pointwise};
ghost use Rattle.percent_encoding.specs.Percent.{percent_decode};
ghost use Rattle.api_core.specs.Paths.{is_hole, takes, fits, at_hole, in_hole, has_method, callers_routes, environment_routes, routes_at, route_after, route_among};
ghost use Rattle.api_core.specs.Steps.{texts, decoded};
ghost use Rattle.api_core.specs.Says.{Says};

use crate::paths::{between_slashes, is_word};
use crate::route::Route;
use crate::{Dialect, Refusal, RequestError};
use retry_rules::Settings;
use std::alloc::{AllocError, Global};

fn is_hole(piece: &str) -> bool
    ensures { result ≡ is_hole piece.now }
{
    match piece.as_bytes().first() {
        Some(b) => *b == b'{',
        None => false,
    }
}

fn takes(piece: &str, part: &str) -> bool
    ensures { result ≡ takes piece.now (percent_decode part.now) }
{
    if is_hole(piece) {
        !is_word(part, "")
    } else {
        is_word(part, piece)
    }
}

fn all_taken(pieces: &[&str], parts: &[&str]) -> bool
    ensures { result ≡ pointwise takes (texts pieces.now) (decoded parts.now) }
{
    match pieces {
        [] => parts.is_empty(),
        [piece, more @ ..] => match parts {
            [] => false,
            [part, rest @ ..] => takes(piece, part) && all_taken(more, rest),
        },
    }
}

const CALLERS: [Route; 5] = [
    Route::Invoke,
    Route::OldestSuccess,
    Route::OldestFailure,
    Route::Delete,
    Route::StopBroker,
];

const AWS_CALLERS: [Route; 9] = [
    Route::InvokeAsync,
    Route::InvokeAsyncSlash,
    Route::GetFunction,
    Route::GetConfiguration,
    Route::Invoke,
    Route::OldestSuccess,
    Route::OldestFailure,
    Route::Delete,
    Route::StopBroker,
];

const ENVIRONMENTS: [Route; 8] = [
    Route::RuntimeNext,
    Route::Response,
    Route::RuntimeError,
    Route::RuntimeInitError,
    Route::Register,
    Route::ExtensionNext,
    Route::ExtensionInitError,
    Route::ExtensionExitError,
];

const AWS_ENVIRONMENTS: [Route; 10] = [
    Route::Telemetry,
    Route::Logs,
    Route::RuntimeNext,
    Route::Response,
    Route::RuntimeError,
    Route::RuntimeInitError,
    Route::Register,
    Route::ExtensionNext,
    Route::ExtensionInitError,
    Route::ExtensionExitError,
];

// The routes of the callers' port.
fn callers_routes(dialect: Dialect) -> &'static [Route]
    ensures { result.now ≡ callers_routes dialect }
{
    match dialect {
        Dialect::Profile => &CALLERS,
        Dialect::Aws => &AWS_CALLERS,
    }
}

// The routes of an environment's port.
fn environment_routes(dialect: Dialect) -> &'static [Route]
    ensures { result.now ≡ environment_routes dialect }
{
    match dialect {
        Dialect::Profile => &ENVIRONMENTS,
        Dialect::Aws => &AWS_ENVIRONMENTS,
    }
}

// The routes of a port.
fn routes_at(dialect: Dialect, settings: &Settings, port: u16) -> &'static [Route]
    ensures { result.now ≡ routes_at dialect settings.now port }
{
    if port == 0 {
        callers_routes(dialect)
    } else if port <= settings.environments as u16 {
        environment_routes(dialect)
    } else {
        &[]
    }
}

#[tactic(auto, unfolding(crate::specs::Paths::fits))]
fn fits(alloc: Global, route: Route, parts: &[&str]) -> Result<bool, AllocError>
    ensures { IfOk result (λ answer. answer ≡ fits (decoded parts.now) route) }
{
    let (_, path) = route.line();
    let pieces = between_slashes(alloc, path)?;
    Ok(all_taken(&pieces, parts))
}

fn has_method(method: &str, route: Route) -> bool
    ensures { result ≡ has_method method.now route }
{
    let (own, _) = route.line();
    own == method
}

// Of the routes whose path fits, the first with the method; some may have come before.
fn route_after(
    alloc: Global,
    found: bool,
    method: &str,
    routes: &[Route],
    parts: &[&str],
) -> Result<Route, RequestError>
    ensures { Says (route_after found method.now (filter (fits (decoded parts.now)) routes.now)) result }
{
    match routes {
        [] => {
            if found {
                Err(RequestError::Refused(Refusal::MethodNotAllowed))
            } else {
                Err(RequestError::Refused(Refusal::NotFound))
            }
        }
        [route, more @ ..] => {
            if !fits(alloc, *route, parts)? {
                route_after(alloc, found, method, more, parts)
            } else if has_method(method, *route) {
                Ok(*route)
            } else {
                route_after(alloc, true, method, more, parts)
            }
        }
    }
}

/// The route of a request, or why it has none.
pub(crate) fn read_route(
    alloc: Global,
    dialect: Dialect,
    settings: &Settings,
    port: u16,
    method: &str,
    parts: &[&str],
) -> Result<Route, RequestError>
    ensures { Says (route_among method.now (filter (fits (decoded parts.now)) (routes_at dialect settings.now port))) result }
{
    route_after(
        alloc,
        false,
        method,
        routes_at(dialect, settings, port),
        parts,
    )
}

#[tactic(auto, unfolding(percent_encoding::specs::Percent::percent_decode))]
fn at_hole<'a>(pieces: &[&str], parts: &[&'a str]) -> &'a str
    ensures { percent_decode result.now ≡ at_hole (texts pieces.now) (decoded parts.now) }
{
    match pieces {
        [] => "",
        [piece, more @ ..] => match parts {
            [] => "",
            [part, rest @ ..] => {
                if is_hole(piece) {
                    part
                } else {
                    at_hole(more, rest)
                }
            }
        },
    }
}

/// The part that stands in the hole of a route's path, not yet decoded.
#[tactic(auto, unfolding(crate::specs::Paths::in_hole))]
pub(crate) fn in_hole<'a>(
    alloc: Global,
    route: Route,
    parts: &[&'a str],
) -> Result<&'a str, AllocError>
    ensures { IfOk result (λ part. percent_decode part.now ≡ in_hole route (decoded parts.now)) }
{
    let (_, path) = route.line();
    let pieces = between_slashes(alloc, path)?;
    Ok(at_hole(&pieces, parts))
}
