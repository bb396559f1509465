// Which call a request is.
ghost use Rattle.std.specs.Prelude.{◌≤◌, IfOk};
ghost use Rattle.api_core.specs.Says.{Says};
ghost use Rattle.api_core.specs.Within.{IsWithin};
ghost use Rattle.api_core.specs.Requests.{call_of};

use crate::calls::call_by;
use crate::checks::first_failed;
use crate::paths::first_parts;
use crate::routing::{in_hole, read_route};
use crate::{Body, Call, Dialect, RequestError};
use http::Method;
use http::header::HeaderMap;
use retry_rules::Settings;
use std::alloc::Global;

fn read_call(
    alloc: Global,
    dialect: Dialect,
    settings: &Settings,
    port: u16,
    method: &Method,
    target: &str,
    headers: &HeaderMap,
    body: Body,
) -> Result<Call, RequestError>
    ensures { Says (call_of dialect settings.now port method.now target.now headers.now body) result }
{
    let parts = first_parts(alloc, target)?;
    let route = match read_route(alloc, dialect, settings, port, method.as_str(), &parts) {
        Ok(route) => route,
        Err(error) => return Err(error),
    };
    let part = in_hole(alloc, route, &parts)?;
    if let Some(why) = first_failed(
        alloc, dialect, settings, target, headers, &body, part, route,
    )? {
        return Err(RequestError::Refused(why));
    }
    let call = call_by(alloc, dialect, settings, port, headers, body, part, route)?;
    Ok(call)
}

/// The call of a request, or the first check that refuses it.
///
/// Port 0 is the callers', port n that of environment n. The target is the path and, behind a `?`, the query, as the
/// request line has them. The checks come in this order: path, method, function and qualifier, headers, size of the
/// body, content of the body. The body is moved into the call, not copied. A call keeps to the settings, so that it can
/// be done as it is.
///
/// The requests are those of the public references: Invoke of the Lambda API for asynchronous invocation, the Lambda
/// runtime API (2018-06-01), and the Lambda extensions API (2020-01-01); those under `/broker` are this broker's own. In the
/// dialect `Aws` a partial ARN names the function too, an extension may accept the account's id, a response that is too large
/// is the function's error that says so, and there are dry runs, InvokeAsync (2014-11-13), GetFunction, its configuration, and
/// the paths of the telemetry API (2022-07-01) and the logs API (2020-08-15).
pub fn read_request(
    alloc: Global,
    dialect: Dialect,
    settings: &Settings,
    port: u16,
    method: &Method,
    target: &str,
    headers: &HeaderMap,
    body: Body,
) -> Result<Call, RequestError>
    // claim: In each dialect a request is the call of the definitions, or is refused by the first failing check, or for
    // want of memory.
    ensures call { Says (call_of dialect settings.now port method.now target.now headers.now body) result }
    // claim: A call keeps to the settings, where these allow a payload of two bytes.
    ensures within { IfOk result (λ call. 2 ≤ settings.now.payload → IsWithin settings.now call) }
{
    read_call(
        alloc, dialect, settings, port, method, target, headers, body,
    )
}
