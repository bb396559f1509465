// What is told by a port whose disk is gone.
ghost use Rattle.std.specs.Prelude.{◌≡◌, IfSome};
ghost use Rattle.http_port.specs.Answering.{message_of};
ghost use Rattle.saving_port.specs.Held.{status_of, IsRefused};

use api_core::{Dialect, unavailable};
use bytes::Bytes;
use futures::Future;
use futures::task::{Context, Poll};
use http_port::{Draft, HttpResponse, IntoResponse, Refused};
use hyper::StatusCode;
use std::alloc::Global;

/// What is told of a broker whose disk is gone, in the format of Prometheus.
const METRICS: &[u8] =
    b"# HELP lambda_broker_problem What is wrong, by the verdict: 1 where it is.\n# TYPE lambda_broker_problem gauge\nlambda_broker_problem{reason=\"disk_is_gone\"} 1\n";

/// What is shown where a request is not refused.
#[derive(Clone, Copy)]
pub(crate) enum Shown {
    /// That the program ends.
    Stopping,
    /// What is wrong, as a number.
    Metrics,
}

// A response with this status and body.
fn response_of(alloc: Global, status: u16, kind: &str, body: Bytes) -> Option<HttpResponse>
    ensures { IfSome result (λ response. (message_of response).status ≡ status) }
{
    let mut draft = Draft::new(alloc, status)?;
    draft.add("content-type", kind.as_bytes())?;
    draft.add("cache-control", b"no-store")?;
    Some(draft.with_body(body))
}

impl IntoResponse for Shown {
    ghost use Rattle.saving_port.specs.Held.{status_of};

    ghost tells = { λ shown message. message.status ≡ status_of shown };

    fn into_response(self, alloc: Global) -> Option<HttpResponse> {
        match self {
            Shown::Stopping => response_of(
                alloc,
                202,
                "application/json",
                Bytes::from_static(b"{\"status\":\"OK\"}"),
            ),
            Shown::Metrics => response_of(
                alloc,
                200,
                "text/plain; version=0.0.4",
                Bytes::from_static(METRICS),
            ),
        }
    }
}

/// A reply that need not be waited for.
#[derive(Drop)]
pub(crate) struct HeldReply {
    pub(crate) shown: Shown,
}

/// The reply that tells this.
pub(crate) fn told_of(shown: Shown) -> HeldReply
    ensures { result.shown ≡ shown }
{
    HeldReply { shown }
}

impl Future for HeldReply {
    type Output = Shown;

    ghost use Rattle.std.specs.Prelude.{◌≡◌};

    ghost gives = { λ reply shown. shown ≡ reply.shown };

    fn poll(&mut self, _cx: &mut Context<'_>) -> Poll<Shown> {
        Poll::Ready(self.shown)
    }
}

// The words of an operator's refusal. None where memory is wanting.
fn words_of(alloc: Global, words: &str) -> Option<HttpResponse>
    ensures { IfSome result (λ response. (message_of response).status ≡ 503) }
{
    let Ok(line) = format!(in alloc; "{words}\n") else {
        return None;
    };
    let Ok(body) = Bytes::from_vec(line.into_bytes()) else {
        return None;
    };
    response_of(alloc, 503, "text/plain; charset=utf-8", body)
}

// What a caller is told, in the words of a dialect. None where memory is wanting.
fn unavailable_in(alloc: Global, dialect: Dialect) -> Option<HttpResponse>
    ensures { IfSome result (λ response. (message_of response).status ≡ 503) }
{
    let reply = unavailable(alloc, dialect);
    response_of(alloc, 503, "application/json", reply.body)
}

/// The refusal of a request: a caller is told that the broker is not available, an operator why. Where memory is wanting, 503 alone.
pub(crate) fn refusal_of(
    alloc: Global,
    is_operators: bool,
    dialect: Dialect,
    words: &str,
) -> Refused
    ensures { IsRefused result }
{
    let response = if is_operators {
        words_of(alloc, words)
    } else {
        unavailable_in(alloc, dialect)
    };
    match response {
        Some(response) => Refused::new(response),
        None => Refused::bare(alloc, StatusCode::SERVICE_UNAVAILABLE),
    }
}
