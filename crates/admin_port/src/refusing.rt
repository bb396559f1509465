// What an operator may not ask.
ghost use Rattle.std.specs.Prelude.{◌≡◌, ◌≤◌, ◌⊎◌, ℕ, List, IfSome};
ghost use Rattle.http_port.specs.Answering.{message_of, status_alone};
ghost use Rattle.admin_replies.specs.Requests.{status_of};
ghost use Rattle.admin_replies.specs.Collecting as list;
ghost use Rattle.admin_replies.specs.Retrying as retry;
ghost use Rattle.admin_port.specs.Acting.{TellsOf};
ghost use Rattle.admin_port.specs.Replying.{TellsLine};

use crate::admin_response::response_of;
use admin_replies::{AdminRefusal, AdminReply, ListError, RetryRefusal};
use http_port::{HttpResponse, Refused};
use hyper::StatusCode;
use std::alloc::Global;

// A line of text as a response. None where memory is wanting.
fn line_of(alloc: Global, status: u16, words: &str) -> Option<HttpResponse>
    ensures line { IfSome result (λ response. TellsLine status words.now (message_of response)) }
    ensures status { IfSome result (λ response. (message_of response).status ≡ status) }
{
    let Ok(reply) = AdminReply::line(alloc, status, words) else {
        return None;
    };
    response_of(alloc, reply)
}

/// A refusal with a line of text. Where memory is wanting, 503 alone.
pub(crate) fn refuse(alloc: Global, status: u16, words: &str) -> Refused
    requires { 400 ≤ status }
    ensures { (result ≡ status_alone 503) ⊎ TellsLine status words.now result }
{
    match line_of(alloc, status, words) {
        Some(response) => Refused::new(response),
        None => Refused::bare(alloc, StatusCode::SERVICE_UNAVAILABLE),
    }
}

/// What another method is told where an operator may act.
const ACTS: &str = "only GET is understood, and POST at /records/collect and /records/ID/retry";

// The refusal of a request for this reason, in these words. Where memory is wanting, 503 alone.
fn refuse_as(alloc: Global, why: AdminRefusal, words: &str) -> Refused
    ensures { (result ≡ status_alone 503) ⊎ ((told : List ℕ) × TellsLine (status_of why) told result) }
{
    refuse(alloc, why.status(), words)
}

/// Why a request is refused, in words, where an operator may act, or may not.
pub(crate) fn refuse_words(alloc: Global, why: AdminRefusal, acts: bool) -> Refused
    ensures { (result ≡ status_alone 503) ⊎ ((words : List ℕ) × TellsLine (status_of why) words result) }
{
    if acts && why.status() == 405 {
        return refuse_as(alloc, why, ACTS);
    }
    match format!(in alloc; "{why}") {
        Ok(words) => refuse_as(alloc, why, words.as_str()),
        Err(_) => Refused::bare(alloc, StatusCode::SERVICE_UNAVAILABLE),
    }
}

/// With what an act is refused: a line of text.
pub(crate) fn refuse_act(alloc: Global, status: u16, words: &str) -> Refused
    requires { 400 ≤ status }
    ensures { TellsOf status result }
{
    refuse(alloc, status, words)
}

/// Why the record that a request names is not tried again, in words, where nothing was looked at.
pub(crate) fn refuse_retry(alloc: Global, why: RetryRefusal) -> Refused
    ensures { TellsOf (retry.status_of why) result }
{
    match format!(in alloc; "{why}") {
        Ok(words) => refuse_act(alloc, why.status(), words.as_str()),
        Err(_) => Refused::bare(alloc, StatusCode::SERVICE_UNAVAILABLE),
    }
}

/// Why a list is refused, in words.
pub(crate) fn refuse_list(alloc: Global, why: ListError) -> Refused
    ensures { TellsOf (list.status_of why) result }
{
    match format!(in alloc; "{why}") {
        Ok(words) => refuse_act(alloc, why.status(), words.as_str()),
        Err(_) => Refused::bare(alloc, StatusCode::SERVICE_UNAVAILABLE),
    }
}
