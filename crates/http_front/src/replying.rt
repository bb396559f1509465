// Replies and refusals as HTTP responses.
ghost use Rattle.std.specs.Prelude.{◌≡◌, ◌⊎◌, ◌∷◌, [], ℕ, List, Some, IfSome, OnSome, slice_get};
ghost use Rattle.api_core.specs.Refusals.{fault_of};
ghost use Rattle.api_core.specs.Replies.{refusing};
ghost use Rattle.http_port.specs.Answering.{message_of, status_alone, with_more};
ghost use Rattle.http_front.specs.Telling.{message_told, IsWithId, TellsReply};

use api_core::{Answer, Audience, Dialect, Refusal, Reply, reply_text, with_request_id};
use hall_core::Released;
use http_port::{Draft, HttpResponse, IntoResponse, Refused};
use hyper::StatusCode;
use receipts::{Trace, Witnessed};
use retry_rules::Settings;
use std::alloc::Global;
use std::sync::ledger::Ledger;

// Adds the header of a reply at a place. None where memory is wanting.
fn add_header(draft: &mut Draft, reply: &Reply, place: usize) -> Option<()>
    ensures { OnSome result ((header : List ℕ × List ℕ) × (slice_get reply.now.headers place ≡ Some header)
        × (draft.new ≡ with_more draft.old (header ∷ []))) }
{
    let Some((name, value)) = reply.headers.get(place) else {
        return None;
    };
    draft.add(name, value)
}

// A reply but for its body. None where memory is wanting.
fn draft_of(alloc: Global, reply: &Reply) -> Option<Draft>
    ensures { IfSome result (λ draft. draft ≡ with_more (status_alone reply.now.status) reply.now.headers) }
{
    let mut draft = Draft::new(alloc, reply.status)?;
    for place in 0..reply.headers.len() {
        add_header(&mut draft, reply, place)?;
    }
    Some(draft)
}

fn response_of(alloc: Global, reply: Reply) -> Option<HttpResponse>
    ensures { IfSome result (λ response. message_of response ≡ message_told reply) }
{
    let draft = draft_of(alloc, &reply)?;
    let Reply { body, .. } = reply;
    Some(draft.with_body(body))
}

// A reply with the id of its request, where it is to tell one.
fn with_id(alloc: Global, reply: Reply, id: Option<[u8; 16]>) -> Reply
    ensures status { result.status ≡ reply.status }
    ensures told { IsWithId id reply result }
{
    match id {
        Some(id) => with_request_id(alloc, reply, &id),
        None => reply,
    }
}

/// A reply that was released, to be told to a client. Proofs see beside it what stood under the lock as it was taken.
#[derive(Drop)]
pub(crate) struct Telling<L: Ledger, T: Trace> {
    released: Witnessed<Released, L, T>,
    /// The id of a request that is none of an event, where the reply is to tell it.
    id: Option<[u8; 16]>,
}

impl<L: Ledger, T: Trace> Telling<L, T> {
    pub(crate) fn new(released: Witnessed<Released, L, T>, id: Option<[u8; 16]>) -> Telling<L, T>
        ensures released { result.released ≡ released }
        ensures id { result.id ≡ id }
    {
        Telling { released, id }
    }
}

impl<L: Ledger, T: Trace> IntoResponse for Telling<L, T> {
    ghost use Rattle.http_front.specs.Telling.{TellsReply};

    // claim: A reply is told with its status, headers and bytes, as the hall gave it to the slot that asked, and at
    // most with its request's id more; or there is no response. [: tells; response_of; with_id: told; Replying: gives]
    ghost tells = { λ telling. TellsReply telling.id telling.released.answer.reply };

    fn into_response(self, alloc: Global) -> Option<HttpResponse> {
        let Telling { released, id } = self;
        let (released, _) = released.split();
        response_of(alloc, with_id(alloc, released.into_reply(), id))
    }
}

/// How a request is refused: in which words, to whom, and with which id, where one is told.
#[derive(Clone, Copy)]
pub(crate) struct Manner {
    pub(crate) dialect: Dialect,
    pub(crate) audience: Audience,
    pub(crate) id: Option<[u8; 16]>,
}

// The reply that tells of a refusal, as a response. None where memory is wanting.
#[tactic(auto, using(crate::proofs::Refusing::status_of))]
fn refusal_of(
    alloc: Global,
    settings: &Settings,
    manner: Manner,
    why: Refusal,
) -> Option<HttpResponse>
    ensures status { IfSome result (λ response. (message_of response).status ≡ (fault_of why).status) }
    ensures told { IfSome result (λ response.
        TellsReply manner.id (refusing manner.dialect settings.now manner.audience why) (message_of response)) }
{
    let answer = Answer::Refusal(manner.audience, why);
    let Ok(reply) = reply_text(alloc, manner.dialect, &answer, settings) else {
        return None;
    };
    response_of(alloc, with_id(alloc, reply, manner.id))
}

/// A refusal. Where memory is wanting, 503 alone.
#[tactic(auto, using(crate::proofs::Refusing::refuses))]
pub(crate) fn refuse(alloc: Global, settings: &Settings, manner: Manner, why: Refusal) -> Refused
    // claim: A refusal is told with its status, headers and bytes, at most with its request's id more, or as 503 alone.
    ensures { (result ≡ status_alone 503)
        ⊎ TellsReply manner.id (refusing manner.dialect settings.now manner.audience why) result }
{
    match refusal_of(alloc, settings, manner, why) {
        Some(response) => Refused::new(response),
        None => Refused::bare(alloc, StatusCode::SERVICE_UNAVAILABLE),
    }
}
