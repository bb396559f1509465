// What an operator is told, as a response.
ghost use Rattle.std.specs.Prelude.{◌≡◌, IfSome, OnSome};
ghost use Rattle.std.specs.Result.{result_ok};
ghost use Rattle.http_port.specs.Answering.{message_of, with_more};
ghost use Rattle.admin_port.specs.Replying.{TellsOfFault, head_told, message_told, next_told};

use admin_replies::AdminReply;
use bytes::Bytes;
use destination_json::id_text;
use http_port::{Draft, HttpResponse, IntoResponse};
use std::alloc::{AllocError, Global};

// Tells the id to go on after, where a list has more. None where memory is wanting.
fn add_next(alloc: Global, draft: &mut Draft, next: &Option<[u8; 16]>) -> Option<()>
    ensures { OnSome result (draft.new ≡ with_more draft.old (next_told next.now)) }
{
    let Some(id) = next else {
        return Some(());
    };
    let Ok(text) = id_text(alloc, id) else {
        return None;
    };
    draft.add("next-after", text.as_bytes())
}

// A reply but for its body. None where memory is wanting.
fn draft_of(alloc: Global, reply: &AdminReply) -> Option<Draft>
    ensures { IfSome result (λ draft. draft ≡ head_told reply.now) }
{
    let mut draft = Draft::new(alloc, reply.status)?;
    draft.add("content-type", reply.media.content_type().as_bytes())?;
    draft.add("cache-control", b"no-store")?;
    add_next(alloc, &mut draft, &reply.next)?;
    Some(draft)
}

/// A reply as a response. None where memory is wanting.
pub(crate) fn response_of(alloc: Global, reply: AdminReply) -> Option<HttpResponse>
    // claim: A reply is sent with its status and bytes, under the definition's headers. [add_next; draft_of; AdminResponse:
    // tells]
    ensures { IfSome result (λ response. message_of response ≡ message_told reply) }
{
    let draft = draft_of(alloc, &reply)?;
    let AdminReply { body, .. } = reply;
    let Ok(body) = Bytes::from_vec(body) else {
        return None;
    };
    Some(draft.with_body(body))
}

/// What an operator is told. None where memory is wanting.
#[derive(Drop)]
pub(crate) struct AdminResponse {
    pub(crate) reply: Option<AdminReply>,
}

impl IntoResponse for AdminResponse {
    ghost use Rattle.admin_port.specs.Replying.{IsMessageOf};

    ghost tells = { λ shown. IsMessageOf shown.reply };

    fn into_response(self, alloc: Global) -> Option<HttpResponse> {
        let AdminResponse { reply } = self;
        response_of(alloc, reply?)
    }
}

/// This reply, or none where memory was wanting.
pub(crate) fn told(reply: Result<AdminReply, AllocError>) -> AdminResponse
    ensures { result.reply ≡ result_ok reply }
{
    AdminResponse { reply: reply.ok() }
}

/// That the hall broke.
pub(crate) fn device_fault(alloc: Global) -> AdminResponse
    ensures { TellsOfFault result.reply }
{
    AdminResponse {
        reply: AdminReply::line(alloc, 503, "device fault").ok(),
    }
}

/// That the broker was not available for all records of a list.
pub(crate) fn unavailable(alloc: Global) -> AdminResponse
    ensures { TellsOfFault result.reply }
{
    AdminResponse {
        reply: AdminReply::line(
            alloc,
            503,
            "the broker is not available; of the list, some records may be collected",
        )
        .ok(),
    }
}
