// What a port answers with.
ghost use Rattle.std.specs.Prelude.{◌≡◌, ◌≤◌, ◌⊎◌, IfSome};
ghost use Rattle.http_header.specs.HeaderMap.{insert};
ghost use Rattle.http_port.specs.Answering.{Message, message_of, status_alone, IsJson, IsTold, IsSent};

use crate::draft::response_of;
use bytes::Bytes;
use http::header::HeaderMap;
use http::response::Parts;
use http::{HeaderName, HeaderValue, header};
use http_body_util::Full;
use hyper::{Response, StatusCode};
use std::alloc::Global;
use std::marker::Model;

/// The body of a response.
pub type Body = Full<Bytes>;

/// What a port answers with.
pub type HttpResponse = Response<Body>;

/// What may be told to a client.
pub trait IntoResponse: Drop {
    // Holds of what is told and of each message that tells it: status, headers and bytes.
    ghost tells: { Self → Message → Type 0 };

    /// The response that tells it. None where memory is wanting.
    fn into_response(self, alloc: Global) -> Option<HttpResponse>
        // claim: The response to what is told tells it, or is 503 alone. [: told; tell]
        ensures told { IfSome result (λ response. tells self (message_of response)) };
}

/// A refusal: a response with a status of 400 or above. Contracts see it as all that it tells.
#[derive(Drop)]
pub struct Refused {
    response: HttpResponse,
}

impl Model for Refused {
    ghost use Rattle.std.specs.Prelude.{◌≤◌};
    ghost use Rattle.http_port.specs.Answering.{Message, message_of};

    ghost Value = { Message };

    ghost view = { λ refused. message_of refused.response };

    ghost invariant = { λ refused. 400 ≤ (message_of refused.response).status };
}

impl Refused {
    /// A refusal with this response, whose status is one that refuses.
    pub fn new(response: HttpResponse) -> Refused
        requires { 400 ≤ (message_of response).status }
        // claim: A refusal has a status of 400 or above, and its response is as it was made. [Refused::bare;
        // Refused::into_response: same, refuses; Refused: invariant; Refused::late]
        ensures { result ≡ message_of response }
    {
        Refused { response }
    }

    /// A status alone.
    pub fn bare(alloc: Global, status: StatusCode) -> Refused
        requires { 400 ≤ status }
        ensures { result ≡ status_alone status }
    {
        let mut head = Parts::new(alloc);
        head.status = status;
        Refused::new(response_of(head, Bytes::new()))
    }

    /// A refusal with a text of JSON. Where there is no memory to say that it is that, the text comes all the same.
    pub(crate) fn json(alloc: Global, status: StatusCode, text: &'static str) -> Refused
        requires { 400 ≤ status }
        ensures { IsJson status text.now result }
    {
        let mut head = Parts::new(alloc);
        head.status = status;
        let json = HeaderValue::from_static("application/json");
        set(&mut head.headers, header::CONTENT_TYPE, json);
        Refused::new(response_of(head, Bytes::from_static(text.as_bytes())))
    }

    /// What a client is told whose body has not come in time. Its connection ends then, as each whose body was not read to its
    /// end.
    pub(crate) fn late(alloc: Global) -> Refused
        ensures { result ≡ status_alone 408 }
    {
        Refused::bare(alloc, StatusCode::REQUEST_TIMEOUT)
    }

    /// Its response.
    pub fn into_response(self) -> HttpResponse
        ensures same { message_of result ≡ self }
        ensures refuses { 400 ≤ (message_of result).status }
    {
        let Refused { response } = self;
        response
    }
}

// Sets a header to one value. Where there is no memory for it, it stays as it was.
fn set(headers: &mut HeaderMap, name: HeaderName, value: HeaderValue)
    ensures { (headers.new ≡ insert headers.old name value) ⊎ (headers.new ≡ headers.old) }
{
    let _ = headers.insert(name, value);
}

/// A response that says that it is the last of its connection. Where there is no memory to say so, it is that all the same.
pub(crate) fn say_last(answered: HttpResponse) -> HttpResponse
    ensures { IsSent (message_of answered) (message_of result) }
{
    let (mut head, body) = answered.into_parts();
    let close = HeaderValue::from_static("close");
    set(&mut head.headers, header::CONNECTION, close);
    Response::from_parts(head, body)
}

/// The response of what is told. Where memory is wanting, 503 alone.
pub(crate) fn tell<T: IntoResponse>(alloc: Global, told: T) -> HttpResponse
    ensures { IsTold T.tells told (message_of result) }
{
    match told.into_response(alloc) {
        Some(response) => response,
        None => Refused::bare(alloc, StatusCode::SERVICE_UNAVAILABLE).into_response(),
    }
}
