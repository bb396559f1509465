// A response as it is made.
ghost use Rattle.std.specs.Prelude.{◌≡◌, IfSome, OnSome};
ghost use Rattle.http_port.specs.Answering.{message, message_of, status_alone, with_bytes, with_more};

use crate::answering::HttpResponse;
use bytes::Bytes;
use http::response::Parts;
use http::{HeaderName, HeaderValue};
use http_body_util::Full;
use hyper::{Response, StatusCode};
use std::alloc::Global;
use std::marker::Model;

/// A response as it is made, header by header. Contracts see it as what it tells so far: it has no body.
#[derive(Drop)]
pub struct Draft {
    alloc: Global,
    head: Parts,
}

impl Model for Draft {
    ghost use Rattle.std.specs.Prelude.{[]};
    ghost use Rattle.http_port.specs.Answering.{Message, message};

    ghost Value = { Message };

    ghost view = { λ draft. message draft.head.status draft.head.headers [] };
}

impl Draft {
    ghost use Rattle.std.specs.Prelude.{◌∷◌, []};

    /// One with this status. None where it is none.
    pub fn new(alloc: Global, status: u16) -> Option<Draft>
        ensures { IfSome result (λ draft. draft ≡ status_alone status) }
    {
        let Ok(status) = StatusCode::from_u16(status) else {
            return None;
        };
        let mut head = Parts::new(alloc);
        head.status = status;
        Some(Draft { alloc, head })
    }

    /// One more header, behind the others. None where it is none, or memory is wanting.
    pub fn add(&mut self, name: &str, value: &[u8]) -> Option<()>
        ensures added { OnSome result (self.new ≡ with_more self.old ((name.now, value.now) ∷ [])) }
    {
        let Ok(name) = HeaderName::from_bytes(self.alloc, name.as_bytes()) else {
            return None;
        };
        let Ok(value) = HeaderValue::from_bytes(self.alloc, value) else {
            return None;
        };
        match self.head.headers.append(name, value) {
            Ok(_) => Some(()),
            Err(_) => None,
        }
    }

    /// The response with this body.
    pub fn with_body(self, body: Bytes) -> HttpResponse
        ensures { message_of result ≡ with_bytes self body }
    {
        let Draft { alloc: _, head } = self;
        response_of(head, body)
    }
}

/// The response with this head and this body.
pub(crate) fn response_of(head: Parts, body: Bytes) -> HttpResponse
    ensures { message_of result ≡ message head.status head.headers body }
{
    Response::from_parts(head, Full::new(body))
}
