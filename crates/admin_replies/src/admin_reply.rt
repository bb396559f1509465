// A reply of the operator's port.
ghost use Rattle.std.specs.Prelude.{◌≡◌, ◌++◌, ◌∷◌, [], IfOk, None};
ghost use Rattle.admin_replies.specs.Media.{content_type_of};

use std::alloc::{AllocError, Global};

/// What a body is.
#[derive(Clone, Copy)]
pub enum Media {
    Text,
    /// Prometheus' text format, version 0.0.4.
    Metrics,
    Json,
    /// A JSON text a line.
    Lines,
    Html,
}

impl Media {
    /// The value of the header `Content-Type`.
    pub fn content_type(self) -> &'static str
        ensures { result.now ≡ content_type_of self }
    {
        match self {
            Media::Text => "text/plain; charset=utf-8",
            Media::Metrics => "text/plain; version=0.0.4; charset=utf-8",
            Media::Json => "application/json",
            Media::Lines => "application/x-ndjson",
            Media::Html => "text/html; charset=utf-8",
        }
    }
}

/// A reply before it is sent.
#[derive(Drop)]
pub struct AdminReply {
    pub status: u16,
    pub media: Media,
    pub body: Vec<u8>,
    /// The id to go on after, where a list has more.
    pub next: Option<[u8; 16]>,
}

impl AdminReply {
    /// 200 with this body.
    pub(crate) fn shown(media: Media, body: Vec<u8>) -> AdminReply
        ensures status { result.status ≡ 200 }
        ensures body { result.body ≡ body }
        ensures next { result.next ≡ None }
    {
        AdminReply {
            status: 200,
            media,
            body,
            next: None,
        }
    }

    /// A status with this text.
    pub(crate) fn of(status: u16, body: Vec<u8>) -> AdminReply
        ensures status { result.status ≡ status }
        ensures body { result.body ≡ body }
    {
        AdminReply {
            status,
            media: Media::Text,
            body,
            next: None,
        }
    }

    /// A status with a line of text.
    pub fn line(alloc: Global, status: u16, words: &str) -> Result<AdminReply, AllocError>
        ensures status { IfOk result (λ reply. reply.status ≡ status) }
        ensures body { IfOk result (λ reply. reply.body.items ≡ words.now ++ 10 ∷ []) }
    {
        let mut body = Vec::from_slice(alloc, words.as_bytes())?;
        body.push(b'\n')?;
        Ok(AdminReply {
            status,
            media: Media::Text,
            body,
            next: None,
        })
    }
}
