// The headers of a reply, written one by one.
ghost use Rattle.std.specs.Prelude.{◌≡◌, ◌++◌, ◌∷◌, [], true, IfOk, OnOk};
ghost use Rattle.api_core.specs.Reply.{pairs};
ghost use Rattle.api_core.specs.Steps.{AddsHeader};
ghost use Rattle.api_core.specs.Replies.{bare, with_json};

use crate::reply::Header;
use crate::{Headers, Reply};
use bytes::Bytes as SharedBytes;
use invoke_records::Bytes;
use std::alloc::{AllocError, Global};

/// The headers that were written, and whether all are there: they are not once memory was wanting.
#[derive(Drop)]
pub(crate) struct HeaderDraft {
    alloc: Global,
    list: Vec<Header>,
    is_whole: bool,
}

impl HeaderDraft {
    pub(crate) fn new(alloc: Global) -> HeaderDraft
        ensures { pairs result.list.items ≡ [] }
    {
        HeaderDraft {
            alloc,
            list: Vec::new(alloc),
            is_whole: true,
        }
    }

    fn try_add(&mut self, name: &'static str, value: &[u8]) -> Result<(), AllocError>
        ensures whole { self.new.is_whole ≡ self.old.is_whole }
        ensures ok { OnOk result (pairs self.new.list.items ≡ pairs self.old.list.items ++ (name.now, value.now) ∷ []) }
    {
        let value = Bytes::from_slice(self.alloc, value)?;
        self.list.push(Header { name, value })?;
        Ok(())
    }

    /// A further header.
    pub(crate) fn add(&mut self, name: &'static str, value: &[u8])
        ensures { AddsHeader name.now value.now self.old self.new }
    {
        if self.try_add(name, value).is_err() {
            self.is_whole = false;
        }
    }

    fn end(self) -> Result<Headers, AllocError>
        ensures { IfOk result (λ headers. (self.is_whole ≡ true) × (headers ≡ pairs self.list.items)) }
    {
        let HeaderDraft { list, is_whole, .. } = self;
        if is_whole {
            Ok(Headers::from_list(list))
        } else {
            Err(AllocError)
        }
    }

    /// The reply with these headers and no body.
    pub(crate) fn bare(self, status: u16) -> Result<Reply, AllocError>
        ensures { IfOk result (λ reply. (self.is_whole ≡ true) × (reply ≡ bare status (pairs self.list.items))) }
    {
        let headers = self.end()?;
        Ok(Reply {
            status,
            headers,
            body: SharedBytes::new(),
        })
    }

    /// The reply with these headers and a JSON text, whose type is told by a last header.
    pub(crate) fn with_json(mut self, status: u16, text: Vec<u8>) -> Result<Reply, AllocError>
        ensures { IfOk result (λ reply. (self.is_whole ≡ true) × (reply ≡ with_json status (pairs self.list.items) text.items)) }
    {
        self.add("Content-Type", b"application/json");
        let headers = self.end()?;
        let body = Bytes::from_vec(text)?.into_shared();
        Ok(Reply {
            status,
            headers,
            body,
        })
    }
}
