// A reply before it is sent.
ghost use Rattle.std.specs.Prelude.{◌≡◌, bytes_eq};
ghost use Rattle.std.specs.List.{list_any};
ghost use Rattle.api_core.specs.Reply.{pairs, fixed_pairs};

use bytes::Bytes as SharedBytes;
use invoke_records::Bytes;
use std::alloc::{AllocError, Global};
use std::marker::Model;

/// A name and a value. The value is bytes, since an ARN is.
#[derive(Drop)]
pub(crate) struct Header {
    pub(crate) name: &'static str,
    pub(crate) value: Bytes,
}

/// A header that stands in the program, so that it takes no memory.
#[derive(Clone, Copy)]
pub(crate) struct FixedHeader {
    pub(crate) name: &'static str,
    pub(crate) value: &'static [u8],
}

/// The headers of a reply, in their order: each a name and a value.
#[derive(Drop)]
pub struct Headers {
    fixed: &'static [FixedHeader],
    /// Behind those.
    list: Vec<Header>,
}

impl Model for Headers {
    ghost use Rattle.std.specs.Prelude.{List, ℕ, ◌++◌};
    ghost use Rattle.api_core.specs.Reply.{pairs, fixed_pairs};

    ghost Value = { List (List ℕ × List ℕ) };

    ghost view = { λ headers. fixed_pairs headers.fixed.now ++ pairs headers.list.items };
}

fn has_fixed(list: &[FixedHeader], name: &str) -> bool
    ensures { result ≡ list_any (λ h. bytes_eq h.0 name.now) (fixed_pairs list.now) }
{
    match list {
        [] => false,
        [header, more @ ..] => header.name == name || has_fixed(more, name),
    }
}

fn has_name(list: &[Header], name: &str) -> bool
    ensures { result ≡ list_any (λ h. bytes_eq h.0 name.now) (pairs list.now) }
{
    match list {
        [] => false,
        [header, more @ ..] => header.name == name || has_name(more, name),
    }
}

impl Headers {
    ghost use Rattle.std.specs.Prelude.{◌⊎◌, ◌++◌, ◌∷◌, [], length, option_map, slice_get, OnOk, OnErr};

    pub(crate) fn from_list(list: Vec<Header>) -> Headers
        ensures { result ≡ pairs list.items }
    {
        Headers { fixed: &[], list }
    }

    /// These alone. It takes no memory.
    pub(crate) fn from_fixed(alloc: Global, fixed: &'static [FixedHeader]) -> Headers
        ensures { result ≡ fixed_pairs fixed.now }
    {
        Headers {
            fixed,
            list: Vec::new(alloc),
        }
    }

    /// Whether one has this name.
    pub(crate) fn has(&self, name: &str) -> bool
        ensures { result ≡ list_any (λ h. bytes_eq h.0 name.now) self.now }
    {
        has_fixed(self.fixed, name) || has_name(&self.list, name)
    }

    /// One more, behind the others.
    pub(crate) fn try_add(
        &mut self,
        alloc: Global,
        name: &'static str,
        value: &[u8],
    ) -> Result<(), AllocError>
        ensures ok { OnOk result (self.new ≡ self.old ++ (name.now, value.now) ∷ []) }
        ensures err { OnErr result (self.new ≡ self.old) }
    {
        let value = Bytes::from_slice(alloc, value)?;
        self.list.push(Header { name, value })?;
        Ok(())
    }

    /// One more, behind the others. Where memory is wanting there is none.
    pub(crate) fn add(&mut self, alloc: Global, name: &'static str, value: &[u8])
        ensures { (self.new ≡ self.old ++ (name.now, value.now) ∷ []) ⊎ (self.new ≡ self.old) }
    {
        let _ = self.try_add(alloc, name, value);
    }

    /// How many there are.
    pub fn len(&self) -> usize
        ensures { result ≡ length self.now }
    {
        self.fixed.len() + self.list.len()
    }

    /// The name and the value at a place, counted from 0.
    pub fn get(&self, place: usize) -> Option<(&str, &[u8])>
        ensures { option_map (λ h. (h.0.now, h.1.now)) result ≡ slice_get self.now place }
    {
        let first = self.fixed.len();
        if place < first {
            let header = self.fixed[place];
            return Some((header.name, header.value));
        }
        match self.list.get(place - first) {
            Some(header) => Some((header.name, header.value.as_slice())),
            None => None,
        }
    }
}

/// A status, headers and a body. `Content-Length` is added by what sends it.
#[derive(Drop)]
pub struct Reply {
    pub status: u16,
    pub headers: Headers,
    pub body: SharedBytes,
}

impl Reply {
    /// One whose headers and body stand in the program. It takes no memory.
    pub(crate) fn fixed(
        alloc: Global,
        status: u16,
        headers: &'static [FixedHeader],
        body: &'static [u8],
    ) -> Reply
        ensures { result ≡ record { status = status; headers = fixed_pairs headers.now; body = body.now } }
    {
        Reply {
            status,
            headers: Headers::from_fixed(alloc, headers),
            body: SharedBytes::from_static(body),
        }
    }
}
