// The canonical request.
ghost use Rattle.std.specs.Prelude.{◌≡◌, ◌++◌, codes, IfOk, OnOk};
ghost use Rattle.signed_requests.specs.Canonical.{canonical_path, canonical_request};
ghost use Rattle.signed_requests.specs.Requests.{request_of};

use crate::cutting::{before, parts_at};
use crate::encoding::{push_hex, push_parts};
use crate::headers::push_headers;
use crate::query::push_query;
use http_header::HeaderMap;
use sha2::{Digest, Sha256};
use std::alloc::{AllocError, Global};

/// A request: the target is a path and, behind a `?`, a query, as the request line has them.
#[derive(Clone, Copy)]
pub struct Request<'a> {
    pub method: &'a [u8],
    pub target: &'a [u8],
    pub headers: &'a HeaderMap,
    pub body: &'a [u8],
}

/// How much room a canonical request mostly takes.
const ROOM: usize = 960;

#[tactic(auto, unfolding(crate::specs::Canonical::canonical_path))]
fn push_path(out: &mut Vec<u8>, target: &[u8]) -> Result<(), AllocError>
    ensures { OnOk result (out.new.items ≡ out.old.items ++ canonical_path target.now) }
{
    match before(target, b'?') {
        [] => push_parts(out, b"/"),
        path => push_parts(out, path),
    }
}

fn end_line(out: &mut Vec<u8>) -> Result<(), AllocError>
    ensures { OnOk result (out.new.items ≡ out.old.items ++ codes "\n") }
{
    out.extend_from_slice(b"\n")
}

/// The canonical request of a request whose signed headers are these names, joined by `;`.
#[tactic(auto, unfolding(crate::specs::Canonical::canonical_request))]
pub(crate) fn canonical_request(
    alloc: Global,
    request: &Request<'_>,
    signed: &[u8],
) -> Result<Vec<u8>, AllocError>
    ensures { IfOk result (λ out. out.items ≡ canonical_request (request_of request.now) signed.now) }
{
    let names = parts_at(alloc, signed, b';')?;
    let mut out = Vec::with_capacity(alloc, ROOM)?;
    out.extend_from_slice(request.method)?;
    end_line(&mut out)?;
    push_path(&mut out, request.target)?;
    end_line(&mut out)?;
    push_query(alloc, &mut out, request.target)?;
    end_line(&mut out)?;
    push_headers(&mut out, request.headers, &names)?;
    end_line(&mut out)?;
    out.extend_from_slice(signed)?;
    end_line(&mut out)?;
    push_hex(&mut out, &Sha256::digest(request.body))?;
    Ok(out)
}
