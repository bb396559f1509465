// The key and the text that a signature is made of.
ghost use Rattle.std.specs.Prelude.{◌≡◌, IfOk};
ghost use Rattle.signed_requests.specs.Signing.{signing_key, string_to_sign};
ghost use Rattle.signed_requests.specs.Claims.{scope_of};

use crate::claim::Scope;
use crate::encoding::push_hex;
use crate::hmac::hmac_sha256;
use sha2::{Digest, Sha256};
use std::alloc::{AllocError, Global};

/// The key under which a secret signs on a day in a region.
#[tactic(auto, unfolding(crate::specs::Signing::signing_key))]
pub(crate) fn signing_key(
    alloc: Global,
    secret: &[u8],
    day: &[u8],
    region: &[u8],
) -> Result<[u8; 32], AllocError>
    ensures { IfOk result (λ key. key ≡ signing_key secret.now day.now region.now) }
{
    let mut start = Vec::from_slice(alloc, b"AWS4")?;
    start.extend_from_slice(secret)?;
    let by_day = hmac_sha256(&start, day);
    let by_region = hmac_sha256(&by_day, region);
    let by_service = hmac_sha256(&by_region, b"lambda");
    Ok(hmac_sha256(&by_service, b"aws4_request"))
}

/// How much room a string to sign mostly takes.
const ROOM: usize = 192;

/// The string to sign of a canonical request.
#[tactic(auto, unfolding(crate::specs::Signing::string_to_sign))]
pub(crate) fn string_to_sign(
    alloc: Global,
    stamp: &[u8],
    scope: Scope<'_>,
    request: &[u8],
) -> Result<Vec<u8>, AllocError>
    ensures { IfOk result (λ out. out.items ≡ string_to_sign stamp.now (scope_of scope.entry) request.now) }
{
    let mut out = Vec::with_capacity(alloc, ROOM)?;
    out.extend_from_slice(b"AWS4-HMAC-SHA256\n")?;
    out.extend_from_slice(stamp)?;
    out.extend_from_slice(b"\n")?;
    out.extend_from_slice(scope.day)?;
    out.extend_from_slice(b"/")?;
    out.extend_from_slice(scope.region)?;
    out.extend_from_slice(b"/lambda/aws4_request")?;
    out.extend_from_slice(b"\n")?;
    push_hex(&mut out, &Sha256::digest(request))?;
    Ok(out)
}
