// Whether a request is that of a key that may ask it.
ghost use Rattle.std.specs.Prelude.{◌≡◌, ◌<◌, ◌^◌, true, Some, IfOk, OnOk, IsOkUnless};
ghost use Rattle.signed_requests.specs.Rights.{has_right};
ghost use Rattle.signed_requests.specs.Keys.{Entry, key_named};
ghost use Rattle.signed_requests.specs.Signing.{signature_under, IsSignedBy};
ghost use Rattle.signed_requests.specs.Says.{Says};
ghost use Rattle.signed_requests.specs.Steps.{option_slice};
ghost use Rattle.signed_requests.specs.Claims.{signed_of};
ghost use Rattle.signed_requests.specs.Askers.{asker_of};
ghost use Rattle.signed_requests.specs.Entries.{entries_of};
ghost use Rattle.signed_requests.specs.Requests.{request_of};
ghost use Rattle.signed_requests.specs.Judging.{is_placed, current, asker_in, head_judged, checked, judged, IsAskedBy};

use crate::authorization::signed_in;
use crate::canonical::canonical_request;
use crate::claim::Signed;
use crate::comparing::is_same;
use crate::encoding::push_hex;
use crate::hmac::hmac_sha256;
use crate::keys::key_named;
use crate::signing::string_to_sign;
use crate::{DerivedKeys, Fault, JudgeError, Key, Refusal, Request, Right};
use http_header::HeaderMap;
use std::alloc::{AllocError, Global};

/// How far the moment of a signature may lie from that of its judgement, in milliseconds.
const WINDOW: u64 = 5 * 60 * SECOND;

/// A second in milliseconds.
const SECOND: u64 = 1000;

/// Who asks, by the head.
#[derive(Clone, Copy)]
struct Asker<'a> {
    said: Signed<'a>,
    key: &'a Key,
}

fn is_placed(region: Option<&[u8]>, said: &[u8]) -> bool
    ensures { result ≡ is_placed (option_slice region.entry) said.now }
{
    match region {
        None => true,
        Some(this) => said == this,
    }
}

fn current(signed: u64, now: u64) -> Result<(), Refusal>
    requires { signed < 2 ^ 60 }
    ensures { result ≡ current signed now }
{
    if signed + WINDOW < now {
        return Err(Refusal::SignatureExpired { signed, now });
    }
    if now < signed.saturating_sub(WINDOW) {
        return Err(Refusal::SignatureNotYetCurrent { signed, now });
    }
    Ok(())
}

fn refused(why: Refusal) -> JudgeError
    ensures { result ≡ JudgeError.Refused why }
{
    JudgeError::Refused(why)
}

// Who asks, or the first check that refuses the head.
#[tactic(auto, unfolding(crate::specs::Judging::asker_in))]
fn asker_in<'a>(
    alloc: Global,
    keys: &'a [Key],
    right: Right,
    region: Option<&[u8]>,
    now: u64,
    headers: &'a HeaderMap,
) -> Result<Asker<'a>, JudgeError>
    ensures { Says asker_of (asker_in (entries_of keys.entry.now) right (option_slice region.entry) now headers.entry.now) result }
{
    let said = signed_in(alloc, headers)?;
    if !is_placed(region, said.claim.scope.region) {
        return Err(refused(Refusal::IncompleteSignature(Fault::Region)));
    }
    let Some(key) = key_named(keys, said.claim.scope.key) else {
        return Err(refused(Refusal::UnrecognizedClient));
    };
    if let Err(why) = current(SECOND * said.seconds, now) {
        return Err(refused(why));
    }
    if !key.rights.has(right) {
        return Err(refused(Refusal::AccessDenied));
    }
    Ok(Asker { said, key })
}

/// Judges a head: whether it names a key of these that has the right, at a moment within five minutes of this one, in
/// milliseconds since 1970. The body need not be there yet; the signature is not judged.
///
/// The region is that of the function's ARN, where it has one. The first check that fails is told, in the order of `Refusal`.
#[tactic(auto, unfolding(crate::specs::Judging::head_judged))]
pub fn judge_head(
    alloc: Global,
    keys: &[Key],
    right: Right,
    region: Option<&[u8]>,
    now: u64,
    headers: &HeaderMap,
) -> Result<(), JudgeError>
    // claim: A head is taken just where it has the form, names a key of the list with the right, and is of a moment within
    // the window; else the first failing check is told.
    ensures { Says (λ _. tt) (head_judged (entries_of keys.now) right (option_slice region.entry) now headers.now) result }
{
    asker_in(alloc, keys, right, region, now, headers)?;
    Ok(())
}

// The signature of a request under a signing key.
#[tactic(auto, unfolding(crate::specs::Signing::signature_under))]
fn signature_under(
    alloc: Global,
    key: &[u8; 32],
    said: Signed<'_>,
    request: &Request<'_>,
) -> Result<Vec<u8>, AllocError>
    ensures { IfOk result (λ signature. signature.items ≡ signature_under key.now (signed_of said.entry) (request_of request.now)) }
{
    let canonical = canonical_request(alloc, request, said.claim.names)?;
    let text = string_to_sign(alloc, said.stamp, said.claim.scope, &canonical)?;
    let mut signature = Vec::with_capacity(alloc, 64)?;
    push_hex(&mut signature, &hmac_sha256(key, &text))?;
    Ok(signature)
}

// Whether the signature is that of the request.
fn check_signature(
    alloc: Global,
    derived: &mut DerivedKeys,
    asker: Asker<'_>,
    request: &Request<'_>,
) -> Result<(), JudgeError>
    ensures { Says (λ _. tt) (checked (request_of request.now) (asker_of asker.entry)) result }
{
    let secret = asker.key.secret.as_slice();
    let scope = asker.said.claim.scope;
    let key = derived.key_for(alloc, secret, scope.day, scope.region)?;
    let signature = signature_under(alloc, &key, asker.said, request)?;
    if !is_same(asker.said.claim.signature, &signature) {
        return Err(refused(Refusal::InvalidSignature));
    }
    let _ = derived.keep(alloc, secret, scope.day, scope.region, key);
    Ok(())
}

#[tactic(auto, unfolding(crate::specs::Judging::judged))]
fn judge_all(
    alloc: Global,
    derived: &mut DerivedKeys,
    keys: &[Key],
    right: Right,
    region: Option<&[u8]>,
    now: u64,
    request: &Request<'_>,
) -> Result<(), JudgeError>
    ensures { Says (λ _. tt) (judged (entries_of keys.now) right (option_slice region.entry) now (request_of request.now)) result }
{
    let asker = asker_in(alloc, keys, right, region, now, request.headers)?;
    check_signature(alloc, derived, asker, request)?;
    Ok(())
}

/// Judges a request: whether one of these keys signed it that has the right, at a moment within five minutes of this one, in
/// milliseconds since 1970.
///
/// The region is that of the function's ARN, where it has one. The first check that fails is told, in the order of `Refusal`.
/// The key that is derived of a secret for a day and a region is kept once it signed a request, so that the next one derives
/// nothing; that it could not be kept for want of memory is no refusal.
pub fn judge(
    alloc: Global,
    derived: &mut DerivedKeys,
    keys: &[Key],
    right: Right,
    region: Option<&[u8]>,
    now: u64,
    request: &Request<'_>,
) -> Result<(), JudgeError>
    // claim: A request is taken, or refused by the first failing check, as the definitions have it, or refused for want of memory.
    ensures verdict { Says (λ _. tt) (judged (entries_of keys.now) right (option_slice region.entry) now (request_of request.now)) result }
    // claim: What is taken was signed by a key of the list that has the right, at a moment within the window.
    ensures asked { OnOk result (IsAskedBy (entries_of keys.now) right (option_slice region.entry) now (request_of request.now)) }
    // claim: What a key of the list that has the right signed within the window is taken, unless memory runs out.
    ensures taken { (key : Entry) → key_named key.access (entries_of keys.now) ≡ Some key → has_right key.rights right ≡ true
        → IsSignedBy key.access key.secret (option_slice region.entry) now (request_of request.now) → IsOkUnless result JudgeError.OutOfMemory }
{
    judge_all(alloc, derived, keys, right, region, now, request)
}
