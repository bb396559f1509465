// What a head says of who signed it.
ghost use Rattle.std.specs.Prelude.{◌≡◌, take, reverse, MatchOption};
ghost use Rattle.std.specs.List.{list_all};
ghost use Rattle.signed_requests.specs.Canonical.{skip_spaces, values_of};
ghost use Rattle.signed_requests.specs.Authorization.{without_spaces, behind, part_under, part_of, algorithm_off, three_parts, scope_in, scope_among, claim_among, claim_of_parts, claim_in, only, is_lower, is_there, comes_before, are_signed, has_name, are_good_names, stamped, names_checked, the_authorization, signed_in};
ghost use Rattle.signed_requests.specs.Steps.{slices, option_slice};
ghost use Rattle.signed_requests.specs.Claims.{scope_of, claim_of, signed_of};
ghost use Rattle.signed_requests.specs.Says.{Says};

use crate::claim::{Claim, Scope, Signed};
use crate::cutting::{after, before, parts_at};
use crate::headers::skip_spaces;
use crate::stamp::seconds_of;
use crate::{Fault, JudgeError, Refusal};
use http_header::HeaderMap;
use std::alloc::Global;

fn without_end_spaces(text: &[u8]) -> &[u8]
    ensures { reverse result.now ≡ skip_spaces (reverse text.now) }
{
    let mut rest = text;
    while let [more @ .., b' '] = rest {
        rest = more;
    }
    rest
}

fn without_spaces(text: &[u8]) -> &[u8]
    ensures { result.now ≡ without_spaces text.now }
{
    without_end_spaces(skip_spaces(text))
}

// What stands behind a name.
fn behind<'a>(text: &'a [u8], name: &[u8]) -> Option<&'a [u8]>
    ensures { option_slice result ≡ behind name.now text.entry.now }
{
    if text.starts_with(name) {
        return Some(&text[name.len()..]);
    }
    None
}

fn part_under<'a>(parts: &[&'a [u8]], name: &[u8]) -> Option<&'a [u8]>
    ensures { option_slice result ≡ part_under name.now (slices parts.now) }
{
    match parts {
        [] => None,
        [part, more @ ..] => {
            if let Some(value) = behind(without_spaces(part), name) {
                return Some(value);
            }
            part_under(more, name)
        }
    }
}

fn incomplete(fault: Fault) -> JudgeError
    ensures { result ≡ JudgeError.Refused (Refusal.IncompleteSignature fault) }
{
    JudgeError::Refused(Refusal::IncompleteSignature(fault))
}

fn needed<T>(value: Option<T>, fault: Fault) -> Result<T, JudgeError>
    ensures { MatchOption value (result ≡ Err (JudgeError.Refused (Refusal.IncompleteSignature fault))) (λ x. result ≡ Ok x) }
{
    match value {
        Some(x) => Ok(x),
        None => Err(incomplete(fault)),
    }
}

#[tactic(auto, unfolding(crate::specs::Authorization::part_of))]
fn part_of<'a>(parts: &[&'a [u8]], name: &[u8], fault: Fault) -> Result<&'a [u8], JudgeError>
    ensures { Says (λ part. part.now) (part_of name.now fault (slices parts.now)) result }
{
    needed(part_under(parts, name), fault)
}

#[tactic(auto, unfolding(crate::specs::Authorization::algorithm_off))]
fn algorithm_off(text: &[u8]) -> Result<&[u8], JudgeError>
    ensures { Says (λ rest. rest.now) (algorithm_off text.entry.now) result }
{
    needed(behind(text, b"AWS4-HMAC-SHA256 "), Fault::Algorithm)
}

#[tactic(auto, unfolding(crate::specs::Authorization::three_parts))]
fn three_parts(alloc: Global, text: &[u8]) -> Result<Vec<&[u8]>, JudgeError>
    ensures { Says (λ parts. slices parts.items) (three_parts text.entry.now) result }
{
    let parts = parts_at(alloc, text, b',')?;
    if parts.len() == 3 {
        return Ok(parts);
    }
    Err(incomplete(Fault::Parts))
}

#[tactic(auto, unfolding(crate::specs::Authorization::scope_in))]
fn scope_in(text: &[u8]) -> Result<Scope<'_>, JudgeError>
    ensures { Says scope_of (scope_in text.entry.now) result }
{
    let behind_key = after(text, b'/');
    let behind_day = after(behind_key, b'/');
    if after(behind_day, b'/') == b"lambda/aws4_request".as_slice() {
        return Ok(Scope {
            key: before(text, b'/'),
            day: before(behind_key, b'/'),
            region: before(behind_day, b'/'),
        });
    }
    Err(incomplete(Fault::Credential))
}

#[tactic(auto, unfolding(crate::specs::Authorization::scope_among))]
fn scope_among<'a>(parts: &[&'a [u8]]) -> Result<Scope<'a>, JudgeError>
    ensures { Says scope_of (scope_among (slices parts.now)) result }
{
    let credential = part_of(parts, b"Credential=", Fault::Credential)?;
    let scope = scope_in(credential)?;
    Ok(scope)
}

#[tactic(auto, unfolding(crate::specs::Authorization::claim_among))]
fn claim_among<'a>(parts: &[&'a [u8]], scope: Scope<'a>) -> Result<Claim<'a>, JudgeError>
    ensures { Says claim_of (claim_among (slices parts.now) (scope_of scope.entry)) result }
{
    let names = part_of(parts, b"SignedHeaders=", Fault::SignedHeaders)?;
    let signature = part_of(parts, b"Signature=", Fault::Signature)?;
    Ok(Claim {
        scope,
        names,
        signature,
    })
}

#[tactic(auto, unfolding(crate::specs::Authorization::claim_of_parts))]
fn claim_of_parts<'a>(parts: &[&'a [u8]]) -> Result<Claim<'a>, JudgeError>
    ensures { Says claim_of (claim_of_parts (slices parts.now)) result }
{
    let scope = scope_among(parts)?;
    let claim = claim_among(parts, scope)?;
    Ok(claim)
}

#[tactic(auto, unfolding(crate::specs::Authorization::claim_in))]
fn claim_in(alloc: Global, text: &[u8]) -> Result<Claim<'_>, JudgeError>
    ensures { Says claim_of (claim_in text.entry.now) result }
{
    let rest = algorithm_off(text)?;
    let parts = three_parts(alloc, rest)?;
    let claim = claim_of_parts(&parts)?;
    Ok(claim)
}

fn only<'a>(headers: &'a HeaderMap, name: &str) -> Option<&'a [u8]>
    ensures { option_slice result ≡ only (values_of headers.entry.now name.now) }
{
    let mut values = headers.get_all(name).iter();
    let value = values.next()?;
    if values.next().is_some() {
        return None;
    }
    Some(value.as_bytes())
}

fn is_lower(name: &[u8]) -> bool
    ensures { result ≡ list_all is_lower name.now }
{
    name.iter().all(|b| !(b'A' <= *b && *b <= b'Z'))
}

fn is_there(headers: &HeaderMap, name: &[u8]) -> bool
    ensures { result ≡ is_there headers.now name.now }
{
    headers.get_all(name).iter().next().is_some()
}

fn comes_before(name: &[u8], names: &[&[u8]]) -> bool
    ensures { result ≡ comes_before name.now (slices names.now) }
{
    match names {
        [] => true,
        [next, ..] => name.cmp(*next).is_lt(),
    }
}

fn are_signed(headers: &HeaderMap, names: &[&[u8]]) -> bool
    ensures { result ≡ are_signed headers.now (slices names.now) }
{
    match names {
        [] => true,
        [name, more @ ..] => {
            is_lower(name)
                && is_there(headers, name)
                && comes_before(name, more)
                && are_signed(headers, more)
        }
    }
}

fn has_name(name: &[u8], names: &[&[u8]]) -> bool
    ensures { result ≡ has_name name.now (slices names.now) }
{
    match names {
        [] => false,
        [first, more @ ..] => name == *first || has_name(name, more),
    }
}

fn are_good_names(headers: &HeaderMap, names: &[&[u8]]) -> bool
    ensures { result ≡ are_good_names headers.now (slices names.now) }
{
    are_signed(headers, names) && has_name(b"host", names) && has_name(b"x-amz-date", names)
}

// The day of a moment.
fn day_of(stamp: &[u8]) -> &[u8]
    ensures { result.now ≡ take 8 stamp.now }
{
    if stamp.len() < 8 {
        return stamp;
    }
    &stamp[..8]
}

#[tactic(auto, unfolding(crate::specs::Authorization::stamped))]
fn stamped<'a>(headers: &'a HeaderMap, claim: Claim<'a>) -> Result<Signed<'a>, JudgeError>
    ensures { Says signed_of (stamped headers.entry.now (claim_of claim.entry)) result }
{
    let stamp = needed(only(headers, "x-amz-date"), Fault::Date)?;
    let seconds = needed(seconds_of(stamp), Fault::Date)?;
    if day_of(stamp) == claim.scope.day {
        return Ok(Signed {
            claim,
            stamp,
            seconds,
        });
    }
    Err(incomplete(Fault::Credential))
}

#[tactic(auto, unfolding(crate::specs::Authorization::names_checked))]
fn names_checked<'a>(
    alloc: Global,
    headers: &HeaderMap,
    claim: Claim<'a>,
) -> Result<Claim<'a>, JudgeError>
    ensures { Says claim_of (names_checked headers.now (claim_of claim.entry)) result }
{
    let names = parts_at(alloc, claim.names, b';')?;
    if are_good_names(headers, &names) {
        return Ok(claim);
    }
    Err(incomplete(Fault::SignedHeaders))
}

#[tactic(auto, unfolding(crate::specs::Authorization::the_authorization))]
fn the_authorization(headers: &HeaderMap) -> Result<&[u8], JudgeError>
    ensures { Says (λ text. text.now) (the_authorization headers.entry.now) result }
{
    match only(headers, "authorization") {
        Some(text) => Ok(text),
        None => Err(JudgeError::Refused(Refusal::MissingAuthenticationToken)),
    }
}

/// What a head says of who signed it, or the first part that has not the form.
#[tactic(auto, unfolding(crate::specs::Authorization::signed_in))]
pub(crate) fn signed_in(alloc: Global, headers: &HeaderMap) -> Result<Signed<'_>, JudgeError>
    ensures { Says signed_of (signed_in headers.entry.now) result }
{
    let text = the_authorization(headers)?;
    let claim = claim_in(alloc, text)?;
    let good = names_checked(alloc, headers, claim)?;
    stamped(headers, good)
}
