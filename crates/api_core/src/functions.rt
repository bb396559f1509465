// Whether a request names the function.
ghost use Rattle.std.specs.Prelude.{◌≡◌, ◌≤◌, ◌==◌, ◌&&◌, ◌||◌, ◌++◌, ◌∷◌, length, not, map, take, IfOk, bytes_eq};
ghost use Rattle.std.specs.List.{before_first, after_first, position_or_len, list_all, list_any};
ghost use Rattle.percent_encoding.specs.Percent.{percent_decode};
ghost use Rattle.destination_json.specs.Record.{with_version};
ghost use Rattle.api_core.specs.Paths.{between_ands, pair_of, query_pairs};
ghost use Rattle.api_core.specs.Dialect.{is_colon, after_colon, account_of, both, short_arn, of_account, partial_names, is_function};
ghost use Rattle.api_core.specs.Requests.{is_good_pair};
ghost use Rattle.api_core.specs.Steps.{texts};

use crate::Dialect;
use crate::paths::{decodes_to, is_word, query_of};
use retry_rules::Settings;
use std::alloc::{AllocError, Global};

// Whether a part decodes to this name with the only version.
fn is_versioned(alloc: Global, part: &str, plain: &[u8]) -> Result<bool, AllocError>
    ensures { IfOk result (λ answer. answer ≡ bytes_eq (percent_decode part.now) (with_version plain.now)) }
{
    let mut versioned = Vec::from_slice(alloc, plain)?;
    versioned.extend_from_slice(b":$LATEST")?;
    Ok(decodes_to(part, &versioned))
}

// Whether a part decodes to this name, with or without the only version.
fn is_either(alloc: Global, part: &str, plain: &[u8]) -> Result<bool, AllocError>
    ensures { IfOk result (λ answer. answer ≡ list_any (bytes_eq (percent_decode part.now)) (both plain.now)) }
{
    if decodes_to(part, plain) {
        Ok(true)
    } else {
        is_versioned(alloc, part, plain)
    }
}

// Where the first colon stands, or the length of a text that has none.
fn colon_at(text: &[u8]) -> usize
    ensures place { result ≡ position_or_len is_colon text.now }
    ensures bound { result ≤ length text.now }
{
    match text {
        [] => 0,
        [first, rest @ ..] => {
            if *first == b':' {
                0
            } else {
                1 + colon_at(rest)
            }
        }
    }
}

fn after_colon(text: &[u8]) -> &[u8]
    ensures { result.now ≡ after_colon text.now }
{
    match text {
        [] => text,
        [first, rest @ ..] => {
            if *first == b':' {
                rest
            } else {
                after_colon(rest)
            }
        }
    }
}

/// The account of an ARN. It is empty where the ARN has none.
#[tactic(auto, unfolding(crate::specs::Dialect::account_of))]
pub(crate) fn account_of(arn: &[u8]) -> &[u8]
    ensures { result.now ≡ account_of arn.now }
{
    let account = after_colon(after_colon(after_colon(after_colon(arn))));
    &account[..colon_at(account)]
}

// The end of a partial ARN.
fn short_arn(alloc: Global, settings: &Settings) -> Result<Vec<u8>, AllocError>
    ensures { IfOk result (λ text. text.items ≡ short_arn settings.now) }
{
    let mut text = Vec::from_slice(alloc, b"function:")?;
    text.extend_from_slice(settings.name.as_bytes())?;
    Ok(text)
}

// Whether a part decodes to this name behind an account, where there is one.
fn is_of_account(
    alloc: Global,
    account: &[u8],
    short: &[u8],
    part: &str,
) -> Result<bool, AllocError>
    ensures { IfOk result (λ answer. answer ≡ list_any (bytes_eq (percent_decode part.now)) (of_account account.now short.now)) }
{
    if account.is_empty() {
        return Ok(false);
    }
    let mut plain = Vec::from_slice(alloc, account)?;
    plain.push(b':')?;
    plain.extend_from_slice(short)?;
    is_either(alloc, part, &plain)
}

// Whether a part decodes to a partial ARN of the function, in a dialect that has such.
fn is_partial(
    alloc: Global,
    dialect: Dialect,
    settings: &Settings,
    part: &str,
) -> Result<bool, AllocError>
    ensures { IfOk result (λ answer. answer ≡ list_any (bytes_eq (percent_decode part.now)) (partial_names dialect settings.now)) }
{
    match dialect {
        Dialect::Profile => Ok(false),
        Dialect::Aws => {
            let short = short_arn(alloc, settings)?;
            if is_either(alloc, part, &short)? {
                return Ok(true);
            }
            let account = account_of(settings.arn.as_bytes());
            if is_of_account(alloc, account, &short, part)? {
                return Ok(true);
            }
            is_of_account(alloc, account, settings.name.as_bytes(), part)
        }
    }
}

/// Whether a part of a path is the function's name or ARN, with or without its version, or in a dialect that has such, a
/// partial ARN or that name behind its account.
pub(crate) fn is_function(
    alloc: Global,
    dialect: Dialect,
    settings: &Settings,
    part: &str,
) -> Result<bool, AllocError>
    ensures { IfOk result (λ answer. answer ≡ is_function dialect settings.now (percent_decode part.now)) }
{
    if is_either(alloc, part, settings.name.as_bytes())? {
        return Ok(true);
    }
    if is_either(alloc, part, settings.arn.as_bytes())? {
        return Ok(true);
    }
    is_partial(alloc, dialect, settings, part)
}

fn name_of(pair: &str) -> &str
    ensures { result.now ≡ before_first (λ b. b == 61) pair.now }
{
    match pair.split_once('=') {
        Some((name, _)) => name,
        None => pair,
    }
}

fn value_of(pair: &str) -> &str
    ensures { result.now ≡ after_first (λ b. b == 61) pair.now }
{
    match pair.split_once('=') {
        Some((_, value)) => value,
        None => "",
    }
}

fn is_good(pair: &str) -> bool
    ensures { result ≡ is_good_pair (pair_of pair.now) }
{
    !is_word(name_of(pair), "Qualifier") || is_word(value_of(pair), "$LATEST")
}

/// Whether each qualifier of a target is the only version.
pub(crate) fn has_good_qualifier(target: &str) -> bool
    ensures { result ≡ list_all is_good_pair (query_pairs target.now) }
{
    query_of(target).split('&').all(is_good)
}
