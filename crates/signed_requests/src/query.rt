// The canonical query.
ghost use Rattle.std.specs.Prelude.{◌≡◌, ◌∷◌, ◌++◌, map, IfOk, OnOk};
ghost use Rattle.std.specs.List.{flat_map, join_with_byte};
ghost use Rattle.percent_encoding.specs.Percent.{percent_decode};
ghost use Rattle.signed_requests.specs.Encoding.{uri_encode};
ghost use Rattle.signed_requests.specs.Canonical.{encoded_pair, in_order, pair_text, query_pairs, canonical_query};
ghost use Rattle.signed_requests.specs.Pairs.{pair_of, pairs_of};

use crate::cutting::{after, before, parts_at};
use crate::encoding::push_encoded;
use percent_encoding::percent_decode;
use std::alloc::{AllocError, Global};

/// A pair of a query, encoded.
#[derive(PartialEq, Eq, PartialOrd, Ord, Drop)]
struct Pair {
    name: Vec<u8>,
    value: Vec<u8>,
}

// What escapes stand for, encoded as it is signed.
fn encoded_again(alloc: Global, text: &[u8]) -> Result<Vec<u8>, AllocError>
    ensures { IfOk result (λ out. out.items ≡ uri_encode (percent_decode text.now)) }
{
    let mut bytes = Vec::new(alloc);
    percent_decode(text).append_to(&mut bytes)?;
    let mut out = Vec::new(alloc);
    push_encoded(&mut out, &bytes)?;
    Ok(out)
}

fn read_pair(alloc: Global, text: &[u8]) -> Result<Pair, AllocError>
    ensures { IfOk result (λ pair. pair_of pair ≡ encoded_pair text.now) }
{
    let name = encoded_again(alloc, before(text, b'='))?;
    let value = encoded_again(alloc, after(text, b'='))?;
    Ok(Pair { name, value })
}

fn read_pairs(alloc: Global, query: &[u8]) -> Result<Vec<Pair>, AllocError>
    ensures { IfOk result (λ pairs. pairs_of pairs.items ≡ query_pairs query.now) }
{
    let mut pairs = Vec::new(alloc);
    if query.is_empty() {
        return Ok(pairs);
    }
    let parts = parts_at(alloc, query, b'&')?;
    for part in &parts {
        pairs.push(read_pair(alloc, part)?)?;
    }
    Ok(pairs)
}

// The pairs in the order in which they are signed.
fn ordered_pairs(alloc: Global, query: &[u8]) -> Result<Vec<Pair>, AllocError>
    ensures { IfOk result (λ pairs. pairs_of pairs.items ≡ in_order (query_pairs query.now)) }
{
    let mut pairs = read_pairs(alloc, query)?;
    pairs.sort()?;
    Ok(pairs)
}

fn push_pair(out: &mut Vec<u8>, pair: &Pair) -> Result<(), AllocError>
    ensures { OnOk result (out.new.items ≡ out.old.items ++ pair_text (pair_of pair.now)) }
{
    out.extend_from_slice(&pair.name)?;
    out.push(b'=')?;
    out.extend_from_slice(&pair.value)
}

// Pairs behind others.
fn push_more(out: &mut Vec<u8>, pairs: &[Pair]) -> Result<(), AllocError>
    ensures { OnOk result (out.new.items ≡ out.old.items ++ flat_map (λ p. 38 ∷ pair_text (pair_of p)) pairs.now) }
{
    for pair in pairs {
        out.push(b'&')?;
        push_pair(out, pair)?;
    }
    Ok(())
}

fn push_pairs(out: &mut Vec<u8>, pairs: &[Pair]) -> Result<(), AllocError>
    ensures { OnOk result (out.new.items ≡ out.old.items ++ join_with_byte 38 (map pair_text (pairs_of pairs.now))) }
{
    let Some((first, more)) = pairs.split_first() else {
        return Ok(());
    };
    push_pair(out, first)?;
    push_more(out, more)?;
    Ok(())
}

/// Puts the canonical query of a target behind a text: its pairs encoded, in the order of names and values.
#[tactic(auto, unfolding(crate::specs::Canonical::canonical_query))]
pub(crate) fn push_query(alloc: Global, out: &mut Vec<u8>, target: &[u8]) -> Result<(), AllocError>
    ensures { OnOk result (out.new.items ≡ out.old.items ++ canonical_query target.now) }
{
    let pairs = ordered_pairs(alloc, after(target, b'?'))?;
    push_pairs(out, &pairs)
}
