// The canonical headers.
ghost use Rattle.std.specs.Prelude.{◌≡◌, ◌∷◌, ◌++◌, map, OnOk};
ghost use Rattle.std.specs.List.{flat_map, join_with_byte};
ghost use Rattle.signed_requests.specs.Canonical.{skip_spaces, ends_or_spaces, single_spaced, trim_all, values_of, canonical_header};
ghost use Rattle.signed_requests.specs.Steps.{slices};

use http_header::{HeaderMap, HeaderValue, ValueIter};
use std::alloc::AllocError;

/// What is left behind the spaces in front.
pub(crate) fn skip_spaces(text: &[u8]) -> &[u8]
    ensures { result.now ≡ skip_spaces text.now }
{
    let mut rest = text;
    while let [b' ', more @ ..] = rest {
        rest = more;
    }
    rest
}

fn ends_or_spaces(text: &[u8]) -> bool
    ensures { result ≡ ends_or_spaces text.now }
{
    match text {
        [] => true,
        [b, ..] => *b == b' ',
    }
}

fn push_single_spaced(out: &mut Vec<u8>, text: &[u8]) -> Result<(), AllocError>
    ensures { OnOk result (out.new.items ≡ out.old.items ++ single_spaced text.now) }
{
    let mut rest = text;
    while let [b, more @ ..] = rest {
        if *b != b' ' || !ends_or_spaces(more) {
            out.push(*b)?;
        }
        rest = more;
    }
    Ok(())
}

// A value, trimmed as it is signed.
fn push_trimmed(out: &mut Vec<u8>, value: &[u8]) -> Result<(), AllocError>
    ensures { OnOk result (out.new.items ≡ out.old.items ++ trim_all value.now) }
{
    push_single_spaced(out, skip_spaces(value))
}

// Values behind others.
fn push_more(out: &mut Vec<u8>, values: ValueIter<'_, HeaderValue>) -> Result<(), AllocError>
    ensures { OnOk result (out.new.items ≡ out.old.items ++ flat_map (λ v. 44 ∷ trim_all v.bytes) values.entry) }
{
    for value in values {
        out.push(b',')?;
        push_trimmed(out, value.as_bytes())?;
    }
    Ok(())
}

// The values of a header, joined by commas.
fn push_values(out: &mut Vec<u8>, headers: &HeaderMap, name: &[u8]) -> Result<(), AllocError>
    ensures { OnOk result (out.new.items ≡ out.old.items ++ join_with_byte 44 (map trim_all (values_of headers.now name.now))) }
{
    let mut values = headers.get_all(name).iter();
    let Some(first) = values.next() else {
        return Ok(());
    };
    push_trimmed(out, first.as_bytes())?;
    push_more(out, values)?;
    Ok(())
}

#[tactic(auto, unfolding(crate::specs::Canonical::canonical_header))]
fn push_header(out: &mut Vec<u8>, headers: &HeaderMap, name: &[u8]) -> Result<(), AllocError>
    ensures { OnOk result (out.new.items ≡ out.old.items ++ canonical_header headers.now name.now) }
{
    out.extend_from_slice(name)?;
    out.push(b':')?;
    push_values(out, headers, name)?;
    out.push(b'\n')?;
    Ok(())
}

/// Puts the canonical headers of these names behind a text.
pub(crate) fn push_headers(
    out: &mut Vec<u8>,
    headers: &HeaderMap,
    names: &[&[u8]],
) -> Result<(), AllocError>
    ensures { OnOk result (out.new.items ≡ out.old.items ++ flat_map (canonical_header headers.now) (slices names.now)) }
{
    for name in names {
        push_header(out, headers, name)?;
    }
    Ok(())
}
