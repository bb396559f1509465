// Bytes cut at a byte.
ghost use Rattle.std.specs.Prelude.{◌≡◌, ◌==◌, position, IfOk};
ghost use Rattle.std.specs.List.{before_first, after_first, slice_split};
ghost use Rattle.signed_requests.specs.Steps.{slices};

use std::alloc::{AllocError, Global};

// Where the first such byte stands.
fn place_of(bytes: &[u8], at: u8) -> Option<usize>
    ensures { result ≡ position (λ b. b == at) bytes.now }
{
    bytes.iter().position(|b| *b == at)
}

/// What stands before the first such byte: all, where there is none.
pub(crate) fn before(bytes: &[u8], at: u8) -> &[u8]
    ensures { result.now ≡ before_first (λ b. b == at) bytes.now }
{
    match place_of(bytes, at) {
        Some(i) => &bytes[..i],
        None => bytes,
    }
}

/// What stands behind the first such byte: nothing, where there is none.
pub(crate) fn after(bytes: &[u8], at: u8) -> &[u8]
    ensures { result.now ≡ after_first (λ b. b == at) bytes.now }
{
    match place_of(bytes, at) {
        Some(i) => &bytes[i + 1..],
        None => &[],
    }
}

/// The parts between such bytes.
pub(crate) fn parts_at(alloc: Global, bytes: &[u8], at: u8) -> Result<Vec<&[u8]>, AllocError>
    ensures { IfOk result (λ parts. slices parts.items ≡ slice_split (λ b. b == at) bytes.now) }
{
    bytes.split(|b| *b == at).collect(alloc)
}
