// The parts of a request's target.
ghost use Rattle.std.specs.Prelude.{◌≡◌, take, IfOk, bytes_eq};
ghost use Rattle.percent_encoding.specs.Percent.{percent_decode};
ghost use Rattle.api_core.specs.Paths.{path_of, query_of, between_slashes};
ghost use Rattle.api_core.specs.Steps.{texts};

use percent_encoding::percent_decode;
use std::alloc::{AllocError, Global};

/// The path of a target.
pub(crate) fn path_of(target: &str) -> &str
    ensures { result.now ≡ path_of target.now }
{
    match target.split_once('?') {
        Some((path, _)) => path,
        None => target,
    }
}

/// The query of a target.
pub(crate) fn query_of(target: &str) -> &str
    ensures { result.now ≡ query_of target.now }
{
    match target.split_once('?') {
        Some((_, query)) => query,
        None => "",
    }
}

/// The parts of a path, not yet decoded.
pub(crate) fn between_slashes(alloc: Global, path: &str) -> Result<Vec<&str>, AllocError>
    ensures { IfOk result (λ parts. texts parts.items ≡ between_slashes path.now) }
{
    path.split('/').collect(alloc)
}

/// Whether a part decodes to these bytes. No more of it is decoded than tells that.
pub(crate) fn decodes_to(part: &str, bytes: &[u8]) -> bool
    ensures { result ≡ bytes_eq (percent_decode part.now) bytes.now }
{
    percent_decode(part.as_bytes())
        .cmp(bytes.iter().copied())
        .is_eq()
}

/// Whether a part decodes to this word. No more of it is decoded than tells that.
pub(crate) fn is_word(part: &str, word: &str) -> bool
    ensures { result ≡ bytes_eq word.now (percent_decode part.now) }
{
    word.bytes().cmp(percent_decode(part.as_bytes())).is_eq()
}

/// How many parts of a path are read at most: more than a path of the table has.
const MOST_PARTS: usize = 7;

/// The first parts of a target's path, not yet decoded: as many as tell that there are too many.
pub(crate) fn first_parts(alloc: Global, target: &str) -> Result<Vec<&str>, AllocError>
    ensures { IfOk result (λ parts. texts parts.items ≡ take 7 (between_slashes (path_of target.now))) }
{
    path_of(target).split('/').take(MOST_PARTS).collect(alloc)
}
