// Lists of records that are to be collected, as requests bring them.
ghost use Rattle.std.specs.Prelude.{◌≡◌, ◌≤◌, ◌<◌, length, vec_len, IfOk, IsErrOf, IsUtf8};
ghost use Rattle.uuid.specs.Text.{parsed};
ghost use Rattle.admin_replies.specs.Collecting.{brings_list, ids_in, status_of};
ghost use Rattle.admin_replies.specs.declared.list_reading.ListError.TheVariants as list_error;

use crate::ids::read_text;
use std::alloc::{AllocError, Global};
use std::str;
use thiserror::Error;

/// How many lines a list has at most.
const MOST_LINES: usize = 1000;

/// How many bytes a list has at most: so many lines of 48, which is more than any id takes.
pub const MOST_LIST: usize = 48_000;

/// Why a list is not read.
#[derive(Clone, Copy, Debug, Error)]
pub enum ListError {
    #[error("the list is no text")]
    NoText,
    #[error("a list has 1000 lines at most")]
    TooMany,
    #[error("out of memory")]
    OutOfMemory,
}

impl From<AllocError> for ListError {
    ghost from_gives = { λ _ error. error ≡ list_error.OutOfMemory };

    fn from(_why: AllocError) -> ListError {
        ListError::OutOfMemory
    }
}

impl ListError {
    /// The status that it is answered with.
    pub fn status(self) -> u16
        ensures { result ≡ status_of self }
    {
        match self {
            ListError::NoText => 400,
            ListError::TooMany => 413,
            ListError::OutOfMemory => 503,
        }
    }
}

/// Whether a request brings a list of records that are to be collected.
pub fn brings_list(method: &str, target: &str) -> bool
    ensures { result ≡ brings_list method.now target.now }
{
    method == "POST" && target == "/records/collect"
}

// Each line of a text, as the id that it is.
fn ids_in(alloc: Global, text: &str) -> Result<Vec<Option<[u8; 16]>>, AllocError>
    ensures { IfOk result (λ ids. ids.items ≡ ids_in text.now) }
{
    text.lines()
        .map(
            |line|
                ensures { result ≡ parsed line.now }
            { read_text(line) },
        )
        .collect(alloc)
}

/// The ids of a list, one a line; None for a line that is no id.
///
/// It is refused: `NoText` (it is not UTF-8), `TooMany` (it has more than a thousand lines), `OutOfMemory`.
pub fn read_list(alloc: Global, list: &[u8]) -> Result<Vec<Option<[u8; 16]>>, ListError>
    ensures ids { IfOk result (λ ids. ids.items ≡ ids_in list.now) }
    ensures few { IfOk result (λ ids. vec_len ids ≤ 1000) }
    ensures text { IsErrOf result list_error.NoText → IsUtf8 list.now → ⊥ }
    ensures many { IsErrOf result list_error.TooMany → 1000 < length (ids_in list.now) }
{
    let Ok(text) = str::from_utf8(list) else {
        return Err(ListError::NoText);
    };
    let ids = ids_in(alloc, text)?;
    if ids.len() > MOST_LINES {
        return Err(ListError::TooMany);
    }
    Ok(ids)
}
