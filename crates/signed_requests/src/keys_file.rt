// The file of keys.
ghost use Rattle.std.specs.Prelude.{◌≡◌, ◌≤◌, None, Some, IfOk, MatchBool, vec_len};
ghost use Rattle.std.specs.List.{list_all};
ghost use Rattle.signed_requests.specs.Rights.{no_rights};
ghost use Rattle.signed_requests.specs.Keys.{is_alphanumeric, has_size, is_access, is_visible, is_secret, right_named, added, rights_with, entry_of_words, entry_in, has_no_key, keys_with, keys_in};
ghost use Rattle.signed_requests.specs.Steps.{slices};
ghost use Rattle.signed_requests.specs.Entries.{entries_of, owned_entry};
ghost use Rattle.signed_requests.specs.KeysRead.{Reads};
ghost use Rattle.signed_requests.specs.declared.keys_file.KeysError.TheVariants.{OutOfMemory};

use crate::cutting::parts_at;
use crate::keys::{Key, Right, Rights, key_named};
use std::alloc::{AllocError, Global};
use thiserror::Error;

/// Why a file of keys is refused.
#[derive(Clone, Copy, Debug, PartialEq, Eq, Error)]
pub enum KeysError {
    /// This line, counted from 1, has not the form of a key, or one key too many, or a name that an earlier one has.
    #[error("bad keys at line {0}")]
    BadLine(u64),
    #[error("out of memory")]
    OutOfMemory,
}

impl From<AllocError> for KeysError {
    ghost from_gives = { λ _ e. e ≡ OutOfMemory };

    fn from(_: AllocError) -> KeysError {
        KeysError::OutOfMemory
    }
}

/// The most keys that a file has.
const MOST_KEYS: usize = 64;

fn is_alphanumeric(b: u8) -> bool
    ensures { result ≡ is_alphanumeric b }
{
    (b'A' <= b && b <= b'Z') || (b'a' <= b && b <= b'z') || (b'0' <= b && b <= b'9')
}

fn are_alphanumeric(word: &[u8]) -> bool
    ensures { result ≡ list_all is_alphanumeric word.now }
{
    word.iter().all(|b| is_alphanumeric(*b))
}

fn has_size(word: &[u8]) -> bool
    ensures { result ≡ has_size word.now }
{
    16 <= word.len() && word.len() <= 128
}

fn is_access(word: &[u8]) -> bool
    ensures { result ≡ is_access word.now }
{
    has_size(word) && are_alphanumeric(word)
}

fn is_visible(b: u8) -> bool
    ensures { result ≡ is_visible b }
{
    0x21 <= b && b <= 0x7E
}

fn are_visible(word: &[u8]) -> bool
    ensures { result ≡ list_all is_visible word.now }
{
    word.iter().all(|b| is_visible(*b))
}

fn is_secret(word: &[u8]) -> bool
    ensures { result ≡ is_secret word.now }
{
    has_size(word) && are_visible(word)
}

fn right_named(word: &[u8]) -> Option<Right>
    ensures { result ≡ right_named word.now }
{
    if word == b"invoke".as_slice() {
        return Some(Right::Invoke);
    }
    if word == b"collect".as_slice() {
        return Some(Right::Collect);
    }
    if word == b"configure".as_slice() {
        return Some(Right::Configure);
    }
    if word == b"stop".as_slice() {
        return Some(Right::Stop);
    }
    None
}

fn added(rights: Rights, right: Option<Right>) -> Option<Rights>
    ensures { result ≡ added rights right }
{
    let right = right?;
    if rights.has(right) {
        return None;
    }
    Some(rights.with(right))
}

fn rights_with(rights: Rights, words: &[&[u8]]) -> Option<Rights>
    ensures { result ≡ rights_with rights (slices words.now) }
{
    match words {
        [] => Some(rights),
        [word, more @ ..] => {
            let rights = added(rights, right_named(word))?;
            rights_with(rights, more)
        }
    }
}

fn key_of_words(alloc: Global, words: &[&[u8]]) -> Result<Option<Key>, AllocError>
    ensures { IfOk result (λ key. owned_entry key ≡ entry_of_words (slices words.now)) }
{
    match words {
        [access, secret, rights] => {
            if !is_access(access) || !is_secret(secret) {
                return Ok(None);
            }
            let words = parts_at(alloc, rights, b',')?;
            let Some(rights) = rights_with(Rights::none(), &words) else {
                return Ok(None);
            };
            let access = Vec::from_slice(alloc, access)?;
            let secret = Vec::from_slice(alloc, secret)?;
            Ok(Some(Key {
                access,
                secret,
                rights,
            }))
        }
        _ => Ok(None),
    }
}

fn key_in(alloc: Global, line: &[u8]) -> Result<Option<Key>, AllocError>
    ensures { IfOk result (λ key. owned_entry key ≡ entry_in line.now) }
{
    let words = parts_at(alloc, line, b' ')?;
    key_of_words(alloc, &words)
}

fn has_no_key(line: &[u8]) -> bool
    ensures { result ≡ has_no_key line.now }
{
    match line {
        [] => true,
        [b, ..] => *b == b'#',
    }
}

// Adds the key of a line, and says whether the line is good.
fn add_line(alloc: Global, keys: &mut Vec<Key>, line: &[u8]) -> Result<bool, AllocError>
    ensures { IfOk result (λ good. MatchBool good
        (keys_with (entries_of keys.old.items) line.now ≡ Some (entries_of keys.new.items))
        (keys_with (entries_of keys.old.items) line.now ≡ None)) }
{
    if has_no_key(line) {
        return Ok(true);
    }
    let Some(key) = key_in(alloc, line)? else {
        return Ok(false);
    };
    if keys.len() >= MOST_KEYS || key_named(keys, &key.access).is_some() {
        return Ok(false);
    }
    keys.push(key)?;
    Ok(true)
}

/// The keys of a file: a line `ACCESS_KEY SECRET RIGHT[,RIGHT..]` for each, with one space between. A line that is empty or
/// begins with `#` has none. At most 64, no two of one name.
#[tactic(auto, unfolding(crate::specs::Keys::keys_in))]
pub fn read_keys(alloc: Global, file: &[u8]) -> Result<Vec<Key>, KeysError>
    // claim: A file of keys is read as the definitions have it, or is refused by the number of its first bad line.
    ensures keys { Reads (λ keys. entries_of keys.items) (keys_in file.now) result }
    // claim: At most 64 keys are read.
    ensures few { IfOk result (λ keys. vec_len keys ≤ 64) }
{
    let lines = parts_at(alloc, file, b'\n')?;
    let mut keys = Vec::new(alloc);
    let mut number = 1;
    for line in &lines {
        if !add_line(alloc, &mut keys, line)? {
            return Err(KeysError::BadLine(number));
        }
        number += 1;
    }
    Ok(keys)
}
