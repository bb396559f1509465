// Bytes as a script writes them.
use crate::step_reply::StepReply;
use crate::words::Words;
use hex::FromHexError;
use std::alloc::Global;

/// The bytes of hexadecimal digits, or what a step answers where they are none.
pub fn hex_bytes(alloc: Global, digits: &str) -> Result<Vec<u8>, StepReply> {
    match hex::decode(alloc, digits) {
        Ok(bytes) => Ok(bytes),
        Err(FromHexError::OutOfMemory) => Err(StepReply::NoMemory),
        Err(_) => Err(StepReply::Unreadable),
    }
}

// So many bytes: spaces, a JSON string, or half as many arrays, each in the one before.
fn filled(alloc: Global, count: usize, word: &str) -> Option<Vec<u8>> {
    let (first, filler, last) = match word {
        "quoted" => (b'"', b'a', b'"'),
        "nested" => (b'[', b'[', b']'),
        _ => (b' ', b' ', b' '),
    };
    let mut bytes = vec![in alloc; filler; count].ok()?;
    if word == "nested" {
        for (index, byte) in bytes.iter_mut().enumerate() {
            *byte = if index < count / 2 { first } else { last };
        }
    }
    if let Some(byte) = bytes.first_mut() {
        *byte = first;
    }
    if let Some(byte) = bytes.last_mut() {
        *byte = last;
    }
    Some(bytes)
}

/// A payload, response or error body: `N bytes` is so many spaces, `N quoted` a JSON string and `N nested` arrays in arrays
/// of so many bytes, `hex` and digits are those bytes, and other text is itself.
pub fn body(alloc: Global, text: &str) -> Result<Vec<u8>, StepReply> {
    let mut words = Words::of(text);
    if words.takes("hex") {
        return hex_bytes(alloc, words.rest());
    }
    let mut words = Words::of(text);
    let count = words.number();
    let word = words.rest();
    let is_count = word == "bytes" || word == "quoted" || word == "nested";
    if is_count && words.are_bad() {
        return Err(StepReply::Unreadable);
    }
    let bytes = if is_count {
        filled(alloc, count.min(1 << 21) as usize, word)
    } else {
        Vec::from_slice(alloc, text.as_bytes()).ok()
    };
    bytes.ok_or(StepReply::NoMemory)
}
