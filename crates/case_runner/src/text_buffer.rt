// A text that is put together piece by piece.
use retry_rules::BadSettings;
use std::alloc::Global;

const DIGITS: [&str; 16] = [
    "0", "1", "2", "3", "4", "5", "6", "7", "8", "9", "a", "b", "c", "d", "e", "f",
];

/// A text that grows. Where memory is refused it stays as it is and is cut from then on, so that nothing that adds to it
/// has to fail.
#[derive(Drop)]
pub struct TextBuffer {
    text: String,
    is_cut: bool,
}

impl TextBuffer {
    pub fn new(alloc: Global) -> TextBuffer {
        TextBuffer {
            text: String::new(alloc),
            is_cut: false,
        }
    }

    pub fn clear(&mut self) {
        self.text.clear();
        self.is_cut = false;
    }

    pub fn as_str(&self) -> &str {
        self.text.as_str()
    }

    /// Whether it lacks something, since memory was refused.
    pub fn is_cut(&self) -> bool {
        self.is_cut
    }

    /// Takes it as cut.
    pub fn cut(&mut self) {
        self.is_cut = true;
    }

    /// Takes another text in its place.
    pub fn turn_into(&mut self, other: TextBuffer) {
        let was_cut = self.is_cut;
        *self = other;
        self.is_cut |= was_cut;
    }

    pub fn add(&mut self, text: &str) {
        if self.text.push_str(text).is_err() {
            self.is_cut = true;
        }
    }

    pub fn add_number(&mut self, number: u64) {
        if write!(self.text, "{number}").is_err() {
            self.is_cut = true;
        }
    }

    /// Adds a text, and a number behind it.
    pub fn add_with(&mut self, text: &str, number: u64) {
        self.add(text);
        self.add_number(number);
    }

    /// Adds which settings are bad.
    pub fn add_reason(&mut self, why: &BadSettings) {
        if write!(self.text, "{why}").is_err() {
            self.is_cut = true;
        }
    }

    fn add_digit(&mut self, digit: u8) {
        if let Some(text) = DIGITS.get(digit as usize) {
            self.add(text);
        }
    }

    /// Adds bytes in hexadecimal digits.
    pub fn add_hex(&mut self, bytes: &[u8]) {
        for byte in bytes {
            self.add_digit(*byte / 16);
            self.add_digit(*byte % 16);
        }
    }

    /// Adds bytes in hexadecimal digits, without the zeros at their end: `zeros` where there are no others.
    pub fn add_shown(&mut self, bytes: &[u8]) {
        let mut shown = 0usize;
        for (index, byte) in bytes.iter().enumerate() {
            if *byte != 0 {
                shown = index.saturating_add(1);
            }
        }
        match bytes.get(..shown) {
            Some(shown) if !shown.is_empty() => self.add_hex(shown),
            _ => self.add("zeros"),
        }
    }

    /// Adds a payload or an answer: itself where it is a text, else its bytes.
    pub fn add_body(&mut self, bytes: &[u8]) {
        match std::str::from_utf8(bytes) {
            Ok(text) => self.add(text),
            Err(_) => self.add_shown(bytes),
        }
    }
}
