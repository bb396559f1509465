// The words of a line, one after another.

/// The moment that a script calls T, in milliseconds since 1970.
pub const T: u64 = 1573755365568;

/// What is left of a line. Where a word is not what it was read as, the line is bad from then on, and a step that reads it
/// does nothing.
#[derive(Clone, Copy)]
pub struct Words<'a> {
    left: &'a str,
    are_bad: bool,
}

impl<'a> Words<'a> {
    pub fn of(line: &'a str) -> Words<'a> {
        Words {
            left: line.trim(),
            are_bad: false,
        }
    }

    /// Whether a word was not what it was read as.
    pub fn are_bad(&self) -> bool {
        self.are_bad
    }

    /// Takes the line as bad.
    pub fn refuse(&mut self) {
        self.are_bad = true;
    }

    /// The next word: an empty one where none is left.
    pub fn word(&mut self) -> &'a str {
        let (word, others) = self.left.split_once(' ').unwrap_or((self.left, ""));
        self.left = others.trim_start();
        word
    }

    /// Takes this word if it is the next one.
    pub fn takes(&mut self, word: &str) -> bool {
        let mut others = *self;
        if others.word() == word {
            self.left = others.left;
            return true;
        }
        false
    }

    /// The word `word`.
    pub fn expect(&mut self, word: &str) {
        if self.word() != word {
            self.are_bad = true;
        }
    }

    /// A number or a moment, of at most so much.
    pub fn number_to(&mut self, most: u64) -> u64 {
        match number_of(self.word()) {
            Some(number) if number <= most => number,
            _ => {
                self.are_bad = true;
                0
            }
        }
    }

    /// A number, or a moment.
    pub fn number(&mut self) -> u64 {
        self.number_to(u64::MAX)
    }

    /// The first and the last of the numbers `FIRST..LAST`, or of one number alone.
    pub fn range(&mut self) -> (u64, u64) {
        match range_of(self.word()) {
            Some(range) => range,
            None => {
                self.are_bad = true;
                (0, 0)
            }
        }
    }

    /// All that is left.
    pub fn rest(&mut self) -> &'a str {
        let left = self.left;
        self.left = "";
        left
    }
}

/// The number that a word stands for: decimal digits, `T`, or `T+` and decimal digits.
pub fn number_of(word: &str) -> Option<u64> {
    if word == "T" {
        return Some(T);
    }
    match word.strip_prefix("T+") {
        Some(more) => T.checked_add(more.parse::<u64>().ok()?),
        None => word.parse::<u64>().ok(),
    }
}

/// The first and the last of the numbers `FIRST..LAST`, or of one number alone.
pub fn range_of(word: &str) -> Option<(u64, u64)> {
    let (first, last) = word.split_once("..").unwrap_or((word, word));
    match (number_of(first), number_of(last)) {
        (Some(first), Some(last)) => Some((first, last)),
        _ => None,
    }
}

/// The id of an event: 00000000-0000-4000-8000- and the number in 12 hexadecimal digits.
pub fn id_of(number: u64) -> [u8; 16] {
    let [_, _, a, b, c, d, e, f] = number.to_be_bytes();
    [0, 0, 0, 0, 0, 0, 0x40, 0, 0x80, 0, a, b, c, d, e, f]
}

/// The number of an event's id.
pub fn number_of_id(id: &[u8; 16]) -> u64 {
    let [_, _, _, _, _, _, _, _, _, _, a, b, c, d, e, f] = *id;
    u64::from_be_bytes([0, 0, a, b, c, d, e, f])
}
