// What a step answers, and whether that is what the script says.
use crate::text_buffer::TextBuffer;
use crate::words::number_of;

/// What a step answers. Where a text has to be put together, the step adds it to the answer's text.
#[derive(Clone, Copy)]
pub enum StepReply {
    /// The line is none of these steps.
    NoStep,
    /// The line cannot be read, or not be done now.
    Unreadable,
    /// The script's own memory was refused, which ends the run.
    NoMemory,
    /// It was done, and says nothing.
    Done,
    Number(u64),
    Word(&'static str),
    /// What the step added to the text.
    Told,
    /// It was refused, or found nothing where it looked for something.
    Refused(&'static str),
    /// It was refused, and the text says why.
    RefusalTold,
    /// A disk was opened: how many commands were recovered, and how many were durable and issued before.
    Recovered {
        number: u64,
        durable: u64,
        issued: u64,
    },
}

impl StepReply {
    /// Nothing was found.
    pub const NONE: StepReply = StepReply::Refused("none");

    /// A number, or `none`.
    pub fn number_or_none(number: Option<u64>) -> StepReply {
        match number {
            Some(number) => StepReply::Number(number),
            None => StepReply::NONE,
        }
    }

    /// `yes` or `no`.
    pub fn yes_or_no(is_so: bool) -> StepReply {
        StepReply::Word(if is_so { "yes" } else { "no" })
    }

    pub fn is_no_step(self) -> bool {
        matches!(self, StepReply::NoStep)
    }

    pub fn is_refused(self) -> bool {
        matches!(self, StepReply::Refused(_) | StepReply::RefusalTold)
    }

    /// Whether memory was refused to what the step calls.
    pub fn is_out_of_memory(self) -> bool {
        match self {
            StepReply::Refused(why) => why == "out of memory",
            _ => false,
        }
    }

    // Whether a disk was opened with any number of recovered commands from the durable to the issued ones.
    fn is_legal(self) -> bool {
        match self {
            StepReply::Recovered {
                number,
                durable,
                issued,
            } => durable <= number && number <= issued,
            _ => false,
        }
    }

    /// Adds what it says to the answer's text.
    pub fn add_to(self, answer: &mut TextBuffer) {
        match self {
            StepReply::Done => answer.add("done"),
            StepReply::Number(number) | StepReply::Recovered { number, .. } => answer.add_number(
                number,
            ),
            StepReply::Word(word) | StepReply::Refused(word) => answer.add(word),
            StepReply::NoStep | StepReply::Unreadable => answer.add(
                "no answer, since it cannot be read,",
            ),
            StepReply::NoMemory => answer.cut(),
            StepReply::Told | StepReply::RefusalTold => {}
        }
    }

    // Whether it is this one of what the script allows: `any`, or `legal` for an opening that recovered a legal number.
    fn is_one(self, answer: &str, said: &str) -> bool {
        said == "any" || (said == "legal" && self.is_legal()) || is_text(answer, said)
    }

    fn is_told(self) -> bool {
        !matches!(
            self,
            StepReply::NoStep | StepReply::Unreadable | StepReply::NoMemory
        )
    }

    /// Whether it is one of the answers between `|` that the script says. Where the script says nothing, it must not be a
    /// refusal.
    pub fn is_as_said(self, answer: &str, is_answered: bool, said: &str) -> bool {
        if !is_answered || !self.is_told() {
            return self.is_told() && !self.is_refused();
        }
        for one in said.split(" | ") {
            if self.is_one(answer, one.trim()) {
                return true;
            }
        }
        false
    }
}

// Whether an answer has these words, of which a moment stands for its number.
fn is_text(answer: &str, said: &str) -> bool {
    let mut found = answer.trim().split(' ');
    for word in said.split_whitespace() {
        match found.next() {
            Some(found) if is_word(found, word) => {}
            _ => return false,
        }
    }
    found.next().is_none()
}

fn is_word(found: &str, said: &str) -> bool {
    found == said
        || match number_of(said) {
            Some(moment) => said.starts_with('T') && number_of(found) == Some(moment),
            None => false,
        }
}
