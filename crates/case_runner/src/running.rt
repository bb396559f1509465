// Running a case: its steps in order, for each choice of its loops' values.
use crate::case::{Line, Purpose};
use crate::step_reply::StepReply;
use crate::text_buffer::TextBuffer;
use crate::words::{Words, range_of};
use std::alloc::Global;

/// What the steps of a case are done on.
pub trait Fixture: Drop {
    /// Where a case begins: None where memory is refused.
    fn begin(alloc: Global) -> Option<Self>;

    /// Does a step. What its reply does not say itself is added to the answer.
    fn step(&mut self, alloc: Global, words: &mut Words, answer: &mut TextBuffer) -> StepReply;
}

/// What is told of a script: a line for each answer that is not what the script says.
#[derive(Drop)]
pub struct ScriptReport<'a> {
    /// The script's name.
    pub name: &'a str,
    pub text: TextBuffer,
}

impl ScriptReport<'_> {
    fn tell(&mut self, at: usize, said: &str, answer: &str, step: &str) {
        self.text.add(self.name);
        self.text.add(":");
        self.text.add_number(at as u64);
        self.text.add(": said ");
        self.text.add(said);
        self.text.add(", found ");
        self.text.add(answer);
        self.text.add(" to ");
        self.text.add(step);
        self.text.add("\n");
    }
}

/// One of the choices of the loops' values of a case.
#[derive(Clone, Copy)]
struct Choice<'a> {
    // The lines of the case.
    lines: &'a [Line<'a>],
    number: u64,
}

// A loop's name and its values.
fn parts_of_loop(line: &str) -> (&str, &str) {
    let (name, values) = line.split_once(" in ").unwrap_or((line, ""));
    (name.strip_prefix("each ").unwrap_or(name).trim(), values)
}

// The first of a loop's values that are written as one word, where they are numbers, and how many they are. `FIRST..LAST`
// stands for the numbers from the one to the other.
fn values_of(word: &str) -> (Option<u64>, u64) {
    if !word.contains("..") {
        return (None, 1);
    }
    match range_of(word) {
        Some((first, last)) => (Some(first), last.saturating_add(1).saturating_sub(first)),
        None => (None, 0),
    }
}

// How many values a loop has: 1 for another line.
fn count_values(line: &Line) -> u64 {
    if !matches!(line.purpose, Purpose::Loop) {
        return 1;
    }
    let (_, values) = parts_of_loop(line.step);
    let mut count = 0u64;
    for word in values.split_whitespace() {
        count = count.saturating_add(values_of(word).1);
    }
    count
}

// How many choices the loops of a case have.
fn choices(lines: &[Line]) -> u64 {
    let mut choices = 1u64;
    for line in lines {
        choices = choices.saturating_mul(count_values(line));
    }
    choices
}

// Adds one of a loop's values.
fn add_value(text: &mut TextBuffer, values: &str, index: u64) {
    let mut left = index;
    for word in values.split_whitespace() {
        let (first, count) = values_of(word);
        if left < count {
            match first {
                Some(first) => text.add_number(first.saturating_add(left)),
                None => text.add(word),
            }
            return;
        }
        left -= count;
    }
}

// Adds a text with one of a loop's values in place of its name.
fn add_filled(filled: &mut TextBuffer, text: &str, line: &str, index: u64) {
    let (name, values) = parts_of_loop(line);
    let mut is_behind_mark = false;
    for part in text.split('$') {
        match part.strip_prefix(name) {
            Some(others) if is_behind_mark => {
                add_value(filled, values, index);
                filled.add(others);
            }
            _ => {
                filled.add(if is_behind_mark { "$" } else { "" });
                filled.add(part);
            }
        }
        is_behind_mark = true;
    }
}

// A text of the case with the values of this choice.
fn chosen(alloc: Global, text: &str, choice: Choice) -> TextBuffer {
    let mut chosen = TextBuffer::new(alloc);
    chosen.add(text);
    let mut left = choice.number;
    for line in choice.lines {
        if matches!(line.purpose, Purpose::Loop) {
            let count = count_values(line).max(1);
            let mut filled = TextBuffer::new(alloc);
            add_filled(&mut filled, chosen.as_str(), line.step, left % count);
            chosen.turn_into(filled);
            left /= count;
        }
    }
    chosen
}

// Does a step, and puts what it answers into the text.
fn attempt<S: Fixture>(
    alloc: Global,
    scene: &mut S,
    step: &str,
    answer: &mut TextBuffer,
) -> StepReply {
    answer.clear();
    let mut words = Words::of(step);
    let mut reply = StepReply::Unreadable;
    if !step.contains('$') {
        reply = scene.step(alloc, &mut words, answer);
    }
    if words.are_bad() {
        answer.clear();
        reply = StepReply::Unreadable;
    }
    reply.add_to(answer);
    reply
}

// Does a line's step for this choice, and once more where memory was refused. An answer that is not what the script says is
// told.
fn run_line<S: Fixture>(
    alloc: Global,
    scene: &mut S,
    line: &Line,
    choice: Choice,
    report: &mut ScriptReport,
) -> bool {
    let step = chosen(alloc, line.step, choice);
    let said = chosen(alloc, line.said.unwrap_or("done"), choice);
    let mut answer = TextBuffer::new(alloc);
    let mut reply = attempt(alloc, scene, step.as_str(), &mut answer);
    if reply.is_out_of_memory() {
        reply = attempt(alloc, scene, step.as_str(), &mut answer);
    }
    let is_cut = step.is_cut() || said.is_cut() || answer.is_cut();
    let is_as_said = reply.is_as_said(answer.as_str(), line.said.is_some(), said.as_str());
    if is_cut {
        report.text.cut();
    } else if !is_as_said {
        report.tell(line.at, said.as_str(), answer.as_str(), step.as_str());
    }
    is_as_said && !is_cut
}

// Does the steps of a case for this choice: whether each answer is what the script says.
fn run_lines<S: Fixture>(
    alloc: Global,
    scene: &mut S,
    choice: Choice,
    report: &mut ScriptReport,
) -> bool {
    let mut is_as_said = true;
    for line in choice.lines {
        if matches!(line.purpose, Purpose::Step) && !run_line(alloc, scene, line, choice, report) {
            is_as_said = false;
        }
    }
    is_as_said
}

// The same, on a scene of its own.
fn run_choice<S: Fixture>(alloc: Global, choice: Choice, report: &mut ScriptReport) -> bool {
    match S::begin(alloc) {
        Some(mut scene) => run_lines(alloc, &mut scene, choice, report),
        None => {
            report.text.cut();
            false
        }
    }
}

// Whether a case was done as often as this line says.
fn is_count(alloc: Global, line: &Line, choices: u64, report: &mut ScriptReport) -> bool {
    let said = line.said.unwrap_or("");
    if range_of(said) == Some((choices, choices)) {
        return true;
    }
    let mut answer = TextBuffer::new(alloc);
    answer.add_number(choices);
    report.tell(line.at, said, answer.as_str(), "tried");
    false
}

// Whether a case was done as often as it says: at least once and with a step, where it says nothing.
fn check_count(
    alloc: Global,
    title: &Line,
    lines: &[Line],
    choices: u64,
    report: &mut ScriptReport,
) -> bool {
    let mut has_step = false;
    for line in lines {
        match line.purpose {
            Purpose::Count => return is_count(alloc, line, choices, report),
            Purpose::Step => has_step = true,
            _ => {}
        }
    }
    if choices == 0 || !has_step {
        report.tell(title.at, "steps", "none", "case");
        return false;
    }
    true
}

// The lines of a case, of which these follow its title.
fn lines_of_case<'a>(following: &'a [Line<'a>]) -> &'a [Line<'a>] {
    for (index, line) in following.iter().enumerate() {
        if matches!(line.purpose, Purpose::Title) {
            return following.get(..index).unwrap_or(following);
        }
    }
    following
}

/// Does a case, of which these lines follow the title, up to the first choice of its loops' values for which an answer is not
/// what the script says: whether there is none.
pub fn run_case<'a, S: Fixture>(
    alloc: Global,
    title: &Line,
    following: &'a [Line<'a>],
    report: &mut ScriptReport,
) -> bool {
    let lines = lines_of_case(following);
    let choices = choices(lines);
    for number in 0..choices {
        if !run_choice::<S>(alloc, Choice { lines, number }, report) {
            return false;
        }
    }
    check_count(alloc, title, lines, choices, report)
}
