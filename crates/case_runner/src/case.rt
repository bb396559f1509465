// A script's lines: titles of cases, their loops and their steps.
use std::alloc::{AllocError, Global};

/// What a line is for.
#[derive(Clone, Copy)]
pub enum Purpose {
    /// It begins a case.
    Title,
    /// `NAME in VALUES`: the case is done for each of the values in place of `$NAME`.
    Loop,
    /// It says how often the steps of the case are done.
    Count,
    Step,
}

/// A line: what to do, and what that should answer.
#[derive(Clone, Copy)]
pub struct Line<'a> {
    pub purpose: Purpose,
    /// Its number in the file, from 1.
    pub at: usize,
    pub step: &'a str,
    pub said: Option<&'a str>,
}

fn split_answer(line: &str) -> (&str, Option<&str>) {
    match line.split_once("=>") {
        Some((step, said)) => (step.trim(), Some(said.trim())),
        None => (line, None),
    }
}

fn purpose_of(step: &str, is_answered: bool) -> Purpose {
    if step.starts_with("case ") {
        Purpose::Title
    } else if step.starts_with("each ") {
        Purpose::Loop
    } else if is_answered && step == "tried" {
        Purpose::Count
    } else {
        Purpose::Step
    }
}

fn read_line(at: usize, line: &str) -> Line<'_> {
    let (step, said) = split_answer(line);
    Line {
        purpose: purpose_of(step, said.is_some()),
        at,
        step,
        said,
    }
}

// Adds a line. One that is in no case yet has a title of its own.
fn add_line<'a>(lines: &mut Vec<Line<'a>>, line: Line<'a>) -> Result<(), AllocError> {
    lines.reserve(2)?;
    if lines.is_empty() && !matches!(line.purpose, Purpose::Title) {
        let title = Line {
            purpose: Purpose::Title,
            at: line.at,
            step: "",
            said: None,
        };
        lines.push_reserved(title);
    }
    lines.push_reserved(line);
    Ok(())
}

/// The lines of a script. A line of white space and one that begins with `#` say nothing.
pub fn read_lines(alloc: Global, text: &str) -> Result<Vec<Line<'_>>, AllocError> {
    let mut lines = Vec::new(alloc);
    for (index, line) in text.lines().enumerate() {
        let line = line.trim();
        if !line.is_empty() && !line.starts_with('#') {
            add_line(&mut lines, read_line(index.saturating_add(1), line))?;
        }
    }
    Ok(lines)
}
