// The files of a program, and what is told of them.
use crate::TextBuffer;
use crate::case::{Line, Purpose, read_lines};
use crate::running::{Fixture, ScriptReport, run_case};
use std::alloc::{AllocError, Global};
use std::process::ExitCode;
use std::rt::Files;
use std::{fs, io};

/// How many cases were run, and how many of them differ from what they say.
#[derive(Drop)]
pub struct Tally {
    cases: u64,
    differ: u64,
}

impl Tally {
    /// No case was run.
    pub fn new() -> Tally {
        Tally {
            cases: 0,
            differ: 0,
        }
    }

    /// Prints how many cases there are and how many differ. The status is 0 where none does.
    pub fn print<R: Print>(&self, rt: &R) -> io::Result<ExitCode> {
        let (cases, differ) = (self.cases, self.differ);
        println!(rt; "{cases} cases, {differ} differ")?;
        Ok(ExitCode::from(if differ == 0 { 0 } else { 1 }))
    }
}

// Runs a script of these lines.
fn run_lines<'a, S: Fixture>(
    alloc: Global,
    lines: &'a [Line<'a>],
    report: &mut ScriptReport,
    tally: &mut Tally,
) {
    for (index, line) in lines.iter().enumerate() {
        if matches!(line.purpose, Purpose::Title) {
            let following = lines.get(index.saturating_add(1)..).unwrap_or(&[]);
            tally.cases = tally.cases.saturating_add(1);
            if !run_case::<S>(alloc, line, following, report) {
                tally.differ = tally.differ.saturating_add(1);
            }
        }
    }
}

// Runs a script: a line for each answer that is not what it says.
fn run_script<S: Fixture>(
    alloc: Global,
    name: &str,
    text: &str,
    tally: &mut Tally,
) -> Result<TextBuffer, AllocError> {
    let lines = read_lines(alloc, text)?;
    let mut report = ScriptReport {
        name,
        text: TextBuffer::new(alloc),
    };
    run_lines::<S>(alloc, &lines, &mut report, tally);
    let ScriptReport { text, .. } = report;
    if text.is_cut() {
        return Err(AllocError);
    }
    Ok(text)
}

/// Runs the script of this name, each case on a scene of its own, and prints a line for each answer that is not what the script
/// says.
pub fn run_file<S: Fixture, R: Files + Print + AllocGlobal>(
    rt: &R,
    name: &str,
    tally: &mut Tally,
) -> io::Result<()> {
    let text = fs::read_to_string(rt, name)?;
    let lines = run_script::<S>(rt.alloc(), name, text.as_str(), tally)?;
    print!(rt; "{}", lines.as_str())
}
