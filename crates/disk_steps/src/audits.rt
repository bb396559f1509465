// The step that tells what a disk holds.
use crate::refusals;
use audit_report::{Report, in_force_line, inspect};
use case_runner::{StepReply, TextBuffer, Words};
use sector_disk::Disk;
use std::alloc::Global;

const NO_MEMORY: StepReply = StepReply::Refused("out of memory");

// The lines of a report, one behind the other.
fn tell_lines(alloc: Global, report: &Report, answer: &mut TextBuffer) -> StepReply {
    let Ok(lines) = format!(in alloc; "{report}") else {
        return NO_MEMORY;
    };
    for line in lines.split('\n') {
        answer.add(line);
        answer.add(" ");
    }
    StepReply::Told
}

// The line of what is in force.
fn tell_in_force(alloc: Global, report: &Report, answer: &mut TextBuffer) -> StepReply {
    let Ok(line) = in_force_line(alloc, report) else {
        return NO_MEMORY;
    };
    answer.add(line.as_str());
    StepReply::Told
}

/// `[in-force]`: what a formatted disk holds, or what is in force on it.
pub fn tell_audit<D: Disk>(
    alloc: Global,
    disk: &mut D,
    words: &mut Words,
    answer: &mut TextBuffer,
) -> StepReply {
    let in_force = words.takes("in-force");
    match inspect(alloc, disk) {
        Ok((_, report)) if in_force => tell_in_force(alloc, &report, answer),
        Ok((_, report)) => tell_lines(alloc, &report, answer),
        Err(why) => refusals::open(why, answer),
    }
}
