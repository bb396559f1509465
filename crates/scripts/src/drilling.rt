// A drill: a script of the broker's own, run whole.
use case_runner::{StepReply, TextBuffer, Words, read_command};
use disk_steps::{read_choice, refusals};
use group_commit::{Drill, DrillFailure, Step, StepAnswer, drill};
use sector_disk::MemDisk;
use std::alloc::Global;

fn read_stop(alloc: Global, disk: &mut MemDisk, text: &str) -> Result<Step, StepReply> {
    match read_choice(alloc, disk, text) {
        Ok(choice) => Ok(Step::Stop(choice)),
        Err(reply) => Err(reply),
    }
}

fn read_issue(alloc: Global, words: &mut Words) -> Result<Step, StepReply> {
    match read_command(alloc, words) {
        Ok(command) => Ok(Step::Issue(command)),
        Err(reply) => Err(reply),
    }
}

fn read_step(alloc: Global, disk: &mut MemDisk, line: &str) -> Result<Step, StepReply> {
    let mut words = Words::of(line);
    if words.takes("commit") {
        return Ok(Step::Commit);
    }
    if words.takes("switch") {
        return Ok(Step::Switch);
    }
    if words.takes("stop") {
        return read_stop(alloc, disk, words.rest());
    }
    if !words.takes("resume") {
        return read_issue(alloc, &mut words);
    }
    words.expect("at");
    let now = words.number();
    if words.are_bad() {
        return Err(StepReply::Unreadable);
    }
    Ok(Step::Resume(now))
}

// The steps of a drill, between `;`.
fn read_steps(alloc: Global, disk: &mut MemDisk, text: &str) -> Result<Vec<Step>, StepReply> {
    let mut steps = Vec::new(alloc);
    for line in text.split(';') {
        if steps.push(read_step(alloc, disk, line)?).is_err() {
            return Err(StepReply::NoMemory);
        }
    }
    Ok(steps)
}

// The answers of a drill, one behind another.
fn tell_answers(answers: &[StepAnswer], answer: &mut TextBuffer) {
    let mut join = "";
    for one in answers {
        answer.add(join);
        match *one {
            StepAnswer::Number(number) => answer.add_number(number),
            StepAnswer::IssueRefused(why) => answer.add(refusals::issue(why)),
            StepAnswer::CommitRefused(why) => answer.add(refusals::commit(why)),
        }
        join = ", ";
    }
}

fn tell_failure(failure: DrillFailure, answer: &mut TextBuffer) {
    let cause = match failure {
        DrillFailure::AtOpening(cause) => {
            answer.add("opening");
            cause
        }
        DrillFailure::AtStep { step, cause } => {
            answer.add_with("step ", step as u64);
            cause
        }
    };
    answer.add(" ");
    refusals::open(cause, answer).add_to(answer);
}

fn run_drill(
    alloc: Global,
    disk: MemDisk,
    steps: &[Step],
    answer: &mut TextBuffer,
) -> (StepReply, Option<MemDisk>) {
    match drill(alloc, disk, steps) {
        Ok(Drill { answers, broker }) => {
            tell_answers(&answers, answer);
            (StepReply::Told, Some(broker.close()))
        }
        Err(failure) => {
            tell_failure(failure, answer);
            (StepReply::RefusalTold, None)
        }
    }
}

/// `STEP; STEP; ..`: runs a drill of these steps, and tells what they answered. The disk is given up where an opening fails.
pub fn drill_step(
    alloc: Global,
    disk: MemDisk,
    text: &str,
    answer: &mut TextBuffer,
) -> (StepReply, Option<MemDisk>) {
    let mut disk = disk;
    match read_steps(alloc, &mut disk, text) {
        Ok(steps) => run_drill(alloc, disk, &steps, answer),
        Err(reply) => (reply, Some(disk)),
    }
}
