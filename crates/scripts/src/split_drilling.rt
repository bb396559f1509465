// A drill of the two halves of a broker, run whole.
ghost use Rattle.std.specs.Prelude.{◌<◌};

use case_runner::{StepReply, TextBuffer, Words, id_of, read_command};
use disk_steps::{format_disk, read_choice, refusals};
use group_commit::{DrillFailure, SplitAnswer, SplitDrill, SplitStep, drill_split};
use invoke_records::{Bytes, Command, Kind};
use retry_rules::Settings;
use sector_disk::MemDisk;
use std::alloc::Global;

fn read_stop(alloc: Global, disk: &mut MemDisk, text: &str) -> Result<SplitStep, StepReply> {
    match read_choice(alloc, disk, text) {
        Ok(choice) => Ok(SplitStep::Stop(choice)),
        Err(reply) => Err(reply),
    }
}

fn read_step(alloc: Global, disk: &mut MemDisk, line: &str) -> Result<SplitStep, StepReply> {
    let mut words = Words::of(line);
    if words.takes("lend") {
        return Ok(SplitStep::Lend);
    }
    if words.takes("write") {
        return Ok(SplitStep::Write);
    }
    if words.takes("settle") {
        return Ok(SplitStep::Settle);
    }
    if words.takes("advance") {
        return Ok(SplitStep::Advance);
    }
    if words.takes("stop") {
        return read_stop(alloc, disk, words.rest());
    }
    match read_command(alloc, &mut words) {
        Ok(command) => Ok(SplitStep::Issue(command)),
        Err(reply) => Err(reply),
    }
}

// The steps of a drill, between `;`.
fn read_steps(alloc: Global, disk: &mut MemDisk, text: &str) -> Result<Vec<SplitStep>, StepReply> {
    let mut steps = Vec::new(alloc);
    for line in text.split(';') {
        if steps.push(read_step(alloc, disk, line)?).is_err() {
            return Err(StepReply::NoMemory);
        }
    }
    Ok(steps)
}

// The answers of a drill, one behind another.
fn tell_answers(answers: &[SplitAnswer], answer: &mut TextBuffer) {
    let mut join = "";
    for one in answers {
        answer.add(join);
        match *one {
            SplitAnswer::Number(number) => answer.add_number(number),
            SplitAnswer::Idle => answer.add("idle"),
            SplitAnswer::IssueRefused(why) => answer.add(refusals::issue(why)),
            SplitAnswer::LendRefused(why) => answer.add(refusals::lend(why)),
            SplitAnswer::WriteRefused(why) => answer.add(refusals::write(why)),
            SplitAnswer::SettleRefused(why) => answer.add(refusals::settle(why)),
        }
        join = ", ";
    }
}

fn tell_failure(failure: DrillFailure, answer: &mut TextBuffer) {
    let cause = match failure {
        DrillFailure::AtOpening(cause) => {
            answer.add("opening");
            cause
        }
        DrillFailure::AtStep { step, cause } => {
            answer.add_with("step ", step as u64);
            cause
        }
    };
    answer.add(" ");
    refusals::open(cause, answer).add_to(answer);
}

fn run_drill(
    alloc: Global,
    disk: MemDisk,
    steps: &[SplitStep],
    answer: &mut TextBuffer,
) -> (StepReply, Option<MemDisk>) {
    match drill_split(alloc, disk, steps) {
        Ok(SplitDrill { answers, disk, .. }) => {
            tell_answers(&answers, answer);
            (StepReply::Told, Some(disk.close()))
        }
        Err(failure) => {
            tell_failure(failure, answer);
            (StepReply::RefusalTold, None)
        }
    }
}

/// `STEP; STEP; ..`: runs a drill of these steps over the halves of a broker, and tells what they answered. The disk is given
/// up where an opening fails.
pub fn drill_split_step(
    alloc: Global,
    disk: MemDisk,
    text: &str,
    answer: &mut TextBuffer,
) -> (StepReply, Option<MemDisk>) {
    let mut disk = disk;
    match read_steps(alloc, &mut disk, text) {
        Ok(steps) => run_drill(alloc, disk, &steps, answer),
        Err(reply) => (reply, Some(disk)),
    }
}

// An event of its own.
fn accept(event: u64) -> Command {
    Command {
        kind: Kind::Accept,
        id: id_of(event),
        environment: 0,
        time: 1000,
        bytes: Bytes::empty(),
    }
}

/// Of which steps orders are made.
#[derive(Clone, Copy)]
pub enum OrdersOf {
    /// An issue, a lend, a write, a settlement and a stop.
    Writes,
    /// An issue, an advance and a stop.
    Advances,
}

impl OrdersOf {
    // How many steps there are to choose from.
    fn choices(self) -> u64
        ensures { 0 < result }
    {
        match self {
            OrdersOf::Writes => 5,
            OrdersOf::Advances => 3,
        }
    }

    // The step that a digit says.
    fn chosen(self, alloc: Global, digit: u64, event: u64) -> SplitStep {
        match (self, digit) {
            (_, 0) => SplitStep::Issue(accept(event)),
            (OrdersOf::Writes, 1) => SplitStep::Lend,
            (OrdersOf::Writes, 2) => SplitStep::Write,
            (OrdersOf::Writes, 3) => SplitStep::Settle,
            (OrdersOf::Advances, 1) => SplitStep::Advance,
            _ => SplitStep::Stop(Vec::new(alloc)),
        }
    }
}

// The steps of one order, whose digits say which they are.
fn steps_of_order(alloc: Global, of: OrdersOf, order: u64, length: u64) -> Option<Vec<SplitStep>> {
    let mut steps = Vec::new(alloc);
    let mut rest = order;
    for event in 0..length {
        let step = of.chosen(alloc, rest % of.choices(), event.saturating_add(1));
        rest /= of.choices();
        if steps.push(step).is_err() {
            return None;
        }
    }
    Some(steps)
}

// Whether each length that a stop names lies between what was written last and what was lent last. An advance lends all that
// was issued.
fn is_within(steps: &[SplitStep], answers: &[SplitAnswer]) -> bool {
    let mut issued = 0;
    let mut written = 0;
    let mut lent = 0;
    for (step, answer) in steps.iter().zip(answers) {
        let SplitAnswer::Number(number) = *answer else {
            continue;
        };
        match step {
            SplitStep::Issue(_) => issued = number,
            SplitStep::Lend => lent = number,
            SplitStep::Write => written = number,
            SplitStep::Settle => {}
            SplitStep::Advance => {
                lent = issued;
                written = number;
            }
            SplitStep::Stop(_) => {
                if number < written || number > lent {
                    return false;
                }
                issued = number;
                written = number;
                lent = number;
            }
        }
    }
    true
}

// A disk that was formatted, or what is answered where there is none.
fn own_disk(
    alloc: Global,
    settings: &Settings,
    answer: &mut TextBuffer,
) -> Result<MemDisk, StepReply> {
    let Ok(mut disk) = MemDisk::new(alloc, 64) else {
        return Err(StepReply::NoMemory);
    };
    match format_disk(alloc, &mut disk, settings, answer) {
        StepReply::Done => Ok(disk),
        reply => Err(reply),
    }
}

// Runs the steps of an order on a disk.
fn run_steps(
    alloc: Global,
    disk: MemDisk,
    steps: &[SplitStep],
    answer: &mut TextBuffer,
) -> StepReply {
    match drill_split(alloc, disk, steps) {
        Ok(SplitDrill { answers, disk, .. }) => {
            disk.close();
            if is_within(steps, &answers) {
                StepReply::Done
            } else {
                tell_answers(&answers, answer);
                StepReply::Told
            }
        }
        Err(failure) => {
            tell_failure(failure, answer);
            StepReply::RefusalTold
        }
    }
}

// Runs one order on a disk of its own.
fn run_order(
    alloc: Global,
    settings: &Settings,
    of: OrdersOf,
    order: u64,
    length: u64,
    answer: &mut TextBuffer,
) -> StepReply {
    let Some(steps) = steps_of_order(alloc, of, order, length) else {
        return StepReply::NoMemory;
    };
    match own_disk(alloc, settings, answer) {
        Ok(disk) => run_steps(alloc, disk, &steps, answer),
        Err(reply) => reply,
    }
}

// How many orders of so many steps there are.
fn count_orders(of: OrdersOf, length: u64) -> u64 {
    let mut orders = 1u64;
    for _ in 0..length {
        orders = orders.saturating_mul(of.choices());
    }
    orders
}

/// `LENGTH`: runs a drill of each order of these steps that is so long, and tells how many there are where each stop names a
/// length between what was written and what was lent; else the first that does not.
pub fn split_orders_step(
    alloc: Global,
    settings: &Settings,
    of: OrdersOf,
    words: &mut Words,
    answer: &mut TextBuffer,
) -> StepReply {
    let length = words.number().min(9);
    if words.are_bad() {
        return StepReply::Unreadable;
    }
    let orders = count_orders(of, length);
    for order in 0..orders {
        match run_order(alloc, settings, of, order, length, answer) {
            StepReply::Done => {}
            reply => return reply,
        }
    }
    StepReply::Number(orders)
}
