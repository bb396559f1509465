// Steps of the two halves of a broker.
use broker_core::{Batch, DiskHalf, Durable, Failed, IssueHalf, SettleError, Ticket, Written};
use case_runner::{StepReply, TextBuffer, Words};
use disk_steps::{issuer_step, refusals};
use sector_disk::Disk;
use std::alloc::Global;
use std::mem;

/// What the last lend or write left.
#[derive(Drop)]
pub enum BatchState {
    Nothing,
    Lent(Batch),
    Done(Result<Written, Failed>),
}

/// The two halves of a broker, and what goes between them.
#[derive(Drop)]
pub struct Halves<D: Disk> {
    pub issue: IssueHalf,
    pub disk: DiskHalf<D>,
    pub held: BatchState,
    /// The last number that was lent.
    pub lent: u64,
}

impl<D: Disk> Halves<D> {
    pub fn new(issue: IssueHalf, disk: DiskHalf<D>) -> Halves<D> {
        let lent = issue.issued();
        Halves {
            issue,
            disk,
            held: BatchState::Nothing,
            lent,
        }
    }

    /// How many commands are durable on the disk.
    pub fn written(&self) -> u64 {
        self.disk.durable().number()
    }
}

// The last number of the batch that is lent then, or `idle`.
fn lend<D: Disk>(halves: &mut Halves<D>) -> StepReply {
    match halves.issue.lend() {
        Ok(Some(batch)) => {
            halves.lent = batch.last();
            halves.held = BatchState::Lent(batch);
            StepReply::Number(halves.lent)
        }
        Ok(None) => StepReply::Word("idle"),
        Err(why) => StepReply::Refused(refusals::lend(why)),
    }
}

// The last number of the batch that is written then, or `idle`.
fn write<D: Disk>(halves: &mut Halves<D>) -> StepReply {
    let batch = match mem::replace(&mut halves.held, BatchState::Nothing) {
        BatchState::Lent(batch) => batch,
        held => {
            halves.held = held;
            return StepReply::Word("idle");
        }
    };
    let outcome = halves.disk.write(batch);
    let reply = match &outcome {
        Ok(written) => StepReply::Number(written.last()),
        Err(failed) => StepReply::Refused(refusals::write(failed.cause())),
    };
    halves.held = BatchState::Done(outcome);
    reply
}

// What is answered for a settlement.
fn told(settled: Result<Durable, SettleError>) -> StepReply {
    match settled {
        Ok(durable) => StepReply::Number(durable.number()),
        Err(why) => StepReply::Refused(refusals::settle(why)),
    }
}

// How many commands are durable after the settlement, or `idle`.
fn settle<D: Disk>(halves: &mut Halves<D>) -> StepReply {
    let outcome = match mem::replace(&mut halves.held, BatchState::Nothing) {
        BatchState::Done(outcome) => outcome,
        held => {
            halves.held = held;
            return StepReply::Word("idle");
        }
    };
    told(halves.issue.settle(outcome))
}

// Lends what is not lent, advances by it and settles that: how many commands are durable then, or `idle`.
fn advance<D: Disk>(halves: &mut Halves<D>) -> StepReply {
    let BatchState::Nothing = &halves.held else {
        return StepReply::Word("idle");
    };
    let batch = match halves.issue.lend_more() {
        Ok(Some(batch)) => batch,
        Ok(None) => return StepReply::Word("idle"),
        Err(why) => return StepReply::Refused(refusals::lend(why)),
    };
    halves.lent = batch.last();
    match halves.disk.advance(batch) {
        Ok(Some(written)) => told(halves.issue.settle_front(written)),
        Ok(None) => StepReply::Number(halves.issue.durable().number()),
        Err(failed) => told(halves.issue.settle(Err(failed))),
    }
}

/// What two halves answer to a step.
pub fn halves_step<D: Disk>(
    alloc: Global,
    halves: &mut Halves<D>,
    tickets: &mut Vec<Ticket>,
    word: &str,
    words: &mut Words,
    answer: &mut TextBuffer,
) -> StepReply {
    match word {
        "lend" => lend(halves),
        "write" => write(halves),
        "settle" => settle(halves),
        "advance" => advance(halves),
        "written" => StepReply::Number(halves.written()),
        _ => issuer_step(alloc, &mut halves.issue, tickets, word, words, answer),
    }
}
