// Steps of a hall over an issue half: what is lent, written and settled.
use crate::halls::{hall_step, refusal};
use broker_core::{Batch, Broker, DiskHalf, Failed, IssueHalf, SplitError, Written};
use case_runner::{StepReply, TextBuffer, Words};
use disk_steps::refusals;
use hall_core::{Hall, HallJoinFailure, HallSplitFailure};
use retry_rules::Settings;
use sector_disk::Disk;
use std::alloc::Global;
use std::mem;

/// A hall over an issue half, the half over the disk, and what is on its way between them.
#[derive(Drop)]
pub struct SplitHall<D: Disk> {
    pub hall: Hall<IssueHalf>,
    pub disk: DiskHalf<D>,
    pub between: Between,
}

/// What is on its way between two halves.
#[derive(Drop)]
pub enum Between {
    Nothing,
    /// What was lent.
    Batch(Batch),
    /// What became of it.
    Outcome(Result<Written, Failed>),
}

// The last number that is lent, or `idle`.
fn lend<D: Disk>(split: &mut SplitHall<D>) -> StepReply {
    match split.hall.lend() {
        Ok(Some(batch)) => {
            let last = batch.last();
            split.between = Between::Batch(batch);
            StepReply::Number(last)
        }
        Ok(None) => StepReply::Word("idle"),
        Err(why) => StepReply::Refused(refusal(why)),
    }
}

// Writes what is lent, if anything is: its last number.
fn write<D: Disk>(split: &mut SplitHall<D>) -> StepReply {
    match mem::replace(&mut split.between, Between::Nothing) {
        Between::Batch(batch) => {
            let outcome = split.disk.write(batch);
            split.between = Between::Outcome(outcome);
            match outcome {
                Ok(written) => StepReply::Number(written.last()),
                Err(failed) => StepReply::Word(refusals::write(failed.cause())),
            }
        }
        other => {
            split.between = other;
            StepReply::Word("idle")
        }
    }
}

// Settles what became of what was lent, if it was written: how many commands are durable.
fn settle<D: Disk>(split: &mut SplitHall<D>) -> StepReply {
    let Between::Outcome(outcome) = &split.between else {
        return StepReply::Word("idle");
    };
    match split.hall.settle(*outcome) {
        Ok(durable) => StepReply::Number(durable.number()),
        Err(why) => StepReply::Word(refusal(why)),
    }
}

/// What a hall that was split answers to a step.
pub fn split_step<D: Disk>(
    alloc: Global,
    split: &mut SplitHall<D>,
    settings: &Settings,
    word: &str,
    words: &mut Words,
    answer: &mut TextBuffer,
) -> StepReply {
    match word {
        "lend" => lend(split),
        "write" => write(split),
        "settle" => settle(split),
        _ => hall_step(alloc, &mut split.hall, settings, word, words, answer),
    }
}

/// Splits a hall of which all is durable. One that is not split is handed back, with what is answered.
pub fn split_hall<D: Disk>(
    hall: Hall<Broker<D>>,
) -> Result<SplitHall<D>, (Hall<Broker<D>>, StepReply)> {
    if !hall.is_all_durable() {
        return Err((hall, StepReply::Unreadable));
    }
    match hall.split() {
        Ok((hall, disk)) => Ok(SplitHall {
            hall,
            disk,
            between: Between::Nothing,
        }),
        Err(HallSplitFailure { cause, hall }) => {
            let why = match cause {
                SplitError::Broken => "broken",
                SplitError::OutOfMemory => "out of memory",
            };
            Err((hall, StepReply::Refused(why)))
        }
    }
}

/// Joins a hall that was split. One that is not joined is handed back, with what is answered.
pub fn joined_hall<D: Disk>(
    split: SplitHall<D>,
) -> Result<Hall<Broker<D>>, (SplitHall<D>, StepReply)> {
    let SplitHall {
        hall,
        disk,
        between,
    } = split;
    match hall.join(disk) {
        Ok(hall) => Ok(hall),
        Err(HallJoinFailure { cause, hall, disk }) => {
            let split = SplitHall {
                hall,
                disk,
                between,
            };
            Err((split, StepReply::Refused(refusals::join(cause))))
        }
    }
}
