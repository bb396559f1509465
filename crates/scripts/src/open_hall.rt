// The disk of a case, and the broker, the hall or the split hall that is open on it.
use crate::halls::whole_hall_step;
use crate::placing::set;
use crate::splits::{SplitHall, joined_hall, split_hall, split_step};
use api_core::Dialect;
use broker_core::{Broker, Issuer, Ticket};
use case_runner::{StepReply, TextBuffer, Words};
use disk_steps::{Base, broker_step, disk_step, open_broker};
use hall_core::Hall;
use request_steps::{dialect, extensions_wanted};
use retry_rules::Settings;
use sector_disk::Disk;
use std::alloc::Global;
use std::mem;

/// What is open on a disk.
#[derive(Drop)]
pub enum OpenHall<I: Issuer, D: Disk> {
    Nothing,
    Closed(D),
    Open(Broker<D>),
    Asked(Hall<I>),
    Split(SplitHall<D>),
}

// Opens a disk and a hall over its broker, which tells its replies in a dialect, and whose environments wait for so many
// extensions: where it stands then, and what is answered.
fn opened_hall<D: Disk>(
    alloc: Global,
    disk: D,
    dialect: Dialect,
    extensions: u8,
    answer: &mut TextBuffer,
) -> (OpenHall<Broker<D>, D>, StepReply) {
    match open_broker(alloc, disk, answer) {
        Ok(broker) => match Hall::in_dialect(alloc, broker, dialect, extensions) {
            Ok(hall) => (OpenHall::Asked(hall), StepReply::Done),
            Err(failure) => (
                OpenHall::Closed(failure.broker.close()),
                StepReply::Refused("out of memory"),
            ),
        },
        Err((disk, reply)) => (OpenHall::Closed(disk), reply),
    }
}

// Splits a hall: where it stands then, and what is answered.
fn split<D: Disk>(place: OpenHall<Broker<D>, D>) -> (OpenHall<Broker<D>, D>, StepReply) {
    match place {
        OpenHall::Asked(hall) => match split_hall(hall) {
            Ok(split) => (OpenHall::Split(split), StepReply::Done),
            Err((hall, reply)) => (OpenHall::Asked(hall), reply),
        },
        other => (other, StepReply::Unreadable),
    }
}

// Joins a hall that was split: where it stands then, and what is answered.
fn joined<D: Disk>(place: OpenHall<Broker<D>, D>) -> (OpenHall<Broker<D>, D>, StepReply) {
    match place {
        OpenHall::Split(split) => match joined_hall(split) {
            Ok(hall) => (OpenHall::Asked(hall), StepReply::Done),
            Err((split, reply)) => (OpenHall::Split(split), reply),
        },
        other => (other, StepReply::Unreadable),
    }
}

// The disk of a place, and how many commands were durable and issued, where something was open on it.
fn closed<D: Disk>(place: OpenHall<Broker<D>, D>, base: &mut Base) -> Option<D> {
    match place {
        OpenHall::Nothing => None,
        OpenHall::Closed(disk) => Some(disk),
        OpenHall::Open(broker) => {
            base.durable = broker.durable().number();
            base.issued = broker.issued();
            Some(broker.close())
        }
        OpenHall::Asked(hall) => {
            base.durable = hall.durable().number();
            base.issued = hall.issued();
            Some(hall.close())
        }
        OpenHall::Split(split) => {
            base.durable = split.hall.durable().number();
            base.issued = split.hall.issued();
            let SplitHall { disk, .. } = split;
            Some(disk.close())
        }
    }
}

/// Gives up what was there, and closes it.
pub fn take<D: Disk>(place: &mut OpenHall<Broker<D>, D>, base: &mut Base) -> Option<D> {
    closed(mem::replace(place, OpenHall::Nothing), base)
}

/// Opens a disk: how many commands were recovered.
pub fn open<D: Disk + Drop>(
    alloc: Global,
    place: &mut OpenHall<Broker<D>, D>,
    disk: D,
    answer: &mut TextBuffer,
) -> Result<u64, StepReply> {
    match open_broker(alloc, disk, answer) {
        Ok(broker) => {
            let number = broker.issued();
            set(place, OpenHall::Open(broker));
            Ok(number)
        }
        Err((disk, reply)) => {
            set(place, OpenHall::Closed(disk));
            Err(reply)
        }
    }
}

/// `[waiting N]`: closes what is open, and opens the disk and a hall over its broker, whose environments wait for so many
/// extensions.
pub fn ask<D: Disk + Drop>(
    alloc: Global,
    place: &mut OpenHall<Broker<D>, D>,
    base: &mut Base,
    words: &mut Words,
    answer: &mut TextBuffer,
) -> StepReply {
    let dialect = dialect(words);
    let extensions = extensions_wanted(words);
    if words.are_bad() {
        return StepReply::Unreadable;
    }
    let Some(disk) = take(place, base) else {
        return StepReply::Unreadable;
    };
    let (now, reply) = opened_hall(alloc, disk, dialect, extensions, answer);
    set(place, now);
    reply
}

/// Splits the hall that is open, or joins the one that was split.
pub fn split_or_join<D: Disk + Drop>(
    place: &mut OpenHall<Broker<D>, D>,
    is_split: bool,
) -> StepReply {
    let before = mem::replace(place, OpenHall::Nothing);
    let (now, reply) = if is_split {
        split(before)
    } else {
        joined(before)
    };
    set(place, now);
    reply
}

/// A step of what is open, or of the disk.
pub fn step_on<D: Disk>(
    alloc: Global,
    place: &mut OpenHall<Broker<D>, D>,
    tickets: &mut Vec<Ticket>,
    settings: &Settings,
    word: &str,
    words: &mut Words,
    answer: &mut TextBuffer,
) -> StepReply {
    match place {
        OpenHall::Nothing => StepReply::NoStep,
        OpenHall::Closed(disk) => disk_step(alloc, disk, word, words, answer),
        OpenHall::Open(broker) => broker_step(alloc, broker, tickets, word, words, answer),
        OpenHall::Asked(hall) => whole_hall_step(alloc, hall, settings, word, words, answer),
        OpenHall::Split(split) => split_step(alloc, split, settings, word, words, answer),
    }
}
