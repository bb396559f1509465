// What a case of halves has of a disk: the disk, a broker that is open on it, or the two halves of one.
use crate::halves::{Halves, halves_step};
use crate::placing::set;
use crate::split_drilling::{OrdersOf, drill_split_step, split_orders_step};
use broker_core::{Broker, JoinFailure, Ticket};
use case_runner::{StepReply, TextBuffer, Words};
use disk_steps::{Base, CaseDisk, Stage, broker_step, disk_step, open_broker, refusals};
use sector_disk::{Disk, MemDisk};
use std::alloc::Global;
use std::mem;

// What is open on a disk.
#[derive(Drop)]
enum OpenHalves<D: Disk> {
    Nothing,
    Closed(D),
    Open(Broker<D>),
    Split(Halves<D>),
}

/// The disk of a case, and the broker or the halves on it.
#[derive(Drop)]
pub struct HalvesStage {
    place: OpenHalves<CaseDisk>,
    // The tickets of what is open.
    tickets: Vec<Ticket>,
}

// Opens a disk and splits its broker: where it stands then, and what is answered.
fn opened_halves<D: Disk>(
    alloc: Global,
    disk: D,
    answer: &mut TextBuffer,
) -> (OpenHalves<D>, StepReply) {
    match open_broker(alloc, disk, answer) {
        Ok(broker) => match broker.split() {
            Ok((issue, disk)) => (OpenHalves::Split(Halves::new(issue, disk)), StepReply::Done),
            Err(failure) => (
                OpenHalves::Closed(failure.broker.close()),
                StepReply::Refused("out of memory"),
            ),
        },
        Err((disk, reply)) => (OpenHalves::Closed(disk), reply),
    }
}

// Joins two halves: where it stands then, and what is answered.
fn joined<D: Disk>(halves: Halves<D>) -> (OpenHalves<D>, StepReply) {
    let Halves {
        issue,
        disk,
        held,
        lent,
    } = halves;
    match Broker::join(issue, disk) {
        Ok(broker) => (OpenHalves::Open(broker), StepReply::Done),
        Err(JoinFailure { cause, issue, disk }) => {
            let halves = Halves {
                issue,
                disk,
                held,
                lent,
            };
            (
                OpenHalves::Split(halves),
                StepReply::Refused(refusals::join(cause)),
            )
        }
    }
}

// The disk of a place, and how many commands were durable and issued, where something was open on it.
fn closed<D: Disk>(place: OpenHalves<D>, base: &mut Base) -> Option<D> {
    match place {
        OpenHalves::Nothing => None,
        OpenHalves::Closed(disk) => Some(disk),
        OpenHalves::Open(broker) => {
            base.durable = broker.durable().number();
            base.issued = broker.issued();
            Some(broker.close())
        }
        OpenHalves::Split(halves) => {
            base.durable = halves.written();
            base.issued = halves.lent;
            Some(halves.disk.close())
        }
    }
}

// A step of what is open, or of the disk.
fn step_on<D: Disk>(
    alloc: Global,
    place: &mut OpenHalves<D>,
    tickets: &mut Vec<Ticket>,
    word: &str,
    words: &mut Words,
    answer: &mut TextBuffer,
) -> StepReply {
    match place {
        OpenHalves::Nothing => StepReply::NoStep,
        OpenHalves::Closed(disk) => disk_step(alloc, disk, word, words, answer),
        OpenHalves::Open(broker) => broker_step(alloc, broker, tickets, word, words, answer),
        OpenHalves::Split(halves) => halves_step(alloc, halves, tickets, word, words, answer),
    }
}

// Gives up what was there, and closes it.
fn take<D: Disk>(place: &mut OpenHalves<D>, base: &mut Base) -> Option<D> {
    closed(mem::replace(place, OpenHalves::Nothing), base)
}

// Opens a disk: how many commands were recovered.
fn open<D: Disk + Drop>(
    alloc: Global,
    place: &mut OpenHalves<D>,
    disk: D,
    answer: &mut TextBuffer,
) -> Result<u64, StepReply> {
    match open_broker(alloc, disk, answer) {
        Ok(broker) => {
            let number = broker.issued();
            set(place, OpenHalves::Open(broker));
            Ok(number)
        }
        Err((disk, reply)) => {
            set(place, OpenHalves::Closed(disk));
            Err(reply)
        }
    }
}

// Closes what is open, opens the disk and splits its broker.
fn split<D: Disk + Drop>(
    alloc: Global,
    place: &mut OpenHalves<D>,
    base: &mut Base,
    answer: &mut TextBuffer,
) -> StepReply {
    let Some(disk) = take(place, base) else {
        return StepReply::Unreadable;
    };
    let (now, reply) = opened_halves(alloc, disk, answer);
    set(place, now);
    reply
}

// Joins the halves to a broker that is open.
fn join<D: Disk + Drop>(place: &mut OpenHalves<D>) -> StepReply {
    let (now, reply) = match mem::replace(place, OpenHalves::Nothing) {
        OpenHalves::Split(halves) => joined(halves),
        other => (other, StepReply::Unreadable),
    };
    set(place, now);
    reply
}

impl Stage for HalvesStage {
    fn nothing(alloc: Global) -> HalvesStage {
        HalvesStage {
            place: OpenHalves::Nothing,
            tickets: Vec::new(alloc),
        }
    }

    fn put(&mut self, disk: CaseDisk) {
        set(&mut self.place, OpenHalves::Closed(disk));
    }

    fn take(&mut self, base: &mut Base) -> Option<CaseDisk> {
        self.tickets.clear();
        take(&mut self.place, base)
    }

    fn open(
        &mut self,
        alloc: Global,
        base: &Base,
        disk: CaseDisk,
        answer: &mut TextBuffer,
    ) -> StepReply {
        match open(alloc, &mut self.place, disk, answer) {
            Ok(number) => base.recovered(number),
            Err(reply) => reply,
        }
    }

    fn drill(
        alloc: Global,
        disk: MemDisk,
        word: &str,
        text: &str,
        answer: &mut TextBuffer,
    ) -> (StepReply, Option<MemDisk>) {
        if word == "drill-split" {
            drill_split_step(alloc, disk, text, answer)
        } else {
            (StepReply::NoStep, Some(disk))
        }
    }

    fn step(
        &mut self,
        alloc: Global,
        base: &mut Base,
        word: &str,
        words: &mut Words,
        answer: &mut TextBuffer,
    ) -> StepReply {
        match word {
            "split" => {
                self.tickets.clear();
                split(alloc, &mut self.place, base, answer)
            }
            "join" => join(&mut self.place),
            "split-orders" => {
                split_orders_step(alloc, &base.settings, OrdersOf::Writes, words, answer)
            }
            "advance-orders" => {
                split_orders_step(alloc, &base.settings, OrdersOf::Advances, words, answer)
            }
            _ => step_on(
                alloc,
                &mut self.place,
                &mut self.tickets,
                word,
                words,
                answer,
            ),
        }
    }
}
