// What a case of halls has of a disk: the disk, or a broker or a hall that is open on it.
use crate::open_hall::{OpenHall, ask, open, split_or_join, step_on, take};
use crate::placing::set;
use broker_core::{Broker, Ticket};
use case_runner::{StepReply, TextBuffer, Words};
use disk_steps::{Base, CaseDisk, Stage};
use sector_disk::MemDisk;
use std::alloc::Global;

/// The disk of a case, and the broker or the hall on it.
#[derive(Drop)]
pub struct HallStage {
    place: OpenHall<Broker<CaseDisk>, CaseDisk>,
    // The tickets of the broker that is open.
    tickets: Vec<Ticket>,
}

impl Stage for HallStage {
    fn nothing(alloc: Global) -> HallStage {
        HallStage {
            place: OpenHall::Nothing,
            tickets: Vec::new(alloc),
        }
    }

    fn put(&mut self, disk: CaseDisk) {
        set(&mut self.place, OpenHall::Closed(disk));
    }

    fn take(&mut self, base: &mut Base) -> Option<CaseDisk> {
        self.tickets.clear();
        take(&mut self.place, base)
    }

    fn open(
        &mut self,
        alloc: Global,
        base: &Base,
        disk: CaseDisk,
        answer: &mut TextBuffer,
    ) -> StepReply {
        match open(alloc, &mut self.place, disk, answer) {
            Ok(number) => base.recovered(number),
            Err(reply) => reply,
        }
    }

    fn drill(
        _alloc: Global,
        disk: MemDisk,
        _word: &str,
        _text: &str,
        _answer: &mut TextBuffer,
    ) -> (StepReply, Option<MemDisk>) {
        (StepReply::NoStep, Some(disk))
    }

    fn step(
        &mut self,
        alloc: Global,
        base: &mut Base,
        word: &str,
        words: &mut Words,
        answer: &mut TextBuffer,
    ) -> StepReply {
        match word {
            "hall" => {
                self.tickets.clear();
                ask(alloc, &mut self.place, base, words, answer)
            }
            "split" => split_or_join(&mut self.place, true),
            "join" => split_or_join(&mut self.place, false),
            _ => {
                let settings = &base.settings;
                step_on(
                    alloc,
                    &mut self.place,
                    &mut self.tickets,
                    settings,
                    word,
                    words,
                    answer,
                )
            }
        }
    }
}
