// What a case of brokers has of a disk: the disk, or a broker that is open on it.
use crate::copying::copy_to;
use crate::drilling::drill_step;
use crate::events::whole_broker_step;
use crate::placing::set;
use broker_core::{Broker, Ticket};
use case_runner::{StepReply, TextBuffer, Words};
use disk_steps::{Base, CaseDisk, Stage, disk_step, open_broker};
use env_phase::Env;
use request_steps::{environment_step, reply_step, request_step};
use sector_disk::MemDisk;
use std::alloc::Global;
use std::mem;
use table_steps::{record_step, tell_member, tell_record};

// What is open on a disk.
#[derive(Drop)]
enum OpenBroker {
    Nothing,
    Closed(CaseDisk),
    Open(Broker<CaseDisk>),
}

/// The disk of a case, or the broker that is open on it.
#[derive(Drop)]
pub struct BrokerStage {
    place: OpenBroker,
    // The tickets of the broker that is open.
    tickets: Vec<Ticket>,
    // The destination record that was told last.
    record: Vec<u8>,
    // An environment, which needs no disk.
    environment: Option<Env>,
}

impl BrokerStage {
    // `ID`: the record of an event that has ended.
    fn tell_record(
        &mut self,
        alloc: Global,
        words: &mut Words,
        answer: &mut TextBuffer,
    ) -> StepReply {
        match &self.place {
            OpenBroker::Open(broker) => {
                tell_record(alloc, broker.table(), &mut self.record, words, answer)
            }
            _ => StepReply::NoStep,
        }
    }

    // Copies the broker that is open to a new disk, which takes the place of it and of its own. What was issued is durable
    // there once that is done.
    fn copy_to(
        &mut self,
        alloc: Global,
        base: &mut Base,
        words: &mut Words,
        answer: &mut TextBuffer,
    ) -> StepReply {
        let OpenBroker::Open(broker) = &self.place else {
            return StepReply::NoStep;
        };
        let issued = broker.issued();
        let (reply, disk) = copy_to(alloc, broker, words, answer);
        if matches!(reply, StepReply::Done) {
            base.durable = issued;
            base.issued = issued;
        }
        if let Some(disk) = disk {
            self.tickets.clear();
            set(&mut self.place, OpenBroker::Closed(disk));
        }
        reply
    }

    // A step of the broker, if one is open, or of the disk.
    fn step_on_place(
        &mut self,
        alloc: Global,
        word: &str,
        words: &mut Words,
        answer: &mut TextBuffer,
    ) -> StepReply {
        match &mut self.place {
            OpenBroker::Nothing => StepReply::NoStep,
            OpenBroker::Closed(disk) => disk_step(alloc, disk, word, words, answer),
            OpenBroker::Open(broker) => {
                whole_broker_step(alloc, broker, &mut self.tickets, word, words, answer)
            }
        }
    }
}

impl Stage for BrokerStage {
    fn nothing(alloc: Global) -> BrokerStage {
        BrokerStage {
            place: OpenBroker::Nothing,
            tickets: Vec::new(alloc),
            record: Vec::new(alloc),
            environment: None,
        }
    }

    fn put(&mut self, disk: CaseDisk) {
        set(&mut self.place, OpenBroker::Closed(disk));
    }

    fn take(&mut self, base: &mut Base) -> Option<CaseDisk> {
        match mem::replace(&mut self.place, OpenBroker::Nothing) {
            OpenBroker::Nothing => None,
            OpenBroker::Closed(disk) => Some(disk),
            OpenBroker::Open(broker) => {
                base.durable = broker.durable().number();
                base.issued = broker.issued();
                self.tickets.clear();
                Some(broker.close())
            }
        }
    }

    fn open(
        &mut self,
        alloc: Global,
        base: &Base,
        disk: CaseDisk,
        answer: &mut TextBuffer,
    ) -> StepReply {
        match open_broker(alloc, disk, answer) {
            Ok(broker) => {
                let number = broker.issued();
                set(&mut self.place, OpenBroker::Open(broker));
                base.recovered(number)
            }
            Err((disk, reply)) => {
                set(&mut self.place, OpenBroker::Closed(disk));
                reply
            }
        }
    }

    fn drill(
        alloc: Global,
        disk: MemDisk,
        word: &str,
        text: &str,
        answer: &mut TextBuffer,
    ) -> (StepReply, Option<MemDisk>) {
        if word == "drill" {
            drill_step(alloc, disk, text, answer)
        } else {
            (StepReply::NoStep, Some(disk))
        }
    }

    fn step(
        &mut self,
        alloc: Global,
        base: &mut Base,
        word: &str,
        words: &mut Words,
        answer: &mut TextBuffer,
    ) -> StepReply {
        match word {
            "record" => self.tell_record(alloc, words, answer),
            "copy-to" => self.copy_to(alloc, base, words, answer),
            "request" => request_step(alloc, &base.settings, words, answer),
            "reply" => reply_step(alloc, &base.settings, words, answer),
            "env" => environment_step(alloc, &mut self.environment, words, answer),
            "member" => tell_member(alloc, &self.record, words, answer),
            _ => {
                let reply = record_step(alloc, &base.settings, word, words, answer);
                if reply.is_no_step() {
                    return self.step_on_place(alloc, word, words, answer);
                }
                reply
            }
        }
    }
}
