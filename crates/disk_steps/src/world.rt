// Where a case stands: its settings, its disk, and what a program has open on it.
use crate::devices::{CaseDisk, Failures, SOUND, read_failures, unwrapped, wrapped};
use crate::memory::{format_disk, halt};
use crate::migrating::migrate_disk;
use case_runner::{Fixture, StepReply, TextBuffer, Words, set, usual_settings};
use retry_rules::Settings;
use sector_disk::{Disk, MemDisk};
use std::alloc::Global;

/// What a case has beside its disk.
#[derive(Drop)]
pub struct Base {
    /// What its disks are formatted with.
    pub settings: Settings,
    /// How many commands were durable when what was open on the disk was closed.
    pub durable: u64,
    /// How many were issued then.
    pub issued: u64,
}

impl Base {
    /// A disk was opened, and so many commands were recovered.
    pub fn recovered(&self, number: u64) -> StepReply {
        StepReply::Recovered {
            number,
            durable: self.durable,
            issued: self.issued,
        }
    }
}

/// What a case has of a disk: none, the disk, or what a program opens on it.
pub trait Stage: Drop {
    /// No disk.
    fn nothing(alloc: Global) -> Self;

    /// Takes a disk, on which nothing is open, in place of what was there.
    fn put(&mut self, disk: CaseDisk);

    /// Gives the disk up, where there is one, and closes what is open on it. How many commands were durable and issued is
    /// noted.
    fn take(&mut self, base: &mut Base) -> Option<CaseDisk>;

    /// Opens a disk.
    fn open(
        &mut self,
        alloc: Global,
        base: &Base,
        disk: CaseDisk,
        answer: &mut TextBuffer,
    ) -> StepReply;

    /// `drill ..` or the like: runs a drill on a disk, which is given up where an opening fails.
    fn drill(
        alloc: Global,
        disk: MemDisk,
        word: &str,
        text: &str,
        answer: &mut TextBuffer,
    ) -> (StepReply, Option<MemDisk>);

    /// Does a step that is none of any disk's.
    fn step(
        &mut self,
        alloc: Global,
        base: &mut Base,
        word: &str,
        words: &mut Words,
        answer: &mut TextBuffer,
    ) -> StepReply;
}

/// Where a case stands.
#[derive(Drop)]
pub struct World<S: Stage> {
    base: Base,
    stage: S,
}

// A disk of zeros.
fn blank(alloc: Global, sectors: u64) -> Result<MemDisk, StepReply> {
    match MemDisk::new(alloc, sectors) {
        Ok(disk) => Ok(disk),
        Err(_) => Err(StepReply::NoMemory),
    }
}

// A formatted disk.
fn formatted(
    alloc: Global,
    sectors: u64,
    settings: &Settings,
    answer: &mut TextBuffer,
) -> Result<MemDisk, StepReply> {
    let mut disk = blank(alloc, sectors)?;
    match format_disk(alloc, &mut disk, settings, answer) {
        StepReply::Done => Ok(disk),
        reply => Err(reply),
    }
}

// What a disk in memory answers to a step, and the disk, which is given up where a drill's opening fails.
fn memory_step<S: Stage>(
    alloc: Global,
    disk: MemDisk,
    settings: &Settings,
    word: &str,
    words: &mut Words,
    answer: &mut TextBuffer,
) -> (StepReply, Option<MemDisk>) {
    match word {
        "halt" => halt(alloc, disk, words.rest()),
        "barriers" => (StepReply::Number(disk.barriers()), Some(disk)),
        "format" => {
            let mut disk = disk;
            let reply = format_disk(alloc, &mut disk, settings, answer);
            (reply, Some(disk))
        }
        "device" => (StepReply::Done, Some(disk)),
        _ => S::drill(alloc, disk, word, words.rest(), answer),
    }
}

impl<S: Stage> World<S> {
    // Opens the disk.
    fn open(&mut self, alloc: Global, answer: &mut TextBuffer) -> StepReply {
        match self.stage.take(&mut self.base) {
            Some(disk) => self.stage.open(alloc, &self.base, disk, answer),
            None => StepReply::Unreadable,
        }
    }

    // Closes what is open on the disk.
    fn close(&mut self) -> StepReply {
        match self.stage.take(&mut self.base) {
            Some(disk) => {
                self.stage.put(disk);
                StepReply::Done
            }
            None => StepReply::Unreadable,
        }
    }

    // Migrates the disk, which nothing has open then.
    fn migrate(&mut self, alloc: Global, answer: &mut TextBuffer) -> StepReply {
        match self.stage.take(&mut self.base) {
            Some(disk) => {
                let (disk, reply) = migrate_disk(alloc, disk, answer);
                self.stage.put(disk);
                reply
            }
            None => StepReply::Unreadable,
        }
    }

    // `N [fuse N] [fault reads|changes K]`: a disk of zeros, or a formatted one, which is opened.
    fn make(
        &mut self,
        alloc: Global,
        is_blank: bool,
        words: &mut Words,
        answer: &mut TextBuffer,
    ) -> StepReply {
        let sectors = words.number();
        let failures = read_failures(words);
        if words.are_bad() {
            return StepReply::Unreadable;
        }
        let made = if is_blank {
            blank(alloc, sectors)
        } else {
            formatted(alloc, sectors, &self.base.settings, answer)
        };
        match made {
            Ok(disk) => self.stage.put(wrapped(disk, failures)),
            Err(reply) => return reply,
        }
        if is_blank {
            return StepReply::Done;
        }
        self.open(alloc, answer)
    }

    // Does a step on the disk in memory itself, whose device fails from then on as it is said.
    fn memory_step(
        &mut self,
        alloc: Global,
        word: &str,
        failures: Failures,
        words: &mut Words,
        answer: &mut TextBuffer,
    ) -> StepReply {
        let Some(disk) = self.stage.take(&mut self.base) else {
            return StepReply::Unreadable;
        };
        let disk = unwrapped(disk);
        let settings = &self.base.settings;
        let (reply, disk) = memory_step::<S>(alloc, disk, settings, word, words, answer);
        if let Some(disk) = disk {
            self.stage.put(wrapped(disk, failures));
        }
        reply
    }

    // `[fuse N] [fault reads|changes K]`: when the device fails from now on.
    fn set_device(
        &mut self,
        alloc: Global,
        words: &mut Words,
        answer: &mut TextBuffer,
    ) -> StepReply {
        let failures = read_failures(words);
        if words.are_bad() {
            return StepReply::Unreadable;
        }
        self.memory_step(alloc, "device", failures, words, answer)
    }

    // `SECTORS`: stops the disk and opens it again.
    fn stop(&mut self, alloc: Global, words: &mut Words, answer: &mut TextBuffer) -> StepReply {
        match self.memory_step(alloc, "halt", SOUND, words, answer) {
            StepReply::Done => self.open(alloc, answer),
            reply => reply,
        }
    }
}

impl<S: Stage> Fixture for World<S> {
    fn begin(alloc: Global) -> Option<World<S>> {
        match usual_settings(alloc) {
            Some(settings) => Some(World {
                base: Base {
                    settings,
                    durable: 0,
                    issued: 0,
                },
                stage: S::nothing(alloc),
            }),
            None => None,
        }
    }

    fn step(&mut self, alloc: Global, words: &mut Words, answer: &mut TextBuffer) -> StepReply {
        let word = words.word();
        match word {
            "settings" => set(alloc, &mut self.base.settings, words),
            "blank" => self.make(alloc, true, words, answer),
            "disk" => self.make(alloc, false, words, answer),
            "open" => self.open(alloc, answer),
            "close" => self.close(),
            "migrate" => self.migrate(alloc, answer),
            "stop" => self.stop(alloc, words, answer),
            "device" => self.set_device(alloc, words, answer),
            "halt" | "format" | "barriers" | "drill" | "drill-split" => {
                self.memory_step(alloc, word, SOUND, words, answer)
            }
            _ => self.stage.step(alloc, &mut self.base, word, words, answer),
        }
    }
}
