// Steps on a disk that no broker has open.
use crate::audits::tell_audit;
use crate::journals::{append, append_groups, fits, frames};
use crate::refusals;
use crate::sizes::{tell_blank, tell_resized};
use case_runner::{StepReply, TextBuffer, Words, number_of};
use checkpoint::Opened;
use invoke_records::{Command, Snapshot};
use sector_disk::{Disk, SECTOR_SIZE};
use std::alloc::Global;

// The bytes of a sector: None where it is not on the disk, or the device failed.
fn sector_bytes<D: Disk>(disk: &mut D, at: u64) -> Option<[u8; 512]> {
    let mut bytes = [0; SECTOR_SIZE];
    if at >= disk.sectors() || disk.read(at, &mut bytes).is_err() {
        return None;
    }
    Some(bytes)
}

// Writes a sector, if it is on the disk and the device works.
fn write_sector<D: Disk>(disk: &mut D, at: u64, bytes: &[u8; 512]) -> bool {
    at < disk.sectors() && disk.write(at, bytes).is_ok()
}

fn done_or_fault(is_done: bool) -> StepReply {
    if is_done {
        StepReply::Done
    } else {
        StepReply::Refused("fault")
    }
}

// Puts the bytes of these digits into a sector, from a place on.
fn put_digits(bytes: &mut [u8; 512], from: usize, digits: &str) -> bool {
    let end = from.saturating_add(digits.len() / 2);
    match bytes.get_mut(from..end) {
        Some(part) => hex::decode_to_slice(digits, part).is_ok(),
        None => false,
    }
}

// Fills a sector with the one byte of these digits.
fn fill(bytes: &mut [u8; 512], digits: &str) -> bool {
    let mut byte = [0];
    if hex::decode_to_slice(digits, &mut byte).is_err() {
        return false;
    }
    let [byte] = byte;
    *bytes = [byte; SECTOR_SIZE];
    true
}

// A sector with some bytes changed: `SECTOR:HEX` are those bytes and then zeros, `SECTOR=HEX` is that byte everywhere,
// `SECTOR@PLACE:HEX` changes what it holds from that place on, `SECTOR=kept` changes nothing.
fn changed_sector<D: Disk>(disk: &mut D, word: &str) -> Option<(u64, [u8; 512])> {
    let (place, digits) = word.split_once([':', '='])?;
    let (at, from) = place.split_once('@').unwrap_or((place, "0"));
    let (Some(at), Some(from)) = (number_of(at), number_of(from)) else {
        return None;
    };
    let mut bytes = [0; SECTOR_SIZE];
    if digits == "kept" || place.contains('@') {
        bytes = sector_bytes(disk, at)?;
    }
    let is_changed = if word.contains('=') {
        digits == "kept" || fill(&mut bytes, digits)
    } else {
        put_digits(&mut bytes, from as usize, digits)
    };
    if is_changed { Some((at, bytes)) } else { None }
}

/// The sectors that a stop tears, by words between white space or commas.
pub fn read_choice<D: Disk>(
    alloc: Global,
    disk: &mut D,
    text: &str,
) -> Result<Vec<(u64, [u8; 512])>, StepReply> {
    let mut choice = Vec::new(alloc);
    for word in text.split([' ', ',']) {
        if word.is_empty() {
            continue;
        }
        let Some(sector) = changed_sector(disk, word) else {
            return Err(StepReply::Unreadable);
        };
        if choice.push(sector).is_err() {
            return Err(StepReply::NoMemory);
        }
    }
    Ok(choice)
}

// `SECTORS`: changes them, which stay unsettled.
fn write<D: Disk>(disk: &mut D, words: &mut Words) -> StepReply {
    for word in words.rest().split_whitespace() {
        let Some(sector) = changed_sector(disk, word) else {
            return StepReply::Unreadable;
        };
        let bytes = sector.1;
        if !write_sector(disk, sector.0, &bytes) {
            return StepReply::Refused("fault");
        }
    }
    StepReply::Done
}

// `SECTORS`: changes them, and settles them.
fn change<D: Disk>(disk: &mut D, words: &mut Words) -> StepReply {
    match write(disk, words) {
        StepReply::Done => done_or_fault(disk.barrier().is_ok()),
        reply => reply,
    }
}

// `FIRST..LAST to AT`: copies these sectors to where they begin, and settles them.
fn copy<D: Disk>(disk: &mut D, words: &mut Words) -> StepReply {
    let (first, last) = words.range();
    words.expect("to");
    let mut to = words.number();
    if words.are_bad() {
        return StepReply::Unreadable;
    }
    for from in first..=last {
        let Some(bytes) = sector_bytes(disk, from) else {
            return StepReply::Refused("fault");
        };
        if !write_sector(disk, to, &bytes) {
            return StepReply::Refused("fault");
        }
        to = to.saturating_add(1);
    }
    done_or_fault(disk.barrier().is_ok())
}

// `AT [from PLACE to PLACE]`: the bytes of a sector without the zeros at their end, or all of a part of it.
fn show<D: Disk>(disk: &mut D, words: &mut Words, answer: &mut TextBuffer) -> StepReply {
    let Some(bytes) = sector_bytes(disk, words.number()) else {
        return StepReply::Refused("fault");
    };
    if !words.takes("from") {
        answer.add_shown(&bytes);
        return StepReply::Told;
    }
    let first = words.number() as usize;
    words.expect("to");
    let Some(part) = bytes.get(first..words.number() as usize) else {
        return StepReply::Unreadable;
    };
    answer.add_hex(part);
    StepReply::Told
}

fn tell_recovered(
    opened: &Opened,
    snapshot: &Snapshot,
    commands: &[Command],
    answer: &mut TextBuffer,
) {
    answer.add_with("generation ", opened.generation());
    answer.add_with(" events ", opened.settings().events as u64);
    answer.add_with(" number ", snapshot.number);
    answer.add_with(" rows ", snapshot.rows.as_slice().len() as u64);
    answer.add_with(" commands ", commands.len() as u64);
}

// What is read from a formatted disk: its snapshot and the commands behind it.
fn recover<D: Disk>(alloc: Global, disk: &mut D, answer: &mut TextBuffer) -> StepReply {
    match checkpoint::open(alloc, disk) {
        Ok((opened, snapshot, commands)) => {
            tell_recovered(&opened, &snapshot, &commands, answer);
            StepReply::Told
        }
        Err(why) => refusals::open(why, answer),
    }
}

/// What a disk that no broker has open answers to a step.
pub fn disk_step<D: Disk>(
    alloc: Global,
    disk: &mut D,
    word: &str,
    words: &mut Words,
    answer: &mut TextBuffer,
) -> StepReply {
    match word {
        "sector" => show(disk, words, answer),
        "change" => change(disk, words),
        "write" => write(disk, words),
        "copy" => copy(disk, words),
        "barrier" => done_or_fault(disk.barrier().is_ok()),
        "faults" => StepReply::Number(disk.faults()),
        "recover" => recover(alloc, disk, answer),
        "audit" => tell_audit(alloc, disk, words, answer),
        "resized" => tell_resized(alloc, disk, answer),
        "is-blank" => tell_blank(alloc, disk),
        "frames" => frames(alloc, disk, words, answer),
        "fits" => fits(alloc, disk, words),
        "append" => append(alloc, disk, words),
        "append-groups" => append_groups(alloc, disk, words),
        _ => StepReply::NoStep,
    }
}
