// Steps on the journal of an area of a disk: generation 1, from command 1 on.
ghost use Rattle.std.specs.Prelude.{◌≡◌, ◌≤◌, length, All, None, IfSome};
ghost use Rattle.invoke_records.specs.Spelling.{command_fault};
ghost use Rattle.gate_journal.specs.Journal.{number_of, end_of};

use crate::refusals;
use case_runner::{StepReply, TextBuffer, Words, id_of, kind_word, number_of_id, read_command};
use gate_journal::{Area, Journal};
use invoke_records::{Bytes, Command, Kind};
use sector_disk::Disk;
use std::alloc::Global;

/// A journal that was read, and its commands, each with the sector of its gate.
type Found = (Journal, Vec<(u64, Command)>);

fn tell_commands(found: &[(u64, Command)], answer: &mut TextBuffer) {
    answer.add_number(found.len() as u64);
    answer.add(" commands");
    for (gate, command) in found {
        answer.add(", ");
        answer.add(kind_word(command.kind));
        answer.add_with(" ", number_of_id(&command.id));
        answer.add_with(" at ", *gate);
    }
}

// `FIRST..END`: the journal in these sectors.
fn read_journal<D: Disk>(
    alloc: Global,
    disk: &mut D,
    words: &mut Words,
) -> Result<Found, StepReply> {
    let (start, end) = words.range();
    if words.are_bad() || end < start || disk.sectors() < end {
        return Err(StepReply::Unreadable);
    }
    let area = Area {
        generation: 1,
        number: 1,
        start,
        end,
    };
    match Journal::read_all(alloc, disk, area) {
        Ok(found) => Ok(found),
        Err(_) => Err(StepReply::Refused("damaged")),
    }
}

/// `FIRST..END`: the commands that the frames of an area hold.
pub fn frames<D: Disk>(
    alloc: Global,
    disk: &mut D,
    words: &mut Words,
    answer: &mut TextBuffer,
) -> StepReply {
    match read_journal(alloc, disk, words) {
        Ok((_, found)) => {
            tell_commands(&found, answer);
            StepReply::Told
        }
        Err(reply) => reply,
    }
}

/// `FIRST..END SIZE`: whether a frame of commands of so many bytes fits into what is left of an area.
pub fn fits<D: Disk>(alloc: Global, disk: &mut D, words: &mut Words) -> StepReply {
    match read_journal(alloc, disk, words) {
        Ok((journal, _)) => StepReply::yes_or_no(journal.fits(words.number())),
        Err(reply) => reply,
    }
}

// Appends a command as the first frame of an area that holds none.
fn append_first<D: Disk>(
    alloc: Global,
    disk: &mut D,
    (start, end): (u64, u64),
    command: Command,
) -> StepReply {
    if command.encode(alloc).is_err() || end < start || disk.sectors() < end {
        return StepReply::Unreadable;
    }
    let area = Area {
        generation: 1,
        number: 1,
        start,
        end,
    };
    match Journal::read_all(alloc, disk, area) {
        Ok((mut journal, found)) if found.is_empty() => {
            match journal.append(alloc, disk, &[command]) {
                Ok(()) => StepReply::Done,
                Err(why) => StepReply::Refused(refusals::append(why)),
            }
        }
        _ => StepReply::Unreadable,
    }
}

/// `FIRST..END COMMAND`: the command is appended as the first frame of an area that holds none.
pub fn append<D: Disk>(alloc: Global, disk: &mut D, words: &mut Words) -> StepReply {
    let area = words.range();
    match read_command(alloc, words) {
        Ok(command) => append_first(alloc, disk, area, command),
        Err(reply) => reply,
    }
}

// The command that accepts the event of this number at the moment of that number.
fn accept(alloc: Global, number: u64) -> Option<Command>
    ensures { IfSome result (λ command. command_fault command ≡ None) }
{
    let mut payload = Vec::new(alloc);
    payload.extend_from_slice(b"{}").ok()?;
    let bytes = Bytes::from_vec(payload).ok()?;
    let command = Command {
        kind: Kind::Accept,
        id: id_of(number),
        environment: 0,
        time: number,
        bytes,
    };
    command.encode(alloc).is_ok().then_some(command)
}

// Appends three groups of a command each to a journal that holds none. Each but the last shares its barrier with the next one:
// how many are durable.
fn append_three<D: Disk>(
    alloc: Global,
    disk: &mut D,
    journal: &mut Journal,
    first: &[Command],
    second: &[Command],
    third: &[Command],
) -> u64
    requires room { end_of journal.old ≤ (D.view disk.old).sectors }
    requires number { number_of journal.old ≡ 1 }
    requires counts { (length first.now ≡ 1) × (length second.now ≡ 1) × (length third.now ≡ 1) }
    requires first { All (λ c. command_fault c ≡ None) first.now }
    requires second { All (λ c. command_fault c ≡ None) second.now }
    requires third { All (λ c. command_fault c ≡ None) third.now }
{
    let Ok(staged) = journal.stage(alloc, disk, first) else {
        return 0;
    };
    let Ok(staged) = journal.advance(alloc, disk, staged, second) else {
        return 0;
    };
    let Ok(staged) = journal.advance(alloc, disk, staged, third) else {
        return 1;
    };
    match journal.open_staged(disk, staged) {
        Ok(()) => 3,
        Err(_) => 2,
    }
}

// The same to the area of these sectors.
fn append_groups_to<D: Disk>(alloc: Global, disk: &mut D, (start, end): (u64, u64)) -> Option<u64> {
    if end < start || disk.sectors() < end {
        return None;
    }
    let area = Area {
        generation: 1,
        number: 1,
        start,
        end,
    };
    let (first, second, third) = (accept(alloc, 1)?, accept(alloc, 2)?, accept(alloc, 3)?);
    let (mut journal, found) = Journal::read_all(alloc, disk, area).ok()?;
    if !found.is_empty() {
        return None;
    }
    let durable = append_three(alloc, disk, &mut journal, &[first], &[second], &[third]);
    Some(durable)
}

/// `FIRST..END`: the events 1 to 3 are accepted at the moments 1 to 3, as three groups of an area that holds none. The barrier behind
/// each but the last is the one behind the next one's frame too. It tells how many are durable.
pub fn append_groups<D: Disk>(alloc: Global, disk: &mut D, words: &mut Words) -> StepReply {
    let area = words.range();
    if words.are_bad() {
        return StepReply::Unreadable;
    }
    match append_groups_to(alloc, disk, area) {
        Some(durable) => StepReply::Number(durable),
        None => StepReply::Unreadable,
    }
}
