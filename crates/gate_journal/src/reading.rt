// Reading the frames of an area, one after another.
ghost use Rattle.std.specs.Prelude.{◌≡◌, ◌*◌, ◌+◌, ◌-◌, ◌<◌, ◌≤◌, ◌^◌, ◌++◌, ◌==◌, List, ℕ, true, false, length, take, drop, None, Some, Ok, Err, IsErr, IsErrOf, IfOk, IfErr, OnOk, IfSome, [], ◌∷◌, MatchOption};
ghost use Rattle.std.specs.Bool.{MatchBool};
ghost use Rattle.std.specs.List.{list_all};
ghost use Rattle.sector_disk.specs.Disk.{HasRisen, HasCause};
ghost use Rattle.invoke_records.specs.declared.command.Command.{Command};
ghost use Rattle.gate_journal.specs.declared.error.ReadError.TheVariants as read_error;
ghost use Rattle.gate_journal.specs.Frames.{commands_at, whole, body_sectors};
ghost use Rattle.gate_journal.specs.Journal.{TellsDamage};
ghost use Rattle.gate_journal.specs.Steps.{OnlyReads, is_gate_open, with_rest, behind_first_gate, IsBodyRead, AreDecoded, IsLeft, NextFrame};

use crate::head::Head;
use crate::{Area, ReadError};
use invoke_records::{Command, RecordError};
use sector_disk::{Disk, Fault, SECTOR_SIZE};
use std::alloc::{AllocError, Global};

// Whether the gate at this sector is open.
fn read_gate<D: Disk>(disk: &mut D, at: u64) -> Result<bool, Fault>
    requires { at < (D.view disk.old).sectors }
    ensures reads { OnlyReads (D.view disk.old) (D.view disk.new) (D.fault_count disk.old) (D.fault_count disk.new) }
    ensures fault { IsErr result → HasRisen (D.fault_count disk.old) (D.fault_count disk.new) }
    ensures open_gate { (D.view disk.old).honest → IfOk result (λ open_gate. open_gate ≡ is_gate_open at (D.view disk.old).content) }
{
    let mut gate = [0; SECTOR_SIZE];
    disk.read(at, &mut gate)?;
    Ok(gate[0] == 1)
}

// A body's first sector and the sectors behind it, from this one on, so many in all.
fn read_rest<D: Disk>(
    alloc: Global,
    disk: &mut D,
    first: &[u8; 512],
    at: u64,
    sectors: u64,
) -> Result<Vec<u8>, ReadError>
    requires some { 1 ≤ sectors }
    requires few { sectors < 2 ^ 32 }
    requires inside { at + sectors ≤ (D.view disk.old).sectors + 1 }
    ensures reads { OnlyReads (D.view disk.old) (D.view disk.new) (D.fault_count disk.old) (D.fault_count disk.new) }
    ensures fault { IsErrOf result ReadError.Fault → HasRisen (D.fault_count disk.old) (D.fault_count disk.new) }
    ensures damaged { (sector : ℕ) → result ≡ Err (read_error.Damaged sector) → ⊥ }
    ensures size { IfOk result (λ bytes. length bytes.items ≡ 512 * sectors) }
    ensures bytes { (D.view disk.old).honest → IfOk result (λ r. r.items ≡ with_rest first.now at sectors (D.view disk.old).content) }
{
    let mut bytes = Vec::from_slice(alloc, first)?;
    if sectors > 1 {
        bytes.resize(SECTOR_SIZE * sectors as usize, 0)?;
        disk.read(at, &mut bytes[SECTOR_SIZE..])?;
    }
    Ok(bytes)
}

// The head and the bytes of the body behind the first gate of an area, unless it has no head of the area's generation
// and number.
fn read_body<D: Disk>(
    alloc: Global,
    disk: &mut D,
    area: Area,
) -> Result<Option<(Head, Vec<u8>)>, ReadError>
    requires room { area.start + 3 ≤ area.end }
    requires inside { area.end ≤ (D.view disk.old).sectors }
    requires number { area.number ≤ 2 ^ 62 + 1 }
    ensures reads { OnlyReads (D.view disk.old) (D.view disk.new) (D.fault_count disk.old) (D.fault_count disk.new) }
    ensures fault { IsErrOf result ReadError.Fault → HasRisen (D.fault_count disk.old) (D.fault_count disk.new) }
    ensures damaged { (sector : ℕ) → result ≡ Err (read_error.Damaged sector) → ⊥ }
    ensures size { IfOk result (λ r. IfSome r (λ x. length x.1.items ≡ 512 * body_sectors x.0.size)) }
    ensures inside { IfOk result (λ r. IfSome r (λ x. area.start + body_sectors x.0.size + 2 ≤ area.end)) }
    ensures numbers { IfOk result (λ r. IfSome r (λ x. area.number + x.0.count ≤ 2 ^ 62 + 1)) }
    ensures body { (D.view disk.old).honest → IfOk result (λ r. IsBodyRead area (behind_first_gate area (D.view disk.old).content) r) }
{
    let mut first = [0; SECTOR_SIZE];
    disk.read(area.start + 1, &mut first)?;
    let head = Head::read(&first);
    if !head.is_of(area.generation, area.number, area.end - area.start - 1) {
        return Ok(None);
    }
    let body = read_rest(alloc, disk, &first, area.start + 2, head.sectors())?;
    Ok(Some((head, body)))
}

// Whether each byte is zero.
fn is_zero(bytes: &[u8]) -> bool
    ensures { result ≡ list_all (λ b. b == 0) bytes.now }
{
    bytes.iter().all(|b| *b == 0)
}

// Pushes a command behind its gate.
fn push(gate: u64, command: Command, found: &mut Vec<(u64, Command)>) -> Result<(), AllocError>
    ensures { OnOk result (found.new.items ≡ found.old.items ++ (gate, command) ∷ []) }
{
    found.push((gate, command))?;
    Ok(())
}

// Decodes so many commands, which are all of these bytes, and pushes each behind this gate. False where they are not
// there.
fn decode_all(
    alloc: Global,
    bytes: &[u8],
    count: u32,
    gate: u64,
    found: &mut Vec<(u64, Command)>,
) -> Result<bool, ReadError>
    ensures memory { IfErr result (λ e. e ≡ read_error.OutOfMemory) }
    ensures decoded { IfOk result (λ good. AreDecoded gate (whole (commands_at count bytes.now)) found.old.items found.new.items good) }
    ensures count { IfOk result (λ good. MatchBool good (length found.new.items ≡ length found.old.items + count) (Unit {0})) }
{
    let mut rest = bytes;
    for _ in 0..count {
        match Command::decode(alloc, rest) {
            Ok((command, size)) => {
                push(gate, command, found)?;
                rest = &rest[size..];
            }
            Err(error) => match error {
                RecordError::OutOfMemory => return Err(ReadError::OutOfMemory),
                _ => return Ok(false),
            },
        }
    }
    Ok(rest.is_empty())
}

// Reads the first frame of what is left of an area, and pushes its commands. What is left behind it; none where no
// frame is there.
pub(crate) fn read_frame<D: Disk>(
    alloc: Global,
    disk: &mut D,
    left: Area,
    found: &mut Vec<(u64, Command)>,
) -> Result<Option<Area>, ReadError>
    requires forward { left.start ≤ left.end }
    requires inside { left.end ≤ (D.view disk.old).sectors }
    requires number { left.number ≤ 2 ^ 62 + 1 }
    ensures reads { OnlyReads (D.view disk.old) (D.view disk.new) (D.fault_count disk.old) (D.fault_count disk.new) }
    ensures fault { IsErrOf result ReadError.Fault → HasRisen (D.fault_count disk.old) (D.fault_count disk.new) }
    ensures further { IfOk result (IsLeft left found.old.items found.new.items) }
    ensures frame { (D.view disk.old).honest → IfOk result (NextFrame left (D.view disk.old).content found.old.items found.new.items) }
    ensures damaged { TellsDamage (D.view disk.old) left result }
{
    if left.end - left.start < 3 {
        return Ok(None);
    }
    if !read_gate(disk, left.start)? {
        return Ok(None);
    }
    let damaged = ReadError::Damaged { sector: left.start };
    let Some((head, body)) = read_body(alloc, disk, left)? else {
        return Err(damaged);
    };
    let end = 32 + head.size as usize;
    if !is_zero(&body[end..]) {
        return Err(damaged);
    }
    if !decode_all(alloc, &body[32..end], head.count, left.start, found)? {
        return Err(damaged);
    }
    Ok(Some(Area {
        generation: left.generation,
        number: left.number + head.count as u64,
        start: left.start + 1 + head.sectors(),
        end: left.end,
    }))
}
