// The bytes of a frame.
ghost use Rattle.std.specs.Prelude.{◌≡◌, ◌*◌, ◌+◌, ◌-◌, ◌<◌, ◌≤◌, ◌^◌, ◌++◌, List, length, replicate, true, All, None, IfOk, IfErr, OnOk};
ghost use Rattle.std.specs.Int.{w32, w64, to_be_bytes};
ghost use Rattle.invoke_records.specs.Spelling.{IsCommand, command_text, commands_text, command_fault};
ghost use Rattle.gate_journal.specs.declared.error.AppendError.TheVariants.{OutOfMemory};
ghost use Rattle.gate_journal.specs.Frames.{is_open, body_sectors, body_text};
ghost use Rattle.gate_journal.specs.Steps.{with_head};

use crate::AppendError;
use invoke_records::{Command, Kind};
use sector_disk::SECTOR_SIZE;
use std::alloc::{AllocError, Global};

// How many bytes an id fills.
fn id_size(id: &[u8; 16]) -> u64
    ensures size { result ≡ length id.now }
    ensures always { result ≡ 16 }
{
    id.len() as u64
}

// How many bytes a command fills.
fn command_size(command: &Command) -> u64
    requires { command_fault command.now ≡ None }
    ensures size { result ≡ length (command_text command.now) }
    ensures most { result ≤ 1048607 }
{
    let detail = match command.kind {
        Kind::Fail(_) => 1,
        Kind::Configure(_) => 5,
        _ => 0,
    };
    15 + id_size(&command.id) + detail + command.bytes.len() as u64
}

// How many bytes a batch of commands fills.
pub(crate) fn batch_size(commands: &[Command]) -> u64
    requires count { length commands.now ≤ 256 }
    requires spelled { All (λ c. command_fault c ≡ None) commands.now }
    ensures size { result ≡ length (commands_text commands.now) }
    ensures most { result ≤ 1048607 * 256 }
{
    let mut size = 0;
    for command in commands {
        size += command_size(command);
    }
    size
}

// How many sectors a body fills, of commands that fill so many bytes.
pub(crate) fn body_sectors(size: u64) -> u64
    ensures sectors { result ≡ body_sectors size }
    ensures most { result ≤ 2 ^ 55 + 1 }
{
    size / 512 + (size % 512 + 543) / 512
}

// A gate that is open.
pub(crate) fn open_gate() -> [u8; SECTOR_SIZE]
    ensures whole { length result ≡ 512 }
    ensures opened { is_open result ≡ true }
{
    let mut gate = [0; SECTOR_SIZE];
    gate[0] = 1;
    gate
}

// Appends the fields of a body's head.
fn spell_head(
    generation: u64,
    number: u64,
    count: u32,
    size: u32,
    out: &mut Vec<u8>,
) -> Result<(), AllocError>
    ensures { OnOk result (out.new.items ≡ with_head out.old.items generation number count size) }
{
    out.extend_from_slice(&generation.to_be_bytes())?;
    out.extend_from_slice(&number.to_be_bytes())?;
    out.extend_from_slice(&count.to_be_bytes())?;
    out.extend_from_slice(&size.to_be_bytes())?;
    out.extend_from_slice(&[0; 8])?;
    Ok(())
}

// Appends the spelling of each command.
fn spell_commands(commands: &[Command], out: &mut Vec<u8>) -> Result<(), AppendError>
    ensures text { OnOk result (out.new.items ≡ out.old.items ++ commands_text commands.now) }
    ensures spelled { OnOk result (All IsCommand commands.now) }
    ensures memory { IfErr result (λ e. e ≡ OutOfMemory) }
{
    for command in commands {
        if let Err(_) = command.encode_into(out) {
            return Err(AppendError::OutOfMemory);
        }
    }
    Ok(())
}

// A body and a closed gate behind it. Only memory can be wanting: commands that have a fault are not passed on.
pub(crate) fn spell_frame(
    alloc: Global,
    generation: u64,
    number: u64,
    size: u64,
    commands: &[Command],
) -> Result<Vec<u8>, AppendError>
    requires count { length commands.now ≤ 256 }
    requires size { size ≡ length (commands_text commands.now) }
    requires most { size ≤ 1048607 * 256 }
    ensures frame { IfOk result (λ frame. frame.items ≡ body_text generation number commands.now ++ replicate 512 0) }
    ensures spelled { OnOk result (All IsCommand commands.now) }
    ensures memory { IfErr result (λ e. e ≡ OutOfMemory) }
{
    let sectors = (32 + size as usize).div_ceil(SECTOR_SIZE);
    let whole = SECTOR_SIZE * (sectors + 1);
    let mut frame = Vec::with_capacity(alloc, whole)?;
    spell_head(
        generation,
        number,
        commands.len() as u32,
        size as u32,
        &mut frame,
    )?;
    spell_commands(commands, &mut frame)?;
    frame.resize(whole, 0)?;
    Ok(frame)
}
