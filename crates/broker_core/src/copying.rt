// Commands in memory of their own.
ghost use Rattle.std.specs.Prelude.{◌≡◌, IfOk};

use invoke_records::Command;
use std::alloc::{AllocError, Global};

/// An equal command.
pub fn copy_command(command: &Command) -> Result<Command, AllocError>
    ensures { IfOk result (λ copy. copy ≡ command.now) }
{
    Ok(Command {
        kind: command.kind,
        id: command.id,
        environment: command.environment,
        time: command.time,
        bytes: command.bytes.copy()?,
    })
}

/// Equal commands, in the same order.
pub fn copy_commands(alloc: Global, commands: &[Command]) -> Result<Vec<Command>, AllocError>
    ensures { IfOk result (λ copies. copies.items ≡ commands.now) }
{
    let mut copies = Vec::with_capacity(alloc, commands.len())?;
    for command in commands {
        let copy = copy_command(command)?;
        copies.push(copy)?;
    }
    Ok(copies)
}
