// Commands that the other half issued: a broker issues them again, as far as it can.
ghost use Rattle.std.specs.Prelude.{◌≡◌, ◌+◌, ◌-◌, ◌≤◌, ◌^◌, ◌++◌, length, drop, take, false, OnOk, IfErr};
ghost use Rattle.broker_core.specs.Broker.{issued_of, is_broken, Stands};
ghost use Rattle.broker_core.specs.Promises.{ForEachHistory};
ghost use Rattle.broker_core.specs.Splitting.{Takes};
ghost use Rattle.broker_core.specs.Taking.{StopsBefore};

use crate::{Broker, IssueError};
use invoke_records::Command;
use sector_disk::Disk;

/// Why a broker did not take all of some commands.
#[derive(Clone, Copy)]
pub(crate) enum TakeError {
    /// The next one is not legal.
    Illegal,
    /// 256 commands are pending.
    Backlog,
    OutOfMemory,
}

// Takes the first commands away.
pub(crate) fn forget_first(commands: &mut Vec<Command>, count: usize)
    requires { count ≤ length commands.old.items }
    ensures { commands.new.items ≡ drop count commands.old.items }
{
    commands.drain(..count);
}

// Issues commands in order, up to the first that is refused.
pub(crate) fn take_all<D: Disk>(
    broker: &mut Broker<D>,
    commands: Vec<Command>,
) -> Result<(), TakeError>
    requires whole { is_broken broker.old ≡ false }
    requires below { issued_of broker.old + length commands.items ≤ 2 ^ 62 }
    ensures takes { Takes broker.old broker.new commands.items (issued_of broker.new - issued_of broker.old) }
    ensures all { OnOk result (issued_of broker.new ≡ issued_of broker.old + length commands.items) }
    ensures err { IfErr result (StopsBefore broker.old broker.new commands.items) }
    ensures stands { ForEachHistory D.view broker.old (λ history.
        Stands D.view broker.new (history ++ take (issued_of broker.new - issued_of broker.old) commands.items)) }
{
    for command in commands {
        match broker.issue(command) {
            Ok(_) => {}
            Err(IssueError::Illegal(_)) => return Err(TakeError::Illegal),
            Err(IssueError::Backlog) => return Err(TakeError::Backlog),
            Err(IssueError::OutOfMemory) => return Err(TakeError::OutOfMemory),
            Err(IssueError::Broken) | Err(IssueError::WornOut) => unreachable!(),
        }
    }
    Ok(())
}
