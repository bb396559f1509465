// The older segment folded by the live settings, and compared with the live snapshot. Settings differ only in images that no
// history leaves.
ghost use Rattle.std.specs.Prelude.{◌≡◌, ◌+◌, ◌≤◌, ◌^◌, Some, IsNone, length, IsErrOf, IfOk, IfErr, OnOk, option_map};
ghost use Rattle.sector_disk.specs.Disk.{HasRisen};
ghost use Rattle.invoke_records.specs.declared.snapshot.Snapshot.{Snapshot};
ghost use Rattle.async_core.specs.Rules.{replay};
ghost use Rattle.checkpoint.specs.Image.{parts_of};
ghost use Rattle.checkpoint.specs.Live.{HasRoom, IsLive};
ghost use Rattle.checkpoint.specs.Opening.{OnlyReads, IsNoFinding};
ghost use Rattle.audit_report.specs.Comparison.{table_in, Compares, TellsOlder};

use crate::Older;
use async_core::{ApplyError, Table};
use checkpoint::{OpenError, Opened, read_older};
use gate_journal::MOST_IN_FRAME;
use invoke_records::{Command, Snapshot};
use retry_rules::Settings;
use sector_disk::Disk;
use std::alloc::{AllocError, Global};

/// How many commands a switch may carry that no frame holds.
const MOST_CARRIED: u64 = MOST_IN_FRAME as u64;

/// The table of a snapshot under these settings.
pub(crate) fn table_from(
    alloc: Global,
    settings: &Settings,
    snapshot: Snapshot,
) -> Result<Table, AllocError>
    ensures { IfOk result (λ table. table ≡ record { settings = settings.now; table = snapshot }) }
{
    let settings = settings.copy()?;
    Table::from_snapshot(alloc, snapshot, settings)
}

/// Applies commands, each after those before it, and says whether all of them were legal.
pub(crate) fn apply_all(table: &mut Table, commands: &[Command]) -> Result<bool, AllocError>
    requires { table.old.table.number + length commands.now ≤ 2 ^ 62 }
    ensures settings { table.new.settings ≡ table.old.settings }
    ensures replayed { IfOk result (λ legal. replay table.old.settings table.old.table commands.now ≡ table_in legal table.new) }
{
    for command in commands {
        match table.apply(command) {
            Ok(()) => {}
            Err(ApplyError::OutOfMemory) => return Err(AllocError),
            Err(ApplyError::Illegal(_)) => return Ok(false),
        }
    }
    Ok(true)
}

// What a table tells beside the one of the live snapshot.
fn compare(table: &Table, live: &Table) -> Older
    ensures { Compares table.now live.now result }
{
    if *table == *live {
        return Older::Agrees;
    }
    let more = live.number().saturating_sub(table.number());
    if 1 <= more && more <= MOST_CARRIED {
        Older::Ahead(more)
    } else {
        Older::Differs
    }
}

// What a segment's snapshot and commands tell beside the table of the live snapshot.
fn fold(
    alloc: Global,
    live: &Table,
    snapshot: Snapshot,
    commands: &[Command],
) -> Result<Older, AllocError>
    requires { snapshot.number + length commands.now ≤ 2 ^ 62 }
    ensures { IfOk result (TellsOlder live.now (Some (snapshot, commands.now))) }
{
    let mut table = table_from(alloc, live.settings(), snapshot)?;
    if apply_all(&mut table, commands)? {
        Ok(compare(&table, live))
    } else {
        Ok(Older::Differs)
    }
}

/// What the older segment of an opened disk tells beside the table of its live snapshot. It only reads.
pub(crate) fn older_of<D: Disk>(
    alloc: Global,
    disk: &mut D,
    opened: &Opened,
    live: &Table,
) -> Result<Older, OpenError>
    requires { HasRoom (D.view disk.old).sectors opened.now }
    ensures reads { OnlyReads (D.view disk.old) (D.view disk.new) }
    ensures later { D.fault_count disk.old ≤ D.fault_count disk.new }
    ensures fault { IsErrOf result OpenError.Fault → HasRisen (D.fault_count disk.old) (D.fault_count disk.new) }
    ensures told { (D.view disk.old).honest → (table : Snapshot) → (was : IsLive (D.view disk.old) opened.now table)
        → IfOk result (TellsOlder live.now (option_map parts_of was.image.older)) }
    ensures refused { (D.view disk.old).honest → (table : Snapshot) → IsLive (D.view disk.old) opened.now table
        → IfErr result IsNoFinding }
{
    let (snapshot, commands) = match read_older(alloc, disk, opened) {
        Ok(Some(parts)) => parts,
        Ok(None) => return Ok(Older::None),
        Err(why) => return Err(why),
    };
    match fold(alloc, live, snapshot, &commands) {
        Ok(told) => Ok(told),
        Err(AllocError) => Err(OpenError::OutOfMemory),
    }
}
