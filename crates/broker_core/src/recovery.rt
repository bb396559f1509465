// What a disk recovers to, as a table.
ghost use Rattle.std.specs.Prelude.{◌≡◌, ◌+◌, ◌≤◌, ◌^◌, length, Some, Err, IsErrOf, IsSome, OnOk, IfOk, IfErr};
ghost use Rattle.sector_disk.specs.Disk.{IsSameDisk, HasRisen};
ghost use Rattle.broker_core.specs.History.{AreGood};
ghost use Rattle.async_core.specs.Rules.{replay};
ghost use Rattle.checkpoint.specs.Live.{settings_of, number_of, HasRoom};
ghost use Rattle.broker_core.specs.Promises.{LeavesWhatWas};
ghost use Rattle.broker_core.specs.Refusals.{TellsNotFormatted, TellsDamage, TellsOld};
ghost use Rattle.broker_core.specs.Steps.{IsReadFrom};

use async_core::{ApplyError, Table};
use checkpoint::{OpenError, Opened};
use invoke_records::{Command, Snapshot};
use retry_rules::Settings;
use sector_disk::Disk;
use std::alloc::{AllocError, Global};

// Applies commands that are legal, each after those before it.
fn apply_all(table: &mut Table, commands: &[Command]) -> Result<(), AllocError>
    requires legal { IsSome (replay table.old.settings table.old.table commands.now) }
    requires below { table.old.table.number + length commands.now ≤ 2 ^ 62 }
    ensures settings { table.new.settings ≡ table.old.settings }
    ensures replayed { OnOk result (replay table.old.settings table.old.table commands.now ≡ Some table.new.table) }
    ensures number { OnOk result (table.new.table.number ≡ table.old.table.number + length commands.now) }
{
    for command in commands {
        match table.apply(command) {
            Ok(()) => {}
            Err(ApplyError::OutOfMemory) => return Err(AllocError),
            Err(ApplyError::Illegal(_)) => unreachable!(),
        }
    }
    Ok(())
}

/// The table of a snapshot after commands that are legal, each after those before it. It fails where memory is wanting.
pub fn table_behind(
    alloc: Global,
    settings: &Settings,
    snapshot: Snapshot,
    commands: &[Command],
) -> Result<Table, AllocError>
    requires legal { IsSome (replay settings.now snapshot commands.now) }
    requires below { snapshot.number + length commands.now ≤ 2 ^ 62 }
    ensures settings { IfOk result (λ table. table.settings ≡ settings.now) }
    ensures replayed { IfOk result (λ table. replay settings.now snapshot commands.now ≡ Some table.table) }
    ensures number { IfOk result (λ table. table.table.number ≡ snapshot.number + length commands.now) }
{
    let settings = settings.copy()?;
    let mut table = Table::from_snapshot(alloc, snapshot, settings)?;
    apply_all(&mut table, commands)?;
    Ok(table)
}

// Opens a disk of version 2: its live segment, and the table after each command behind an open gate.
pub(crate) fn recover<D: Disk>(alloc: Global, disk: &mut D) -> Result<(Opened, Table), OpenError>
    ensures same { IsSameDisk (D.view disk.old) (D.view disk.new) }
    ensures later { D.fault_count disk.old ≤ D.fault_count disk.new }
    ensures fault { IsErrOf result OpenError.Fault → HasRisen (D.fault_count disk.old) (D.fault_count disk.new) }
    ensures content { (D.view disk.old).honest → (D.view disk.new).content ≡ (D.view disk.old).content }
    ensures any_moment { (D.view disk.old).honest → LeavesWhatWas (D.view disk.old) (D.view disk.new) }

    ensures settings { IfOk result (λ r. r.1.settings ≡ settings_of r.0) }
    ensures good { IfOk result (λ r. AreGood (settings_of r.0)) }
    ensures room { IfOk result (λ r. HasRoom (D.view disk.new).sectors r.0) }
    ensures number { IfOk result (λ r. number_of r.0 ≡ r.1.table.number + 1) }
    ensures below { IfOk result (λ r. r.1.table.number ≤ 2 ^ 62) }

    ensures live { (D.view disk.old).honest → IfOk result (λ r. IsReadFrom (D.view disk.old) (D.view disk.new) r.0 r.1.table) }
    ensures not_formatted { (D.view disk.old).honest → IfErr result (TellsNotFormatted (D.view disk.old).content) }
    ensures damaged { (D.view disk.old).honest → IfErr result (TellsDamage (D.view disk.old).content) }
    ensures old_version { (D.view disk.old).honest → IfErr result (TellsOld (D.view disk.old).content) }
{
    let (opened, snapshot, commands) = checkpoint::open(alloc, disk)?;
    match table_behind(alloc, opened.settings(), snapshot, &commands) {
        Ok(table) => Ok((opened, table)),
        Err(AllocError) => Err(OpenError::OutOfMemory),
    }
}
