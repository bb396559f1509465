// Migrating a disk of version 1 of the format.
ghost use Rattle.std.specs.Prelude.{◌≡◌, ◌+◌, ◌<◌, ◌≤◌, ◌^◌, IsErrOf, IfOk, IfErr, OnOk};
ghost use Rattle.sector_disk.specs.Disk.{IsSameDisk, HasRisen};
ghost use Rattle.checkpoint.specs.Live.{version_of, settings_of, generation_of, HasRoom, HasRoomFor, IsLiveIn};
ghost use Rattle.checkpoint.specs.Opening.{TellsUnread};
ghost use Rattle.checkpoint.specs.declared.error.OpenError.TheVariants as open_error;
ghost use Rattle.group_commit.specs.declared.error.MigrateError.TheVariants as migrate_error;
ghost use Rattle.broker_core.specs.History.{AreGood};
ghost use Rattle.broker_core.specs.Promises.{LeavesWhatWas};
ghost use Rattle.group_commit.specs.Migrating.{HoldsHistories, IsOldDisk, LeavesMigrating, Migrates, IsMigrateReason, IsSoundRefusal, HoldsOneWhere, WritesNothingBut};
ghost use Rattle.group_commit.specs.MigrateSteps.{IsReadAs, IsJudged, migrate_error_of, IsUnwritten, IsFaultOr, WritesTable, LeavesTable};

use crate::{MigrateError, MigrateFailure};
use async_core::Table;
use broker_core::table_behind;
use checkpoint::{MOST_GENERATIONS, OpenError, Opened, SwitchError, least_sectors};
use sector_disk::Disk;
use std::alloc::{AllocError, Global};

// Opens a disk of either version: its live segment, and the table after each command behind an open gate.
fn recover_either<D: Disk>(alloc: Global, disk: &mut D) -> Result<(Opened, Table), OpenError>
    ensures same { IsSameDisk (D.view disk.old) (D.view disk.new) }
    ensures later { D.fault_count disk.old ≤ D.fault_count disk.new }
    ensures fault { IsErrOf result OpenError.Fault → HasRisen (D.fault_count disk.old) (D.fault_count disk.new) }
    ensures old { IsErrOf result OpenError.OldVersion → ⊥ }
    ensures content { (D.view disk.old).honest → (D.view disk.new).content ≡ (D.view disk.old).content }
    ensures any_moment { (D.view disk.old).honest → LeavesWhatWas (D.view disk.old) (D.view disk.new) }

    ensures settings { IfOk result (λ r. r.1.settings ≡ settings_of r.0) }
    ensures good { IfOk result (λ r. AreGood (settings_of r.0)) }
    ensures room { IfOk result (λ r. HasRoomFor (version_of r.0) (D.view disk.new).sectors r.0) }
    ensures below { IfOk result (λ r. r.1.table.number ≤ 2 ^ 62) }

    ensures live { (D.view disk.old).honest → IfOk result (λ r. IsReadAs (D.view disk.old) (D.view disk.new) r.0 r.1.table) }
    ensures refused { TellsUnread (D.view disk.old) result }
{
    let (opened, snapshot, commands) = checkpoint::open_either(alloc, disk)?;
    match table_behind(alloc, opened.settings(), snapshot, &commands) {
        Ok(table) => Ok((opened, table)),
        Err(AllocError) => Err(OpenError::OutOfMemory),
    }
}

// Why a disk was not migrated that was not opened in either version.
fn unopened(why: OpenError) -> MigrateError
    requires { why ≡ open_error.OldVersion → ⊥ }
    ensures { result ≡ migrate_error_of why }
{
    match why {
        OpenError::NotFormatted => MigrateError::NotFormatted,
        OpenError::Damaged { sector } => MigrateError::Damaged { sector },
        OpenError::OutOfMemory => MigrateError::OutOfMemory,
        OpenError::Fault => MigrateError::Fault,
        OpenError::OldVersion => unreachable!(),
    }
}

// Why a disk of which this was opened is not migrated: it is not of version 1, or has no room for version 2 or for another
// generation.
fn refusal<D: Disk>(disk: &D, opened: &Opened) -> Option<MigrateError>
    ensures { IsJudged (D.view disk.now).sectors opened.now result }
{
    if !opened.is_old() {
        return Some(MigrateError::NotOld);
    }
    let sectors = disk.sectors();
    let least = least_sectors(opened.settings());
    if sectors < least {
        return Some(MigrateError::TooSmall { least });
    }
    if opened.generation() >= MOST_GENERATIONS {
        return Some(MigrateError::WornOut);
    }
    None
}

// Opens a disk of version 1, which has room for version 2 and for another generation.
fn open_old<D: Disk>(alloc: Global, disk: &mut D) -> Result<(Opened, Table), MigrateError>
    ensures same { IsSameDisk (D.view disk.old) (D.view disk.new) }
    ensures later { D.fault_count disk.old ≤ D.fault_count disk.new }
    ensures fault { IsErrOf result MigrateError.Fault → HasRisen (D.fault_count disk.old) (D.fault_count disk.new) }
    ensures content { (D.view disk.old).honest → (D.view disk.new).content ≡ (D.view disk.old).content }
    ensures any_moment { (D.view disk.old).honest → LeavesWhatWas (D.view disk.old) (D.view disk.new) }

    ensures settings { IfOk result (λ r. r.1.settings ≡ settings_of r.0) }
    ensures good { IfOk result (λ r. AreGood (settings_of r.0)) }
    ensures room { IfOk result (λ r. HasRoom (D.view disk.new).sectors r.0) }
    ensures below { IfOk result (λ r. r.1.table.number ≤ 2 ^ 62) }
    ensures generation { IfOk result (λ r. generation_of r.0 < 2 ^ 62) }

    ensures old { (D.view disk.old).honest
        → IfOk result (λ r. IsOldDisk (D.view disk.old) (settings_of r.0) r.1.table (generation_of r.0)) }
    ensures live { (D.view disk.old).honest → IfOk result (λ r. IsLiveIn (version_of r.0) (D.view disk.new) r.0 r.1.table) }
    ensures reason { (D.view disk.old).honest → IfErr result (IsMigrateReason (D.view disk.old)) }
    ensures sound { (D.view disk.old).honest → HoldsHistories (D.view disk.old) → IfErr result IsSoundRefusal }
    ensures one { (D.view disk.old).honest → IfErr result (HoldsOneWhere (D.view disk.new)) }
{
    let (opened, table) = match recover_either(alloc, disk) {
        Ok((opened, table)) => (opened, table),
        Err(why) => return Err(unopened(why)),
    };
    match refusal(disk, &opened) {
        None => Ok((opened, table)),
        Some(why) => Err(why),
    }
}

// Writes the table of an opened disk of either version to the other segment.
fn write_new<D: Disk>(
    alloc: Global,
    disk: &mut D,
    opened: &mut Opened,
    table: &Table,
) -> Result<(), MigrateError>
    requires settings { table.now.settings ≡ settings_of opened.old }
    requires good { AreGood (settings_of opened.old) }
    requires generation { generation_of opened.old < 2 ^ 62 }
    requires room { HasRoom (D.view disk.old).sectors opened.old }
    ensures same { IsSameDisk (D.view disk.old) (D.view disk.new) }
    ensures later { D.fault_count disk.old ≤ D.fault_count disk.new }
    ensures fault { IsErrOf result MigrateError.Fault → HasRisen (D.fault_count disk.old) (D.fault_count disk.new) }
    ensures kept { settings_of opened.new ≡ settings_of opened.old }
    ensures next { OnOk result (generation_of opened.new ≡ generation_of opened.old + 1) }
    ensures unwritten { IfErr result (IsUnwritten (settings_of opened.old) table.now.table) }
    ensures no_call { IfErr result (IsFaultOr (disk.new ≡ disk.old)) }
    ensures written { WritesTable (D.view disk.old) (D.view disk.new) opened.old opened.new table.now.table result }
    ensures any_moment { LeavesTable (D.view disk.old) (D.view disk.new) opened.old table.now.table }
{
    let Ok(snapshot) = table.snapshot() else {
        return Err(MigrateError::OutOfMemory);
    };
    match checkpoint::switch(alloc, disk, opened, &snapshot) {
        Ok(()) => Ok(()),
        Err(SwitchError::BadKind) => Err(MigrateError::BadKind),
        Err(SwitchError::OutOfMemory) => Err(MigrateError::OutOfMemory),
        Err(SwitchError::Fault) => Err(MigrateError::Fault),
    }
}

// Reads a disk of either version, and writes the table of one of version 1 to the other segment.
fn migrate_disk<D: Disk>(alloc: Global, disk: &mut D) -> Result<(), MigrateError>
    ensures same { IsSameDisk (D.view disk.old) (D.view disk.new) }
    ensures later { D.fault_count disk.old ≤ D.fault_count disk.new }
    ensures fault { IsErrOf result MigrateError.Fault → HasRisen (D.fault_count disk.old) (D.fault_count disk.new) }

    ensures migrated { (D.view disk.old).honest → OnOk result (Migrates (D.view disk.old) (D.view disk.new)) }
    ensures reason { (D.view disk.old).honest → IfErr result (IsMigrateReason (D.view disk.old)) }
    ensures sound { (D.view disk.old).honest → HoldsHistories (D.view disk.old) → IfErr result IsSoundRefusal }
    ensures any_moment { (D.view disk.old).honest → LeavesMigrating (D.view disk.old) (D.view disk.new) }
    ensures nothing { (D.view disk.old).honest → IfErr result (WritesNothingBut (D.view disk.old) (D.view disk.new)) }
    ensures one { (D.view disk.old).honest → IfErr result (HoldsOneWhere (D.view disk.new)) }
{
    match open_old(alloc, disk) {
        Ok((opened, table)) => {
            let mut opened = opened;
            write_new(alloc, disk, &mut opened, &table)
        }
        Err(why) => Err(why),
    }
}

/// Makes a disk of version 1 of the format one of version 2. It is read by version 1's sizes; the retries and the age of its
/// settings are in force and those of each of its events; and the table goes, as version 2 writes it, to the other segment,
/// with the generation one higher. Nobody else has the disk meanwhile.
///
/// A disk that is not migrated is handed back with the cause, the first of `MigrateError` that holds. One barrier comes first,
/// then reads alone, and then the calls of a switch: until its last barrier a stop leaves a disk that is still of version 1 or
/// already of version 2, with the same events. To migrate it again is safe: `NotOld` says that it was done.
pub fn migrate<D: Disk>(alloc: Global, disk: D) -> Result<D, MigrateFailure<D>>
    ensures same { IfOk result (λ d. IsSameDisk (D.view disk) (D.view d)) }
    ensures same_failed { IfErr result (λ e. IsSameDisk (D.view disk) (D.view e.disk)) }
    ensures later { IfErr result (λ e. D.fault_count disk ≤ D.fault_count e.disk) }
    ensures fault { IfErr result (λ e. e.cause ≡ migrate_error.Fault → HasRisen (D.fault_count disk) (D.fault_count e.disk)) }

    // claim: After Ok each image recovers, as version 2, to the table read as version 1, and a read is of the next generation.
    // A refusal has its reason, memory aside. No disk whose images hold histories is called unformatted, damaged or bad. [:
    // migrated, reason, fault, sound]
    ensures migrated { (D.view disk).honest → IfOk result (λ d. Migrates (D.view disk) (D.view d)) }
    ensures reason { (D.view disk).honest → IfErr result (λ e. IsMigrateReason (D.view disk) e.cause) }

    // Where each image reads, as version 1 or 2, to the table of a legal history, it is refused by nothing that it holds.
    ensures sound { (D.view disk).honest → HoldsHistories (D.view disk) → IfErr result (λ e. IsSoundRefusal e.cause) }

    // claim: A refused disk is handed back, written only where the device failed. A crash meanwhile leaves an image from
    // before, or one that reads, in either version, to the same table. Refused for version, size, generation or table, all
    // images read to one table. [: any_moment, migrated, nothing, one, same_failed]
    ensures any_moment { (D.view disk).honest → IfErr result (λ e. LeavesMigrating (D.view disk) (D.view e.disk)) }
    ensures nothing { (D.view disk).honest → IfErr result (λ e. WritesNothingBut (D.view disk) (D.view e.disk) e.cause) }
    ensures one { (D.view disk).honest → IfErr result (λ e. HoldsOneWhere (D.view e.disk) e.cause) }
{
    let mut disk = disk;
    match migrate_disk(alloc, &mut disk) {
        Ok(()) => Ok(disk),
        Err(cause) => Err(MigrateFailure { cause, disk }),
    }
}
