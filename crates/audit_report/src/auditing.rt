// What a disk holds.
ghost use Rattle.std.specs.Prelude.{◌≡◌, ◌+◌, ◌≤◌, ◌^◌, ℕ, List, length, IsErrOf, IfOk, IfErr};
ghost use Rattle.sector_disk.specs.Disk.{IsSameDisk, HasRisen};
ghost use Rattle.async_core.specs.Policies.{pair_of};
ghost use Rattle.checkpoint.specs.Live.{HasRoom, generation_of};
ghost use Rattle.checkpoint.specs.Opening.{OnlyReads, IsNoFinding, TellsNotFormatted, TellsDamage, TellsOld};
ghost use Rattle.audit_report.specs.Report.{counts_in, LeadsFrom, IsAudit, IsReportOn, HasFailed};

use crate::counting::{Counts, counts_of};
use crate::older::{apply_all, older_of, table_from};
use crate::{Older, Report};
use async_core::Table;
use checkpoint::{OpenError, Opened, open};
use invoke_records::Command;
use sector_disk::Disk;
use std::alloc::{AllocError, Global};

// The report on a table, beside the segment that was opened.
fn report_of(opened: &Opened, table: &Table, counts: Counts, older: Older) -> Report
    ensures opened { result.generation ≡ generation_of opened.now }
    ensures number { result.number ≡ table.now.table.number }
    ensures counts { counts_in result ≡ counts }
    ensures older { result.older ≡ older }
    ensures in_force { (result.retries, result.age) ≡ pair_of table.now.table.policy }
{
    let (retries, age) = table.in_force();
    Report {
        generation: opened.generation(),
        number: table.number(),
        held: counts.held,
        waiting: counts.waiting,
        running: counts.running,
        success: counts.success,
        failure: counts.failure,
        older,
        retries,
        age,
    }
}

// What an opened disk holds, beside the table that its live segment leads to: `live` is that of its snapshot.
fn tell<D: Disk>(
    alloc: Global,
    disk: &mut D,
    opened: &Opened,
    live: Table,
    commands: &[Command],
) -> Result<(Table, Report), OpenError>
    requires room { HasRoom (D.view disk.old).sectors opened.now }
    requires below { live.table.number + length commands.now ≤ 2 ^ 62 }
    ensures reads { OnlyReads (D.view disk.old) (D.view disk.new) }
    ensures later { D.fault_count disk.old ≤ D.fault_count disk.new }
    ensures fault { IsErrOf result OpenError.Fault → HasRisen (D.fault_count disk.old) (D.fault_count disk.new) }
    ensures exact { (D.view disk.old).honest → (bytes : List ℕ) → LeadsFrom live commands.now opened.now (D.view disk.old) bytes
        → IfOk result (λ r. IsAudit bytes r.0 r.1) }
    ensures refused { (D.view disk.old).honest → (bytes : List ℕ) → LeadsFrom live commands.now opened.now (D.view disk.old) bytes
        → IfErr result IsNoFinding }
{
    let older = match older_of(alloc, disk, opened, &live) {
        Ok(older) => older,
        Err(why) => return Err(why),
    };
    let mut table = live;
    let Ok(_) = apply_all(&mut table, commands) else {
        return Err(OpenError::OutOfMemory);
    };
    let Ok(counts) = counts_of(&table) else {
        return Err(OpenError::OutOfMemory);
    };
    let report = report_of(opened, &table, counts, older);
    Ok((table, report))
}

/// Opens a disk and tells what it holds, beside its table after all that is durable. One barrier comes first, then reads
/// alone; a disk that `open` of `checkpoint` refuses is refused so, one of version 1 as `OldVersion`.
pub fn inspect<D: Disk>(alloc: Global, disk: &mut D) -> Result<(Table, Report), OpenError>
    ensures same { IsSameDisk (D.view disk.old) (D.view disk.new) }
    ensures later { D.fault_count disk.old ≤ D.fault_count disk.new }
    ensures fault { IsErrOf result OpenError.Fault → HasRisen (D.fault_count disk.old) (D.fault_count disk.new) }
    ensures content { (D.view disk.old).honest → (D.view disk.new).content ≡ (D.view disk.old).content }
    // claim: The table and the report are what the bytes read to; no byte changes. An older segment is told to lead to the live
    // snapshot, to be 1 to 256 commands behind it, or to differ. [: exact, content; audit: exact]
    ensures exact { (D.view disk.old).honest → IfOk result (λ r. IsAudit (D.view disk.old).content r.0 r.1) }
    // claim: A disk is told not formatted, damaged or old only where its bytes say so. [audit]
    ensures not_formatted { TellsNotFormatted (D.view disk.old) result }
    ensures damaged { TellsDamage (D.view disk.old) result }
    ensures old_version { TellsOld (D.view disk.old) result }
{
    let (opened, snapshot, commands) = open(alloc, disk)?;
    match table_from(alloc, opened.settings(), snapshot) {
        Ok(live) => tell(alloc, disk, &opened, live, &commands),
        Err(AllocError) => Err(OpenError::OutOfMemory),
    }
}

/// What a disk holds. The disk is given up; nothing but a barrier was done to it. It is refused as `inspect` refuses.
pub fn audit<D: Disk + Drop>(alloc: Global, disk: D) -> Result<Report, OpenError>
    ensures fault { IsErrOf result OpenError.Fault → HasFailed D.view D.fault_count disk }
    ensures exact { (D.view disk).honest → IfOk result (IsReportOn (D.view disk).content) }
    ensures not_formatted { TellsNotFormatted (D.view disk) result }
    ensures damaged { TellsDamage (D.view disk) result }
    ensures old_version { TellsOld (D.view disk) result }
{
    let mut disk = disk;
    let (_, report) = inspect(alloc, &mut disk)?;
    Ok(report)
}
