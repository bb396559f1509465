// Copying all events of an opened broker to a new disk.
ghost use Rattle.std.specs.Prelude.{◌≡◌, ◌≤◌, ◌⊎◌, None, Err, IsErrOf, IfOk, IfErr, OnOk, OnErr};
ghost use Rattle.sector_disk.specs.Disk.{IsSameDisk, HasRisen};
ghost use Rattle.retry_rules.specs.Settings.{bad_field};
ghost use Rattle.checkpoint.specs.Image.{HasGeneration};
ghost use Rattle.checkpoint.specs.Formatting.{IsSeeded, LeavesSeeding, LeavesOldOrWhole, LeavesNoneOrWhole};
ghost use Rattle.broker_core.specs.Broker.{settings_of, table_in};
ghost use Rattle.broker_core.specs.Promises.{ForEachHistory};
ghost use Rattle.disk_copy.specs.declared.error.CopyError.TheVariants as copy_error;
ghost use Rattle.disk_copy.specs.Limits.{AllowsAll};
ghost use Rattle.disk_copy.specs.Change.{refusal_between};
ghost use Rattle.disk_copy.specs.Copying.{settings_for, refusal_for, IsCopyReason, GoesOnWith};
ghost use Rattle.disk_copy.specs.CopySteps.{IsUnprepared};

use crate::growing::grown_settings;
use crate::{Change, CopyError};
use broker_core::Broker;
use checkpoint::seed;
use invoke_records::Snapshot;
use retry_rules::Settings;
use sector_disk::Disk;
use std::alloc::Global;

// The settings of the copy, and all of the broker's table, in memory of their own.
fn prepare<D: Disk>(broker: &Broker<D>, change: &Change) -> Result<(Settings, Snapshot), CopyError>
    ensures settings { IfOk result (λ r. r.0 ≡ settings_for broker.now change.now) }
    ensures table { IfOk result (λ r. r.1 ≡ table_in broker.now) }
    ensures good { IfOk result (λ r. bad_field r.0 ≡ None) }
    ensures allows { OnOk result (AllowsAll (settings_of broker.now) (settings_for broker.now change.now)) }
    ensures granted { OnOk result (refusal_between (settings_of broker.now) (settings_for broker.now change.now) ≡ None) }
    ensures refused { IfErr result (IsUnprepared (settings_of broker.now) (settings_for broker.now change.now)) }
{
    let table = broker.table();
    let settings = grown_settings(table.settings(), change)?;
    let snapshot = table.snapshot()?;
    Ok((settings, snapshot))
}

/// Copies all events of an opened broker to a new disk, under the old settings with what the change names. What that disk
/// held is lost. The old disk is not called.
///
/// The copy has the broker's table as it is: each event that is held with its standing, its counts, its payload, its answer and
/// the retry policy by which it is judged, and what is in force for the next ones; also what was issued and is not durable yet.
///
/// The change is refused as `grown_settings` refuses it; then `TooSmall` names the least number of sectors; then `BadTable`
/// comes where the table may not stand on a disk under the new settings, which is so of no table that a history leaves. They and
/// `OutOfMemory` come before any call of the new disk. After `Fault` it has to be copied again.
pub fn copy<D: Disk, E: Disk>(
    alloc: Global,
    broker: &Broker<D>,
    disk: &mut E,
    change: &Change,
) -> Result<(), CopyError>
    ensures same { IsSameDisk (E.view disk.old) (E.view disk.new) }
    ensures later { E.fault_count disk.old ≤ E.fault_count disk.new }
    ensures fault { IsErrOf result CopyError.Fault → HasRisen (E.fault_count disk.old) (E.fault_count disk.new) }

    // claim: The first refusal that holds, or want of memory, is told before any call of the new disk. Only a fault comes
    // later.
    ensures granted { OnOk result (refusal_for (E.view disk.old).sectors broker.now change.now ≡ None) }
    ensures refused { IfErr result (IsCopyReason (refusal_for (E.view disk.old).sectors broker.now change.now)) }
    ensures no_call { OnErr result (result ≡ Err copy_error.Fault ⊎ disk.new ≡ disk.old) }

    // claim: After Ok the new disk has one image, which recovers to the broker's whole table, in generation 1.
    ensures generation { (E.view disk.old).honest → OnOk result (HasGeneration 1 (E.view disk.new).content) }
    ensures copied { (E.view disk.old).honest
        → OnOk result (IsSeeded (E.view disk.new) (settings_for broker.now change.now) (table_in broker.now)) }

    // claim: After Ok the new disk goes on with each history that the broker stands for, all durable. A table
    // that a history left is never told bad.
    ensures goes_on { (E.view disk.old).honest → ForEachHistory D.view broker.now (λ history.
        OnOk result (GoesOnWith (E.view disk.new) (settings_for broker.now change.now) history)) }
    ensures sound { ForEachHistory D.view broker.now (λ history. result ≡ Err copy_error.BadTable → ⊥) }

    // claim: A crash meanwhile leaves the new disk as it was but for the gates, no formatted disk, or the whole copy.
    ensures any_moment { LeavesSeeding (E.view disk.old) (E.view disk.new) (settings_for broker.now change.now) (table_in broker.now) }

    // claim: Of a disk without a formatted image a crash leaves no formatted disk or the whole copy; of one that read as not
    // formatted, also an image from before.
    ensures old_or_whole { LeavesOldOrWhole (E.view disk.old) (E.view disk.new) (settings_for broker.now change.now) (table_in broker.now) }
    ensures none_or_whole { LeavesNoneOrWhole (E.view disk.old) (E.view disk.new) (settings_for broker.now change.now) (table_in broker.now) }
{
    let (settings, snapshot) = prepare(broker, change)?;
    seed(alloc, disk, &settings, &snapshot)?;
    Ok(())
}
