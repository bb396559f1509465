// Copying all events of an opened broker to a new disk, with a longer age for those that have not ended.
ghost use Rattle.std.specs.Prelude.{◌≡◌, ◌≤◌, ◌<◌, ◌^◌, ◌⊎◌, false, length, None, Err, IsErrOf, IfOk, IfErr, OnOk, OnErr};
ghost use Rattle.sector_disk.specs.Disk.{IsSameDisk, HasRisen};
ghost use Rattle.retry_rules.specs.Settings.{bad_field, is_outside};
ghost use Rattle.checkpoint.specs.Image.{HasGeneration};
ghost use Rattle.checkpoint.specs.Formatting.{IsSeeded, LeavesSeeding, LeavesOldOrWhole, LeavesNoneOrWhole};
ghost use Rattle.broker_core.specs.Broker.{settings_of, table_in};
ghost use Rattle.broker_core.specs.Promises.{ForEachHistory};
ghost use Rattle.disk_copy.specs.declared.error.CopyError.TheVariants as copy_error;
ghost use Rattle.disk_copy.specs.Limits.{AllowsAll};
ghost use Rattle.disk_copy.specs.Change.{refusal_between};
ghost use Rattle.disk_copy.specs.Copying.{settings_for};
ghost use Rattle.aged_copy.specs.Aging.{aged};
ghost use Rattle.aged_copy.specs.Copying.{refusal_with_age, IsAgedReason, GoesOnFrom};
ghost use Rattle.aged_copy.specs.CopySteps.{IsUnprepared};

use crate::aging::lengthen;
use broker_core::Broker;
use checkpoint::seed;
use disk_copy::{Change, CopyError, grown_settings};
use invoke_records::Snapshot;
use retry_rules::{Field, RetryPolicy, Settings};
use sector_disk::Disk;
use std::alloc::Global;

// The settings of the copy, and the broker's table with the longer age, in memory of their own.
fn prepare<D: Disk>(
    broker: &Broker<D>,
    change: &Change,
    age: u32,
) -> Result<(Settings, Snapshot), CopyError>
    ensures settings { IfOk result (λ r. r.0 ≡ settings_for broker.now change.now) }
    ensures table { IfOk result (λ r. r.1 ≡ aged age (table_in broker.now)) }
    ensures good { IfOk result (λ r. bad_field r.0 ≡ None) }
    ensures allows { OnOk result (AllowsAll (settings_of broker.now) (settings_for broker.now change.now)) }
    ensures granted { OnOk result (refusal_between (settings_of broker.now) (settings_for broker.now change.now) ≡ None) }
    ensures fits { OnOk result (is_outside 60 21600 age ≡ false) }
    ensures refused { IfErr result (IsUnprepared (settings_of broker.now) (settings_for broker.now change.now) age (table_in broker.now)) }
{
    let table = broker.table();
    let settings = grown_settings(table.settings(), change)?;
    if (RetryPolicy { retries: 0, age }).is_bad() {
        return Err(CopyError::BadSettings { field: Field::Age });
    }
    match lengthen(table.snapshot()?, age) {
        Some(snapshot) => Ok((settings, snapshot)),
        None => Err(CopyError::BadTable),
    }
}

/// Copies all events of an opened broker to a new disk, as `disk_copy::copy` does, and gives each that has not ended this age, in
/// seconds, where it has a shorter one. What is in force for later events stays as it is.
///
/// An age of less than 60 or more than 21600 seconds is `BadSettings`, behind what is bad of the settings.
pub fn copy_with_age<D: Disk, E: Disk>(
    alloc: Global,
    broker: &Broker<D>,
    disk: &mut E,
    change: &Change,
    age: u32,
) -> Result<(), CopyError>
    ensures same { IsSameDisk (E.view disk.old) (E.view disk.new) }
    ensures later { E.fault_count disk.old ≤ E.fault_count disk.new }
    ensures fault { IsErrOf result CopyError.Fault → HasRisen (E.fault_count disk.old) (E.fault_count disk.new) }

    // claim: The first refusal that holds, or want of memory, is told before any call of the new disk. Only a fault comes
    // later.
    ensures granted { OnOk result (refusal_with_age (E.view disk.old).sectors broker.now change.now age ≡ None) }
    ensures refused { IfErr result (IsAgedReason (refusal_with_age (E.view disk.old).sectors broker.now change.now age) (table_in broker.now)) }
    ensures no_call { OnErr result (result ≡ Err copy_error.Fault ⊎ disk.new ≡ disk.old) }

    // claim: After Ok the new disk has one image, in generation 1, which recovers to the broker's table with this age for each event
    // that has not ended and had a shorter one.
    ensures generation { (E.view disk.old).honest → OnOk result (HasGeneration 1 (E.view disk.new).content) }
    ensures copied { (E.view disk.old).honest
        → OnOk result (IsSeeded (E.view disk.new) (settings_for broker.now change.now) (aged age (table_in broker.now))) }

    // claim: Where the broker stands for a history, the new disk goes on with one that leaves that table, all durable. Such a table is
    // never told bad, where it is of fewer than 2^61 commands.
    ensures goes_on { (E.view disk.old).honest → ForEachHistory D.view broker.now (λ _.
        OnOk result (GoesOnFrom (E.view disk.new) (settings_for broker.now change.now) (aged age (table_in broker.now)))) }
    ensures sound { ForEachHistory D.view broker.now (λ history. length history < 2 ^ 61 → result ≡ Err copy_error.BadTable → ⊥) }

    // claim: A crash meanwhile leaves the new disk as it was but for the gates, no formatted disk, or the whole copy.
    ensures any_moment { LeavesSeeding (E.view disk.old) (E.view disk.new)
        (settings_for broker.now change.now) (aged age (table_in broker.now)) }

    // claim: Of a disk without a formatted image a crash leaves no formatted disk or the whole copy; of one that read as not
    // formatted, also an image from before.
    ensures old_or_whole { LeavesOldOrWhole (E.view disk.old) (E.view disk.new)
        (settings_for broker.now change.now) (aged age (table_in broker.now)) }
    ensures none_or_whole { LeavesNoneOrWhole (E.view disk.old) (E.view disk.new)
        (settings_for broker.now change.now) (aged age (table_in broker.now)) }
{
    let (settings, snapshot) = prepare(broker, change, age)?;
    seed(alloc, disk, &settings, &snapshot)?;
    Ok(())
}
