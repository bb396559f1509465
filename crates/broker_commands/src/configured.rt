// Bringing a retry policy in force on a disk that was opened, and what shows that it was.
ghost use Rattle.std.specs.Prelude.{◌≡◌, [], IfErr, IfOk, OnOk};
ghost use Rattle.async_core.specs.Policies.{pair_of};
ghost use Rattle.sector_disk.specs.Disk.{IsSameDisk};
ghost use Rattle.broker_core.specs.Broker.{disk_of, settings_of, pending_of, table_in, IsReason};
ghost use Rattle.broker_core.specs.Promises.{ForEachHistory, ForEachHistoryOn};
ghost use Rattle.broker_commands.specs.Configuring.{policy_for, configure_at, IsConfigured, HoldsConfigured, WasConfigured, IsRefusal, IsAsked};

use crate::configuring::{ConfiguringError, NewPolicy};
use crate::opening::open;
use async_core::Table;
use broker_core::{Broker, IssueError};
use invoke_records::{Bytes, Command, Kind};
use retry_rules::RetryPolicy;
use sector_disk::Disk;
use std::alloc::Global;
use std::snapshot::Snapshot as Seen;

/// That a disk was configured. Only that gives it: proofs see in it the disk before and after, and each image of the second holds
/// the command behind what the first held.
#[derive(Drop)]
pub struct Configured<'a, D: Disk> {
    // The retries and the age that are in force then.
    told: (u8, u32),
    // When it was asked for, in milliseconds since 1970.
    moment: u64,
    wanted: Seen<NewPolicy<'a>>,
    before: Seen<D>,
    after: Seen<D>,
    ghost holds: { ∥ WasConfigured (D.view before.value) wanted.value moment (D.view after.value) ∥₁ },
}

impl<D: Disk> Configured<'_, D> {
    /// The retries and the age that are in force then.
    pub fn told(&self) -> (u8, u32)
        ensures { result ≡ self.now.told }
    {
        self.told
    }
}

// The retry policy that is wanted: what is absent is what is in force.
fn policy_for(table: &Table, new: &NewPolicy<'_>) -> RetryPolicy
    ensures { result ≡ policy_for table.now.table.policy new.now }
{
    let (retries, age) = table.in_force();
    RetryPolicy {
        retries: new.retries.unwrap_or(retries),
        age: new.age.unwrap_or(age),
    }
}

// Issues the command that configures, at this moment or the last command's, if that is greater.
fn issue<D: Disk>(broker: &mut Broker<D>, new: &NewPolicy<'_>, now: u64) -> Result<(), IssueError>
    ensures reason { IfErr result (IsReason broker.old (configure_at (table_in broker.old) new.now now)) }
    ensures policy { OnOk result ((table_in broker.new).policy ≡ policy_for (table_in broker.old).policy new.now) }
    ensures configured { ForEachHistory D.view broker.old (λ history. OnOk result (IsConfigured D.view new.now now history broker.new)) }
    ensures settings { settings_of broker.new ≡ settings_of broker.old }
    ensures no_call { disk_of broker.new ≡ disk_of broker.old }
{
    let kind = Kind::Configure(policy_for(broker.table(), new));
    let time = now.max(broker.table().last_moment());
    let command = Command {
        kind,
        id: [0; 16],
        environment: 0,
        time,
        bytes: Bytes::empty(),
    };
    match broker.issue(command) {
        Ok(_) => Ok(()),
        Err(why) => Err(why),
    }
}

// Brings this retry policy in force, and makes that durable: what is in force then.
fn bring_in_force<D: Disk>(
    broker: &mut Broker<D>,
    new: &NewPolicy<'_>,
    now: u64,
) -> Result<(u8, u32), ConfiguringError>
    ensures told { IfOk result (λ pair. pair ≡ pair_of (policy_for (table_in broker.old).policy new.now)) }
    ensures reason { IfErr result (IsRefusal broker.old (configure_at (table_in broker.old) new.now now)) }
    ensures durable { OnOk result (pending_of broker.new ≡ []) }
    ensures configured { ForEachHistory D.view broker.old (λ history. OnOk result (IsConfigured D.view new.now now history broker.new)) }
    ensures settings { settings_of broker.new ≡ settings_of broker.old }
    ensures same { IsSameDisk (D.view (disk_of broker.old)) (D.view (disk_of broker.new)) }
{
    if let Err(why) = issue(broker, new, now) {
        return Err(ConfiguringError::Issue(why));
    }
    match broker.commit() {
        Ok(_) => Ok(broker.table().in_force()),
        Err(why) => Err(ConfiguringError::Commit(why)),
    }
}

// Opens the disk, and brings a retry policy in force on it: what is in force then, and the disk.
fn configure_on<D: Disk + Drop>(
    alloc: Global,
    disk: D,
    new: &NewPolicy<'_>,
    now: u64,
) -> Result<((u8, u32), D), ConfiguringError>
    // claim: After Ok each image holds, all durable, a prefix with all that was durable, and behind it the Configure, with what
    // was asked for and else what was in force. [: configured]
    ensures asked { IfOk result (λ done. IsAsked new.now done.0) }
    ensures configured { (D.view disk).honest → ForEachHistoryOn (D.view disk) (λ s history durable.
        IfOk result (λ done. HoldsConfigured s history durable new.now now (D.view done.1))) }
{
    let mut broker = open(alloc, disk)?;
    let told = bring_in_force(&mut broker, new, now)?;
    Ok((told, broker.close()))
}

/// The same, with what shows it.
pub(crate) fn configure<'a, D: Disk + Drop>(
    alloc: Global,
    disk: D,
    new: &NewPolicy<'a>,
    now: u64,
) -> Result<Configured<'a, D>, ConfiguringError>
    ensures asked { IfOk result (λ done. IsAsked new.now done.told) }
    ensures wanted { IfOk result (λ done. done.wanted.value ≡ new.now) }
    ensures before { IfOk result (λ done. done.before.value ≡ disk) }
{
    let before = Seen::of(&disk);
    let wanted = Seen::of(new);
    let done = configure_on(alloc, disk, new, now)?;
    let after = Seen::of(&done.1);
    Ok(Configured {
        told: done.0,
        moment: now,
        wanted,
        before,
        after,
    })
}
