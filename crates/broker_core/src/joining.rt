// Joining the two halves of a broker.
ghost use Rattle.std.specs.Prelude.{◌≡◌, ◌-◌, drop, false, OnOk, IfOk, IfErr};
ghost use Rattle.broker_core.specs.Broker.{issued_of, is_broken, Stands};
ghost use Rattle.broker_core.specs.Promises.{ForEachHistory};
ghost use Rattle.broker_core.specs.IssuerHalf.{half_view};
ghost use Rattle.broker_core.specs.Splitting.{broker_of, ahead_of, Takes, Joins, IsNotJoined, StandsWithAhead, ForEachSharedHistory};
ghost use Rattle.broker_core.specs.Taking.{HasJoined, IsJoinStop};

use crate::copying::copy_commands;
use crate::taking::{TakeError, take_all};
use crate::{Broker, DiskHalf, IssueHalf, JoinError, JoinFailure};
use invoke_records::Command;
use sector_disk::Disk;
use std::alloc::AllocError;

// What is pending behind so many commands.
fn copy_ahead(issue: &IssueHalf, issued: u64) -> Result<Vec<Command>, AllocError>
    ensures { IfOk result (λ commands. commands.items ≡ drop (issued - (half_view issue.now).durable) (half_view issue.now).pending) }
{
    let known = issued.saturating_sub(issue.durable) as usize;
    let ahead = &issue.pending[known.min(issue.pending.len())..];
    copy_commands(issue.alloc, ahead)
}

// Hands to the broker what is pending in the issue half and it does not have, and then compares the tables: to compare first would
// hide `Backlog` and `OutOfMemory` behind `Mismatch`.
fn hand_over<D: Disk>(issue: &IssueHalf, broker: &mut Broker<D>) -> Result<(), JoinError>
    requires { is_broken broker.old ≡ false }
    ensures takes { Takes broker.old broker.new (ahead_of issue.now broker.old) (issued_of broker.new - issued_of broker.old) }
    ensures ok { OnOk result (HasJoined issue.now broker.old broker.new) }
    ensures err { IfErr result (IsJoinStop issue.now broker.old broker.new) }
    ensures stands { ForEachHistory D.view broker.old (λ history. StandsWithAhead D.view issue.now broker.old history broker.new) }
{
    let Ok(commands) = copy_ahead(issue, broker.issued()) else {
        return Err(JoinError::OutOfMemory);
    };
    match take_all(broker, commands) {
        Ok(()) if broker.table.is_same(&issue.table) => Ok(()),
        Ok(()) => Err(JoinError::Mismatch),
        Err(TakeError::Illegal) => Err(JoinError::Mismatch),
        Err(TakeError::Backlog) => Err(JoinError::Backlog),
        Err(TakeError::OutOfMemory) => Err(JoinError::OutOfMemory),
    }
}

impl<D: Disk> Broker<D> {
    /// Joins the halves of a broker: what is pending in the issue half, and not in the disk half, is issued to the disk half,
    /// and the tables are compared. A half that is broken gives a broken broker, and nothing is compared then.
    ///
    /// It is refused, and hands both halves back: `Lent` (a batch is out), `Backlog` (256 commands would be pending),
    /// `OutOfMemory`, `Mismatch` (the tables differ). What the disk half took stays pending in it.
    pub fn join(issue: IssueHalf, disk: DiskHalf<D>) -> Result<Broker<D>, JoinFailure<D>>
        // claim: Halves join only with no batch out, unbroken ones only where their tables agree. A broken one makes a broken
        // broker.
        ensures ok { IfOk result (λ broker. Joins issue (broker_of disk) broker) }
        ensures err { IfErr result (λ failure. IsNotJoined issue failure.issue (broker_of disk) (broker_of failure.disk) failure.cause) }

        // The broker stands for the disk half's list and what it took of what is pending in the issue half. Where the disk half
        // stands for a front of a history that the issue half stands for, a broker that is whole stands for that history.
        ensures stands { ForEachHistory D.view (broker_of disk) (λ history.
            IfOk result (StandsWithAhead D.view issue (broker_of disk) history)) }
        ensures stands_failed { ForEachHistory D.view (broker_of disk) (λ history.
            IfErr result (λ failure. StandsWithAhead D.view issue (broker_of disk) history (broker_of failure.disk))) }
        // claim: An unbroken joined broker stands for the issue half's history, if the disk half stood for a prefix of it. [:
        // stands, stands_failed, headline]
        ensures headline { ForEachSharedHistory D.view issue (broker_of disk) (λ history.
            IfOk result (λ broker. is_broken broker ≡ false → Stands D.view broker history)) }
    {
        let mut broker = disk.broker;
        if issue.lent.is_some() {
            let cause = JoinError::Lent;
            let disk = DiskHalf { broker };
            return Err(JoinFailure { cause, issue, disk });
        }
        if issue.broken || broker.broken {
            broker.broken = true;
            return Ok(broker);
        }
        match hand_over(&issue, &mut broker) {
            Ok(()) => Ok(broker),
            Err(cause) => {
                let disk = DiskHalf { broker };
                Err(JoinFailure { cause, issue, disk })
            }
        }
    }
}
