// The broker over one disk.
ghost use Rattle.std.specs.Prelude.{◌≡◌, ◌+◌, ◌<◌, ◌≤◌, ◌^◌, [], length, false, All, None, Some, Ok, Err, IfOk, IfErr, MatchOption, is_ok};
ghost use Rattle.sector_disk.specs.Disk.{IsSameDisk};
ghost use Rattle.invoke_records.specs.Spelling.{command_fault};
ghost use Rattle.gate_journal.specs.declared.staged.Staged.{Staged};
ghost use Rattle.gate_journal.specs.Staged.{count_of};
ghost use Rattle.checkpoint.specs.Live as live;
ghost use Rattle.checkpoint.specs.Ahead.{LiesIn};
ghost use Rattle.broker_core.specs.History.{AreGood};

use crate::recovery::recover;
use crate::{Durable, OpenFailure, Receipt, Ticket};
use async_core::Table;
use checkpoint::{OpenError, Opened, Staged};
use gate_journal::MOST_IN_FRAME;
use invoke_records::{Command, GREATEST_NUMBER};
use sector_disk::Disk;
use std::alloc::Global;

/// How many commands may be pending.
pub const MOST_PENDING: usize = MOST_IN_FRAME;

/// How many commands may be issued since the disk was formatted.
pub const MOST_COMMANDS: u64 = GREATEST_NUMBER;

/// The broker over one disk: its table after all that was issued, and what of that is not durable yet.
#[derive(Drop)]
pub struct Broker<D: Disk> {
    pub(crate) alloc: Global,
    pub(crate) disk: D,
    pub(crate) opened: Opened,
    pub(crate) table: Table,
    pub(crate) pending: Vec<Command>,
    pub(crate) durable: u64,
    pub(crate) broken: bool,
    /// What of the pending commands is written behind the log and not opened: the first ones.
    pub(crate) staged: Option<Staged>,
    ghost room: { live.HasRoom (D.view disk).sectors opened },
    ghost settings: { table.settings ≡ live.settings_of opened },
    ghost good: { AreGood table.settings },
    ghost counted: { durable + length pending.items ≡ table.table.number },
    ghost next: { live.number_of opened ≡ durable + 1 },
    ghost below: { table.table.number ≤ 2 ^ 62 },
    ghost few: { length pending.items ≤ 256 },
    ghost spelled: { All (λ c. command_fault c ≡ None) pending.items },
    ghost lies: { (group : Staged) → staged ≡ Some group → LiesIn opened group },
    ghost front: { (group : Staged) → staged ≡ Some group → (1 ≤ count_of group) × (count_of group ≤ length pending.items) },
}

impl<D: Disk> Broker<D> {
    ghost use Rattle.checkpoint.specs.Image.{HasGeneration};
    ghost use Rattle.broker_core.specs.Broker.{disk_of, settings_of, table_in, issued_of, pending_of, durable_of, is_broken, opened_of};
    ghost use Rattle.broker_core.specs.Promises.{ForEachHistoryOn, LeavesLegalStops, LeavesWhatWas, IsRecovered, IsReceiptFor};
    ghost use Rattle.broker_core.specs.Refusals.{TellsFault, TellsNotFormatted, TellsDamage, TellsOld, IsCutOff};

    /// Opens a formatted disk. What was durable is there, and what was written and not acknowledged may be.
    ///
    /// A disk that is not opened is handed back with the cause: `Fault`, `OutOfMemory`, `NotFormatted`, `Damaged` with its
    /// sector, or `OldVersion` where nothing is damaged and the disk has to be migrated first. Nothing is written to the disk.
    pub fn open(alloc: Global, disk: D) -> Result<Broker<D>, OpenFailure<D>>
        // claim: A disk not opened is handed back. An opening tells a fault only where the count rose, or is at its greatest.
        ensures same { IfOk result (λ b. IsSameDisk (D.view disk) (D.view (disk_of b))) }
        ensures same_failed { IfErr result (λ e. IsSameDisk (D.view disk) (D.view e.disk)) }
        ensures fault { IfErr result (λ e. TellsFault (D.fault_count disk) (D.fault_count e.disk) e.cause) }

        // claim: A disk opens as what it recovers to, all durable, in its generation. It is told not formatted, damaged or
        // old only where its bytes say so.
        ensures fresh { IfOk result (λ b. (is_broken b ≡ false) × (pending_of b ≡ []) × (durable_of b ≡ issued_of b)) }
        ensures recovers { (D.view disk).honest → IfOk result (λ b. live.RecoversTo (settings_of b) (table_in b) (D.view disk).content) }
        ensures generation { (D.view disk).honest
            → IfOk result (λ b. HasGeneration (live.generation_of (opened_of b)) (D.view disk).content) }
        ensures not_formatted { (D.view disk).honest → IfErr result (λ e. TellsNotFormatted (D.view disk).content e.cause) }
        ensures damaged { (D.view disk).honest → IfErr result (λ e. TellsDamage (D.view disk).content e.cause) }
        ensures old_version { (D.view disk).honest → IfErr result (λ e. TellsOld (D.view disk).content e.cause) }

        // claim: A crash within an opening leaves an image from before it.
        ensures any_moment { (D.view disk).honest → IfOk result (λ b. LeavesWhatWas (D.view disk) (D.view (disk_of b))) }
        ensures any_moment_failed { (D.view disk).honest → IfErr result (λ e. LeavesWhatWas (D.view disk) (D.view e.disk)) }

        // claim: Where each image is a legal stop of a history, the broker stands for a prefix with at least the durable
        // commands. Only the device or want of memory refuses.
        ensures stands { (D.view disk).honest
            → ForEachHistoryOn (D.view disk) (λ s history durable. IfOk result (IsRecovered D.view s history durable)) }
        ensures refused { (D.view disk).honest
            → ForEachHistoryOn (D.view disk) (λ s history durable. IfErr result (λ e. IsCutOff e.cause)) }
    {
        let mut disk = disk;
        match recover(alloc, &mut disk) {
            Ok((opened, table)) => {
                let durable = table.number();
                Ok(Broker {
                    alloc,
                    disk,
                    opened,
                    table,
                    pending: Vec::new(alloc),
                    durable,
                    broken: false,
                    staged: None,
                })
            }
            Err(cause) => Err(OpenFailure { cause, disk }),
        }
    }

    /// How many commands were issued.
    pub fn issued(&self) -> u64
        ensures { result ≡ issued_of self.now }
    {
        self.table.number()
    }

    /// A ticket of all that was issued: its number is how many commands that is. It takes no memory.
    pub fn ticket(&self) -> Ticket
        ensures { result ≡ issued_of self.now }
    {
        Ticket::new(self.table.number())
    }

    /// How many of them are durable: no stop takes them away.
    pub fn durable(&self) -> Durable
        ensures { result ≡ durable_of self.now }
    {
        Durable::new(self.durable)
    }

    /// Whether the device failed: the disk has to be opened again.
    pub fn is_broken(&self) -> bool
        ensures { result ≡ is_broken self.now }
    {
        self.broken
    }

    /// The table after all that was issued.
    pub fn table(&self) -> &Table
        ensures { result.now ≡ record { settings = settings_of self.now; table = table_in self.now } }
    {
        &self.table
    }

    /// A receipt for a ticket whose command is durable. It speaks of the number: a ticket is meant for the opening that
    /// gave it.
    pub fn redeem(&self, ticket: &Ticket) -> Option<Receipt>
        // claim: A receipt is given exactly where the ticket's number is durable.
        ensures { MatchOption result (durable_of self.now < ticket.now) (IsReceiptFor self.now ticket.now) }
    {
        let number = ticket.number();
        if number <= self.durable {
            Some(Receipt::new(number))
        } else {
            None
        }
    }

    /// The disk, also of a broken broker. What is pending is given up.
    pub fn close(self) -> D
        ensures disk { result ≡ disk_of self }
        ensures any_moment { LeavesLegalStops D.view self result }
    {
        let Broker { disk, .. } = self;
        disk
    }
}

/// A broker that was opened, or why it was not. The disk of one that was not is given up.
pub fn without_disk<D: Disk + Drop>(
    opened: Result<Broker<D>, OpenFailure<D>>,
) -> Result<Broker<D>, OpenError>
    ensures ok { IfOk result (λ broker. opened ≡ Ok broker) }
    ensures err { IfErr result (λ cause. IfErr opened (λ failure. failure.cause ≡ cause)) }
    ensures same { is_ok result ≡ is_ok opened }
{
    match opened {
        Ok(broker) => Ok(broker),
        Err(OpenFailure { cause, .. }) => Err(cause),
    }
}
