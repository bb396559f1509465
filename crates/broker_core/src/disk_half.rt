// The half of a broker that writes: a broker of its own over the disk.
ghost use Rattle.std.specs.Prelude.{◌≡◌, ◌≤◌, ◌++◌, false, true, Err, OnOk, IfErr};
ghost use Rattle.sector_disk.specs.Disk.{IsSameDisk};
ghost use Rattle.broker_core.specs.Broker.{disk_of, settings_of, issued_of, durable_of, is_broken, Stands, IsSameBroker};
ghost use Rattle.broker_core.specs.Promises.{ForEachHistory, LeavesLegalStops};
ghost use Rattle.broker_core.specs.Refusals.{FaultsHaveRisen};
ghost use Rattle.broker_core.specs.Batch.{first_of, last_of, first_in, last_in, cause_of};
ghost use Rattle.broker_core.specs.Splitting.{broker_of};
ghost use Rattle.broker_core.specs.declared.error.WriteError.TheVariants as write_error;
ghost use Rattle.broker_core.specs.Taking.{TakesMissing, HasTaken, IsTakeReason, commit_cause};
ghost use Rattle.broker_core.specs.Advancing.{Advances, HasNumbers, IsNotAdvancedAs, HasSwitchedIn};
ghost use Rattle.broker_core.specs.Writing.{taken_from, IsApart, IsRefusedAs, IsNotWritten, Writes, HasSwitchedFor, StaysInFront, LeavesStopsWith};

use crate::batch::{Batch, Failed, Written};
use crate::taking::{TakeError, forget_first, take_all};
use crate::{Broker, CommitError, Durable, WriteError};
use sector_disk::Disk;

/// The half of a broker that has the disk.
#[derive(Drop)]
pub struct DiskHalf<D: Disk> {
    pub(crate) broker: Broker<D>,
}

// Why a batch was not written that was taken and not committed.
fn cause_of(why: CommitError) -> WriteError
    ensures { result ≡ commit_cause why }
{
    match why {
        CommitError::Broken => WriteError::Broken,
        CommitError::WornOut => WriteError::WornOut,
        CommitError::BadKind => WriteError::BadKind,
        CommitError::OutOfMemory => WriteError::OutOfMemory,
        CommitError::Fault => WriteError::Fault,
    }
}

impl<D: Disk> DiskHalf<D> {
    // Issues the commands of a batch that it does not have.
    fn take_batch(&mut self, batch: Batch) -> Result<(), WriteError>
        ensures takes { TakesMissing (broker_of self.old) batch (broker_of self.new) }
        ensures broken { is_broken (broker_of self.old) ≡ true → result ≡ Err write_error.Broken }
        ensures apart { is_broken (broker_of self.old) ≡ false → IsApart (broker_of self.old) batch
            → result ≡ Err write_error.Mismatch }
        ensures untouched { IsApart (broker_of self.old) batch → IsSameBroker (broker_of self.old) (broker_of self.new) }
        ensures ok { OnOk result (HasTaken (broker_of self.old) batch (broker_of self.new)) }
        ensures err { IfErr result (IsTakeReason (broker_of self.old) batch (broker_of self.new)) }
        ensures stands { ForEachHistory D.view (broker_of self.old) (λ history.
            Stands D.view (broker_of self.new) (history ++ taken_from (broker_of self.old) (broker_of self.new) batch)) }
    {
        if self.broker.broken {
            return Err(WriteError::Broken);
        }
        let issued = self.broker.issued();
        let Batch {
            first,
            last,
            commands,
        } = batch;
        if issued + 1 < first || last < issued {
            return Err(WriteError::Mismatch);
        }
        let mut missing = commands;
        forget_first(&mut missing, (issued + 1 - first) as usize);
        match take_all(&mut self.broker, missing) {
            Ok(()) => Ok(()),
            Err(TakeError::Illegal) => Err(WriteError::Mismatch),
            Err(TakeError::Backlog) => Err(WriteError::Backlog),
            Err(TakeError::OutOfMemory) => Err(WriteError::OutOfMemory),
        }
    }

    /// Issues the commands of a batch that it does not have, and commits. A batch that was refused can be lent again and
    /// written: what was taken is not issued twice.
    ///
    /// It is refused, and what it took before stays pending in it: `Broken`, `Mismatch` (a gap between its list and the
    /// batch, a batch that ends below that list's end, or a command that is not legal), `WornOut`, `Backlog`, `BadKind` (as
    /// `Broker::commit` has it), `OutOfMemory`, and `Fault`, after which it is broken.
    pub fn write(&mut self, batch: Batch) -> Result<Written, Failed>
        ensures same { IsSameDisk (D.view (disk_of (broker_of self.old))) (D.view (disk_of (broker_of self.new))) }
        ensures later { D.fault_count (disk_of (broker_of self.old)) ≤ D.fault_count (disk_of (broker_of self.new)) }
        ensures fault { IsRefusedAs result write_error.Fault → FaultsHaveRisen D.fault_count (broker_of self.old) (broker_of self.new) }
        ensures first { first_in result ≡ first_of batch }
        ensures last { last_in result ≡ last_of batch }

        // claim: After Ok the whole batch is durable. A refusal makes nothing durable, and has its reason, memory aside.
        ensures ok { OnOk result (Writes batch (broker_of self.new)) }
        ensures broken { is_broken (broker_of self.old) ≡ true → IsRefusedAs result write_error.Broken }
        ensures apart { is_broken (broker_of self.old) ≡ false → IsApart (broker_of self.old) batch
            → IsRefusedAs result write_error.Mismatch }
        ensures untouched { IsApart (broker_of self.old) batch → IsSameBroker (broker_of self.old) (broker_of self.new) }
        ensures err { IfErr result (λ failed. IsNotWritten (broker_of self.old) batch (broker_of self.new) (cause_of failed)) }
        ensures settings { settings_of (broker_of self.new) ≡ settings_of (broker_of self.old) }
        ensures longer { issued_of (broker_of self.old) ≤ issued_of (broker_of self.new) }
        ensures switched { HasSwitchedFor (broker_of self.old) (broker_of self.new) result }

        // claim: The half stands for its history with what it took. Where its history began one that ends with the batch, it
        // still does.
        ensures stands { ForEachHistory D.view (broker_of self.old) (λ history.
            Stands D.view (broker_of self.new) (history ++ taken_from (broker_of self.old) (broker_of self.new) batch)) }
        ensures sound { ForEachHistory D.view (broker_of self.old) (λ history. IsRefusedAs result write_error.BadKind → ⊥) }
        ensures front { StaysInFront D.view (broker_of self.old) (broker_of self.new) batch }

        // claim: A crash at any moment leaves a legal stop of its history with what it took.
        ensures any_moment { LeavesStopsWith D.view (broker_of self.old) (broker_of self.new) batch }
    {
        let (first, last) = (batch.first, batch.last);
        if let Err(cause) = self.take_batch(batch) {
            return Err(Failed::new(first, last, cause));
        }
        match self.broker.commit() {
            Ok(_) => Ok(Written::new(first, last)),
            Err(why) => Err(Failed::new(first, last, cause_of(why))),
        }
    }

    /// Issues the commands of a batch that it does not have, and makes one barrier at most, unless it switches. So groups that
    /// follow each other share their barriers: what an earlier call left written behind the log is opened, and durable after Ok,
    /// and what else is pending is written behind it, and durable after the next call. Where that does not fit behind what is
    /// opened, the next call switches. Where nothing was left and it does not fit, this one does, and all is durable. The batch
    /// may be empty: then what was left is opened alone.
    ///
    /// At Ok it answers what was made durable, if something was: `Written`, with the numbers of these commands. It is refused
    /// as `write` is, and then nothing more is durable. A `Failed` goes from the first command that is not durable to the
    /// batch's last.
    pub fn advance(&mut self, batch: Batch) -> Result<Option<Written>, Failed>
        ensures same { IsSameDisk (D.view (disk_of (broker_of self.old))) (D.view (disk_of (broker_of self.new))) }
        ensures later { D.fault_count (disk_of (broker_of self.old)) ≤ D.fault_count (disk_of (broker_of self.new)) }
        ensures fault { IsNotAdvancedAs result write_error.Fault → FaultsHaveRisen D.fault_count (broker_of self.old) (broker_of self.new) }
        ensures numbers { HasNumbers (broker_of self.old) batch (broker_of self.new) result }

        // claim: After Ok the whole batch is taken, and what an earlier advance staged is durable; where that left nothing, all that
        // is pending is staged, or durable. A refusal makes nothing durable, and has its reason, memory aside.
        ensures ok { OnOk result (Advances (broker_of self.old) batch (broker_of self.new)) }
        ensures broken { is_broken (broker_of self.old) ≡ true → IsNotAdvancedAs result write_error.Broken }
        ensures apart { is_broken (broker_of self.old) ≡ false → IsApart (broker_of self.old) batch
            → IsNotAdvancedAs result write_error.Mismatch }
        ensures untouched { IsApart (broker_of self.old) batch → IsSameBroker (broker_of self.old) (broker_of self.new) }
        ensures err { IfErr result (λ failed. IsNotWritten (broker_of self.old) batch (broker_of self.new) (cause_of failed)) }
        ensures settings { settings_of (broker_of self.new) ≡ settings_of (broker_of self.old) }
        ensures longer { issued_of (broker_of self.old) ≤ issued_of (broker_of self.new) }
        ensures switched { HasSwitchedIn (broker_of self.old) (broker_of self.new) result }

        // claim: The half stands for its history with what it took, of which no more is durable than it says. Where its history
        // began one that ends with the batch, it still does.
        ensures stands { ForEachHistory D.view (broker_of self.old) (λ history.
            Stands D.view (broker_of self.new) (history ++ taken_from (broker_of self.old) (broker_of self.new) batch)) }
        ensures sound { ForEachHistory D.view (broker_of self.old) (λ history. IsNotAdvancedAs result write_error.BadKind → ⊥) }
        ensures front { StaysInFront D.view (broker_of self.old) (broker_of self.new) batch }

        // claim: A crash at any moment leaves a legal stop of its history with what it took.
        ensures any_moment { LeavesStopsWith D.view (broker_of self.old) (broker_of self.new) batch }
    {
        let (first, last) = (self.broker.durable + 1, batch.last);
        if let Err(cause) = self.take_batch(batch) {
            return Err(Failed::new(first, last, cause));
        }
        match self.broker.advance() {
            Ok(()) if self.broker.durable >= first => {
                Ok(Some(Written::new(first, self.broker.durable)))
            }
            Ok(()) => Ok(None),
            Err(why) => Err(Failed::new(first, last, cause_of(why))),
        }
    }

    /// How many commands it has.
    pub fn issued(&self) -> u64
        ensures { result ≡ issued_of (broker_of self.now) }
    {
        self.broker.issued()
    }

    /// How many of them are durable.
    pub fn durable(&self) -> Durable
        ensures { result ≡ durable_of (broker_of self.now) }
    {
        self.broker.durable()
    }

    /// The disk, also of a broken half. What is pending in it is given up.
    pub fn close(self) -> D
        ensures disk { result ≡ disk_of (broker_of self) }
        ensures any_moment { LeavesLegalStops D.view (broker_of self) result }
    {
        let DiskHalf { broker } = self;
        broker.close()
    }
}
