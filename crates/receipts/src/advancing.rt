// Advancing: a commit that shares its barrier with the next one.
ghost use Rattle.std.specs.Prelude.{◌≡◌, Err, IfOk, IfErr, OnErr};
ghost use Rattle.broker_core.specs.Refusals.{FaultsHaveRisen};
ghost use Rattle.broker_core.specs.Splitting.{broker_of};
ghost use Rattle.hall_plans.specs.declared.error.HallError.TheVariants as HallError;
ghost use Rattle.receipts.specs.Answers.{IsCommitRefusal};
ghost use Rattle.receipts.specs.Advancing.{SharesTo, SettlesAdvance, AdvancesTo, AdvancesBy, IsToldUpTo};
ghost use Rattle.receipts.specs.Broken.{ShowsBroken, TellsBroken, left_by};
ghost use Rattle.receipts.specs.Witness.{IsOfStep};

use crate::broken_hall::BrokenHall;
use crate::committed::Committed;
use crate::desk::Desk;
use crate::locked::{Loan, Locked};
use crate::mark::Trace;
use crate::office::Office;
use crate::witness::Witnessed;
use broker_core::{DiskHalf, Durable, Failed, Written};
use hall_core::HallError;
use sector_disk::Disk;
use std::snapshot::Snapshot as Seen;
use std::sync::Wait;
use std::sync::ledger::Ledger;

impl<L: Ledger, T: Trace> Locked<L, T> {
    // `share`, and what was seen around it.
    fn share_seen(
        &mut self,
        desk: &mut Desk<L, T>,
    ) -> (Result<Loan, HallError>, Witnessed<(), L, T>)
        ensures lends { SharesTo result.1.before.value result.1.after.value result.1.from.value result.1.to.value
            desk.old desk.new result.0 }
        ensures seen { IsOfStep result.1 self.old self.new desk.old.steps desk.new.steps }
    {
        let before = Seen::of(self);
        let from = Seen::of(&desk.steps);
        let loan = self.share(desk);
        (loan, Witnessed::of_step((), before, from, self, desk))
    }

    // `settle_advance`, and what was seen around it.
    fn settle_advance_seen(
        &mut self,
        desk: &mut Desk<L, T>,
        outcome: Result<Option<Written>, Failed>,
    ) -> (Result<Durable, HallError>, Witnessed<(), L, T>)
        ensures settles { SettlesAdvance result.1.before.value result.1.after.value result.1.from.value result.1.to.value
            desk.old desk.new outcome result.0 }
        ensures seen { IsOfStep result.1 self.old self.new desk.old.steps desk.new.steps }
    {
        let before = Seen::of(self);
        let from = Seen::of(&desk.steps);
        let settled = self.settle_advance(desk, outcome);
        (settled, Witnessed::of_step((), before, from, self, desk))
    }
}

impl<L: Ledger, T: Trace> Office<L, T> {
    // Lends what is pending beside what is out, as `Locked::share` says.
    fn share<R: Wait>(
        &self,
        rt: &R,
        desk: &mut Desk<L, T>,
    ) -> (
        Result<Loan, HallError>,
        Witnessed<(), L, T>,
        Option<BrokenHall>,
    )
        ensures lends { SharesTo result.1.before.value result.1.after.value result.1.from.value result.1.to.value
            desk.old desk.new result.0 }
        ensures broken { ShowsBroken result.1.after.value result.2 }
    {
        let mut locked = self.locked.lock(rt);
        let (loan, seen) = locked.share_seen(desk);
        (loan, seen, BrokenHall::of(locked.hall()))
    }

    // Settles what became of an advance, as `Locked::settle_advance` says.
    fn settle_advance<R: Wait>(
        &self,
        rt: &R,
        desk: &mut Desk<L, T>,
        outcome: Result<Option<Written>, Failed>,
    ) -> (
        Result<Durable, HallError>,
        Witnessed<(), L, T>,
        Option<BrokenHall>,
    )
        ensures settles { SettlesAdvance result.1.before.value result.1.after.value result.1.from.value result.1.to.value
            desk.old desk.new outcome result.0 }
        ensures broken { ShowsBroken result.1.after.value result.2 }
    {
        let mut locked = self.locked.lock(rt);
        let (settled, seen) = locked.settle_advance_seen(desk, outcome);
        (settled, seen, BrokenHall::of(locked.hall()))
    }

    /// Makes one barrier at most for what is pending, unless the half switches. So groups of commands that follow each other share
    /// theirs: what an earlier advance left is durable then, and what else is pending is written behind it, for the next advance. It
    /// answers how many commands are durable. While that is fewer than are issued, one of the next two advances that succeed makes
    /// more of them durable. The commands are lent under the lock, written outside it, and settled under it.
    ///
    /// The half is called at most once, for just the batch that was lent; on an honest disk a stop at any moment leaves a legal
    /// stop of the half's list with what it took.
    ///
    /// It is refused as `commit` is, but never as `Lent`. Where the half refused to go on, what is out is then pending again; else it
    /// stays out.
    pub fn advance<D: Disk, R: Wait>(
        &self,
        rt: &R,
        desk: &mut Desk<L, T>,
        disk: &mut DiskHalf<D>,
    ) -> Committed<L, T>
        ensures told { IfOk result.answer (IsToldUpTo desk.old.told desk.new.told) }
        ensures number { desk.new.number ≡ desk.old.number }
        ensures marks { desk.new.own.items ≡ desk.old.own.items }
        ensures answered { desk.new.answered ≡ desk.old.answered }
        ensures err { OnErr result.answer (desk.new.told ≡ desk.old.told) }
        ensures refused { IfErr result.answer (IsCommitRefusal desk.old.told) }
        // claim: An advance leaves the disk half alone, or has it advance with one batch. A crash at any moment leaves a legal
        // stop of the half's history with what it took. It tells a fault only where the half's count of them rose, or is at its
        // greatest. [: disk, fault]
        ensures disk { AdvancesTo D.view D.fault_count (broker_of disk.old) (broker_of disk.new) result.answer }
        ensures fault { result.answer ≡ Err HallError.Fault → FaultsHaveRisen D.fault_count (broker_of disk.old) (broker_of disk.new) }

        // claim: An advance made one step, which lent nothing, and tells how much is durable or why not; or two: all that was
        // pending and not out was lent, and what the disk half made durable was settled, and is told, or why it did not go on. [:
        // steps, refused]
        ensures steps { AdvancesBy D.view D.fault_count result desk.old desk.new (broker_of disk.old) (broker_of disk.new) }

        // Where it tells `Fault` or `Broken`, it shows the hall, broken, that its last step left.
        ensures broken { TellsBroken result.answer result.broken }
        ensures left { ShowsBroken (left_by result) result.broken }
    {
        let (lend, lent, broken) = self.share(rt, desk);
        let loan = match lend {
            Ok(loan) => loan,
            Err(why) => {
                let answer = Err(why);
                return Committed {
                    answer,
                    lent,
                    settled: None,
                    broken,
                };
            }
        };
        match loan {
            Loan::Nothing(durable) => Committed {
                answer: Ok(durable),
                lent,
                settled: None,
                broken,
            },
            Loan::Out(batch) => {
                let outcome = disk.advance(batch);
                let (answer, settled, broken) = self.settle_advance(rt, desk, outcome);
                Committed {
                    answer,
                    lent,
                    settled: Some(settled),
                    broken,
                }
            }
        }
    }
}
