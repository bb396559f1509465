// What the office keeps under its lock: the hall, and the marks of all that it issued.
ghost use Rattle.std.specs.Prelude.{◌≡◌, ◌+◌, ◌<◌, ◌≤◌, [], map, length, IfOk, IfErr, OnOk};
ghost use Rattle.broker_core.specs.Issuer.{issued_in};
ghost use Rattle.receipts.specs.Marks.{AreNumbered};
ghost use Rattle.receipts.specs.Following.{Follows};
ghost use Rattle.receipts.specs.Locked.{hall_in, issuer_in};
ghost use Rattle.receipts.specs.Running.{HasRuns};

mod admitting;
mod sharing;

use crate::desk::Desk;
use crate::desk_count::DeskCount;
use crate::error::FinishError;
use crate::finishing::NotClosed;
use crate::lives::Lives;
use crate::mark::{Mark, Trace};
use crate::marks::Marks;
use crate::noting::{hand_out, note, told_by};
use crate::view::{Unreleased, View};
use api_core::Call;
use broker_core::{Batch, Broker, DiskHalf, Durable, Failed, IssueHalf, Ticket, Written};
use hall_core::{Hall, HallError, Released, Sought};
use sector_disk::Disk;
use std::alloc::{AllocError, Global};
use std::sync::ledger::{Book, Ledger};

/// How many slots an office counts.
pub(crate) const MOST_SLOTS: u64 = 1 << 58;

/// How many desks an office can tell apart in the numbers of slots.
pub(crate) const MOST_DESKS: u64 = 32;

/// What there is to write.
#[derive(Drop)]
pub(crate) enum Loan {
    /// Nothing: so much is durable.
    Nothing(Durable),
    /// These commands.
    Out(Batch),
}

/// The hall, and the marks of the commands that it issued since the opening. The hall is changed by the steps below alone, of
/// which each counts itself at the desk that makes it.
#[derive(Drop)]
pub(crate) struct Locked<L: Ledger, T: Trace> {
    hall: Hall<IssueHalf>,
    /// What is kept of the table at the opening.
    pub(crate) opening: T::Opening,
    pub(crate) marks: Marks<L, T>,
    /// How many slots were counted.
    slots: u64,
    /// How long the events took that ended.
    lives: Lives,
    /// How many desks there are.
    pub(crate) desk_count: DeskCount<L>,
    // claim: Whenever the lock is free, the marks are numbered without a gap up to all that was issued, and counted by
    // a ledger, as each desk's are. By them the opening's table leads to the table, bytes and environments aside. [:
    // numbered, reached, followed; Marks: counted; Desk: one, counted]
    ghost numbered: { AreNumbered (T.Opening.table opening).number (map T.mark marks.all.items) },
    ghost reached: { issued_in (issuer_in hall) ≡ (T.Opening.table opening).number + length (map T.mark marks.all.items) },
    ghost followed: { Follows (issuer_in hall).settings (T.Opening.table opening) (map T.mark marks.all.items)
        (issuer_in hall).table },
    // claim: Whenever the lock is free, the hall stands for a run, no call refused, on each history that leaves the
    // opening's table.
    ghost runs: { ∥ HasRuns (hall_in hall) (T.Opening.table opening) ∥₁ },
}

impl<L: Ledger, T: Trace> Locked<L, T> {
    ghost use Rattle.receipts.specs.Told.{Arrives, Moves, LendsTo, Settles, Takes, TellsPoint, Forgets, MakesStep};
    ghost use Rattle.receipts.specs.Answers.{IsMismatch};
    ghost use Rattle.receipts.specs.NextMoment.{IsNextMomentOf};
    ghost use Rattle.receipts.specs.Views.{IsViewOf};
    ghost use Rattle.invoke_records.specs.Spelling.{greatest_moment};
    ghost use Rattle.broker_core.specs.Batch.{last_in};
    ghost use Rattle.hall_plans.specs.Slots.{open_slots};
    ghost use Rattle.hall_core.specs.Hall.{ForEachPast, pending_in, open_slot_count};

    /// What an office keeps over a new hall, of whose table this is kept, and over a book of no marks.
    pub(crate) fn new(
        alloc: Global,
        hall: Hall<IssueHalf>,
        opening: T::Opening,
        book: Book<L>,
        desk_count: DeskCount<L>,
    ) -> Locked<L, T>
        requires none { book.total ≡ 0 }
        requires reached { issued_in (issuer_in hall) ≡ (T.Opening.table opening).number }
        requires followed { Follows (issuer_in hall).settings (T.Opening.table opening) [] (issuer_in hall).table }
        requires runs { ∥ HasRuns (hall_in hall) (T.Opening.table opening) ∥₁ }
    {
        Locked {
            hall,
            opening,
            marks: Marks::new(alloc, book),
            slots: 0,
            lives: Lives::new(),
            desk_count,
        }
    }

    /// The hall.
    pub(crate) fn hall(&self) -> &Hall<IssueHalf>
        ensures { result.now ≡ self.now.hall }
    {
        &self.hall
    }

    // What the hall issued is not below what the desk was told.
    fn check(&self, desk: &Desk<L, T>) -> Result<(), HallError>
        ensures ok { OnOk result (desk.now.told ≤ issued_in (issuer_in self.now.hall)) }
        ensures err { IfErr result (IsMismatch desk.now.told (issued_in (issuer_in self.now.hall))) }
    {
        let found = self.hall.issued();
        if found < desk.told {
            return Err(HallError::Mismatch {
                told: desk.told,
                found,
            });
        }
        Ok(())
    }

    /// A request of a desk: `Hall::arrive` with the desk's next slot, and a mark of the command that it issued.
    pub(crate) fn arrive(
        &mut self,
        desk: &mut Desk<L, T>,
        call: Call,
        now: u64,
        words: [u64; 2],
    ) -> Result<(Ticket, u64), HallError>
        ensures { Arrives self.old self.new desk.old.steps desk.new.steps desk.old desk.new call now words result }
    {
        desk.steps.count();
        let slot = self.admit(desk, &call, now, &words)?;
        self.marks.reserve(desk)?;
        let Locked {
            hall,
            marks,
            slots,
            lives,
            ..
        } = self;
        match hall.arrive(slot, call, now, words) {
            Ok(issued) => {
                *slots += 1;
                note(marks, desk, issued);
                lives.count_end(hall.table(), issued);
                let ticket = hall.ticket();
                hand_out(hall, &mut desk.answered);
                desk.told = ticket.number();
                Ok((ticket, slot))
            }
            Err(why) => Err(why),
        }
    }

    /// A move of the hall, and a mark of its command.
    pub(crate) fn tick(&mut self, desk: &mut Desk<L, T>, now: u64) -> Result<Option<u64>, HallError>
        requires { now ≤ greatest_moment }
        ensures { Moves self.old self.new desk.old.steps desk.new.steps desk.old desk.new now result }
    {
        desk.steps.count_move();
        self.check(desk)?;
        self.marks.reserve(desk)?;
        let Locked {
            hall,
            marks,
            lives,
            ..
        } = self;
        match hall.tick(now) {
            Ok(issued) => {
                note(marks, desk, issued);
                lives.count_end(hall.table(), issued);
                let told = told_by(desk, issued);
                hand_out(hall, &mut desk.answered);
                Ok(told)
            }
            Err(why) => Err(why),
        }
    }

    /// What is there to write, which is then out; where nothing is, the desk is told how much is durable.
    pub(crate) fn lend(&mut self, desk: &mut Desk<L, T>) -> Result<Loan, HallError>
        ensures { LendsTo self.old self.new desk.old.steps desk.new.steps desk.old desk.new result }
    {
        desk.steps.count();
        self.check(desk)?;
        match self.hall.lend() {
            Ok(Some(batch)) => Ok(Loan::Out(batch)),
            Ok(None) => {
                let all = self.hall.durable();
                desk.told = all.number();
                Ok(Loan::Nothing(all))
            }
            Err(why) => Err(why),
        }
    }

    /// What became of the batch that is out. The desk is told how much is durable.
    pub(crate) fn settle(
        &mut self,
        desk: &mut Desk<L, T>,
        outcome: Result<Written, Failed>,
    ) -> Result<Durable, HallError>
        requires { desk.old.told ≤ last_in outcome }
        ensures { Settles self.old self.new desk.old.steps desk.new.steps desk.old desk.new outcome result }
    {
        desk.steps.count();
        match self.hall.settle(outcome) {
            Ok(durable) => {
                desk.told = durable.number();
                Ok(durable)
            }
            Err(why) => Err(why),
        }
    }

    /// The reply of a slot, where it is told.
    pub(crate) fn take(&mut self, desk: &mut Desk<L, T>, slot: u64) -> Option<Released>
        ensures desk { MakesStep desk.old.steps desk.new.steps desk.old desk.new }
        ensures takes { Takes self.old self.new slot result }
    {
        desk.steps.count();
        self.hall.take(slot)
    }

    /// How many commands have to be durable before the reply of a slot is told, where it is computed and still wanted.
    pub(crate) fn point(&self, slot: u64) -> Option<u64>
        ensures { TellsPoint self.now slot result }
    {
        self.hall.point(slot)
    }

    /// The reply of a slot is not wanted any more.
    pub(crate) fn forget(&mut self, desk: &mut Desk<L, T>, slot: u64)
        ensures desk { MakesStep desk.old.steps desk.new.steps desk.old desk.new }
        ensures forgets { Forgets self.old self.new slot }
    {
        desk.steps.count();
        self.hall.forget(slot);
    }

    /// How many commands are issued and not durable.
    pub(crate) fn pending(&self) -> usize
        ensures is { result ≡ pending_in (issuer_in self.now.hall) }
        ensures few { result ≤ 256 }
    {
        self.hall.pending() as usize
    }

    /// How many slots are open.
    pub(crate) fn open_slots(&self) -> usize
        ensures by_parts { result ≡ open_slot_count (hall_in self.now.hall) }
        ensures by_past { ForEachPast (hall_in self.now.hall) (λ past. result ≡ length (open_slots (issuer_in self.now.hall).broken past)) }
    {
        self.hall.open_slots()
    }

    /// The first moment after this one at which some event of the table would do something else than now.
    pub(crate) fn next_moment(&self, now: u64) -> Option<u128>
        ensures { IsNextMomentOf (hall_in self.now.hall) now result }
    {
        self.hall.table().next_moment(now)
    }

    /// What an operator is shown of the hall and of the marks who seeks this, at this moment, unreleased until all of it is durable.
    pub(crate) fn look(&self, sought: Sought, at: u64) -> Result<Unreleased, AllocError>
        ensures shows { IfOk result (IsViewOf (hall_in self.now.hall) (map T.mark self.now.marks.all.items) sought at) }
        ensures lives { IfOk result (λ unreleased. unreleased.view.lives ≡ self.now.lives) }
    {
        let hall = self.hall.look(sought, at)?;
        let counters = self.marks.counters;
        Ok(Unreleased {
            view: View {
                hall,
                counters,
                lives: self.lives,
            },
            number: self.hall.issued(),
        })
    }

    /// The same with a ticket of all that was issued.
    pub(crate) fn look_with_ticket(
        &self,
        sought: Sought,
        at: u64,
    ) -> Result<(Unreleased, Ticket), AllocError>
        ensures shows { IfOk result (λ r. IsViewOf (hall_in self.now.hall) (map T.mark self.now.marks.all.items) sought at r.0) }
        ensures lives { IfOk result (λ r. r.0.view.lives ≡ self.now.lives) }
        ensures ticket { IfOk result (λ r. r.1 ≡ issued_in (issuer_in self.now.hall)) }
    {
        let unreleased = self.look(sought, at)?;
        Ok((unreleased, self.hall.ticket()))
    }

    /// Whether a request asked the hall to stop.
    pub(crate) fn is_stopping(&self) -> bool
        ensures { result ≡ (hall_in self.now.hall).stops }
    {
        self.hall.is_stopping()
    }

    /// Whether the device failed.
    pub(crate) fn is_broken(&self) -> bool
        ensures { result ≡ (issuer_in self.now.hall).broken }
    {
        self.hall.is_broken()
    }
}

impl<L: Ledger> Locked<L, Mark> {
    ghost use Rattle.broker_core.specs.Splitting.{broker_of, Joins, IsNotJoined};
    ghost use Rattle.receipts.specs.Desks.{IsNotMismatch, IsWhyNotJoined};

    /// Joins the hall with the disk half.
    pub(crate) fn join<D: Disk>(
        self,
        disk: DiskHalf<D>,
    ) -> Result<(Hall<Broker<D>>, Marks<L, Mark>), NotClosed<D, L>>
        ensures marks { IfOk result (λ r. r.1.all.items ≡ self.marks.all.items) }
        ensures joined { IfOk result (λ r. Joins self.hall.issuer (broker_of disk) r.0.issuer) }
        ensures err { IfErr result (λ failure. IsNotMismatch failure.cause) }
        ensures not_joined { IfErr result (λ failure. IsWhyNotJoined
            (IsNotJoined self.hall.issuer failure.locked.hall.issuer (broker_of disk) (broker_of failure.disk)) failure.cause) }
        ensures same { IfErr result (λ failure. failure.locked.marks.all.items ≡ self.marks.all.items) }
    {
        let Locked {
            hall,
            opening,
            marks,
            slots,
            lives,
            desk_count,
        } = self;
        match hall.join(disk) {
            Ok(hall) => Ok((hall, marks)),
            Err(failure) => {
                let locked = Locked {
                    hall: failure.hall,
                    opening,
                    marks,
                    slots,
                    lives,
                    desk_count,
                };
                let cause = FinishError::NotJoined(failure.cause);
                let disk = failure.disk;
                Err(NotClosed {
                    cause,
                    locked,
                    disk,
                })
            }
        }
    }
}
