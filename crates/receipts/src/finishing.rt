// Closing an office: its desks come back, and tell what its marks tell.
ghost use Rattle.std.specs.Prelude.{◌≡◌, ◌<◌, ◌↔◌, ◌==◌, ◌∷◌, length, count_by, IfSome, IfNone, List, All, IsTrue, IfOk, IfErr, OnOk};
ghost use Rattle.receipts.specs.Marks.{history_of_desk, AreNumberedFromSome, sum_of_lists};
ghost use Rattle.receipts.specs.declared.mark.Mark.{Mark};
ghost use Rattle.receipts.specs.Desks.{IsEachOnce, HaveEachOnce, AreAll, IsReason, IsWhyNotJoined};
ghost use Rattle.broker_core.specs.Splitting.{broker_of, Joins, IsNotJoined};

use crate::desk::Desk;
use crate::error::{FinishError, UnlockedFailure};
use crate::locked::Locked;
use crate::mark::Mark;
use crate::office::Office;
use broker_core::{Broker, DiskHalf};
use hall_core::Hall;
use sector_disk::Disk;
use std::sync::ledger::Ledger;

// How many of the desks have this number.
fn count_of<L: Ledger>(desks: &[Desk<L>], number: u64) -> usize
    ensures { result ≡ count_by (λ d. d.number == number) desks.now }
{
    let mut count = 0;
    for desk in desks {
        if desk.number == number {
            count += 1;
        }
    }
    count
}

// Whether each number below this is that of one desk.
fn has_each_once<L: Ledger>(desks: &[Desk<L>], count: u64) -> bool
    ensures { IsTrue result ↔ IsEachOnce (λ d. d.number) count desks.now }
{
    for number in 0..count {
        if count_of(desks, number) != 1 {
            return false;
        }
    }
    true
}

// Whether there are so many desks, which have each number below that once.
fn have_each_number<L: Ledger>(desks: &[Desk<L>], count: u64) -> bool
    ensures { IsTrue result ↔ HaveEachOnce (λ d. d.number) count desks.now }
{
    desks.len() as u64 == count && has_each_once(desks, count)
}

// The marks behind the first, if that is this one.
fn behind<'a>(marks: &'a [Mark], first: &Mark) -> Option<&'a [Mark]>
    ensures some { IfSome result (λ rest. marks.now ≡ first.now ∷ rest.now) }
    ensures none { IfNone result ((rest : List Mark) → marks.now ≡ first.now ∷ rest → ⊥) }
{
    match marks.split_first() {
        Some((mark, rest)) => { if *mark == *first { Some(rest) } else { None } }
        None => None,
    }
}

// Whether these marks are those of a desk's number among all.
fn is_history(all: &[Mark], number: u64, own: &[Mark]) -> bool
    ensures { IsTrue result ↔ (own.now ≡ history_of_desk number all.now) }
{
    let mut rest = own;
    for mark in all {
        if mark.desk == number {
            match behind(rest, mark) {
                Some(later) => rest = later,
                None => return false,
            }
        }
    }
    rest.is_empty()
}

// Whether each desk's marks are its own.
fn are_histories<L: Ledger>(all: &[Mark], desks: &[Desk<L>]) -> bool
    ensures { IsTrue result ↔ All (λ d. d.own.items ≡ history_of_desk d.number all.now) desks.now }
{
    for desk in desks {
        if !is_history(all, desk.number, &desk.own) {
            return false;
        }
    }
    true
}

/// What was locked and not closed, and why.
#[derive(Drop)]
pub(crate) struct NotClosed<D: Disk, L: Ledger> {
    pub(crate) cause: FinishError,
    pub(crate) locked: Locked<L, Mark>,
    pub(crate) disk: DiskHalf<D>,
}

impl<L: Ledger> Locked<L, Mark> {
    /// Whether these are all its desks, each with its own marks.
    pub(crate) fn has_all(&self, desks: &[Desk<L>]) -> bool
        ensures { IsTrue result ↔ AreAll (λ d. d.number) (λ d. d.own.items) L.parts self.now.marks.all.items desks.now }
    {
        have_each_number(desks, self.desk_count.count()) && are_histories(&self.marks.all, desks)
    }
}

impl<L: Ledger> Office<L> {
    /// Closes the office: its hall, over the broker that the halves make again, and the marks of all commands that were
    /// issued since it was opened.
    ///
    /// It is refused as `Unlocked::finish` is, and hands all back, the office out of its lock: of marks behind a lock nothing
    /// can be told but that they are numbered.
    pub fn finish<D: Disk>(
        self,
        desks: Vec<Desk<L>>,
        disk: DiskHalf<D>,
    ) -> Result<(Hall<Broker<D>>, Vec<Mark>), UnlockedFailure<D, L>>
        ensures all { IfOk result (λ r. AreAll (λ d. d.number) (λ d. d.own.items) L.parts r.1.items desks.items) }
        ensures numbered { IfOk result (λ r. AreNumberedFromSome r.1.items) }
        ensures sum { IfOk result (λ r. sum_of_lists (λ d. d.own.items) desks.items ≡ length r.1.items) }
        ensures refused { IfErr result (λ failure. IsReason
            (AreAll (λ d. d.number) (λ d. d.own.items) L.parts failure.office.locked.marks.all.items desks.items) failure.cause) }
        ensures not_joined { IfErr result (λ failure. IsWhyNotJoined
            (IsNotJoined failure.office.locked.hall.issuer failure.office.locked.hall.issuer (broker_of disk) (broker_of failure.disk)) failure.cause) }
        ensures back { IfErr result (λ failure. failure.desks.items ≡ desks.items) }
    {
        self.unlock().finish(desks, disk)
    }
}
