// An office out of its lock: what was locked can be seen.
ghost use Rattle.std.specs.Prelude.{◌≡◌, ◌+◌, map, length, IfOk, IfErr, OnOk};
ghost use Rattle.broker_core.specs.Issuer.{issued_in};
ghost use Rattle.broker_core.specs.Splitting.{broker_of, Joins, IsNotJoined};
ghost use Rattle.receipts.specs.Desks.{AreAll, IsReason, IsWhyNotJoined};
ghost use Rattle.receipts.specs.Following.{Follows};
ghost use Rattle.receipts.specs.Locked.{hall_in, issuer_in};
ghost use Rattle.receipts.specs.Marks.{AreNumbered, sum_of_lists};
ghost use Rattle.receipts.specs.Running.{HasRuns};

use crate::desk::Desk;
use crate::error::{FinishError, UnlockedFailure};
use crate::locked::Locked;
use crate::mark::{Mark, Trace};
use crate::office::Office;
use broker_core::{Broker, DiskHalf, IssueHalf};
use hall_core::Hall;
use sector_disk::Disk;
use std::sync::ledger::Ledger;

/// An office that no thread shares, out of its lock.
#[derive(Drop)]
pub struct Unlocked<L: Ledger, T: Trace = Mark> {
    pub(crate) locked: Locked<L, T>,
}

impl<L: Ledger, T: Trace> Office<L, T> {
    /// Takes the office out of its lock. Its marks are numbered from the opening's number on, without a gap, up to all that
    /// was issued, and the table's counts, standings and moments are those of the opening's table followed by the marks. For
    /// each history that leaves the opening's table there is a run, of which no call was refused, that the hall stands for.
    pub fn unlock(self) -> Unlocked<L, T>
        // claim: Out of its lock an office has marks, table and runs as `Locked` has.
        ensures numbered { AreNumbered (T.Opening.table result.locked.opening).number (map T.mark result.locked.marks.all.items) }
        ensures issued { issued_in (issuer_in result.locked.hall)
            ≡ (T.Opening.table result.locked.opening).number + length (map T.mark result.locked.marks.all.items) }
        ensures follows { Follows (issuer_in result.locked.hall).settings (T.Opening.table result.locked.opening)
            (map T.mark result.locked.marks.all.items) (issuer_in result.locked.hall).table }
        ensures runs { ∥ HasRuns (hall_in result.locked.hall) (T.Opening.table result.locked.opening) ∥₁ }
    {
        let Office { locked } = self;
        Unlocked {
            locked: locked.into_inner(),
        }
    }
}

impl<L: Ledger, T: Trace> Unlocked<L, T> {
    /// The hall, which tells how many slots are open and commands pending, whether it stops, and whether it is broken.
    pub fn hall(&self) -> &Hall<IssueHalf>
        ensures { result.now ≡ self.now.locked.hall }
    {
        self.locked.hall()
    }

    /// What is kept of the table at the opening.
    pub fn opening(&self) -> &T::Opening
        ensures { result.now ≡ self.now.locked.opening }
    {
        &self.locked.opening
    }

    /// What is kept of the marks of all commands that were issued since the opening, in order.
    pub fn marks(&self) -> &[T]
        ensures { result.now ≡ self.now.locked.marks.all.items }
    {
        &self.locked.marks.all
    }
}

impl<L: Ledger> Unlocked<L> {
    /// Closes the office: its hall, over the broker that the halves make again, and its marks.
    ///
    /// It is refused, and hands all back: `Mismatch` exactly where the desks do not have each desk number once, or a desk's
    /// marks are not those of its number among all; and where the hall does not join with the disk half.
    pub fn finish<D: Disk>(
        self,
        desks: Vec<Desk<L>>,
        disk: DiskHalf<D>,
    ) -> Result<(Hall<Broker<D>>, Vec<Mark>), UnlockedFailure<D, L>>
        // claim: An Ok has each desk once with its own marks, halves that join, and just the marks as answer. A refusal
        // tells why. [: all, marks, sum, joined, refused, not_joined; Unlocked::marks; Unlocked::hall;
        // Unlocked::opening]
        ensures all { OnOk result (AreAll (λ d. d.number) (λ d. d.own.items) L.parts self.locked.marks.all.items desks.items) }
        ensures marks { IfOk result (λ r. r.1.items ≡ self.locked.marks.all.items) }
        ensures sum { OnOk result (sum_of_lists (λ d. d.own.items) desks.items ≡ length self.locked.marks.all.items) }
        ensures joined { IfOk result (λ r. Joins self.locked.hall.issuer (broker_of disk) r.0.issuer) }
        ensures refused { IfErr result (λ failure.
            IsReason (AreAll (λ d. d.number) (λ d. d.own.items) L.parts self.locked.marks.all.items desks.items) failure.cause) }
        ensures not_joined { IfErr result (λ failure. IsWhyNotJoined
            (IsNotJoined self.locked.hall.issuer failure.office.locked.hall.issuer (broker_of disk) (broker_of failure.disk)) failure.cause) }
        ensures desks { IfErr result (λ failure. failure.desks.items ≡ desks.items) }
        ensures same { IfErr result (λ failure. failure.office.locked.marks.all.items ≡ self.locked.marks.all.items) }
    {
        if !self.locked.has_all(&desks) {
            return Err(UnlockedFailure {
                cause: FinishError::Mismatch,
                office: self,
                desks,
                disk,
            });
        }
        match self.locked.join(disk) {
            Ok((hall, marks)) => Ok((hall, marks.into_list(desks))),
            Err(failure) => Err(UnlockedFailure {
                cause: failure.cause,
                office: Unlocked {
                    locked: failure.locked,
                },
                desks,
                disk: failure.disk,
            }),
        }
    }
}
