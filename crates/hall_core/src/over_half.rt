// A hall over an issue half: it lends what is pending, and settles what became of it, while a disk half writes.
ghost use Rattle.std.specs.Prelude.{◌≡◌, [], false, take, IfOk, IfErr, OnOk, OnErr};
ghost use Rattle.broker_core.specs.Broker.{pending_of, is_broken, issued_of, Stands};
ghost use Rattle.broker_core.specs.IssuerBroker.{issuer_of};
ghost use Rattle.broker_core.specs.IssuerHalf.{half_view, has_same_lent};
ghost use Rattle.broker_core.specs.Lending.{Lends, CanLend, SettlesBy};
ghost use Rattle.broker_core.specs.LendingMore.{LendsMore, SettlesFront};
ghost use Rattle.broker_core.specs.Splitting.{broker_of, Splits, IsSplitReason, Joins, IsNotJoined};
ghost use Rattle.hall_core.specs.Hall.{view_of, answered_slots, StandsFor, ForEachPast, IsSameHall};
ghost use Rattle.hall_core.specs.Halves.{HasSameParts, KeepsSlotsOf, IsNotLent, IsNotDurable, IsNoMoreLent, IsFrontNotDurable};
ghost use Rattle.hall_core.specs.Halves as meant;

use crate::hall::Hall;
use broker_core::{
    Batch, Broker, DiskHalf, Durable, Failed, IssueHalf, JoinError, LendError, SettleError,
    SplitError, WriteError, Written,
};
use hall_plans::HallError;
use sector_disk::Disk;

/// A hall whose broker was not split, and why. It is handed back.
#[derive(Drop)]
pub struct HallSplitFailure<H> {
    pub cause: SplitError,
    pub hall: H,
}

/// A hall and a disk half that were not joined, and why. Both are handed back.
#[derive(Drop)]
pub struct HallJoinFailure<D: Disk> {
    pub cause: JoinError,
    pub hall: Hall<IssueHalf>,
    /// The half over the disk, with what it took.
    pub disk: DiskHalf<D>,
}

fn lend_error_of(why: LendError) -> HallError
    ensures { result ≡ meant.lend_error_of why }
{
    match why {
        LendError::Broken => HallError::Broken,
        LendError::Lent => HallError::Lent,
        LendError::OutOfMemory => HallError::OutOfMemory,
    }
}

fn write_error_of(why: WriteError) -> HallError
    ensures { result ≡ meant.write_error_of why }
{
    match why {
        WriteError::Broken => HallError::Broken,
        WriteError::Mismatch => HallError::OtherHalf,
        WriteError::WornOut => HallError::WornOut,
        WriteError::Backlog => HallError::Backlog,
        WriteError::BadKind => HallError::BadKind,
        WriteError::OutOfMemory => HallError::OutOfMemory,
        WriteError::Fault => HallError::Fault,
    }
}

fn settle_error_of(why: SettleError) -> HallError
    ensures { result ≡ meant.settle_error_of why }
{
    match why {
        SettleError::Mismatch => HallError::OtherHalf,
        SettleError::NotWritten(why) => write_error_of(why),
    }
}

// Whether the issuer is broken after this.
fn breaks(why: SettleError) -> bool
    ensures { result ≡ meant.breaks why }
{
    match why {
        SettleError::NotWritten(WriteError::Broken | WriteError::Fault) => true,
        _ => false,
    }
}

impl<D: Disk> Hall<Broker<D>> {
    /// Splits the broker, where nothing is pending: the hall goes on over the half that issues, and the half over the disk
    /// writes what is lent. It is refused, and handed back: `Broken`, `OutOfMemory`.
    pub fn split(self) -> Result<(Hall<IssueHalf>, DiskHalf<D>), HallSplitFailure<Hall<Broker<D>>>>
        requires { pending_of self.issuer ≡ [] }
        // claim: A split hall goes on with its run over the issue half. A refusal hands it back.
        ensures ok { IfOk result (λ halves. Splits self.issuer halves.0.issuer halves.1) }
        ensures parts { IfOk result (λ halves. HasSameParts (view_of (issuer_of D.view) self) (view_of half_view halves.0)) }
        ensures answered { IfOk result (λ halves. answered_slots halves.0 ≡ answered_slots self) }
        ensures stands { ForEachPast (view_of (issuer_of D.view) self) (λ past.
            IfOk result (λ halves. StandsFor (view_of half_view halves.0) past)) }
        ensures same { IfErr result (λ failure. failure.hall.issuer ≡ self.issuer) }
        ensures same_parts { IfErr result (λ failure.
            HasSameParts (view_of (issuer_of D.view) self) (view_of (issuer_of D.view) failure.hall)) }
        ensures kept_answered { IfErr result (λ failure. answered_slots failure.hall ≡ answered_slots self) }
        ensures reason { IfErr result (λ failure. IsSplitReason self.issuer failure.cause) }
    {
        let Hall {
            alloc,
            dialect,
            issuer,
            environments,
            wanted,
            slots,
            stops,
            broken,
            receipt,
            answered,
        } = self;
        match issuer.split() {
            Ok((issuer, disk)) => {
                let hall = Hall {
                    alloc,
                    dialect,
                    issuer,
                    environments,
                    wanted,
                    slots,
                    stops,
                    broken,
                    receipt,
                    answered,
                };
                Ok((hall, disk))
            }
            Err(failure) => {
                let cause = failure.cause;
                let hall = Hall {
                    alloc,
                    dialect,
                    issuer: failure.broker,
                    environments,
                    wanted,
                    slots,
                    stops,
                    broken,
                    receipt,
                    answered,
                };
                Err(HallSplitFailure { cause, hall })
            }
        }
    }
}

impl Hall<IssueHalf> {
    /// A copy of all commands that are pending, to be written by the disk half, or None where nothing is. It is then out
    /// until what became of it is settled.
    ///
    /// It is refused, and then changes nothing: `Broken`, `Lent` (a batch is out), `OutOfMemory`, in this order.
    pub fn lend(&mut self) -> Result<Option<Batch>, HallError>
        // claim: Lending changes just what is lent. A refusal has its reason.
        ensures same { IsSameHall (view_of half_view self.old) (view_of half_view self.new) }
        ensures could { IfOk result (λ batch. CanLend self.old.issuer) }
        ensures ok { IfOk result (Lends self.old.issuer self.new.issuer) }
        ensures reason { IfErr result (IsNotLent self.old.issuer) }
        ensures kept { OnErr result (has_same_lent self.old.issuer self.new.issuer) }
        ensures kept_answered { answered_slots self.new ≡ answered_slots self.old }
    {
        match self.issuer.lend() {
            Ok(batch) => Ok(batch),
            Err(why) => Err(lend_error_of(why)),
        }
    }

    /// Takes what became of the batch that is out: how many commands are durable. Replies that show no more can then be
    /// told. It takes no memory.
    ///
    /// It is refused by `OtherHalf`, where no batch is out or it is another one, and then nothing changes. Else it answers
    /// why the batch was not written, `OtherHalf` where the half over the disk does not go on with it: after `Fault` or
    /// `Broken` the hall is broken, else what was lent is pending again.
    pub fn settle(&mut self, outcome: Result<Written, Failed>) -> Result<Durable, HallError>
        // claim: A settlement keeps the run, and makes just the batch durable that is out, or says why not. `Fault` and
        // `Broken` break the hall.
        ensures stands { ForEachPast (view_of half_view self.old) (λ past. StandsFor (view_of half_view self.new) past) }
        ensures parts { HasSameParts (view_of half_view self.old) (view_of half_view self.new) }
        ensures ok { IfOk result (SettlesBy self.old.issuer self.new.issuer outcome) }
        ensures err { IfErr result (IsNotDurable self.old.issuer self.new.issuer outcome) }
        ensures kept_answered { answered_slots self.new ≡ answered_slots self.old }
    {
        match self.issuer.settle(outcome) {
            Ok(durable) => {
                self.receipt = durable.receipt();
                Ok(durable)
            }
            Err(why) => {
                if breaks(why) {
                    self.broken = true;
                }
                Err(settle_error_of(why))
            }
        }
    }

    /// A copy of all commands that are pending and not lent, to be written behind what is out, or None where nothing is pending.
    /// It is then out beside what was, until it is settled, or a refusal is. Where all that is pending is out, the batch is empty.
    ///
    /// It is refused, and then changes nothing: `Broken`, `OutOfMemory`, in this order.
    pub fn lend_more(&mut self) -> Result<Option<Batch>, HallError>
        // claim: Lending beside what is out changes just what is lent. A refusal has its reason.
        ensures same { IsSameHall (view_of half_view self.old) (view_of half_view self.new) }
        ensures could { OnOk result ((half_view self.old.issuer).broken ≡ false) }
        ensures ok { IfOk result (LendsMore self.old.issuer self.new.issuer) }
        ensures reason { IfErr result (IsNoMoreLent self.old.issuer) }
        ensures kept { OnErr result (has_same_lent self.old.issuer self.new.issuer) }
        ensures kept_answered { answered_slots self.new ≡ answered_slots self.old }
    {
        match self.issuer.lend_more() {
            Ok(batch) => Ok(batch),
            Err(why) => Err(lend_error_of(why)),
        }
    }

    /// Takes that the first commands that are out were written: how many commands are durable. Replies that show no more can
    /// then be told. It takes no memory.
    ///
    /// It is refused by `OtherHalf`, where those are not the first that are out, and then nothing changes.
    pub fn settle_front(&mut self, written: Written) -> Result<Durable, HallError>
        // claim: A settlement of what came first keeps the run, and makes just that durable.
        ensures stands { ForEachPast (view_of half_view self.old) (λ past. StandsFor (view_of half_view self.new) past) }
        ensures parts { HasSameParts (view_of half_view self.old) (view_of half_view self.new) }
        ensures ok { IfOk result (SettlesFront self.old.issuer self.new.issuer written) }
        ensures err { IfErr result (IsFrontNotDurable self.old.issuer self.new.issuer written) }
        ensures kept_answered { answered_slots self.new ≡ answered_slots self.old }
    {
        match self.issuer.settle_front(written) {
            Ok(durable) => {
                self.receipt = durable.receipt();
                Ok(durable)
            }
            Err(why) => Err(settle_error_of(why)),
        }
    }

    /// Joins the halves of the broker again: what is pending is issued to the disk half, and the tables are compared.
    ///
    /// It is refused, and hands both back: `Lent` (a batch is out), `Backlog`, `OutOfMemory`, `Mismatch` (the tables
    /// differ). A broken half gives a broken hall, and nothing is compared then: of what was computed before, `take` tells
    /// what the half over the disk has durable, and to every other slot that the broker is not available (`slots`).
    pub fn join<D: Disk>(self, disk: DiskHalf<D>) -> Result<Hall<Broker<D>>, HallJoinFailure<D>>
        // claim: Joined again, a whole hall goes on with its run, where the disk half stood for a front of its history.
        ensures ok { IfOk result (λ hall. Joins self.issuer (broker_of disk) hall.issuer) }
        ensures parts { IfOk result (λ hall. HasSameParts (view_of half_view self) (view_of (issuer_of D.view) hall)) }
        ensures answered { IfOk result (λ hall. answered_slots hall ≡ answered_slots self) }
        ensures stands { ForEachPast (view_of half_view self) (λ past.
            Stands D.view (broker_of disk) (take (issued_of (broker_of disk)) past.history)
            → IfOk result (λ hall. is_broken hall.issuer ≡ false → StandsFor (view_of (issuer_of D.view) hall) past)) }
        // claim: Joined from a broken half, a hall tells the replies that the disk half has durable, and 503 to every
        // other wanted slot. [: slots, ok; Hall::take: kept]
        ensures slots { IfOk result (λ hall. KeepsSlotsOf (view_of half_view self) (view_of (issuer_of D.view) hall)) }
        ensures same { IfErr result (λ failure. failure.hall.issuer ≡ self.issuer) }
        ensures same_parts { IfErr result (λ failure. HasSameParts (view_of half_view self) (view_of half_view failure.hall)) }
        ensures kept_answered { IfErr result (λ failure. answered_slots failure.hall ≡ answered_slots self) }
        ensures err { IfErr result (λ failure.
            IsNotJoined self.issuer failure.hall.issuer (broker_of disk) (broker_of failure.disk) failure.cause) }
    {
        let Hall {
            alloc,
            dialect,
            issuer,
            environments,
            wanted,
            slots,
            stops,
            broken,
            receipt,
            answered,
        } = self;
        match Broker::join(issuer, disk) {
            Ok(issuer) => {
                let broken = issuer.is_broken();
                let receipt = issuer.durable().receipt();
                Ok(Hall {
                    alloc,
                    dialect,
                    issuer,
                    environments,
                    wanted,
                    slots,
                    stops,
                    broken,
                    receipt,
                    answered,
                })
            }
            Err(failure) => {
                let cause = failure.cause;
                let hall = Hall {
                    alloc,
                    dialect,
                    issuer: failure.issue,
                    environments,
                    wanted,
                    slots,
                    stops,
                    broken,
                    receipt,
                    answered,
                };
                let disk = failure.disk;
                Err(HallJoinFailure { cause, hall, disk })
            }
        }
    }
}
