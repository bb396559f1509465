// The office: the hall under its lock.
ghost use Rattle.std.specs.Prelude.{◌≡◌, ◌≤◌, [], map, All, Err, vec_capacity, IfOk, IfErr, OnErr};
ghost use Rattle.std.specs.List.{range_with_len};
ghost use Rattle.invoke_records.specs.Spelling.{greatest_moment};
ghost use Rattle.broker_core.specs.Broker.{pending_of, settings_of, table_in};
ghost use Rattle.broker_core.specs.IssuerBroker.{issuer_of};
ghost use Rattle.broker_core.specs.Refusals.{FaultsHaveRisen};
ghost use Rattle.broker_core.specs.Splitting.{broker_of, IsSplitReason};
ghost use Rattle.hall_plans.specs.declared.error.HallError.TheVariants as HallError;
ghost use Rattle.hall_core.specs.Hall.{view_of, ForEachPast, StandsFor};
ghost use Rattle.hall_core.specs.Fresh.{IsFresh};
ghost use Rattle.hall_core.specs.Halves.{HasSameParts};
ghost use Rattle.receipts.specs.Desks.{desk_count};
ghost use Rattle.receipts.specs.Answers.{IsToldMore, IsCommitRefusal};
ghost use Rattle.receipts.specs.Locked.{hall_in};
ghost use Rattle.receipts.specs.Told.{Arrives, Moves, LendsTo, Settles, Takes, TellsPoint, Forgets, MakesStep};
ghost use Rattle.receipts.specs.Serving.{CommitsTo};
ghost use Rattle.receipts.specs.Committing.{CommitsBy};
ghost use Rattle.receipts.specs.Broken.{ShowsBroken, TellsBroken, left_by};
ghost use Rattle.broker_core.specs.Batch.{last_in};

use crate::broken_hall::BrokenHall;
use crate::committed::Committed;
use crate::desk::{Desk, desks, make_desks};
use crate::desk_count::DeskCount;
use crate::error::OfficeFailure;
use crate::locked::{Loan, Locked};
use crate::mark::{Mark, Trace};
use crate::opening::OpeningTrace;
use crate::witness::Witnessed;
use api_core::Call;
use broker_core::{Broker, DiskHalf, Durable, Failed, SplitError, Ticket, Written};
use hall_core::{Hall, HallError, Released};
use sector_disk::Disk;
use std::alloc::{AllocError, Global};
use std::sync::ledger::{Blank, Ledger};
use std::sync::{Mutex, Wait};

/// A hall under a lock. Threads share it by reference, each with a desk of its own.
#[derive(Drop)]
pub struct Office<L: Ledger, T: Trace = Mark> {
    pub(crate) locked: Mutex<Locked<L, T>>,
}

// What is kept of the table, and room for so many desks.
fn make_room<D: Disk, L: Ledger, T: Trace>(
    alloc: Global,
    hall: &Hall<Broker<D>>,
    count: u64,
) -> Result<(T::Opening, Vec<Desk<L, T>>), AllocError>
    ensures opening { IfOk result (λ r. T.Opening.table r.0 ≡ table_in hall.now.issuer) }
    ensures none { IfOk result (λ r. r.1.items ≡ []) }
    ensures room { IfOk result (λ r. vec_capacity r.1 ≡ count) }
{
    let opening = T::Opening::of(hall.table())?;
    let desks = Vec::with_capacity(alloc, count as usize)?;
    Ok((opening, desks))
}

// The same over a hall that is not broken.
fn prepare<D: Disk, L: Ledger, T: Trace>(
    alloc: Global,
    hall: &Hall<Broker<D>>,
    count: u64,
) -> Result<(T::Opening, Vec<Desk<L, T>>), SplitError>
    ensures opening { IfOk result (λ r. T.Opening.table r.0 ≡ table_in hall.now.issuer) }
    ensures none { IfOk result (λ r. r.1.items ≡ []) }
    ensures room { IfOk result (λ r. vec_capacity r.1 ≡ count) }
    ensures reason { IfErr result (IsSplitReason hall.now.issuer) }
{
    if hall.is_broken() {
        return Err(SplitError::Broken);
    }
    match make_room(alloc, hall, count) {
        Ok(prepared) => Ok(prepared),
        Err(_) => Err(SplitError::OutOfMemory),
    }
}

impl<L: Ledger, T: Trace> Office<L, T> {
    /// Opens an office over a new hall in which nothing is pending: the hall goes on over the half of its broker that issues,
    /// under the lock, and the half over the disk, which is the hall's broker, is for whoever commits. There are as many desks
    /// as `desks` says of the settings, which is the number of parts of the blank ledger.
    ///
    /// It is refused, and hands the hall and the blank back: `Broken`, `OutOfMemory`, in this order.
    pub fn new<D: Disk>(
        alloc: Global,
        hall: Hall<Broker<D>>,
        blank: Blank,
    ) -> Result<(Office<L, T>, Vec<Desk<L, T>>, DiskHalf<D>), OfficeFailure<Hall<Broker<D>>>>
        requires nothing { pending_of hall.issuer ≡ [] }
        requires fresh { IsFresh (settings_of hall.issuer) hall }
        requires name { blank.name ≡ L.name }
        requires parts { blank.parts ≡ L.parts }
        requires count { L.parts ≡ desk_count (settings_of hall.issuer) }
        // claim: A new office has as many desks as its settings want, numbered from 0, without marks. [: numbers, none,
        // untold; desks]
        ensures numbers { IfOk result (λ r. map (λ d. d.number) r.1.items ≡ range_with_len 0 L.parts) }
        ensures none { IfOk result (λ r. All (λ d. d.own.items ≡ []) r.1.items) }
        ensures untold { IfOk result (λ r. All (λ d. d.told ≡ 0) r.1.items) }
        // claim: Its disk half is the hall's broker. A refusal hands the hall back, with its reason.
        ensures half { IfOk result (λ r. broker_of r.2 ≡ hall.issuer) }
        ensures reason { IfErr result (λ failure. IsSplitReason hall.issuer failure.cause) }
        ensures same { IfErr result (λ failure. failure.hall.issuer ≡ hall.issuer) }
        ensures same_parts { IfErr result (λ failure.
            HasSameParts (view_of (issuer_of D.view) hall) (view_of (issuer_of D.view) failure.hall)) }
        ensures blank { IfErr result (λ failure. failure.blank ≡ blank) }
    {
        let count = desks(hall.table().settings());
        let (opening, room) = match prepare(alloc, &hall, count) {
            Ok(prepared) => prepared,
            Err(cause) => return Err(OfficeFailure { cause, hall, blank }),
        };
        match hall.split() {
            Ok((hall, disk)) => {
                let (book, share) = blank.open::<L>();
                let made = make_desks(alloc, room, share, count);
                let locked = Locked::new(alloc, hall, opening, book, DeskCount::new(count));
                let office = Office {
                    locked: Mutex::new(locked),
                };
                Ok((office, made, disk))
            }
            Err(failure) => {
                let cause = failure.cause;
                let hall = failure.hall;
                Err(OfficeFailure { cause, hall, blank })
            }
        }
    }

    /// A request comes to this desk now, with two random words: it is done as `Hall::arrive` says, with a slot of its own,
    /// and the desk gets a mark of the command that was issued, if it has one, and the slots of the polls that it answered
    /// (`Desk::take_answered`). It answers a ticket of all that its reply shows, and the slot, from which `take` gives the
    /// reply once that is durable. The desk tells what was issued (`Desk::issued`).
    ///
    /// It is refused, and changes nothing: `Mismatch` (fewer commands were issued than this desk was told), `WornOut` (2^58
    /// slots were counted), `Unfit` (the environment is not there, the text of an answer is above the settings' limit, or
    /// the moment is past the year 9999), `OutOfMemory`, and as the hall refuses it.
    pub fn arrive<R: Wait>(
        &self,
        rt: &R,
        desk: &mut Desk<L, T>,
        call: Call,
        now: u64,
        words: [u64; 2],
    ) -> Witnessed<Result<(Ticket, u64), HallError>, L, T>
        // claim: An Ok did by one step just that request or tick to the hall under the lock. Just its command, if any,
        // is marked, there and at its desk; desks' marks stay their own. Nothing becomes durable or lent. [: steps,
        // done, counts, both, histories, ticket, kept, no_call; Office::tick: steps, done, answer, both, histories,
        // counted, kept, no_call]
        // claim: A request marks at most one command, which the request by itself allows. A tick marks that whose
        // number it answers. [: marks, asked; Office::tick: marks]
        // claim: The slot is the desk's next. The desk gets the slots of just the polls answered, and hands them out once.
        // [: slot, counts, answered, kept_answered; Office::tick: answered, kept_answered; Desk::take_answered: slots,
        // none_left]
        // claim: A desk is never told less than before. A refusal changes neither that nor its marks. [: told, err;
        // Office::tick: told, err; Office::commit: told, err, marks; Office::advance: told, err, marks]
        // claim: A refusal is the first of these: fewer commands than the desk was told, no slot left, unfit; else want
        // of memory or the hall's own. A tick has the first and last two. Nothing under the lock changes. [: refused,
        // reason, same; Office::tick: refused, reason, same]
        // claim: An event that a request or a tick ended is counted with the time from its acceptance to its end. Nothing
        // else changes these counts. [: lives, kept_lives; Office::tick: lives, kept_lives; Office::take, Office::forget:
        // lives]
        ensures { Arrives result.before.value result.after.value result.from.value result.to.value
            desk.old desk.new call now words result.answer }
    {
        self.locked.lock(rt).arrive_seen(desk, call, now, words)
    }

    /// Makes one move that is due now, as `Hall::tick` does, and answers the number of its command, of which the desk gets
    /// the mark, and tells what it is (`Desk::issued`). None where nothing is due. The desk gets the slots of the polls that it
    /// answered (`Desk::take_answered`). A moment is at most the end of the year 9999.
    ///
    /// It is refused, and changes nothing: `Mismatch` (fewer commands were issued than this desk was told), `OutOfMemory`,
    /// and as the hall refuses it.
    pub fn tick<R: Wait>(
        &self,
        rt: &R,
        desk: &mut Desk<L, T>,
        now: u64,
    ) -> Witnessed<Result<Option<u64>, HallError>, L, T>
        requires { now ≤ greatest_moment }
        ensures { Moves result.before.value result.after.value result.from.value result.to.value
            desk.old desk.new now result.answer }
    {
        self.locked.lock(rt).tick_seen(desk, now)
    }

    // Lends what is pending, as `Locked::lend` says.
    fn lend<R: Wait>(
        &self,
        rt: &R,
        desk: &mut Desk<L, T>,
    ) -> (
        Result<Loan, HallError>,
        Witnessed<(), L, T>,
        Option<BrokenHall>,
    )
        ensures lends { LendsTo result.1.before.value result.1.after.value result.1.from.value result.1.to.value
            desk.old desk.new result.0 }
        ensures broken { ShowsBroken result.1.after.value result.2 }
    {
        let mut locked = self.locked.lock(rt);
        let (loan, seen) = locked.lend_seen(desk);
        (loan, seen, BrokenHall::of(locked.hall()))
    }

    // Settles what became of the batch that is out, as `Locked::settle` says.
    fn settle<R: Wait>(
        &self,
        rt: &R,
        desk: &mut Desk<L, T>,
        outcome: Result<Written, Failed>,
    ) -> (
        Result<Durable, HallError>,
        Witnessed<(), L, T>,
        Option<BrokenHall>,
    )
        requires { desk.old.told ≤ last_in outcome }
        ensures settles { Settles result.1.before.value result.1.after.value result.1.from.value result.1.to.value
            desk.old desk.new outcome result.0 }
        ensures broken { ShowsBroken result.1.after.value result.2 }
    {
        let mut locked = self.locked.lock(rt);
        let (settled, seen) = locked.settle_seen(desk, outcome);
        (settled, seen, BrokenHall::of(locked.hall()))
    }

    /// Makes all that is pending durable: how many commands that is. The commands are lent under the lock, written outside
    /// it, and settled under it, so that others ask the office while the disk writes.
    ///
    /// The half is called at most once, to write just the batch that was lent: at Ok all of it is durable, and on an honest disk a
    /// stop at any moment leaves a legal stop of the half's list with what it took.
    ///
    /// It is refused: `Mismatch` (fewer commands were issued than this desk was told), `Broken`, `Lent` (another commit has
    /// lent what is pending), `OutOfMemory`, `OtherHalf` (this is not the half of this office's broker), and as the half
    /// refuses to write, after which what was lent is pending again. After `Fault` the hall is broken.
    pub fn commit<D: Disk, R: Wait>(
        &self,
        rt: &R,
        desk: &mut Desk<L, T>,
        disk: &mut DiskHalf<D>,
    ) -> Committed<L, T>
        ensures told { IfOk result.answer (IsToldMore desk.old.told desk.new.told) }
        ensures number { desk.new.number ≡ desk.old.number }
        ensures marks { desk.new.own.items ≡ desk.old.own.items }
        ensures answered { desk.new.answered ≡ desk.old.answered }
        ensures err { OnErr result.answer (desk.new.told ≡ desk.old.told) }
        ensures refused { IfErr result.answer (IsCommitRefusal desk.old.told) }
        // claim: A commit leaves the disk half alone, or hands it one batch, all durable at Ok. A crash at any moment
        // leaves a legal stop of the half's history with what it took. It tells a fault only where the half's
        // count of them rose, or is at its greatest.
        ensures disk { CommitsTo D.view D.fault_count (broker_of disk.old) (broker_of disk.new) result.answer }
        ensures fault { result.answer ≡ Err HallError.Fault → FaultsHaveRisen D.fault_count (broker_of disk.old) (broker_of disk.new) }

        // claim: A commit made one step, which lent nothing, and tells how much is durable or why not; or two: all that
        // was pending was lent, and what the disk half answered was settled, and is told, or `OtherHalf`. [: steps,
        // refused]
        ensures steps { CommitsBy D.view D.fault_count result desk.old desk.new (broker_of disk.old) (broker_of disk.new) }

        // Where it tells `Fault` or `Broken`, it shows the hall, broken, that its last step left.
        ensures broken { TellsBroken result.answer result.broken }
        ensures left { ShowsBroken (left_by result) result.broken }
    {
        let (lend, lent, broken) = self.lend(rt, desk);
        let loan = match lend {
            Ok(loan) => loan,
            Err(why) => {
                let answer = Err(why);
                return Committed {
                    answer,
                    lent,
                    settled: None,
                    broken,
                };
            }
        };
        match loan {
            Loan::Nothing(durable) => Committed {
                answer: Ok(durable),
                lent,
                settled: None,
                broken,
            },
            Loan::Out(batch) => {
                let outcome = disk.write(batch);
                let (answer, settled, broken) = self.settle(rt, desk, outcome);
                Committed {
                    answer,
                    lent,
                    settled: Some(settled),
                    broken,
                }
            }
        }
    }

    /// The reply of a slot, where all that it shows is durable, as `Hall::take` gives it. It takes no memory.
    pub fn take<R: Wait>(
        &self,
        rt: &R,
        desk: &mut Desk<L, T>,
        slot: u64,
    ) -> Witnessed<Option<Released>, L, T>
        ensures desk { MakesStep result.from.value result.to.value desk.old desk.new }
        // claim: By one step a take or a forgetting does just that to the hall under the lock. A take gives the slot
        // that asked what that hall gives it; where that is nothing, the hall stays the same. [: steps, slot, gives,
        // by_events, done, none; Office::forget: steps, done]
        ensures takes { Takes result.before.value result.after.value slot result.answer }
    {
        self.locked.lock(rt).take_seen(desk, slot)
    }

    /// How many commands have to be durable before the reply of a slot is told, where it is computed and still wanted, as
    /// `Hall::point` says. It takes no memory.
    pub fn point<R: Wait>(
        &self,
        rt: &R,
        desk: &mut Desk<L, T>,
        slot: u64,
    ) -> Witnessed<Option<u64>, L, T>
        ensures desk { desk.new ≡ desk.old }
        ensures tells { TellsPoint result.before.value slot result.answer }
        ensures same { result.after.value ≡ result.before.value }
    {
        let _ = desk;
        let locked = self.locked.lock(rt);
        Witnessed::of_look(locked.point(slot), &locked)
    }

    /// The reply of a slot is not wanted any more, as `Hall::forget` says. It takes no memory.
    pub fn forget<R: Wait>(&self, rt: &R, desk: &mut Desk<L, T>, slot: u64) -> Witnessed<(), L, T>
        ensures desk { MakesStep result.from.value result.to.value desk.old desk.new }
        ensures forgets { Forgets result.before.value result.after.value slot }
    {
        self.locked.lock(rt).forget_seen(desk, slot)
    }
}
