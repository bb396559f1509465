// What the futures of one port share.
ghost use Rattle.std.specs.Prelude.{◌≡◌, ◌≤◌, IfOk, IfErr, OnOk};
ghost use Rattle.invoke_records.specs.Spelling.{greatest_moment};
ghost use Rattle.hall_core.specs.Hall.{request, IsDone};
ghost use Rattle.hall_plans.specs.Past.{tick};
ghost use Rattle.receipts.specs.Locked.{hall_in};
ghost use Rattle.receipts.specs.Told.{TellsPoint, Takes, Forgets};
ghost use Rattle.receipts.specs.UnderLock.{IssuedAt};
ghost use Rattle.long_poll.specs.Port.{IsSlot, IsRequestRefusal, IsMoveRefusal, IsRequestReason, IsMoveReason};

use api_core::Call;
use bell::Bell;
use broker_core::{Receipt, Ticket};
use front_board::Seated;
use hall_core::{HallError, Issued, Released};
use receipts::{Desk, Mark, Office, Trace, Witnessed};
use std::sync::ledger::Ledger;
use std::sync::{Arc, Mutex, Wait};

/// A request that came to the hall. Only `Port::arrive` makes one. Proofs see in it what stood under the office's lock before
/// its call and after it.
#[derive(Drop)]
pub struct Arrived<L: Ledger, T: Trace = Mark> {
    // Of all that its reply shows.
    pub(crate) ticket: Ticket,
    // From which its reply is taken.
    pub(crate) slot: u64,
    // What it issued. It is private to this file, so that nobody else makes one.
    issued: Option<Issued>,
    pub(crate) seen: Witnessed<(), L, T>,
}

impl<L: Ledger, T: Trace> Arrived<L, T> {
    /// The slot from which its reply is taken.
    pub fn slot(&self) -> u64
        ensures { result ≡ self.now.slot }
    {
        self.slot
    }

    /// What it issued, which has to be committed.
    pub fn issued(&self) -> Option<Issued>
        ensures { result ≡ self.now.issued }
    {
        self.issued
    }

    /// Its ticket, of all that its reply shows. The reply is not wanted.
    pub fn into_ticket(self) -> Ticket
        ensures { result ≡ self.ticket }
    {
        let Arrived { ticket, .. } = self;
        ticket
    }
}

/// One port of the front: a desk of the office and a seat of the board, each behind a lock, for all futures of the port.
#[derive(Drop)]
pub struct Port<L: Ledger, T: Trace = Mark> {
    office: Arc<Office<L, T>>,
    bell: Arc<Bell>,
    desk: Mutex<Desk<L, T>>,
    seated: Mutex<Seated>,
}

impl<L: Ledger, T: Trace> Port<L, T> {
    /// A port with a desk of this office and a seat of its board.
    pub fn new(
        office: Arc<Office<L, T>>,
        bell: Arc<Bell>,
        desk: Desk<L, T>,
        seated: Seated,
    ) -> Port<L, T>
        ensures office { result.office ≡ office }
        ensures bell { result.bell ≡ bell }
    {
        Port {
            office,
            bell,
            desk: Mutex::new(desk),
            seated: Mutex::new(seated),
        }
    }

    /// The office.
    pub fn office(&self) -> &Office<L, T>
        ensures { result.now ≡ self.now.office.value }
    {
        &self.office
    }

    /// The bell.
    pub fn bell(&self) -> &Bell
        ensures { result.now ≡ self.now.bell.value }
    {
        &self.bell
    }

    /// A request comes, as `Office::arrive` says, from the port's desk. The bell is told which parked polls it answered.
    pub fn arrive<R: Wait>(
        &self,
        rt: &R,
        call: Call,
        now: u64,
        words: [u64; 2],
    ) -> Result<Arrived<L, T>, Witnessed<HallError, L, T>>
        // claim: A request at a port gets a slot of some desk, or is refused as an office refuses it. A tick is refused
        // so too. [: slot, refused; Port::tick: refused]
        ensures slot { IfOk result (λ arrived. IsSlot arrived.slot) }
        ensures refused { IfErr result (λ refused. IsRequestRefusal refused.answer) }

        // claim: An Ok did just that request, with its slot, to the hall under the lock; a refusal has its reason
        // there. So of a tick. A take, point or forgetting does what an office's does. [: done, reason; Port::tick:
        // done, answer, reason; Port::take; Port::point; Port::forget]
        ensures done { IfOk result (λ arrived.
            IsDone (hall_in arrived.seen.before.value.hall) (hall_in arrived.seen.after.value.hall) (request arrived.slot call now words)) }
        ensures issued { IfOk result (λ arrived.
            IssuedAt (hall_in arrived.seen.before.value.hall) (request arrived.slot call now words) arrived.issued) }
        ensures reason { IfErr result (λ refused.
            IsRequestReason (hall_in refused.before.value.hall) refused.before.value.slots call now words refused.answer) }
    {
        let mut desk = self.desk.lock(rt);
        let (answer, seen) = self.office.arrive(rt, &mut desk, call, now, words).split();
        let (ticket, slot) = match answer {
            Ok(arrived) => arrived,
            Err(why) => return Err(seen.with(why)),
        };
        let issued = desk.issued();
        let answered = desk.take_answered();
        drop(desk);
        self.bell.answer(rt, &answered, ticket.number());
        Ok(Arrived {
            ticket,
            slot,
            issued,
            seen,
        })
    }

    /// Makes one move that is due, as `Office::tick` says, from the port's desk. The bell is told which parked polls it
    /// answered. What it issued is answered. A moment is at most the end of the year 9999.
    pub fn tick<R: Wait>(
        &self,
        rt: &R,
        now: u64,
    ) -> Witnessed<Result<Option<Issued>, HallError>, L, T>
        requires { now ≤ greatest_moment }
        ensures refused { IfErr result.answer IsMoveRefusal }

        // Just this move was made in what was under the lock, or there is a reason there why it was not.
        ensures done { OnOk result.answer (IsDone (hall_in result.before.value.hall) (hall_in result.after.value.hall) (tick now)) }
        ensures answer { IfOk result.answer (IssuedAt (hall_in result.before.value.hall) (tick now)) }
        ensures reason { IfErr result.answer (IsMoveReason (hall_in result.before.value.hall) now) }
    {
        let mut desk = self.desk.lock(rt);
        let (answer, seen) = self.office.tick(rt, &mut desk, now).split();
        let moved = match answer {
            Ok(_) => desk.issued(),
            Err(why) => return seen.with(Err(why)),
        };
        let answered = desk.take_answered();
        drop(desk);
        if let Some(issued) = moved {
            self.bell.answer(rt, &answered, issued.number);
        }
        seen.with(Ok(moved))
    }

    /// The reply of a slot, as `Office::take` gives it.
    pub(crate) fn take<R: Wait>(&self, rt: &R, slot: u64) -> Witnessed<Option<Released>, L, T>
        ensures { Takes result.before.value result.after.value slot result.answer }
    {
        let mut desk = self.desk.lock(rt);
        self.office.take(rt, &mut desk, slot)
    }

    /// How much has to be durable before the reply of a slot is told, as `Office::point` says.
    pub(crate) fn point<R: Wait>(&self, rt: &R, slot: u64) -> Witnessed<Option<u64>, L, T>
        ensures { TellsPoint result.before.value slot result.answer }
    {
        let mut desk = self.desk.lock(rt);
        self.office.point(rt, &mut desk, slot)
    }

    /// The reply of a slot is not wanted any more, as `Office::forget` says.
    pub(crate) fn forget<R: Wait>(&self, rt: &R, slot: u64) -> Witnessed<(), L, T>
        ensures { Forgets result.before.value result.after.value slot }
    {
        let mut desk = self.desk.lock(rt);
        self.office.forget(rt, &mut desk, slot)
    }

    /// A receipt where the board shows at least the ticket's number, else the ticket again.
    pub(crate) fn check<R: Wait>(&self, rt: &R, ticket: Ticket) -> Result<Receipt, Ticket>
        ensures receipt { IfOk result (λ receipt. receipt ≡ ticket) }
        ensures kept { IfErr result (λ kept. kept ≡ ticket) }
    {
        match self.seated.lock(rt).look(ticket) {
            Ok(shown) => Ok(shown.receipt()),
            Err(ticket) => Err(ticket),
        }
    }
}
