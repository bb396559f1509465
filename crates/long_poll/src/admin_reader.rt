// By what an operator reads the office.
ghost use Rattle.std.specs.Prelude.{◌≡◌, ◌≤◌, ◌^◌, map, IfOk, IfErr};
ghost use Rattle.receipts.specs.Locked.{hall_in};
ghost use Rattle.receipts.specs.Views.{IsViewOf};

use bell::Bell;
use broker_core::Ticket;
use front_board::{Seated, Shown};
use hall_core::Sought;
use receipts::{Mark, Office, Trace, Unreleased, Witnessed};
use std::alloc::AllocError;
use std::sync::atomic::{AtomicU64, Ordering};
use std::sync::ledger::Ledger;
use std::sync::{Arc, Mutex, Wait};

/// The first place at a bell that is no slot: slots are below 2^63.
const FIRST_PLACE: u64 = 1 << 63;

/// What was seen of an office and is not shown yet, with the ticket of all that it shows.
#[derive(Drop)]
pub struct TicketedView {
    unreleased: Unreleased,
    ticket: Ticket,
    ghost covers: { ticket ≡ unreleased.number },
}

impl TicketedView {
    /// Its parts.
    pub(crate) fn into_parts(self) -> (Unreleased, Ticket)
        ensures unreleased { result.0 ≡ self.unreleased }
        ensures ticket { result.1 ≡ self.unreleased.number }
    {
        let TicketedView { unreleased, ticket } = self;
        (unreleased, ticket)
    }

    /// The view of these parts.
    pub(crate) fn of(unreleased: Unreleased, ticket: Ticket) -> TicketedView
        requires { ticket ≡ unreleased.number }
        ensures { result.unreleased ≡ unreleased }
    {
        TicketedView { unreleased, ticket }
    }

    /// How many commands have to be durable before it is shown.
    pub(crate) fn number(&self) -> u64
        ensures { result ≡ self.now.unreleased.number }
    {
        self.ticket.number()
    }
}

/// What an operator reads by: an office to look at, and a seat of the board, behind a lock, for all futures that wait here.
#[derive(Drop)]
pub struct AdminReader<L: Ledger, T: Trace = Mark> {
    office: Arc<Office<L, T>>,
    bell: Arc<Bell>,
    seated: Mutex<Seated>,
    /// How many places at the bell were taken.
    places: AtomicU64,
}

impl<L: Ledger, T: Trace> AdminReader<L, T> {
    /// A reader of this office, with a seat of its board.
    pub fn new(office: Arc<Office<L, T>>, bell: Arc<Bell>, seated: Seated) -> AdminReader<L, T>
        ensures office { result.office ≡ office }
        ensures bell { result.bell ≡ bell }
    {
        AdminReader {
            office,
            bell,
            seated: Mutex::new(seated),
            places: AtomicU64::new(0),
        }
    }

    /// The office.
    pub fn office(&self) -> &Office<L, T>
        ensures { result.now ≡ self.now.office.value }
    {
        &self.office
    }

    /// The bell.
    pub fn bell(&self) -> &Bell
        ensures { result.now ≡ self.now.bell.value }
    {
        &self.bell
    }

    /// What is to be seen of the office by one who seeks this, at this moment, as `Office::look` says. It changes nothing, and is
    /// refused only for want of memory.
    pub fn look<R: Wait>(
        &self,
        rt: &R,
        sought: Sought,
        at: u64,
    ) -> Witnessed<Result<TicketedView, AllocError>, L, T>
        ensures shows { IfOk result.answer (λ view.
            IsViewOf (hall_in result.before.value.hall) (map T.mark result.before.value.marks.all.items) sought at view.unreleased) }
        ensures same { result.after.value ≡ result.before.value }
    {
        let (answer, seen) = self.office.look(rt, sought, at).split();
        match answer {
            Ok((unreleased, ticket)) => seen.with(Ok(TicketedView::of(unreleased, ticket))),
            Err(why) => seen.with(Err(why)),
        }
    }

    /// What shows that the board shows at least the ticket's number, else the ticket again.
    pub(crate) fn check<R: Wait>(&self, rt: &R, ticket: Ticket) -> Result<Shown, Ticket>
        ensures receipt { IfOk result (λ shown. shown.receipt ≡ ticket) }
        ensures kept { IfErr result (λ kept. kept ≡ ticket) }
    {
        self.seated.lock(rt).look(ticket)
    }

    /// A place at the bell, behind all slots.
    pub(crate) fn take_place(&self) -> u64
        ensures { 2 ^ 63 ≤ result }
    {
        FIRST_PLACE + self.places.fetch_add(1, Ordering::SeqCst) % FIRST_PLACE
    }
}
