// The board and its seats.
ghost use Rattle.std.specs.Prelude.{◌≡◌, ◌<◌, ◌≤◌, All, IfOk, IfErr, IsOk, vec_len};

use crate::rule::{Looks, Raises, Rises, SeatView, Sits};
use crate::{AnyNumber, Numbers, Shown};
use atomic_table::Table;
use broker_core::{Durable, Receipt, Ticket};
use std::alloc::{AllocError, Global};

/// How many commands are durable, as far as threads were told. The number only rises.
#[derive(Drop)]
pub struct Board<N: Numbers = AnyNumber> {
    word: Table<u8, SeatView, u64, Rises<N>, Global>,
    ghost one: { word.shared.table_id.words ≡ 1 },
}

/// A place at one board, for one thread at a time. It remembers, in the proofs alone, what was raised and seen from it.
#[derive(Drop)]
pub struct Seat {
    place: atomic_table::Seat<u8, SeatView>,
}

impl<N: Numbers> Board<N> {
    ghost use Rattle.front_board.specs.Board.{SitsAt, IsNewSeat, seen_from};

    /// A board that shows this number, and so many seats at it.
    pub fn new(
        alloc: Global,
        durable: Durable,
        seats: usize,
    ) -> Result<(Board<N>, Vec<Seat>), AllocError>
        requires given { N.given durable }
        // claim: A new board has as many seats as were asked for, which have seen its first number. [: count, seats;
        // Seated::open: count, seen, one_board]
        ensures count { IfOk result (λ made. vec_len made.1 ≡ seats) }
        ensures seats { IfOk result (λ made. All (IsNewSeat made.0 durable) made.1.items) }
    {
        let number = durable.number();
        let (word, first) = Table::of_words(alloc, &[number], &number)?;
        let board = Board { word };
        let places = board.places(alloc, first, seats)?;
        Ok((board, places))
    }

    // So many seats beside the first.
    fn places(
        &self,
        alloc: Global,
        mut first: atomic_table::Seat<u8, SeatView>,
        count: usize,
    ) -> Result<Vec<Seat>, AllocError>
        requires sits { first.table_id ≡ self.now.word.shared.table_id }
        ensures count { IfOk result (λ places. vec_len places ≡ count) }
        ensures new { IfOk result (λ places. All (IsNewSeat self.now first.me.0.seen) places.items) }
    {
        let mut places = Vec::with_capacity(alloc, count)?;
        for _ in 0..count {
            places.push(self.another(&mut first))?;
        }
        Ok(places)
    }

    // A seat beside the first, which has only seen what the board was opened with.
    fn another(&self, first: &mut atomic_table::Seat<u8, SeatView>) -> Seat
        requires sits { first.old.table_id ≡ self.now.word.shared.table_id }
        ensures same { first.new.table_id ≡ first.old.table_id }
        ensures kept { first.new.me.0 ≡ first.old.me.0 }
        ensures new { IsNewSeat self.now first.old.me.0.seen result }
    {
        let place = self.word.shared.split_seat::<Sits>(first);
        Seat { place }
    }

    /// Shows this number, unless it shows a greater one.
    pub fn raise(&self, seat: &mut Seat, durable: Durable)
        requires sits { SitsAt self.now seat.old }
        requires given { N.given durable }
        ensures sits { SitsAt self.now seat.new }
        // claim: A seat never sees less than it has seen or raised. [: raised, rises; Board::look, Board::check, Seated::look:
        // rises, known; Seated::raise: raised, rises]
        ensures raised { durable ≤ seen_from seat.new }
        ensures rises { seen_from seat.old ≤ seen_from seat.new }
        ensures shown { N.given (seen_from seat.new) }
    {
        self.word
            .shared
            .fetch_max::<Raises<N>>(&mut seat.place, 0, durable.number());
    }

    /// Looks at the number: what shows the ticket's receipt exactly where it is at least the ticket's, else the ticket is handed
    /// back. The number was given to the board, and is at least each that was raised or seen from this seat.
    pub fn look(&self, seat: &mut Seat, ticket: Ticket) -> Result<Shown, Ticket>
        requires sits { SitsAt self.now seat.old }
        ensures sits { SitsAt self.now seat.new }
        // claim: What holds of each number given to a board holds of the number found. [: shown; Board::raise, Board::check:
        // shown]
        ensures shown { N.given (seen_from seat.new) }
        ensures rises { seen_from seat.old ≤ seen_from seat.new }
        // claim: A look or check gives a ticket's receipt exactly where the number found is at least the ticket's. [: receipt,
        // seat, waits, known; Board::check, Seated::look: receipt, waits, known]
        ensures receipt { IfOk result (λ shown. (shown.receipt ≡ ticket) × (ticket ≤ seen_from seat.new)) }
        ensures seat { IfOk result (λ shown. shown.seat.value ≡ seat.new) }
        ensures waits { IfErr result (λ kept. (kept ≡ ticket) × (seen_from seat.new < ticket)) }
        ensures known { ticket ≤ seen_from seat.old → IsOk result }
    {
        let number = self.word.shared.load::<Looks<N>>(&mut seat.place, 0);
        match ticket.settled_by(number) {
            Ok(receipt) => Ok(Shown::from(seat, receipt)),
            Err(ticket) => Err(ticket),
        }
    }

    /// A receipt exactly where a look finds at least the ticket's number, else the ticket is handed back.
    pub fn check(&self, seat: &mut Seat, ticket: Ticket) -> Result<Receipt, Ticket>
        requires sits { SitsAt self.now seat.old }
        ensures sits { SitsAt self.now seat.new }
        ensures shown { N.given (seen_from seat.new) }
        ensures rises { seen_from seat.old ≤ seen_from seat.new }
        ensures receipt { IfOk result (λ receipt. (receipt ≡ ticket) × (ticket ≤ seen_from seat.new)) }
        ensures waits { IfErr result (λ kept. (kept ≡ ticket) × (seen_from seat.new < ticket)) }
        ensures known { ticket ≤ seen_from seat.old → IsOk result }
    {
        match self.look(seat, ticket) {
            Ok(shown) => Ok(shown.receipt()),
            Err(ticket) => Err(ticket),
        }
    }
}
