// A seat beside its board.
ghost use Rattle.std.specs.Prelude.{◌≡◌, ◌<◌, ◌≤◌, All, IfOk, IfErr, IsOk, vec_len};
ghost use Rattle.front_board.specs.Board.{SitsAt};

use crate::{Board, Seat, Shown};
use broker_core::{Durable, Ticket};
use std::alloc::{AllocError, Global};
use std::sync::Arc;

/// A seat, beside the board that it is one of.
#[derive(Drop)]
pub struct Seated {
    board: Arc<Board>,
    seat: Seat,
    ghost sits: { SitsAt board.value seat },
}

impl Seated {
    ghost use Rattle.front_board.specs.Seated.{seen_by, AreAtOneBoard};

    /// So many seats of a new board, which shows this number.
    pub fn open(alloc: Global, durable: Durable, count: usize) -> Result<Vec<Seated>, AllocError>
        ensures count { IfOk result (λ all. vec_len all ≡ count) }
        ensures seen { IfOk result (λ all. All (λ seated. seen_by seated ≡ durable) all.items) }
        ensures one_board { IfOk result (λ all. AreAtOneBoard all.items) }
    {
        let (board, seats) = Board::new(alloc, durable, count)?;
        let shared = Arc::new(alloc, board)?;
        let mut all = Vec::with_capacity(alloc, count)?;
        for seat in seats {
            let board = Arc::try_clone(&shared)?;
            all.push(Seated { board, seat })?;
        }
        Ok(all)
    }

    /// Shows this number from the seat, unless the board shows a greater one.
    pub fn raise(&mut self, durable: Durable)
        ensures raised { durable ≤ seen_by self.new }
        ensures rises { seen_by self.old ≤ seen_by self.new }
    {
        let Seated { board, seat } = self;
        board.raise(seat, durable);
    }

    /// Looks at the number: what shows the ticket's receipt exactly where it is at least the ticket's, else the ticket is handed
    /// back. The number is at least each that was raised or seen from the seat.
    pub fn look(&mut self, ticket: Ticket) -> Result<Shown, Ticket>
        ensures rises { seen_by self.old ≤ seen_by self.new }
        ensures receipt { IfOk result (λ shown. (shown.receipt ≡ ticket) × (ticket ≤ seen_by self.new)) }
        ensures waits { IfErr result (λ kept. (kept ≡ ticket) × (seen_by self.new < ticket)) }
        ensures known { ticket ≤ seen_by self.old → IsOk result }
    {
        let Seated { board, seat } = self;
        board.look(seat, ticket)
    }
}
