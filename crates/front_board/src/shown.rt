// A receipt that a board showed.
ghost use Rattle.std.specs.Prelude.{◌≡◌, ◌≤◌};
ghost use Rattle.front_board.specs.Board.{seen_from};

use crate::Seat;
use broker_core::Receipt;
use std::snapshot::Snapshot as Seen;

/// A receipt whose number a board showed. Only a look at a board makes one: proofs see in it the seat that saw it.
#[derive(Drop)]
pub struct Shown {
    receipt: Receipt,
    seat: Seen<Seat>,
    // claim: The seat that showed a receipt has seen at least its number.
    ghost seen: { receipt ≤ seen_from seat.value },
}

impl Shown {
    /// A receipt of no more than this seat has seen.
    pub(crate) fn from(seat: &Seat, receipt: Receipt) -> Shown
        requires { receipt ≤ seen_from seat.now }
        ensures receipt { result.receipt ≡ receipt }
        ensures seat { result.seat.value ≡ seat.now }
    {
        Shown {
            receipt,
            seat: Seen::of(seat),
        }
    }

    /// The receipt.
    pub fn receipt(&self) -> Receipt
        ensures { result ≡ self.now.receipt }
    {
        self.receipt
    }
}
