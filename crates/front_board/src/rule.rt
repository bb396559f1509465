// What holds of a board's word whenever no step is being made, and what each step tells the seat that makes it.
ghost use Rattle.std.specs.Prelude.{◌≡◌};

use crate::Numbers;
use atomic_table::{Play, Split, TableRule};
use std::marker::PhantomData;

/// What a seat knows: the greatest number that it raised, and the last that it saw or raised.
pub struct SeatView {
    pub raised: u64,
    pub seen: u64,
}

/// The rule, over the number that the board was opened with.
pub struct Rises<N: Numbers>(PhantomData<N>);

impl<N: Numbers> TableRule<u8, SeatView, u64> for Rises<N> {
    ghost use Rattle.front_board.specs.Rule.{IsKept, view};

    ghost holds = { λ opening s. IsKept N.given opening s.words s.views };

    ghost first = { λ opening. view 0 opening };
}

/// The number becomes the greater of what it was and what is raised.
pub struct Raises<N: Numbers>(PhantomData<N>);

impl<N: Numbers> Play<u8, SeatView> for Raises<N> {
    ghost use Rattle.front_board.specs.Rule.{HasRaised};

    ghost then = { λ s before found after. HasRaised N.given s.first before.0 found after.0 };
}

/// The number is looked at.
pub struct Looks<N: Numbers>(PhantomData<N>);

impl<N: Numbers> Play<u8, SeatView> for Looks<N> {
    ghost use Rattle.front_board.specs.Rule.{HasLooked};

    ghost then = { λ s before found after. HasLooked N.given before.0 found after.0 };
}

/// A new seat has seen what the one beside it has, and raised nothing.
pub struct Sits;

impl Split<SeatView> for Sits {
    ghost use Rattle.front_board.specs.Rule.{view};

    ghost left = { λ v. v };

    ghost right = { λ v. view 0 v.seen };
}
