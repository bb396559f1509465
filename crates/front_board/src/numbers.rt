// Which numbers a board is given.

/// A property of each number that is given to a board. What is found on the board has it too: whichever property all the
/// numbers have that were given, so that it is one of them.
pub trait Numbers {
    ghost use Rattle.std.specs.Prelude.{ℕ};

    ghost given: { ℕ → Type 0 };
}

/// Of a board whose owner says nothing of the numbers.
pub struct AnyNumber;

impl Numbers for AnyNumber {
    ghost given = { λ _. Unit {0} };
}
