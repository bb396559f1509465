//! The board: one number that only rises, by which threads tell each other how many commands are durable.
//!
//! A thread raises it or looks at it from a seat of its own, each in one atomic step that takes no memory and no lock.
//! The crates above use that a ticket becomes a receipt exactly where the number that was found is at least its own, that
//! this number was given to the board, and that only a look makes what shows a receipt, `Shown`.
#![tactic(auto)]

mod board;
mod numbers;
mod rule;
mod seated;
mod shown;

pub use board::{Board, Seat};
pub use numbers::{AnyNumber, Numbers};
pub use seated::Seated;
pub use shown::Shown;
