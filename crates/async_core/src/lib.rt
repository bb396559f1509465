//! The table of events: which commands are legal, and where each event stands after them.
//!
//! A table is seen as its settings and a snapshot, the rows in the order of acceptance. What is meant is said over the
//! whole history of commands; the crates above use that a table which stands for a history accepts exactly what is
//! legal after it, and then stands for the history with that command.
#![tactic(auto)]

mod changes;
mod choice;
mod copies;
mod equality;
pub mod examples;
mod held;
mod ids;
mod illegal;
mod keys;
pub mod laws;
mod legality;
mod next;
mod next_moment;
mod readers;
mod situation;
mod standings;
mod table;
mod tally;

pub use choice::{Move, Side};
pub use copies::copy_row;
pub use illegal::{ApplyError, Illegal};
pub use readers::Ended;
pub use table::Table;
