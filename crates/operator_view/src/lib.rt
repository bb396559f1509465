//! What an operator is shown of the rows of a table: how many stand where, lists in pages, one event, and records to send on.
//!
//! Rows are seen as a list in the order of acceptance, a page as the places of its rows. The crates above use that a census
//! counts the rows, that a page leaves none out, and that each text is the one of the definitions. Nothing here writes.
#![tactic(auto)]

mod accepting;
mod counting;
mod detail;
mod ending;
mod error;
pub mod examples;
mod finding;
mod limits;
mod lines;
mod list_json;
mod members;
mod memory;
mod moments;
mod numbers;
mod page;
mod payload;
mod places;
mod problem;
mod sight;
mod standings;
mod verdict;

pub use accepting::events_page;
pub use counting::{no_tally, tally};
pub use detail::event_json;
pub use ending::records_page;
pub use error::PageError;
pub use finding::find;
pub use limits::read_limit;
pub use lines::record_lines;
pub use list_json::events_json;
pub use members::{moment_of, standing_text};
pub use memory::{Counts, Growth, Memory};
pub use numbers::{Census, Tally};
pub use page::Page;
pub use problem::{PROBLEMS, Problem};
pub use sight::Sight;
pub use standings::Which;
pub use verdict::problems;
