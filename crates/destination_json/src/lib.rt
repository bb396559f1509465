//! Destination records: what is told of an event that has ended, as JSON.
//!
//! A record is seen as a list of bytes. The crates above use that `record` gives exactly the text of the definitions,
//! `stamp` its timestamp and `id_text` its request id, and that `is_json` tells JSON from other bytes.
#![tactic(auto)]

mod context;
mod date;
mod document;
pub mod examples;
mod laws;
mod moment;
mod texts;

pub use context::id_text;
pub use document::record;
pub use laws::{dates_are_those_of_the_calendar, records_are_those_of_histories};
pub use moment::stamp;
pub use texts::is_json;
