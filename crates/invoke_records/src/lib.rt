//! The records of the disk: commands, rows of the table of events, snapshots and settings, each with one spelling. Rows and
//! snapshots of version 1 of the format are read too, and never written.
//!
//! A record is seen as the record of its fields, its texts as lists of bytes, a snapshot's rows as a list. The crates
//! above use that `encode` gives the one spelling, that `decode` is Ok exactly where the bytes begin with a spelling,
//! and that no spelling begins another.
#![tactic(auto)]

mod command;
mod command_reading;
mod command_writing;
mod error;
mod head;
mod laws;
mod limits;
mod order;
mod placing;
mod reader;
mod record_bytes;
mod row;
mod row_fields;
mod row_reading;
mod row_record;
mod row_writing;
mod settings_reading;
mod settings_record;
mod settings_writing;
mod snapshot;
mod snapshot_record;
mod snapshot_writing;
mod version;
mod widths;
mod writer;

pub use command::{Cause, Command, GREATEST_MOMENT, Kind};
pub use command_reading::has_bad_id;
pub use error::RecordError;
pub use laws::{spellings_are_apart, spellings_are_short};
pub use record_bytes::{Bytes, MOST_BYTES, MOST_PAYLOAD};
pub use row::{Answer, EventRow, Outcome, Standing};
pub use settings_record::SettingsRecord;
pub use snapshot::{GREATEST_NUMBER, MOST_ROWS, Rows, Snapshot};
pub use version::Version;
