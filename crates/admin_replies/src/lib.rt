//! The operator's port: which request was asked, and what is replied to it of what was seen of an office.
//!
//! A target is seen as its bytes, and what it asks for is a function of them. A reply is a status and a body. The crate above
//! uses that its lists, its events and its numbers are those of the table that was seen, by the definitions of `operator_view`
//! and of this crate, and that nothing here changes anything.
#![tactic(auto)]

mod admin_refusal;
mod admin_reply;
mod admin_request;
mod causes;
mod duration_table;
pub mod examples;
mod history;
mod ids;
mod judged_table;
mod judging;
mod kept;
mod lines;
mod list_reading;
mod lists;
mod measuring;
mod metric;
mod metrics;
mod metrics_text;
mod name;
mod page;
mod parameters;
mod phase_lines;
mod phase_memory;
mod port_table;
mod query;
mod reading;
mod resource;
mod retry_refusal;
mod retry_replies;
mod retrying;
mod sample;
mod settings;
mod spans;
mod stalled;
mod table;
mod table_words;
mod telling;
mod value;
mod verdict;
mod words;

pub use admin_refusal::AdminRefusal;
pub use admin_reply::{AdminReply, Media};
pub use admin_request::AdminRequest;
pub use history::History;
pub use ids::read_id;
pub use kept::Kept;
pub use list_reading::{ListError, MOST_LIST, brings_list, read_list};
pub use lists::{event_reply, events_reply, records_reply};
pub use measuring::{ClockSet, Measures};
pub use phase_memory::{PhaseMemory, SeenPhase};
pub use reading::read;
pub use retry_refusal::RetryRefusal;
pub use retry_replies::{again_reply, left_reply, refusal_reply, unaccepted_reply};
pub use retrying::{failed_payload, record_named};
pub use sample::{Sample, sample_of};
pub use telling::{Baseline, tell, tell_at_once};
pub use verdict::{ToldLine, Verdict, list_reply};
