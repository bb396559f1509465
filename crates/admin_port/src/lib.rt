//! The operator's port of a broker: HTTP/1.1 on one port, for those who look and change nothing, unless they may act.
//!
//! A request looks at the office by its reader. What was seen there is unreleased until all of it is durable, and the reply
//! is made of it then; some numbers of it are kept. Where an operator may act, each record of a list is collected by one call,
//! as a caller sends it, and each line is told as the hall replied. The crate above hands an `AdminPort` to the front, which
//! serves it beside its own ports, and uses that a reply tells of the view that its own future held back, by what is known of
//! the broker from its opening on.
#![tactic(auto)]

mod acts;
mod admin;
mod admin_context;
mod admin_response;
mod application;
mod asked;
mod collecting;
mod entry;
mod local;
mod memory;
mod pending_reply;
mod prompt_reply;
mod refusing;
mod retrying;
mod step;

pub use admin::{Admin, AdminPort, AdminServed};
