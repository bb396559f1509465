//! Steps of the worked cases on requests, replies and environments: none of them needs a disk.
#![tactic(auto)]

mod environments;
mod replies;
mod requests;

pub use environments::{environment_step, extensions_wanted};
pub use replies::{reply_step, tell_reply};
pub use requests::{dialect, read_call, request_step};
