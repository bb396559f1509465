//! The ways between HTTP and the broker's calls: which call a request is, or the first check that refuses it, and the
//! reply of an answer, byte for byte.
//!
//! A call is seen as the record of its parts, a reply as its status, its headers as names and values, and its body. The
//! crates above use that `read_request` gives exactly the call, which keeps to the settings, or the first check that
//! fails, and `reply_text` exactly the reply. Both refuse nothing else but want of memory.
#![tactic(auto)]

mod answer;
mod bodies;
mod body;
mod call;
mod calls;
mod checks;
mod dialect;
mod drafts;
pub mod examples;
mod features;
mod functions;
mod headers;
mod ids;
mod object;
mod paths;
mod reading;
mod refusal;
mod reply;
mod replying;
mod route;
mod routing;
mod texts;
mod unanswered;

pub use answer::{Answer, ShutdownReason};
pub use body::Body;
pub use call::Call;
pub use dialect::{Audience, Description, Dialect, Stream};
pub use reading::read_request;
pub use refusal::{Refusal, RequestError};
pub use reply::{Headers, Reply};
pub use replying::{reply_text, unavailable, with_request_id};
