//! Environments: who polls one, which event runs in it, and when it can be given the next.
//!
//! What is meant is said over the list of all the calls that an environment accepted. The crates above use that an
//! environment which stands for a list accepts exactly what is allowed after it, answers exactly the polls that the
//! list says, and then stands for the list with that call.
#![tactic(auto)]

mod answer;
mod call;
mod calls;
mod env;
pub mod examples;
mod judging;
pub mod laws;
mod phase;
mod refusal;
mod steps;
mod watching;

pub use answer::{PollAnswer, Reason};
pub use call::{EnvCall, Party, Waiter};
pub use calls::Answered;
pub use env::Env;
pub use judging::MOST_EXTENSIONS;
pub use phase::Phase;
pub use refusal::{EnvError, Refusal};
