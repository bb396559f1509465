//! The front: HTTP/1.1 on one port for callers and one for each environment.
//!
//! Each port has a thread of its own, on which each request becomes a call, is handed to the office and waits for its
//! reply. A committer writes what is pending outside the office's lock, and a ticker makes the moves
//! that are due. Beside its ports a front serves what the crate above brings along, an operator's port, which is given a reader
//! of the office and the callers' port to act at. The crate above uses `serve`; the loops of committer and ticker are calls of their own.
#![tactic(auto)]

mod acting;
mod arriving;
mod asking;
mod committing;
mod discarding;
mod drawing;
mod ending;
mod error;
mod front_state;
mod gates;
mod gathering;
pub mod laws;
mod opening;
mod port_application;
mod replying;
mod resets;
mod resting;
mod serving;
mod starting;
mod ticking;
mod tried;
mod wake;

pub use acting::CallersPort;
pub use commit_loop::{Gate, Turn, WhenPending};
pub use committing::Committer;
pub use discarding::Discard;
pub use ending::{FrontOver, TickerOver};
pub use error::ServeError;
pub use front_state::FrontState;
pub use serving::{Ending, Served, serve};
pub use ticking::tick_all;
