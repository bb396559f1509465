//! What is served once the disk of a broker is gone, so that what was told can be saved.
//!
//! Each request is refused, but for two: the operator's port tells the metrics by which an alert comes, and the callers' port takes the
//! request that ends the program though its file is lost by that. The crate above serves this behind a front that has ended.
#![tactic(auto)]

mod held;
mod replies;
mod saving;

pub use saving::{Saving, wait_to_lose};
