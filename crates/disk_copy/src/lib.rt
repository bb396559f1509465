//! Copying all events of an opened broker to a new disk, whose settings allow all that the old ones do.
//!
//! The crates above use that the new disk goes on with each history of the broker: it is legal under the new settings, which
//! stand for the same table, and each image of the new disk is a legal stop of it with its whole length durable. At each
//! moment of the copy a new disk that was not formatted is still none, or has it all.
#![tactic(auto)]

mod change;
mod copying;
mod error;
mod growing;
mod laws;

pub use change::{Change, ChangeError};
pub use copying::copy;
pub use error::CopyError;
pub use growing::grown_settings;
pub use laws::{larger_limits_keep_histories, larger_limits_keep_tables};
