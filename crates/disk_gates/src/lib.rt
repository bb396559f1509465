//! What the gates of a disk tell before it is opened or made zeros: a later version of the format, or somebody in its claim; and how
//! they are closed.
//!
//! A disk is seen by the bytes of an image. The crate above uses that both are told just where the bytes say so, and that gates are
//! closed in an order in which a stop leaves no older segment alone.
#![tactic(auto)]

mod claims;
mod closing;
mod gates;
mod versions;

pub use claims::is_claimed;
pub use closing::{close_gates, order_of};
pub use gates::LEAST_SECTORS;
pub use versions::is_newer_disk;
