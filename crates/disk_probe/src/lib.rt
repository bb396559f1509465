//! What can be known of a volume before it is trusted with a broker.
//!
//! `probe_disk` measures a disk, and looks at another attachment of it, the witness. It writes only where all is zeros: the crates above
//! use that a disk that holds anything is only read.
#![tactic(auto)]

mod error;
mod figuring;
mod measuring;
mod probing;
mod told;
mod witness;

pub use error::ProbeError;
pub use figuring::Figures;
pub use probing::probe_disk;
pub use told::Probe;
pub use witness::{Sight, Witnessed};
