//! What the bytes of a disk tell before it is opened or formatted: that it had another size, or that it is blank.
//!
//! Segment B begins in the middle of a disk. So a disk whose file or device was grown or cut misses it, and would be opened
//! by segment A alone, which may be the older one, or may have lost its last frames. A disk is seen by the bytes of an
//! image: where the one open segment begins, where its frames end, what stands behind them. The crates above use that
//! `resized` tells a displaced or a cut segment just where the image has one, and `is_blank` just whether it is all zeros.
#![tactic(auto)]

mod blank;
mod error;
mod frames;
mod piece;
mod resizing;
mod searching;
mod sectors;
mod segment;
mod told;

pub use blank::is_blank;
pub use error::ResizedError;
pub use resizing::resized;
pub use told::Resized;
