//! The claim of a disk: a sector that no version of the format uses, who stands in it, and how it is looked at.
//!
//! A disk of 8 n + 1 sectors has one more than both segments take, which begins a page. Whoever serves a disk may claim it there,
//! and looks at it behind each barrier (`WatchedDisk`). The crates above use that a barrier of such a disk succeeds only with that
//! look, and that `look` asks the device. `a_takeover_loses_nothing` says what holds of two that serve one volume, each by its rule.
#![tactic(auto)]

mod claiming;
mod file_volume;
mod holding;
mod laws;
mod looking;
mod memory_volume;
mod place;
mod putting;
mod settled;
mod standing;
mod token;
mod volume;
mod watch;
mod watched_disk;

pub use claiming::{ClaimError, Claimed, claim};
pub use file_volume::FileVolume;
pub use holding::{Holding, SharedHolding};
pub use laws::a_takeover_loses_nothing;
pub use looking::look;
pub use memory_volume::MemVolume;
pub use place::claim_sector;
pub use standing::{holder, unclaim};
pub use token::Token;
pub use volume::Volume;
pub use watch::Watch;
pub use watched_disk::WatchedDisk;
