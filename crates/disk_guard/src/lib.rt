//! A disk that is served, and whether it is still what its path names.
//!
//! What a file is known by is compared with what it was known by at the opening: a file that was removed, replaced or cut is no
//! place for what is to last. Nor is one in which other bytes stand than were written: a few sectors are watched for that. From then on
//! each call of a `GuardedDisk` fails, which until then does what the disk within does. Its guard tells, too, whether such a call is
//! under way. The crate above uses both: it looks once a second.
#![tactic(auto)]

mod guard;
mod guarded_disk;
mod identity;
mod marks;
mod recent;

pub use guard::Guard;
pub use guarded_disk::GuardedDisk;
pub use identity::{AtPath, DiskSight, Identity, identity_at, identity_of, sight_of};
pub use marks::{Mark, WATCHED};
