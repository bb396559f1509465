//! Steps of the worked cases on a disk in memory, on its journal, and on what issues commands; and the world of a case, over
//! whatever a program opens on its disk.
#![tactic(auto)]

mod audits;
mod devices;
mod disks;
mod issuing;
mod journals;
mod memory;
mod migrating;
pub mod refusals;
mod sizes;
mod world;

pub use devices::{CaseDisk, SOUND, read_failures, wrapped};
pub use disks::{disk_step, read_choice};
pub use issuing::{broker_step, issuer_step, keep, open_broker};
pub use memory::format_disk;
pub use world::{Base, Stage, World};
