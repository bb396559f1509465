//! Disks of sectors of 512 bytes: what a read gives, and what a stop may leave.
//!
//! A disk is seen as a `DiskView`: its content, the images that a stop may leave now and at each moment since an earlier
//! one, and whether it is honest. The crates above rest on `Disk` alone, with honesty as the premise of each clause on
//! bytes, and state their promises on stops as `LeavesOnly`. `MemDisk` is honest, and can tear. Of three wrappers two fail,
//! and `CountingDisk` counts what is written.
//! `FileDisk` is honest where its `RandomAccessFile` is: `MemFile` is, and of a file of the system nothing proves it.
#![tactic(auto)]

mod counting;
mod disk;
mod fault_once;
mod file;
mod fuse;
mod logged_file;
mod making;
mod memory;
mod memory_file;
mod random_access;
mod replay;
mod std_file;
mod written;

pub use counting::CountingDisk;
pub use disk::{Disk, Fault, SECTOR_SIZE};
pub use fault_once::{CallKind, FaultOnceDisk};
pub use file::{FileDisk, FileError};
pub use fuse::FuseDisk;
pub use logged_file::{FaultLog, FileCall, LoggedFile};
pub use making::Place;
pub use memory::MemDisk;
pub use memory_file::MemFile;
pub use random_access::RandomAccessFile;
pub use std_file::{lock_file, lock_file_read_only};
pub use written::Written;
