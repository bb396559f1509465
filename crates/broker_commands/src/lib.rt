//! The commands of the program that wait for nobody, `serve` and `stop` aside: their words, what they do to a disk, and what is printed.
//!
//! It stands below the program and not above the front, which it need not wait for. The crate above reads a `Task` of the
//! command line, and uses that what is printed of a job ends with the status of what came of it.
#![tactic(auto)]

mod address;
mod argument;
mod auditing;
mod claims;
mod clock;
mod commands;
mod configured;
mod configuring;
mod contents;
mod copying;
mod formatting;
mod making;
mod migrating;
mod mounts;
mod opening;
mod printing;
mod probing;
mod progress;
mod prospects;
mod site;
mod telltale;
mod versions;
mod words;

pub use address::{Address, Stopping};
pub use auditing::{Audit, AuditError, AuditOutput, AuditRequest, More, OldDisk, audit_disk};
pub use claims::enter_claim;
pub use clock::now;
pub use configured::Configured;
pub use configuring::{ConfiguringError, NewPolicy, configure_disk};
pub use contents::ContentsError;
pub use copying::{Copied, CopyingError, NewCopy, NewLimits, copy_disk};
pub use formatting::{Function, NewDisk, NewDiskError, NumericSettings, make_disk};
pub use migrating::{Migrated, MigratingError, OldVersion, migrate_file};
pub use mounts::{Overlay, overlay_of};
pub use opening::{Device, DiskError, ToldDevice, check_size, open, open_device_by};
pub use printing::{
    DONE, USAGE, asks_for_version, print_fault, print_job, print_usage, refuse_for_memory,
};
pub use probing::Volume;
pub use progress::{DiskProgress, Progress};
pub use prospects::{Prospects, prospects_of};
pub use telltale::{Telltale, telltale_by, telltale_for};
pub use words::{Job, Task, read_task};
