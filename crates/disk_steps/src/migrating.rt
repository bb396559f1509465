// The step that migrates a disk of version 1 of the format.
use crate::refusals;
use case_runner::{StepReply, TextBuffer};
use group_commit::{MigrateFailure, migrate};
use sector_disk::Disk;
use std::alloc::Global;

/// Migrates a disk, which comes back either way, and the answer.
pub fn migrate_disk<D: Disk>(alloc: Global, disk: D, answer: &mut TextBuffer) -> (D, StepReply) {
    match migrate(alloc, disk) {
        Ok(disk) => (disk, StepReply::Done),
        Err(MigrateFailure { cause, disk }) => (disk, refusals::migrate(cause, answer)),
    }
}
