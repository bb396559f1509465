// Steps on a disk in memory itself, below what makes its device fail.
use crate::disks::read_choice;
use crate::refusals;
use case_runner::{StepReply, TextBuffer};
use checkpoint::format;
use retry_rules::Settings;
use sector_disk::{Disk, MemDisk};
use std::alloc::Global;
use table_steps::check;

/// Formats a disk.
pub fn format_disk<D: Disk>(
    alloc: Global,
    disk: &mut D,
    settings: &Settings,
    answer: &mut TextBuffer,
) -> StepReply {
    if settings.check().is_err() {
        return check(settings, answer);
    }
    match format(alloc, disk, settings) {
        Ok(()) => StepReply::Done,
        Err(why) => refusals::format(why, answer),
    }
}

/// `SECTORS`: stops the disk; an unsettled sector that is listed takes these bytes.
pub fn halt(alloc: Global, disk: MemDisk, text: &str) -> (StepReply, Option<MemDisk>) {
    let mut disk = disk;
    match read_choice(alloc, &mut disk, text) {
        Ok(choice) => (StepReply::Done, Some(disk.stop(&choice))),
        Err(reply) => (reply, Some(disk)),
    }
}
