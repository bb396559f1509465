// Copying an open broker to a new disk.
use broker_core::Broker;
use case_runner::{StepReply, TextBuffer, Words};
use disk_copy::{Change, CopyError, copy};
use disk_steps::{CaseDisk, read_failures, wrapped};
use retry_rules::BadSettings;
use sector_disk::{Disk, MemDisk};
use std::alloc::Global;

// `FIELD N`, if that field is named next.
fn limit<T: TryFrom<u64> + Drop>(words: &mut Words, field: &str) -> Option<T>
where
    T::Error: Drop,
{
    if !words.takes(field) {
        return None;
    }
    match T::try_from(words.number()) {
        Ok(number) => Some(number),
        Err(_) => {
            words.refuse();
            None
        }
    }
}

// `[environments N] [events N] [payload N] [response N]`: which limits the copy has in place of the disk's.
fn read_change(words: &mut Words) -> Change {
    Change {
        environments: limit(words, "environments"),
        events: limit(words, "events"),
        payload: limit(words, "payload"),
        response: limit(words, "response"),
        name: None,
        handler: None,
        arn: None,
    }
}

// Why a broker is not copied.
fn refusal(why: CopyError, answer: &mut TextBuffer) -> StepReply {
    match why {
        CopyError::BadSettings { field } => {
            answer.add_reason(&BadSettings { field });
            StepReply::RefusalTold
        }
        CopyError::Smaller { .. } => StepReply::Refused("smaller limit"),
        CopyError::TooSmall { least } => {
            answer.add_with("too small ", least);
            StepReply::RefusalTold
        }
        CopyError::BadTable => StepReply::Refused("bad table"),
        CopyError::OutOfMemory => StepReply::Refused("out of memory"),
        CopyError::Fault => StepReply::Refused("fault"),
    }
}

// Copies a broker, and whether the new disk was called.
fn copy_onto<D: Disk, E: Disk>(
    alloc: Global,
    broker: &Broker<D>,
    disk: &mut E,
    change: &Change,
    answer: &mut TextBuffer,
) -> (StepReply, bool) {
    match copy(alloc, broker, disk, change) {
        Ok(()) => (StepReply::Done, true),
        Err(why) => (refusal(why, answer), matches!(why, CopyError::Fault)),
    }
}

/// `SECTORS [fuse N] [fault ..] [environments N] [events N] [payload N] [response N]`: copies a broker to a disk of zeros,
/// which is given where it was called.
pub fn copy_to<D: Disk>(
    alloc: Global,
    broker: &Broker<D>,
    words: &mut Words,
    answer: &mut TextBuffer,
) -> (StepReply, Option<CaseDisk>) {
    let sectors = words.number();
    let failures = read_failures(words);
    let change = read_change(words);
    if words.are_bad() {
        return (StepReply::Unreadable, None);
    }
    let Ok(disk) = MemDisk::new(alloc, sectors) else {
        return (StepReply::NoMemory, None);
    };
    let mut disk = wrapped(disk, failures);
    let (reply, is_called) = copy_onto(alloc, broker, &mut disk, &change, answer);
    (reply, if is_called { Some(disk) } else { None })
}
