// Steps that tell of a disk, before it is opened or formatted, whether it had another size and whether it is blank.
use case_runner::{StepReply, TextBuffer};
use resized_disk::{Resized, ResizedError, is_blank, resized};
use sector_disk::Disk;
use std::alloc::Global;

fn refusal(why: ResizedError) -> StepReply {
    match why {
        ResizedError::OutOfMemory => StepReply::NoMemory,
        ResizedError::Fault => StepReply::Refused("fault"),
    }
}

fn tell(told: Option<Resized>, answer: &mut TextBuffer) {
    match told {
        Some(Resized::Displaced { sectors }) => answer.add_with("displaced ", sectors),
        Some(Resized::Cut { sector }) => answer.add_with("cut ", sector),
        None => answer.add("none"),
    }
}

/// What tells that the disk had another size.
pub fn tell_resized<D: Disk>(alloc: Global, disk: &mut D, answer: &mut TextBuffer) -> StepReply {
    match resized(alloc, disk) {
        Ok(told) => {
            tell(told, answer);
            StepReply::Told
        }
        Err(why) => refusal(why),
    }
}

/// Whether the disk is blank.
pub fn tell_blank<D: Disk>(alloc: Global, disk: &mut D) -> StepReply {
    match is_blank(alloc, disk) {
        Ok(is_blank) => StepReply::yes_or_no(is_blank),
        Err(why) => refusal(why),
    }
}
