// The disk of a case, and when its device is to fail.
use case_runner::Words;
use sector_disk::{CallKind, FaultOnceDisk, FuseDisk, MemDisk};

/// The disk of every case. Neither wrapper fails unless the case says so.
pub type CaseDisk = FuseDisk<FaultOnceDisk<MemDisk>>;

/// When the device of a disk is to fail.
#[derive(Clone, Copy)]
pub struct Failures {
    passes: u64,
    kind: CallKind,
    call: u64,
}

/// A device that does not fail.
pub const SOUND: Failures = Failures {
    passes: u64::MAX,
    kind: CallKind::Reads,
    call: 0,
};

/// `[fuse N] [fault reads|changes K]`
pub fn read_failures(words: &mut Words) -> Failures {
    let mut failures = SOUND;
    if words.takes("fuse") {
        failures.passes = words.number();
    }
    if words.takes("fault") {
        match words.word() {
            "reads" => {}
            "changes" => failures.kind = CallKind::Changes,
            _ => words.refuse(),
        }
        failures.call = words.number();
    }
    failures
}

/// A disk in memory whose device fails so.
pub fn wrapped(disk: MemDisk, failures: Failures) -> CaseDisk {
    let once = FaultOnceDisk::new(disk, failures.kind, failures.call);
    FuseDisk::new(once, failures.passes)
}

/// The disk in memory itself.
pub fn unwrapped(disk: CaseDisk) -> MemDisk {
    disk.into_inner().into_inner()
}
