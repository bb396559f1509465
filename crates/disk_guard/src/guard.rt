// What who serves a disk and who looks at it share.
use crate::identity::DiskSight;
use crate::marks::{Mark, Marks};
use sector_disk::SECTOR_SIZE;
use std::alloc::{AllocError, Global};
use std::sync::atomic::{AtomicBool, AtomicU8, AtomicU64, Ordering};
use std::sync::{Arc, Mutex, Wait};

const THERE: u8 = 0;

const GONE: u8 = 1;

const REPLACED: u8 = 2;

const CUT: u8 = 3;

const OVERWRITTEN: u8 = 4;

/// What became of a disk that is served, and whether a call of it is under way, as all who share it see it. Once it is not there any
/// more, it is used no more.
#[derive(Drop)]
pub struct Guard {
    sight: AtomicU8,
    /// How often a call began or ended.
    turns: AtomicU64,
    marks: Mutex<Marks>,
    /// Whether something was not noted in the marks, since somebody looked at them.
    has_missed: AtomicBool,
}

impl Guard {
    /// The disk is there, and no call is under way.
    pub fn new(alloc: Global) -> Result<Arc<Guard>, AllocError> {
        let guard = Guard {
            sight: AtomicU8::new(THERE),
            turns: AtomicU64::new(0),
            marks: Mutex::new(Marks::new()),
            has_missed: AtomicBool::new(false),
        };
        Ok(Arc::new(alloc, guard)?)
    }

    /// This became of the disk. Where it is not there any more, that stays so, and the first that was seen stays.
    pub fn note(&self, sight: DiskSight) {
        let seen = match sight {
            DiskSight::There => return,
            DiskSight::Gone => GONE,
            DiskSight::Replaced => REPLACED,
            DiskSight::Cut => CUT,
            DiskSight::Overwritten => OVERWRITTEN,
        };
        let _ = self
            .sight
            .compare_exchange(THERE, seen, Ordering::SeqCst, Ordering::SeqCst);
    }

    /// What became of the disk.
    pub fn sight(&self) -> DiskSight {
        match self.sight.load(Ordering::SeqCst) {
            THERE => DiskSight::There,
            GONE => DiskSight::Gone,
            REPLACED => DiskSight::Replaced,
            CUT => DiskSight::Cut,
            _ => DiskSight::Overwritten,
        }
    }

    /// Whether it is not to be used any more.
    pub fn is_shut(&self) -> bool {
        self.sight() != DiskSight::There
    }

    // A call begins, or ends.
    pub(crate) fn turn(&self) {
        self.turns.fetch_add(1, Ordering::SeqCst);
    }

    /// The number of the read, write or flush that is under way, if one is: two looks that give the same one saw the same call.
    pub fn call(&self) -> Option<u64> {
        let turns = self.turns.load(Ordering::SeqCst);
        if turns % 2 == 1 { Some(turns) } else { None }
    }

    // Another one may stand from now on in `count` sectors from `at` on. Nobody is waited for: where somebody looks at the marks, they
    // count no more.
    pub(crate) fn forget(&self, at: u64, count: u64) {
        match self.marks.try_lock() {
            Some(mut marks) => marks.forget(at, count),
            None => self.has_missed.store(true, Ordering::SeqCst),
        }
    }

    // These bytes were written.
    pub(crate) fn note_write(&self, at: u64, bytes: &[u8]) {
        if let Some(mut marks) = self.marks.try_lock() {
            marks.note_write(at, bytes);
        }
    }

    // These bytes were read, in the second half of the disk or not.
    pub(crate) fn note_read(&self, is_high: bool, at: u64, bytes: &[u8]) {
        if let Some(mut marks) = self.marks.try_lock() {
            marks.note_read(is_high, at, bytes);
        }
    }

    /// The mark that is watched in this place, of `WATCHED`, if there is one: a sector, with the bytes that stand there.
    pub fn mark<R: Wait>(&self, rt: &R, place: usize) -> Option<Mark> {
        let mut marks = self.marks.lock(rt);
        if self.has_missed.swap(false, Ordering::SeqCst) {
            *marks = Marks::new();
        }
        marks.nth(place)
    }

    /// Whether other bytes were shown where a mark is watched still: the disk was overwritten.
    pub fn is_overwritten<R: Wait>(&self, rt: &R, mark: &Mark, shown: &[u8; SECTOR_SIZE]) -> bool {
        let marks = self.marks.lock(rt);
        !self.has_missed.load(Ordering::SeqCst) && marks.is_overwritten(mark, shown)
    }

    /// It was looked at the marks: what is written from now on is written since.
    pub fn turn_marks<R: Wait>(&self, rt: &R) {
        self.marks.lock(rt).turn();
    }
}
