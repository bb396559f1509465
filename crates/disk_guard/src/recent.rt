// What is watched of what was written a while ago.
ghost use Rattle.std.specs.Prelude.{◌≡◌, ◌≢◌, ◌<◌, ◌%◌, List, ℕ, Some, None, slice_index_or, true, false, IfSome};
ghost use Rattle.disk_guard.specs.declared.marks.Mark.{Mark};
ghost use Rattle.std.specs.List.{All};
ghost use Rattle.disk_guard.specs.Marks.{AreRecentRight, IsRight, KeepsAt, LiesWithin, Outlives, SectorsDiffer, StandsIn};

use crate::marks::{Mark, shows_other};
use sector_disk::SECTOR_SIZE;

/// How many marks are kept.
pub(crate) const MOST: usize = 64;

/// Marks of what was written, the last ones of those that were due. Each is where little is written. Where much is, each second one is, or
/// each fourth, and so on, so that they reach back to the last look.
#[derive(Clone, Copy)]
pub(crate) struct Recent {
    marks: [Option<Mark>; MOST],
    // How many marks were kept.
    kept: usize,
    // How many writes there were since the last look, and that each of 2^spread is due.
    written: u64,
    spread: u32,
}

// Whether some of `count` sectors from `at` on is a mark's own.
fn touches(own: &Option<Mark>, at: u64, count: u64) -> bool
    ensures outlives { result ≡ false → Outlives at count own.now }
    ensures within { result ≡ true → IfSome own.now (λ mark. LiesWithin at count mark.sector) }
{
    match own {
        Some(mark) => mark.outside(at, count).is_none(),
        None => false,
    }
}

// Keeps a mark in this place.
fn put(marks: &mut [Option<Mark>; MOST], place: usize, mark: Mark)
    requires { place < 64 }
    ensures right { (content : List ℕ) → IsRight content (Some mark) → All (IsRight content) marks.old → All (IsRight content) marks.new }
    ensures kept { slice_index_or marks.new place None ≡ Some mark }
{
    marks[place] = Some(mark);
}

// What stands in `count` sectors from `at` on may be another one from now on.
fn forget_in(marks: &mut [Option<Mark>; MOST], at: u64, count: u64)
    ensures right { (old new : List ℕ) → All (IsRight old) marks.old → SectorsDiffer at count old new → All (IsRight new) marks.new }
{
    for i in 0..MOST {
        if touches(&marks[i], at, count) {
            marks[i] = None;
        }
    }
}

impl Recent {
    /// None is kept.
    pub(crate) fn new() -> Recent
        ensures { (content : List ℕ) → AreRecentRight content result }
    {
        Recent {
            marks: [None; MOST],
            kept: 0,
            written: 0,
            spread: 0,
        }
    }

    /// What stands in `count` sectors from `at` on may be another one from now on.
    pub(crate) fn forget(&mut self, at: u64, count: u64)
        ensures right { (old new : List ℕ) → AreRecentRight old self.old → SectorsDiffer at count old new → AreRecentRight new self.new }
    {
        forget_in(&mut self.marks, at, count);
    }

    // Keeps a mark in the oldest one's place. The more are kept, the fewer are due until the next look.
    fn keep(&mut self, mark: Mark)
        ensures right { (content : List ℕ) → IsRight content (Some mark) → AreRecentRight content self.old → AreRecentRight content self.new }
        ensures kept { KeepsAt (self.old.kept % 64) self.new mark }
    {
        put(&mut self.marks, self.kept % MOST, mark);
        self.kept = self.kept.wrapping_add(1);
        if self.kept % (MOST / 2) == 0 {
            self.spread = self.spread.saturating_add(1);
        }
    }

    /// This was written. What is written first behind a look is kept.
    pub(crate) fn note(&mut self, mark: Mark)
        ensures right { (content : List ℕ) → IsRight content (Some mark) → AreRecentRight content self.old → AreRecentRight content self.new }
        ensures first { self.old.written ≡ 0 → KeepsAt (self.old.kept % 64) self.new mark }
    {
        let is_due = self.written == 0 || self.spread <= self.written.trailing_zeros();
        self.written = self.written.wrapping_add(1);
        if is_due {
            self.keep(mark);
        }
    }

    /// It was looked. As many writes are expected until the next look as there were since the last one.
    pub(crate) fn turn(&mut self)
        ensures same { self.new.marks ≡ self.old.marks }
        ensures begins { self.new.written ≡ 0 }
    {
        let many = self.written / MOST as u64;
        self.spread = u64::BITS.saturating_sub(many.leading_zeros());
        self.written = 0;
    }

    /// The mark in this place, if there is one.
    pub(crate) fn nth(&self, place: usize) -> Option<Mark>
        ensures right { (content : List ℕ) → AreRecentRight content self.now → IsRight content result }
        ensures kept { (mark : Mark) → place < 64 → KeepsAt place self.now mark → result ≡ Some mark }
    {
        if place < MOST {
            self.marks[place]
        } else {
            None
        }
    }

    /// Whether other bytes stand now where this mark is kept still.
    pub(crate) fn shows_other(&self, mark: &Mark, shown: &[u8; SECTOR_SIZE]) -> bool
        ensures right { (content : List ℕ) → AreRecentRight content self.now → StandsIn content mark.now.sector shown.now → result ≡ false }
        ensures seen { (place : ℕ) → place < 64 → KeepsAt place self.now mark.now → mark.now.bytes ≢ shown.now → result ≡ true }
    {
        for i in 0..MOST {
            if shows_other(&self.marks[i], mark, shown) {
                return true;
            }
        }
        false
    }
}
