// What is watched of a disk while it is served: sectors, with the bytes that stand there.
ghost use Rattle.std.specs.Prelude.{◌≡◌, ◌<◌, ◌+◌, List, ℕ, Some, None, IfSome, IsNone, ◌≢◌, true, false};
ghost use Rattle.disk_guard.specs.declared.marks.Mark.{Mark};
ghost use Rattle.disk_guard.specs.Marks.{AreRight, IsRight, KeepsAt, KeepsFirst, LiesWithin, MarksFront, SectorsDiffer, StandFrom, StandsIn, is_header, says_something, is_telling};

use crate::recent::{MOST, Recent};
use sector_disk::SECTOR_SIZE;

/// How many places have a mark that is watched.
pub const WATCHED: usize = NEWEST + MOST;
/// How many of them are not of what was written a while ago.
const NEWEST: usize = 3;
/// What a header begins with. Those of two disks may be alike.
const LETTERS: &[u8; 7] = b"AINVOKE";

/// A sector of a disk, and the bytes that stand there.
#[derive(Clone, Copy)]
pub struct Mark {
    pub sector: u64,
    /// Which one it is of those that were made.
    pub number: u64,
    pub bytes: [u8; SECTOR_SIZE],
}

/// The sectors that are watched. Who overwrites a file in place, with an older state of it or with another disk, leaves other bytes in
/// one of them at least, unless all is written within a moment: whoever only watched what was written last would look at what the broker
/// wrote behind that.
#[derive(Clone, Copy)]
pub(crate) struct Marks {
    // How many marks were made.
    made: u64,
    // What was read last of the first half of the disk, and of the second.
    low: Option<Mark>,
    high: Option<Mark>,
    // What was written last, and what was written before.
    last: Option<Mark>,
    recent: Recent,
}

// Whether a sector begins as a header does.
fn is_header(sector: &[u8; SECTOR_SIZE]) -> bool
    ensures { result ≡ is_header sector.now }
{
    sector.starts_with(LETTERS)
}

// Whether one of these bytes is no zero.
fn says_something(bytes: &[u8]) -> bool
    ensures { result ≡ says_something bytes.now }
{
    bytes.iter().any(|byte| *byte != 0)
}

// Whether a sector tells one disk from another: gates and headers stand alike on many.
fn is_telling(sector: &[u8; SECTOR_SIZE]) -> bool
    ensures { result ≡ is_telling sector.now }
{
    !is_header(sector) && says_something(&sector[1..])
}

impl Mark {
    // A mark of the sector in front of these bytes, which stand on the disk from `at` on.
    fn of(at: u64, number: u64, bytes: &[u8]) -> Option<Mark>
        ensures right { (content : List ℕ) → StandFrom content at bytes.now → IsRight content result }
        ensures made { MarksFront at bytes.now result }
    {
        if bytes.len() < SECTOR_SIZE {
            return None;
        }
        let mut own = [0; SECTOR_SIZE];
        own.copy_from_slice(&bytes[..SECTOR_SIZE]);
        if !is_telling(&own) {
            return None;
        }
        Some(Mark {
            sector: at,
            number,
            bytes: own,
        })
    }

    // A mark of the first sector of these bytes, or else of the second, where it tells anything.
    fn within(at: u64, number: u64, bytes: &[u8]) -> Option<Mark>
        ensures right { (content : List ℕ) → StandFrom content at bytes.now → IsRight content result }
        ensures made { MarksFront at bytes.now result }
    {
        let front = Mark::of(at, number, bytes);
        if front.is_some() || bytes.len() < SECTOR_SIZE {
            return front;
        }
        Mark::of(at.checked_add(1)?, number, &bytes[SECTOR_SIZE..])
    }

    /// It, unless some of `count` sectors from `at` on is its own.
    pub(crate) fn outside(self, at: u64, count: u64) -> Option<Mark>
        ensures right { (old new : List ℕ) → IsRight old (Some self) → SectorsDiffer at count old new → IsRight new result }
        ensures same { IfSome result (λ mark. mark ≡ self) }
        ensures gone { IsNone result → LiesWithin at count self.sector }
    {
        if self.sector < at {
            return Some(self);
        }
        if count <= self.sector - at {
            return Some(self);
        }
        None
    }
}

// A mark, unless some of `count` sectors from `at` on is its own.
fn kept(mark: Option<Mark>, at: u64, count: u64) -> Option<Mark>
    ensures right { (old new : List ℕ) → IsRight old mark → SectorsDiffer at count old new → IsRight new result }
{
    mark?.outside(at, count)
}

/// Whether this is that mark, and other bytes stand there now.
pub(crate) fn shows_other(own: &Option<Mark>, mark: &Mark, shown: &[u8; SECTOR_SIZE]) -> bool
    ensures right { (content : List ℕ) → IsRight content own.now → StandsIn content mark.now.sector shown.now → result ≡ false }
    ensures seen { own.now ≡ Some mark.now → mark.now.bytes ≢ shown.now → result ≡ true }
{
    match own {
        Some(own) => {
            own.number == mark.number && own.sector == mark.sector && own.bytes != *shown
        }
        None => false,
    }
}

impl Marks {
    /// None is watched.
    pub(crate) fn new() -> Marks
        ensures { (content : List ℕ) → AreRight content result }
    {
        Marks {
            made: 0,
            low: None,
            high: None,
            last: None,
            recent: Recent::new(),
        }
    }

    /// What stands in `count` sectors from `at` on may be another one from now on.
    pub(crate) fn forget(&mut self, at: u64, count: u64)
        // claim: What is watched stands on the disk, whatever was written meanwhile.
        // [Marks::note_read, Marks::note_write, Marks::turn: right]
        ensures right { (old new : List ℕ) → AreRight old self.old → SectorsDiffer at count old new → AreRight new self.new }
    {
        self.low = kept(self.low, at, count);
        self.high = kept(self.high, at, count);
        self.last = kept(self.last, at, count);
        self.recent.forget(at, count);
    }

    // A mark of these bytes, the next one.
    fn make(&mut self, at: u64, bytes: &[u8]) -> Option<Mark>
        ensures right { (content : List ℕ) → StandFrom content at bytes.now → IsRight content result }
        ensures same { (content : List ℕ) → AreRight content self.old → AreRight content self.new }
        ensures made { MarksFront at bytes.now result }
        ensures recent { self.new.recent ≡ self.old.recent }
    {
        self.made = self.made.wrapping_add(1);
        Mark::within(at, self.made, bytes)
    }

    /// These bytes were read from the sector `at` on, which lies in the second half of the disk or not.
    pub(crate) fn note_read(&mut self, is_high: bool, at: u64, bytes: &[u8])
        ensures right { (content : List ℕ) → AreRight content self.old → StandFrom content at bytes.now → AreRight content self.new }
    {
        let Some(mark) = self.make(at, bytes) else {
            return;
        };
        if is_high {
            self.high = Some(mark);
        } else {
            self.low = Some(mark);
        }
    }

    /// These bytes were written from the sector `at` on.
    pub(crate) fn note_write(&mut self, at: u64, bytes: &[u8])
        ensures right { (content : List ℕ) → AreRight content self.old → StandFrom content at bytes.now → AreRight content self.new }
        ensures watched { MarksFront at bytes.now self.new.last }
        ensures first { KeepsFirst bytes.now self.old.recent self.new }
    {
        let Some(mark) = self.make(at, bytes) else {
            return;
        };
        self.last = Some(mark);
        self.recent.note(mark);
    }

    /// It was looked: what is written from now on is written since.
    pub(crate) fn turn(&mut self)
        ensures right { (content : List ℕ) → AreRight content self.old → AreRight content self.new }
        ensures last { self.new.last ≡ self.old.last }
        ensures same { self.new.recent.marks ≡ self.old.recent.marks }
        ensures begins { self.new.recent.written ≡ 0 }
    {
        self.recent.turn();
    }

    /// The mark that is watched in this place, of `WATCHED`, if there is one.
    pub(crate) fn nth(&self, place: usize) -> Option<Mark>
        ensures right { (content : List ℕ) → AreRight content self.now → IsRight content result }
        ensures last { place ≡ 0 → result ≡ self.now.last }
        ensures recent { (n : ℕ) (mark : Mark) → place ≡ 3 + n → n < 64 → KeepsAt n self.now.recent mark → result ≡ Some mark }
    {
        match place {
            0 => self.last,
            1 => self.low,
            2 => self.high,
            _ => self.recent.nth(place.saturating_sub(NEWEST)),
        }
    }

    /// Whether other bytes stand now where a mark is watched still.
    pub(crate) fn is_overwritten(&self, mark: &Mark, shown: &[u8; SECTOR_SIZE]) -> bool
        // claim: A disk on which all stands that was written is never told to be overwritten. One is where a mark that is watched
        // still does not stand there.
        ensures right { (content : List ℕ) → AreRight content self.now → StandsIn content mark.now.sector shown.now → result ≡ false }
        ensures seen { self.now.last ≡ Some mark.now → mark.now.bytes ≢ shown.now → result ≡ true }
        ensures recent { (n : ℕ) → n < 64 → KeepsAt n self.now.recent mark.now → mark.now.bytes ≢ shown.now → result ≡ true }
    {
        shows_other(&self.low, mark, shown)
            || shows_other(&self.high, mark, shown)
            || shows_other(&self.last, mark, shown)
            || self.recent.shows_other(mark, shown)
    }
}
