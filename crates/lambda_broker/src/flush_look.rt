// Looking whether a flush is under way for long.

/// From how many looks on, a second apart, a flush takes long.
const LONG: u64 = 5;

/// What a look at a flush shows.
#[derive(Clone, Copy, PartialEq, Eq)]
pub(crate) enum FlushSight {
    /// No flush takes long.
    Short,
    /// One takes long since this look.
    Long,
    /// It does still.
    StillLong,
    /// One that took long has ended.
    Ended,
}

/// The flush that was under way at the last look, and how many looks ago it was seen first.
#[derive(Clone, Copy)]
pub(crate) struct FlushLook {
    flush: Option<u64>,
    looks: u64,
}

impl FlushLook {
    /// None was seen.
    pub(crate) fn new() -> FlushLook {
        FlushLook {
            flush: None,
            looks: 0,
        }
    }

    /// For how many seconds a flush has been under way that takes long; else 0.
    pub(crate) fn seconds(&self) -> u64 {
        if LONG <= self.looks { self.looks } else { 0 }
    }

    /// Whether the flush that is under way was at an earlier look, too.
    pub(crate) fn is_same(&self) -> bool {
        0 < self.looks
    }

    /// Looks at the number of the flush that is under way, if one is.
    pub(crate) fn look(&mut self, flush: Option<u64>) -> FlushSight {
        let was_long = LONG <= self.looks;
        if flush.is_some() && flush == self.flush {
            self.looks = self.looks.saturating_add(1);
        } else {
            self.looks = 0;
        }
        self.flush = flush;
        match (was_long, LONG <= self.looks) {
            (false, false) => FlushSight::Short,
            (false, true) => FlushSight::Long,
            (true, true) => FlushSight::StillLong,
            (true, false) => FlushSight::Ended,
        }
    }
}
