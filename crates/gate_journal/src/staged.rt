// A frame that is written and not opened.
ghost use Rattle.std.specs.Prelude.{◌≡◌};

/// A frame behind a journal's gate, which is closed: its commands are part of the log once that gate is opened.
#[derive(Clone, Copy)]
pub struct Staged {
    /// How many sectors it takes: that of its gate, and those of its body.
    pub(crate) sectors: u64,
    /// How many commands it has.
    pub(crate) count: u64,
}

impl Staged {
    ghost use Rattle.gate_journal.specs.Staged.{count_of};

    /// How many commands it has.
    pub fn count(&self) -> u64
        ensures { result ≡ count_of self.now }
    {
        self.count
    }
}
