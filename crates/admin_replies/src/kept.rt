// What an operator's port keeps of its looks.
ghost use Rattle.std.specs.Prelude.{◌≡◌};

use crate::history::History;
use crate::phase_memory::{PhaseMemory, SeenPhase};

/// What an operator's port keeps of its looks, beside the counts by which a verdict is found.
#[derive(Drop)]
pub struct Kept {
    /// The numbers of the last minutes.
    pub history: History,
    /// The phases of the environments.
    pub memory: PhaseMemory,
}

impl Kept {
    /// The phases of the environments, in the order of their numbers.
    pub(crate) fn phases(&self) -> &[SeenPhase]
        ensures { result.now ≡ self.now.memory.seen.items }
    {
        self.memory.seen.as_slice()
    }
}
