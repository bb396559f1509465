// How many desks there are: as many as the ledger has parts.
ghost use Rattle.std.specs.Prelude.{◌≡◌, ◌<◌};

use std::marker::PhantomData;
use std::sync::ledger::Ledger;

/// How many desks an office has.
#[derive(Drop)]
pub(crate) struct DeskCount<L: Ledger> {
    count: u64,
    of: PhantomData<L>,
    ghost parts: { count ≡ L.parts },
    ghost some: { 0 < L.parts },
}

impl<L: Ledger> DeskCount<L> {
    /// As many as the ledger has parts.
    pub(crate) fn new(count: u64) -> DeskCount<L>
        requires parts { count ≡ L.parts }
        requires some { 0 < count }
    {
        DeskCount {
            count,
            of: PhantomData,
        }
    }

    /// How many.
    pub(crate) fn count(&self) -> u64
        ensures is { result ≡ L.parts }
        ensures some { 0 < result }
    {
        self.count
    }
}
