// What an office keeps of the table at its opening.
ghost use Rattle.std.specs.Prelude.{◌≡◌, IfOk};

use async_core::Table;
use invoke_records::Snapshot;
use std::alloc::AllocError;
use std::snapshot::Snapshot as Seen;

/// What is kept of the table at an office's opening: proofs see what the table told in it, and it need not have its bytes.
pub trait OpeningTrace: Drop {
    ghost use Rattle.invoke_records.specs.declared.snapshot.Snapshot.{Snapshot};

    /// What the table told.
    ghost table: { Self → Snapshot };

    /// What is kept of this table. It is refused only for want of memory.
    fn of(found: &Table) -> Result<Self, AllocError>
        ensures { IfOk result (λ kept. table kept ≡ found.now.table) };
}

impl OpeningTrace for Snapshot {
    ghost table = { λ kept. kept };

    fn of(found: &Table) -> Result<Snapshot, AllocError> {
        found.snapshot()
    }
}

/// What is kept of the opening's table, where it may go to other threads.
pub trait SharedOpening: OpeningTrace + Send + Sync {}

impl SharedOpening for Snapshot {}

/// A table that proofs alone see. It has no bytes.
#[derive(Drop)]
pub struct GoneTable {
    seen: Seen<Table>,
}

impl OpeningTrace for GoneTable {
    ghost table = { λ gone. gone.seen.value.table };

    fn of(found: &Table) -> Result<GoneTable, AllocError> {
        Ok(GoneTable {
            seen: Seen::of(found),
        })
    }
}

impl SharedOpening for GoneTable {}
