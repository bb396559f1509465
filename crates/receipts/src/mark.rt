// What an office keeps of a command.
ghost use Rattle.std.specs.Prelude.{◌≡◌};
ghost use Rattle.receipts.specs.Marks.{mark_of};

use crate::opening::{GoneTable, OpeningTrace};
use hall_core::Issued;
use invoke_records::{Kind, Snapshot};
use std::snapshot::Snapshot as Seen;

/// That a call of a desk issued a command: the command's number, kind, event and moment, in milliseconds since 1970.
#[derive(Clone, Copy, PartialEq, Eq)]
pub struct Mark {
    pub number: u64,
    /// The number of the desk.
    pub desk: u64,
    pub kind: Kind,
    pub id: [u8; 16],
    pub time: u64,
}

impl Mark {
    /// The mark of a command that this desk's call issued.
    pub(crate) fn of(issued: Issued, desk: u64) -> Mark
        ensures { result ≡ mark_of desk issued }
    {
        let id = issued.id;
        Mark {
            number: issued.number,
            desk,
            kind: issued.kind,
            id,
            time: issued.time,
        }
    }
}

/// What is kept of a mark: proofs see the mark in it, and it need not have the mark's bytes.
pub trait Trace: Drop {
    ghost use Rattle.receipts.specs.declared.mark.Mark.{Mark};

    /// What is kept beside the marks of the table at the opening.
    type Opening: OpeningTrace;

    /// The mark.
    ghost mark: { Self → Mark };

    /// What is kept of this mark.
    fn of(made: &Mark) -> Self
        ensures { mark result ≡ made.now };
}

impl Trace for Mark {
    type Opening = Snapshot;

    ghost mark = { λ kept. kept };

    fn of(made: &Mark) -> Mark {
        *made
    }
}

/// A trace that may go to other threads.
pub trait SharedTrace: Trace + Send + Sync {}

impl SharedTrace for Mark {}

/// A mark that proofs alone see. It has no bytes.
#[derive(Drop)]
pub struct Gone {
    seen: Seen<Mark>,
}

impl Trace for Gone {
    type Opening = GoneTable;

    ghost mark = { λ gone. gone.seen.value };

    fn of(made: &Mark) -> Gone {
        Gone {
            seen: Seen::of(made),
        }
    }
}

impl SharedTrace for Gone {}
