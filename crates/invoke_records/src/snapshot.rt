// The table of events at a moment.
ghost use Rattle.std.specs.Prelude.{◌≡◌, []};

use crate::EventRow;
use retry_rules::RetryPolicy;
use std::alloc::Global;
use std::marker::Model;

/// The greatest number of commands, 2^62.
pub const GREATEST_NUMBER: u64 = 4611686018427387904;

/// How many rows a snapshot may have.
pub const MOST_ROWS: u32 = 1024;

/// Rows of a snapshot.
#[derive(Drop)]
pub struct Rows {
    rows: Vec<EventRow>,
}

impl Model for Rows {
    ghost use Rattle.std.specs.Prelude.{List};
    ghost use Rattle.invoke_records.specs.declared.row.EventRow.{EventRow};

    ghost Value = { List EventRow };

    ghost view = { λ r. r.rows.items };
}

impl Rows {
    /// None. It takes no memory.
    pub fn empty(alloc: Global) -> Rows
        ensures { result ≡ [] }
    {
        Rows {
            rows: Vec::new(alloc),
        }
    }

    /// These rows. It takes no memory.
    pub fn from_vec(rows: Vec<EventRow>) -> Rows
        ensures { result ≡ rows.items }
    {
        Rows { rows }
    }

    /// The rows. It takes no memory.
    pub fn into_vec(self) -> Vec<EventRow>
        ensures { result.items ≡ self }
    {
        let Rows { rows } = self;
        rows
    }

    /// The rows, lent.
    pub fn as_slice(&self) -> &[EventRow]
        ensures { result.now ≡ self.now }
    {
        &self.rows
    }
}

/// The table of events after some number of commands.
#[derive(Drop)]
pub struct Snapshot {
    /// How many commands it stands for.
    pub number: u64,
    /// The last command's moment, 0 where there is none.
    pub last_moment: u64,
    /// What is in force for the events that are accepted next.
    pub policy: RetryPolicy,
    /// The events that are held, in the order of their acceptance.
    pub rows: Rows,
}
