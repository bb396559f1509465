// What an operator is shown of a hall.
ghost use Rattle.std.specs.Prelude.{IfOk};
ghost use Rattle.hall_core.specs.Hall.{view_of};
ghost use Rattle.hall_core.specs.HallStatus.{Shows};

use crate::hall::Hall;
use crate::seeking::{Sought, numbers_for, rows_for};
use broker_core::Issuer;
use hall_plans::EnvironmentStatus;
use invoke_records::Rows;
use operator_view::Tally;
use retry_rules::RetryPolicy;
use std::alloc::AllocError;

/// What is shown of a hall at a moment.
#[derive(Drop)]
pub struct HallStatus {
    /// How many commands were issued.
    pub issued: u64,
    /// How many of them are durable.
    pub durable: u64,
    /// What is in force for the events that are accepted next.
    pub policy: RetryPolicy,
    /// The numbers of the table after all that was issued, where they were sought, else those of no event.
    pub tally: Tally,
    /// What was sought of that table.
    pub sought: Sought,
    /// The rows that were sought, else none.
    pub rows: Rows,
    pub open_slots: usize,
    /// One for each environment, in the order of their numbers.
    pub environments: Vec<EnvironmentStatus>,
    /// A request asked the hall to stop.
    pub is_stopping: bool,
}

impl<I: Issuer> Hall<I> {
    /// What an operator is shown of it: the numbers of the table after all that was issued, at this moment, in milliseconds since
    /// 1970, and its rows, as far as they are sought, how many commands are durable, and its slots and environments. It changes
    /// nothing. Where one event or the first that ended are sought, it looks at no other.
    /// No row is copied but those that are sought, and of these no byte of a payload. It is refused by want of memory alone.
    pub fn look(&self, sought: Sought, at: u64) -> Result<HallStatus, AllocError>
        // claim: An operator is shown what he seeks of a hall's table, its numbers, all its rows, one event's or those of the first
        // that ended, its policy and durable number, a count of open slots, whether it stops, and each environment by its calls.
        ensures { IfOk result (Shows (view_of I.view self.now) sought at) }
    {
        let table = self.issuer.table();
        let rows = rows_for(self.alloc, table, sought)?;
        let environments = self.environments.statuses()?;
        Ok(HallStatus {
            issued: table.number(),
            durable: self.issuer.durable().number(),
            policy: table.policy(),
            tally: numbers_for(table, sought, at),
            sought,
            rows,
            open_slots: self.open_slots(),
            environments,
            is_stopping: self.stops,
        })
    }
}
