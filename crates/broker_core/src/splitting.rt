// Splitting a broker into the half that issues and the half that writes.
ghost use Rattle.std.specs.Prelude.{◌≡◌, [], IfOk, IfErr};
ghost use Rattle.broker_core.specs.Broker.{pending_of};
ghost use Rattle.broker_core.specs.Promises.{ForEachHistory};
ghost use Rattle.broker_core.specs.IssuerHalf.{half_view};
ghost use Rattle.broker_core.specs.Splitting.{Splits, IsSplitReason};

use crate::{Broker, DiskHalf, IssueHalf, SplitError, SplitFailure};
use async_core::Table;
use sector_disk::Disk;
use std::alloc::{AllocError, Global};

// An equal table in memory of its own.
fn copy_table(alloc: Global, table: &Table) -> Result<Table, AllocError>
    ensures { IfOk result (λ copy. copy ≡ table.now) }
{
    let settings = table.settings().copy()?;
    let snapshot = table.snapshot()?;
    Table::from_snapshot(alloc, snapshot, settings)
}

impl<D: Disk> Broker<D> {
    /// Splits a broker with nothing pending into two halves, each with a table of its own.
    ///
    /// It is refused, and hands the broker back: `Broken`, `OutOfMemory`.
    pub fn split(self) -> Result<(IssueHalf, DiskHalf<D>), SplitFailure<D>>
        requires { pending_of self ≡ [] }
        // claim: A broker with nothing pending is split into halves with equal tables, which stand for its history, or is
        // handed back.
        ensures ok { IfOk result (λ halves. Splits self halves.0 halves.1) }
        ensures stands { ForEachHistory D.view self (λ history. IfOk result (λ halves. (half_view halves.0).stands history)) }
        ensures same { IfErr result (λ failure. failure.broker ≡ self) }
        ensures reason { IfErr result (λ failure. IsSplitReason self failure.cause) }
    {
        if self.broken {
            let cause = SplitError::Broken;
            return Err(SplitFailure {
                cause,
                broker: self,
            });
        }
        let Ok(table) = copy_table(self.alloc, &self.table) else {
            let cause = SplitError::OutOfMemory;
            return Err(SplitFailure {
                cause,
                broker: self,
            });
        };
        let issue = IssueHalf {
            alloc: self.alloc,
            table,
            pending: Vec::new(self.alloc),
            durable: self.durable,
            lent: None,
            broken: false,
        };
        Ok((issue, DiskHalf { broker: self }))
    }
}
