// What follows from the definitions alone, for the crates above.
ghost use Rattle.broker_core.specs.Splitting.{broker_of};
ghost use Rattle.receipts.specs.Advancing.{AdvancesTo};
ghost use Rattle.receipts.specs.Serving.{CommitsTo, HasServed};

use broker_core::{DiskHalf, Durable};
use hall_core::HallError;
use sector_disk::Disk;

/// A serving is any number of commits and advances: none at first, one more after others, and one serving after another.
pub fn a_serving_is_its_commits<D: Disk>(
    first: &DiskHalf<D>,
    then: &DiskHalf<D>,
    last: &DiskHalf<D>,
    told: &Result<Durable, HallError>,
)
    // claim: Any number of commits and advances takes nothing durable back. A crash at any moment since the first leaves a legal
    // stop of the half's history with what it took. The half broke only where the count of faults rose, or is at its
    // greatest.
    ensures none { HasServed D.view D.fault_count (broker_of first.now) (broker_of first.now) }
    ensures more { HasServed D.view D.fault_count (broker_of first.now) (broker_of then.now)
        → CommitsTo D.view D.fault_count (broker_of then.now) (broker_of last.now) told.now
        → HasServed D.view D.fault_count (broker_of first.now) (broker_of last.now) }
    ensures advanced { HasServed D.view D.fault_count (broker_of first.now) (broker_of then.now)
        → AdvancesTo D.view D.fault_count (broker_of then.now) (broker_of last.now) told.now
        → HasServed D.view D.fault_count (broker_of first.now) (broker_of last.now) }
    ensures both { HasServed D.view D.fault_count (broker_of first.now) (broker_of then.now)
        → HasServed D.view D.fault_count (broker_of then.now) (broker_of last.now)
        → HasServed D.view D.fault_count (broker_of first.now) (broker_of last.now) }
{
    let _ = first;
    let _ = then;
    let _ = last;
    let _ = told;
}
