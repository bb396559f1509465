// A barrier that succeeded, and what shows it.
ghost use Rattle.std.specs.Prelude.{◌≡◌, IfOk};
ghost use Rattle.sector_disk.specs.Disk.{IsSameDisk, HasCause, SettlesHonestly};
ghost use Rattle.disk_claim.specs.Settling.{told};

use sector_disk::{Disk, Fault};
use std::snapshot::Snapshot as Seen;

/// That a barrier of a disk succeeded. Only such a barrier gives it. Proofs see in it the disk as that left it.
#[derive(Drop)]
pub(crate) struct Settled<D> {
    at: Seen<D>,
}

impl<D> Settled<D> {
    /// The disk, for proofs.
    pub(crate) fn into_disk(self) -> Seen<D>
        ensures { result.value ≡ self.at.value }
    {
        let Settled { at } = self;
        at
    }
}

/// Makes a barrier.
pub(crate) fn settle<D: Disk>(disk: &mut D) -> Result<Settled<D>, Fault>
    ensures same { IsSameDisk (D.view disk.old) (D.view disk.new) }
    ensures cause { HasCause (D.fault_count disk.old) (D.fault_count disk.new) (told result) }
    ensures honest { SettlesHonestly (D.view disk.old) (D.view disk.new) (told result) }
    ensures at { IfOk result (λ settled. settled.at.value ≡ disk.new) }
{
    match disk.barrier() {
        Ok(()) => Ok(Settled { at: Seen::of(disk) }),
        Err(fault) => Err(fault),
    }
}
