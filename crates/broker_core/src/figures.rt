// What an operator is shown of the disk: its size, and the live segment's generation and room.
ghost use Rattle.std.specs.Prelude.{◌≡◌};
ghost use Rattle.checkpoint.specs.Live.{generation_of, free_sectors_of};
ghost use Rattle.broker_core.specs.Broker.{disk_of, opened_of};
ghost use Rattle.broker_core.specs.Splitting.{broker_of};

use crate::{Broker, DiskHalf};
use sector_disk::Disk;

impl<D: Disk> Broker<D> {
    /// The generation of the live segment: one more with each switch, from 1 on. A broken broker tells that from before the
    /// fault.
    pub fn generation(&self) -> u64
        ensures { result ≡ generation_of (opened_of self.now) }
    {
        self.opened.generation()
    }
}

impl<D: Disk> DiskHalf<D> {
    /// How many sectors the disk has, which never changes.
    pub fn sectors(&self) -> u64
        ensures { result ≡ (D.view (disk_of (broker_of self.now))).sectors }
    {
        self.broker.disk.sectors()
    }

    /// The generation of the live segment, as `Broker::generation` tells it.
    pub fn generation(&self) -> u64
        ensures { result ≡ generation_of (opened_of (broker_of self.now)) }
    {
        self.broker.generation()
    }

    /// How many sectors of the live segment are free: those behind its last frame. A broken half tells how many were
    /// before the fault.
    pub fn free_sectors(&self) -> u64
        ensures { result ≡ free_sectors_of (opened_of (broker_of self.now)) }
    {
        self.broker.opened.free_sectors()
    }
}
