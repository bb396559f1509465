// A claim in memory, of which a machine keeps what it read.
ghost use Rattle.std.specs.Prelude.{◌≡◌, Some, None, IsOk};
ghost use Rattle.disk_claim.specs.Volume.{IsSameVolume, read_of};
ghost use Rattle.disk_claim.specs.MemoryVolume.{memory_view};

use crate::Volume;
use sector_disk::{Fault, SECTOR_SIZE};

/// A claim in memory, of which a machine keeps what it read until it forgets it. Others write it meanwhile.
#[derive(Drop)]
pub struct MemVolume {
    device: [u8; SECTOR_SIZE],
    kept: Option<[u8; SECTOR_SIZE]>,
}

impl MemVolume {
    /// One that has these bytes, none of which is kept.
    pub fn new(claim: [u8; SECTOR_SIZE]) -> MemVolume
        ensures device { (memory_view result).device ≡ claim }
        ensures kept { (memory_view result).kept ≡ None }
    {
        MemVolume {
            device: claim,
            kept: None,
        }
    }

    /// Another machine writes it: what this one keeps stays.
    pub fn write_elsewhere(&mut self, claim: [u8; SECTOR_SIZE])
        ensures device { (memory_view self.new).device ≡ claim }
        ensures kept { (memory_view self.new).kept ≡ (memory_view self.old).kept }
    {
        self.device = claim;
    }
}

impl Volume for MemVolume {
    ghost use Rattle.disk_claim.specs.MemoryVolume.{memory_view};

    ghost view = { memory_view };

    fn forget(&mut self) -> Result<(), Fault> {
        self.kept = None;
        Ok(())
    }

    fn forget_all(&mut self) -> Result<(), Fault> {
        self.forget()
    }

    fn read(&mut self) -> Result<[u8; SECTOR_SIZE], Fault> {
        match self.kept {
            Some(kept) => Ok(kept),
            None => {
                self.kept = Some(self.device);
                Ok(self.device)
            }
        }
    }
}
