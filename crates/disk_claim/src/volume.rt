// A volume that others may write, too, and of which this machine may keep what it read.
ghost use Rattle.std.specs.Prelude.{◌≡◌, None, IfOk, OnOk};
ghost use Rattle.disk_claim.specs.Volume.{VolumeView, IsSameVolume, read_of};

use sector_disk::{Fault, SECTOR_SIZE};

/// The claim of a volume that others may write, too, and of which this machine may keep what it read.
pub trait Volume {
    /// The claim at a moment: what this machine keeps of it, and what stands on the device.
    ghost view: { Self → VolumeView };

    /// Has the next read ask the device, and not what this machine kept of the claim.
    fn forget(&mut self) -> Result<(), Fault>
        ensures same { IsSameVolume (view self.old) (view self.new) }
        // claim: A read gives what was kept, or else what stands on the device then; nothing is kept behind `forget`. [: forgets;
        // Volume::forget_all: forgets; Volume::read: gives]
        ensures forgets { (view self.old).honest → OnOk result ((view self.new).kept ≡ None) };

    /// Has each read that follows ask the device, whichever sector it reads.
    fn forget_all(&mut self) -> Result<(), Fault>
        ensures same { IsSameVolume (view self.old) (view self.new) }
        ensures forgets { (view self.old).honest → OnOk result ((view self.new).kept ≡ None) };

    /// Reads the claim.
    fn read(&mut self) -> Result<[u8; SECTOR_SIZE], Fault>
        ensures same { IsSameVolume (view self.old) (view self.new) }
        ensures gives { (view self.old).honest → IfOk result (λ claim. claim ≡ read_of (view self.old).kept (view self.new).device) };
}
