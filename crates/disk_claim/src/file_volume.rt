// The claim of a disk in a file.
use crate::Volume;
use crate::looking::{forget_file, forget_sector, read_sector};
use sector_disk::{Fault, FaultLog, FileCall, FileError, SECTOR_SIZE};
use std::fs::File;
use std::io;
use std::rt::Files;

/// The claim of a disk in a file or on a block device, read by an opening of its own. A look that fails is told to a log. Nothing proves
/// what it reads.
#[derive(Drop)]
pub struct FileVolume<L: Drop> {
    file: File,
    sector: u64,
    log: L,
}

impl<L: FaultLog + Drop> FileVolume<L> {
    /// The claim in this sector of what a path names, for which no lock is asked: whoever serves the disk has it.
    pub fn open<R: Files<File = File>>(
        rt: &R,
        path: &str,
        sector: u64,
        log: L,
    ) -> Result<FileVolume<L>, FileError> {
        let file = File::open(rt, path)?;
        Ok(FileVolume { file, sector, log })
    }

    // Tells of a look that failed.
    fn note<T: Drop>(&self, looked: io::Result<T>) -> Result<T, Fault> {
        match looked {
            Ok(done) => Ok(done),
            Err(why) => {
                let at = self.sector.saturating_mul(SECTOR_SIZE as u64);
                self.log.tell(FileCall::Read, at, &why);
                Err(Fault)
            }
        }
    }
}

impl<L: FaultLog + Drop> Volume for FileVolume<L> {
    ghost use Rattle.disk_claim.specs.Volume.{unclaimed};

    ghost view = { λ volume. unclaimed };

    fn forget(&mut self) -> Result<(), Fault> {
        self.note(forget_sector(&self.file, self.sector))
    }

    fn forget_all(&mut self) -> Result<(), Fault> {
        self.note(forget_file(&self.file))
    }

    fn read(&mut self) -> Result<[u8; SECTOR_SIZE], Fault> {
        self.note(read_sector(&self.file, self.sector))
    }
}
