// A file that is to be made a disk of zeros, and its calls, each fault of which is told.
use crate::progress::DiskProgress;
use crate::telltale::telltale_for;
use disk_progress::ProgressLog;
use sector_disk::{FaultLog, FileCall, FileError, SECTOR_SIZE};
use std::fs::File;
use std::io;
use std::io::Eprint;
use std::os::unix::fs::FileExt;
use std::path::Path;
use std::rt::Files;
use std::time::Clock;

/// The bytes of a sector, as places are counted.
pub(crate) const SECTOR: u64 = SECTOR_SIZE as u64;

/// How many bytes of zeros are written at once.
pub(crate) const PIECE: u64 = 128 * SECTOR;

/// After how many bytes of zeros these are flushed, so that what is told as written stands on the device: 64 MiB.
const FLUSHED: u64 = 1 << 26;

/// A sector of a file as it was, or what there is of it.
#[derive(Clone, Copy)]
pub(crate) struct Kept {
    pub(crate) at: u64,
    pub(crate) count: usize,
    pub(crate) bytes: [u8; SECTOR_SIZE],
}

/// A file that is to be made a disk of zeros.
#[derive(Drop)]
pub(crate) struct Site<'a, R: Drop> {
    pub(crate) rt: &'a R,
    pub(crate) path: &'a str,
    pub(crate) file: &'a File,
    /// How many bytes it has.
    pub(crate) size: u64,
    /// Whom it is told how much of it was written.
    pub(crate) log: DiskProgress<R>,
}

impl<R> Site<'_, R>
where
    R: Files<File = File> + Clock + Eprint + AllocGlobal + Copy + Drop,
{
    /// Tells of a call that failed, where the device did.
    pub(crate) fn note<T: Drop>(
        &self,
        call: FileCall,
        at: u64,
        answered: io::Result<T>,
    ) -> Result<T, FileError> {
        match answered {
            Ok(done) => Ok(done),
            Err(why) => {
                let error = FileError::from(io::Error::from(why.kind()));
                if error == FileError::Fault {
                    self.tell(call, at, &why);
                }
                Err(error)
            }
        }
    }

    // Tells of a fault, unless memory is wanting.
    fn tell(&self, call: FileCall, at: u64, why: &io::Error) {
        if let Ok(log) = telltale_for(self.rt, self.path) {
            log.tell(call, at, why);
        }
    }

    /// Gives it so many bytes. Those that are new are zeros, and have no room yet where the file system has holes.
    pub(crate) fn resize(&self, size: u64) -> Result<(), FileError> {
        self.note(FileCall::Size, size, self.file.set_len(size))
    }

    /// Flushes what was written.
    pub(crate) fn flush(&self) -> Result<(), FileError> {
        self.note(FileCall::Sync, 0, self.file.sync_data())
    }

    /// Writes zeros from one place to another, behind so many bytes that were written before.
    pub(crate) fn write_zeros(&self, from: u64, to: u64, before: u64) -> Result<(), FileError> {
        let zeros = [0; PIECE as usize];
        let mut done = from;
        let mut flushed = from;
        while done < to {
            let count = (to - done).min(PIECE);
            let written = self.file.write_all_at(&zeros[..count as usize], done);
            self.note(FileCall::Write, done, written)?;
            done += count;
            if done.saturating_sub(flushed) >= FLUSHED {
                self.flush()?;
                flushed = done;
            }
            let written = before.saturating_add(done.saturating_sub(from));
            self.log.note(0, written);
        }
        Ok(())
    }

    /// The sector as it is, or what there is of it.
    pub(crate) fn keep(&self, sector: u64) -> Result<Kept, FileError> {
        let at = sector.saturating_mul(SECTOR).min(self.size);
        let count = (self.size - at).min(SECTOR) as usize;
        let mut bytes = [0; SECTOR_SIZE];
        let read = self.file.read_exact_at(&mut bytes[..count], at);
        self.note(FileCall::Read, at, read)?;
        Ok(Kept { at, count, bytes })
    }

    /// Writes a sector, durably.
    pub(crate) fn put(&self, kept: &Kept) -> Result<(), FileError> {
        let count = kept.count.min(SECTOR_SIZE);
        let written = self.file.write_all_at(&kept.bytes[..count], kept.at);
        self.note(FileCall::Write, kept.at, written)?;
        self.flush()
    }

    /// Makes a sector zeros, durably, where it is not.
    pub(crate) fn clear(&self, sector: u64) -> Result<(), FileError> {
        let Kept { at, count, bytes } = self.keep(sector)?;
        if bytes.iter().all(|byte| *byte == 0) {
            return Ok(());
        }
        let bytes = [0; SECTOR_SIZE];
        self.put(&Kept { at, count, bytes })
    }

    /// Makes all that was written durable, and that the file stands in its folder.
    pub(crate) fn settle(&self) -> Result<(), FileError> {
        self.note(FileCall::Sync, 0, self.file.sync_all())?;
        let folder = Path::new(self.path)
            .parent()
            .and_then(|folder| folder.to_str());
        let name = folder.filter(|name| !name.is_empty()).unwrap_or(".");
        File::open(self.rt, name)?.sync_all()?;
        Ok(())
    }
}
