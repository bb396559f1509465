// Making a disk of what a path names.
ghost use Rattle.std.specs.Prelude.{◌≡◌, ◌*◌, ◌<◌, ◌≤◌, ◌^◌, OnOk};

use crate::std_file::{check_kind, sync_folder};
use crate::{Fault, FaultLog, FileCall, FileError, LoggedFile, RandomAccessFile, SECTOR_SIZE};
use std::fs;
use std::fs::{File, OpenOptions};
use std::os::unix::fs::{FileExt, OpenOptionsExt};
use std::rt::Files;

/// Who may read and write a new file: its owner alone, since payloads stand in it.
const OWNER_ALONE: u32 = 0o600;

/// How many sectors a file can have: its size in bytes is below 2^63.
const MOST_SECTORS: u64 = (1 << 54) - 1;

/// How many bytes of zeros are written at once.
const PIECE_SIZE: usize = 128 * SECTOR_SIZE;

// Writes zeros to a file from one place to another.
fn write_zeros<L: FaultLog + Drop>(
    file: &LoggedFile<L>,
    from: u64,
    to: u64,
) -> Result<(), FileError>
    requires { from ≤ to }
{
    let zeros = [0; PIECE_SIZE];
    let mut done = from;
    while done < to {
        let count = (to - done).min(PIECE_SIZE as u64);
        let written = file.file.write_all_at(&zeros[..count as usize], done);
        file.note(FileCall::Write, done, written)?;
        done += count;
    }
    Ok(())
}

/// What a path named before it is made a disk.
#[derive(Clone, Copy)]
pub struct Place {
    /// How many bytes were there.
    size: u64,
    is_new: bool,
}

impl Place {
    /// What the path names, with its exclusive lock: a file or a block device, or a new file, which its owner alone can read. Of what
    /// was there nothing is written.
    ///
    /// Refused: `NotFound` (its folder), `NotDisk`, `PermissionDenied`, `InUse` where any other disk is open over it, and `Fault`.
    pub fn open<R: Files<File = File>>(rt: &R, path: &str) -> Result<(File, Place), FileError> {
        match check_kind(rt, path) {
            Ok(()) | Err(FileError::NotFound) => {}
            Err(why) => return Err(why),
        }
        let is_new = fs::metadata(rt, path).is_err();
        let mut options = OpenOptions::new();
        options
            .read(true)
            .write(true)
            .create(true)
            .mode(OWNER_ALONE);
        let mut file = options.open(rt, path)?;
        file.try_lock()?;
        match file.size() {
            Ok(size) => Ok((file, Place { size, is_new })),
            Err(Fault) => Err(FileError::Fault),
        }
    }

    /// How many bytes were there.
    pub fn size(&self) -> u64
        ensures { result ≡ self.now.size }
    {
        self.size
    }

    // Refuses a device of another size than this.
    fn check_device<L>(&self, file: &LoggedFile<L>, size: u64) -> Result<(), FileError>
    where
        L: FaultLog + Drop,
    {
        let data = file.note(FileCall::Size, 0, file.file.metadata())?;
        if data.file_type().is_file() || self.size == size {
            return Ok(());
        }
        let sectors = self.size / SECTOR_SIZE as u64;
        Err(FileError::OtherSize { sectors })
    }

    // Gives it this size and makes all of it zeros: first what lies behind its end, where room may be wanting.
    fn fill<L: FaultLog + Drop>(&self, file: &LoggedFile<L>, size: u64) -> Result<(), FileError> {
        self.check_device(file, size)?;
        write_zeros(file, self.size.min(size), size)?;
        write_zeros(file, 0, self.size.min(size))?;
        if self.size > size {
            file.note(FileCall::Size, size, file.file.set_len(size))?;
        }
        file.note(FileCall::Sync, 0, file.file.sync_all())
    }

    // Makes it a disk of zeros, and makes that durable.
    fn try_make<R, L>(
        &self,
        rt: &R,
        path: &str,
        file: &LoggedFile<L>,
        sectors: u64,
    ) -> Result<(), FileError>
    where
        R: Files<File = File>,
        L: FaultLog + Drop,
        ensures { OnOk result (512 * sectors < 2 ^ 64) }
    {
        if sectors > MOST_SECTORS {
            return Err(FileError::NoRoom);
        }
        self.fill(file, sectors * SECTOR_SIZE as u64)?;
        sync_folder(rt, path)
    }

    /// Makes it a disk of zeros of so many sectors; what it held is lost. Each sector is written and all of it is durable, since a
    /// file whose sectors were never written is slow to settle. Path and file are those it was opened by. Where it is refused, it is
    /// given back.
    ///
    /// Refused: `OtherSize` where a block device has not that many sectors, `NoRoom`, `PermissionDenied`, and `Fault`.
    pub fn make<R, L>(
        &self,
        rt: &R,
        path: &str,
        file: &LoggedFile<L>,
        sectors: u64,
    ) -> Result<(), FileError>
    where
        R: Files<File = File>,
        L: FaultLog + Drop,
        ensures { OnOk result (512 * sectors < 2 ^ 64) }
    {
        match self.try_make(rt, path, file, sectors) {
            Ok(()) => Ok(()),
            Err(why) => {
                self.give_back(rt, path, file);
                Err(why)
            }
        }
    }

    /// Gives back what was made: a new file is removed, and one that was there has its size again. Nobody is told where that fails.
    pub fn give_back<R, L>(&self, rt: &R, path: &str, file: &LoggedFile<L>)
    where
        R: Files<File = File>,
        L: FaultLog + Drop,
    {
        if self.is_new {
            let _ = fs::remove_file(rt, path);
        } else {
            let _ = file.file.set_len(self.size);
        }
    }
}
