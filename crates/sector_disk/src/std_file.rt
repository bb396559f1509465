// A file of the system, or a block device, as what a disk lies in.
ghost use Rattle.std.specs.Prelude.{◌≡◌, ◌≤◌, length, IfOk};
ghost use Rattle.sector_disk.specs.File.{faults_of};

use crate::logged_file::Untold;
use crate::{Fault, FileDisk, FileError, LoggedFile, Place, RandomAccessFile};
use std::fs::{File, FileType, OpenOptions};
use std::io::{ErrorKind, Seek, SeekFrom};
use std::os::unix::fs::{FileExt, FileTypeExt};
use std::path::Path;
use std::rt::Files;
use std::{fs, io};

/// How often a call is made again that a signal has interrupted.
const MOST_TRIES: u64 = u64::MAX;

// Why a call failed that a signal has interrupted each time.
fn interrupted() -> io::Error {
    io::Error::from(ErrorKind::Interrupted)
}

// Reads from a place on, again where a signal came between.
pub(crate) fn read_again(file: &File, at: u64, out: &mut [u8]) -> io::Result<usize>
    ensures { IfOk result (λ count. count ≤ length out.old) }
{
    for _ in 0..MOST_TRIES {
        match FileExt::read_at(file, out, at) {
            Err(why) if why.kind() == ErrorKind::Interrupted => {}
            answered => return answered,
        }
    }
    Err(interrupted())
}

// Writes from a place on, again where a signal came between.
pub(crate) fn write_again(file: &File, at: u64, bytes: &[u8]) -> io::Result<usize>
    ensures { IfOk result (λ count. count ≤ length bytes.now) }
{
    for _ in 0..MOST_TRIES {
        match FileExt::write_at(file, bytes, at) {
            Err(why) if why.kind() == ErrorKind::Interrupted => {}
            answered => return answered,
        }
    }
    Err(interrupted())
}

/// Nothing proves that a file of the system is honest. That it is so is a premise, which no contract has.
impl RandomAccessFile for File {
    ghost use Rattle.sector_disk.specs.StdFile.{std_view};

    ghost view = { std_view };

    ghost laws = { λ file honest. absurd honest };

    fn size(&mut self) -> Result<u64, Fault> {
        self.seek(SeekFrom::End(0)).map_err(|_| Fault)
    }

    fn read_at(&mut self, at: u64, out: &mut [u8]) -> Result<usize, Fault> {
        read_again(self, at, out).map_err(|_| Fault)
    }

    fn write_at(&mut self, at: u64, bytes: &[u8]) -> Result<usize, Fault> {
        write_again(self, at, bytes).map_err(|_| Fault)
    }

    fn sync(&mut self) -> Result<(), Fault> {
        self.sync_data().map_err(|_| Fault)
    }
}

// Whether a disk can be there.
fn is_for_disks(kind: &FileType) -> bool {
    kind.is_file() || kind.is_block_device()
}

// Refuses what is there and cannot be a disk. It is asked before the file is opened: a pipe would wait for its writer.
pub(crate) fn check_kind<R: Files>(rt: &R, path: &str) -> Result<(), FileError> {
    let kind = fs::metadata(rt, path)?.file_type();
    if is_for_disks(&kind) {
        Ok(())
    } else {
        Err(FileError::NotDisk)
    }
}

// Makes it durable that the file stands in its folder.
pub(crate) fn sync_folder<R: Files<File = File>>(rt: &R, path: &str) -> Result<(), FileError> {
    let folder = Path::new(path).parent().and_then(|folder| folder.to_str());
    let name = folder.filter(|name| !name.is_empty()).unwrap_or(".");
    File::open(rt, name)?.sync_all()?;
    Ok(())
}

/// A file or block device that holds a disk, for reading and writing, with its exclusive lock. Nothing of it is read or written.
///
/// Refused: `NotFound`, `NotDisk`, `PermissionDenied`, `InUse` where any other disk is open over it, and `Fault`.
pub fn lock_file<R: Files<File = File>>(rt: &R, path: &str) -> Result<File, FileError> {
    check_kind(rt, path)?;
    let file = OpenOptions::new().read(true).write(true).open(rt, path)?;
    file.try_lock()?;
    Ok(file)
}

/// The same for reading alone, with a shared lock. Refused `InUse` where a disk is open over it that can be written.
pub fn lock_file_read_only<R: Files<File = File>>(rt: &R, path: &str) -> Result<File, FileError> {
    check_kind(rt, path)?;
    let file = OpenOptions::new().read(true).open(rt, path)?;
    file.try_lock_shared()?;
    Ok(file)
}

// A disk over a file, whose reads ask the device.
fn disk_over(file: File) -> Result<FileDisk<File>, FileError>
    ensures { IfOk result (λ disk. faults_of disk ≡ 0) }
{
    let file = LoggedFile::new(file, Untold);
    file.drop_cached()?;
    FileDisk::over(file.into_file())
}

impl FileDisk<File> {
    ghost use Rattle.sector_disk.specs.File.{sectors_of};

    /// Opens a disk for reading and writing, with the file's exclusive lock. It has as many sectors as the file or the
    /// device. Nothing is written, but what this machine has of it is flushed and dropped, so that reads ask the device.
    ///
    /// Refused: `NotFound`, `NotDisk`, `PermissionDenied`, `InUse` where any other disk is open over it, `NotWhole`, and
    /// `Fault`.
    pub fn open<R: Files<File = File>>(rt: &R, path: &str) -> Result<FileDisk<File>, FileError>
        ensures { IfOk result (λ disk. faults_of disk ≡ 0) }
    {
        disk_over(lock_file(rt, path)?)
    }

    /// Opens a disk for reading alone, with a shared lock of the file: each write is a fault. Several may be open at once.
    ///
    /// Refused as `open`, `InUse` where a disk is open over it that can be written.
    pub fn open_read_only<R: Files<File = File>>(
        rt: &R,
        path: &str,
    ) -> Result<FileDisk<File>, FileError>
        ensures { IfOk result (λ disk. faults_of disk ≡ 0) }
    {
        disk_over(lock_file_read_only(rt, path)?)
    }

    /// Makes a disk of zeros of so many sectors and opens it, with the file's exclusive lock, as a `Place` does it: what was there
    /// is lost.
    ///
    /// Refused as `Place::open` and `Place::make`.
    pub fn create<R: Files<File = File>>(
        rt: &R,
        path: &str,
        sectors: u64,
    ) -> Result<FileDisk<File>, FileError>
        // claim: A new disk has as many sectors as were asked for. Made or opened, it has counted no fault yet.
        // [FileDisk::open, FileDisk::open_read_only]
        ensures sectors { IfOk result (λ disk. sectors_of disk ≡ sectors) }
        ensures faults { IfOk result (λ disk. faults_of disk ≡ 0) }
    {
        let (file, place) = Place::open(rt, path)?;
        let file = LoggedFile::new(file, Untold);
        place.make(rt, path, &file, sectors)?;
        Ok(FileDisk {
            file: file.into_file(),
            sectors,
            faults: 0,
        })
    }
}
