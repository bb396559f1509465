// A disk in a file, whichever that is.
ghost use Rattle.std.specs.Prelude.{◌≡◌, ◌*◌, ◌<◌, ◌^◌, length, IfOk, IfErr};

use crate::disk::counted;
use crate::random_access::{read_whole, write_whole};
use crate::{Disk, Fault, RandomAccessFile, SECTOR_SIZE};
use std::fs::{File, TryLockError};
use std::io;
use std::io::ErrorKind;
use thiserror::Error;

/// Why what a path names was not opened as a disk, or not made one.
#[derive(Clone, Copy, Debug, PartialEq, Eq, Error)]
pub enum FileError {
    /// Nothing has this name, or a folder on the way to it is not there.
    #[error("no such file")]
    NotFound,
    /// The system does not let this user read it, or write it.
    #[error("permission denied")]
    PermissionDenied,
    /// Another program holds its lock, or this one has it open already.
    #[error("in use by another program")]
    InUse,
    /// It is neither a regular file nor a block device.
    #[error("neither a file nor a block device")]
    NotDisk,
    /// Its size in bytes is no multiple of 512.
    #[error("not a whole number of sectors")]
    NotWhole,
    /// A block device has its own number of sectors: this one.
    #[error("a device of {sectors} sectors")]
    OtherSize { sectors: u64 },
    /// There is no room for so many sectors.
    #[error("no room for so many sectors")]
    NoRoom,
    /// The device failed.
    #[error("device fault")]
    Fault,
}

impl FileError {
    /// What an error of the system says of a file.
    pub(crate) fn of(why: &io::Error) -> FileError {
        match why.kind() {
            ErrorKind::NotFound | ErrorKind::NotADirectory | ErrorKind::InvalidFilename => {
                FileError::NotFound
            }
            ErrorKind::PermissionDenied | ErrorKind::ReadOnlyFilesystem => {
                FileError::PermissionDenied
            }
            ErrorKind::ResourceBusy | ErrorKind::ExecutableFileBusy => FileError::InUse,
            ErrorKind::IsADirectory => FileError::NotDisk,
            ErrorKind::StorageFull | ErrorKind::QuotaExceeded | ErrorKind::FileTooLarge => {
                FileError::NoRoom
            }
            _ => FileError::Fault,
        }
    }
}

impl From<io::Error> for FileError {
    fn from(why: io::Error) -> Self {
        FileError::of(&why)
    }
}

impl From<TryLockError> for FileError {
    fn from(why: TryLockError) -> Self {
        match why {
            TryLockError::WouldBlock => FileError::InUse,
            TryLockError::Error(why) => FileError::from(why),
        }
    }
}

impl From<Fault> for FileError {
    ghost use Rattle.sector_disk.specs.declared.file.FileError.TheVariants as file_error;

    ghost from_gives = { λ _ e. e ≡ file_error.Fault };

    fn from(_fault: Fault) -> Self {
        FileError::Fault
    }
}

/// A disk whose sectors lie in a file one behind the other. It is honest where the file is: of a file of the system
/// nothing proves that. Over one, it holds the file's lock while it is open, which other programs respect that take it too.
#[derive(Drop)]
pub struct FileDisk<F: RandomAccessFile = File> {
    pub(crate) file: F,
    pub(crate) sectors: u64,
    pub(crate) faults: u64,
    ghost small: { 512 * sectors < 2 ^ 64 },
    ghost whole: { (F.view file).honest → length (F.view file).content ≡ 512 * sectors },
}

impl<F: RandomAccessFile> FileDisk<F> {
    ghost use Rattle.sector_disk.specs.File.{file_of, view_of, faults_of, IsOpened, IsNoDisk};

    /// The file as a disk, with as many sectors as it has room for. Nothing is written.
    ///
    /// Refused: `NotWhole`, and `Fault` where the file does not tell its size.
    pub fn over(file: F) -> Result<FileDisk<F>, FileError>
    where
        F: Drop,
        // claim: Over an honest file lies an honest disk of just its bytes. Else its size is no multiple of 512, or
        // `Fault` is told.
        ensures opened { IfOk result (λ disk. (F.view file).honest → IsOpened (F.view file) (view_of F.view disk)) }
        ensures faults { IfOk result (λ disk. faults_of disk ≡ 0) }
        ensures refused { IfErr result (λ why. (F.view file).honest → IsNoDisk (F.view file) why) }
    {
        let mut file = file;
        let size = file.size()?;
        if size % SECTOR_SIZE as u64 != 0 {
            return Err(FileError::NotWhole);
        }
        Ok(FileDisk {
            file,
            sectors: size / SECTOR_SIZE as u64,
            faults: 0,
        })
    }

    /// The file.
    pub fn into_file(self) -> F
        ensures { result ≡ file_of self }
    {
        let FileDisk { file, .. } = self;
        file
    }
}

impl<F: RandomAccessFile> Disk for FileDisk<F> {
    ghost use Rattle.sector_disk.specs.File.{view_of, faults_of, disk_laws};

    // claim: A disk in a file does what a disk has to: it is honest exactly where its file is. [: view, fault_count, laws]
    ghost view = { view_of F.view };

    ghost fault_count = { faults_of };

    ghost laws = { λ disk honest. disk_laws disk honest (F.laws disk.file honest) };

    fn sectors(&self) -> u64 {
        self.sectors
    }

    fn faults(&self) -> u64 {
        self.faults
    }

    fn read(&mut self, at: u64, out: &mut [u8]) -> Result<(), Fault> {
        let read = read_whole(&mut self.file, SECTOR_SIZE as u64 * at, out);
        counted(&mut self.faults, read)
    }

    fn write(&mut self, at: u64, bytes: &[u8]) -> Result<(), Fault> {
        let written = write_whole(&mut self.file, SECTOR_SIZE as u64 * at, bytes);
        counted(&mut self.faults, written)
    }

    fn barrier(&mut self) -> Result<(), Fault> {
        let synced = self.file.sync();
        counted(&mut self.faults, synced)
    }
}
