// A file of the system, of which each call that failed is told.
ghost use Rattle.std.specs.Prelude.{◌≡◌, Ok, IfOk, IfErr, IsErr};

use crate::std_file::{read_again, write_again};
use crate::{Fault, FileError, RandomAccessFile};
use libc::{POSIX_FADV_DONTNEED, posix_fadvise};
use std::fs::File;
use std::io;
use std::io::{ErrorKind, Seek, SeekFrom};
use std::os::fd::AsRawFd;

/// A call of a file.
#[derive(Clone, Copy)]
pub enum FileCall {
    /// It was asked for its size.
    Size,
    Read,
    Write,
    /// It was flushed.
    Sync,
}

/// Who is told of a call that failed.
pub trait FaultLog {
    /// This call failed at this place of the file, in bytes, for this reason.
    fn tell(&self, call: FileCall, at: u64, why: &io::Error);
}

/// Nobody is told.
#[derive(Clone, Copy)]
pub(crate) struct Untold;

impl FaultLog for Untold {
    fn tell(&self, _call: FileCall, _at: u64, _why: &io::Error) {}
}

/// A file of the system, of which each call that failed is told. Nothing proves that it is honest.
#[derive(Drop)]
pub struct LoggedFile<L: Drop> {
    pub(crate) file: File,
    log: L,
}

impl<L: FaultLog + Drop> LoggedFile<L> {
    /// This file, whose faults are told to this log.
    pub fn new(file: File, log: L) -> LoggedFile<L>
        ensures { result ≡ record { file = file; log = log } }
    {
        LoggedFile { file, log }
    }

    /// The file.
    pub fn into_file(self) -> File
        ensures { result ≡ self.file }
    {
        let LoggedFile { file, .. } = self;
        file
    }

    /// Has the reads that follow ask the device, and not what this machine kept of it while another may have written: what was
    /// not written yet is flushed, and what was kept is dropped. Refused where the device fails, which is told.
    pub fn drop_cached(&self) -> Result<(), FileError> {
        self.note(FileCall::Sync, 0, self.file.sync_data())?;
        match posix_fadvise(self.file.as_raw_fd(), 0, 0, POSIX_FADV_DONTNEED) {
            0 => Ok(()),
            _ => self.note(FileCall::Sync, 0, Err(io::Error::from(ErrorKind::Other))),
        }
    }

    // Tells of a call that failed, where the device did.
    pub(crate) fn note<T: Drop>(
        &self,
        call: FileCall,
        at: u64,
        answered: io::Result<T>,
    ) -> Result<T, FileError>
        ensures ok { IfOk answered (λ done. result ≡ Ok done) }
        ensures err { IfErr answered (λ why. IsErr result) }
    {
        match answered {
            Ok(done) => Ok(done),
            Err(why) => {
                let error = FileError::of(&why);
                if error == FileError::Fault {
                    self.log.tell(call, at, &why);
                }
                Err(error)
            }
        }
    }

    // Tells of a call that failed.
    fn fail<T: Drop>(&self, call: FileCall, at: u64, why: &io::Error) -> Result<T, Fault>
        ensures { IsErr result }
    {
        self.log.tell(call, at, why);
        Err(Fault)
    }
}

impl<L: FaultLog + Drop> RandomAccessFile for LoggedFile<L> {
    ghost use Rattle.sector_disk.specs.StdFile.{logged_view};

    ghost view = { logged_view };

    ghost laws = { λ file honest. absurd honest };

    fn size(&mut self) -> Result<u64, Fault> {
        match self.file.seek(SeekFrom::End(0)) {
            Ok(size) => Ok(size),
            Err(why) => self.fail(FileCall::Size, 0, &why),
        }
    }

    fn read_at(&mut self, at: u64, out: &mut [u8]) -> Result<usize, Fault> {
        match read_again(&self.file, at, out) {
            Ok(0) => self.fail(
                FileCall::Read,
                at,
                &io::Error::from(ErrorKind::UnexpectedEof),
            ),
            Ok(count) => Ok(count),
            Err(why) => self.fail(FileCall::Read, at, &why),
        }
    }

    fn write_at(&mut self, at: u64, bytes: &[u8]) -> Result<usize, Fault> {
        match write_again(&self.file, at, bytes) {
            Ok(0) => self.fail(FileCall::Write, at, &io::Error::from(ErrorKind::WriteZero)),
            Ok(count) => Ok(count),
            Err(why) => self.fail(FileCall::Write, at, &why),
        }
    }

    fn sync(&mut self) -> Result<(), Fault> {
        match self.file.sync_data() {
            Ok(()) => Ok(()),
            Err(why) => self.fail(FileCall::Sync, 0, &why),
        }
    }
}
