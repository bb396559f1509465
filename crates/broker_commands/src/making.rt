// Making what a path names a disk of zeros, so that a stop leaves no older half of what stood there.
ghost use Rattle.std.specs.Prelude.{◌≡◌, ◌*◌, ◌<◌, ◌^◌, IfOk};

use crate::opening::{Device, DiskError};
use crate::progress::{Progress, progress_of};
use crate::site::{Kept, PIECE, SECTOR, Site};
use crate::telltale::telltale_for;
use disk_gates::{LEAST_SECTORS, close_gates, order_of};
use sector_disk::{Disk, FaultLog, FileCall, FileDisk, FileError, LoggedFile, Place};
use std::alloc::{AllocError, Global};
use std::fs::File;
use std::io::Eprint;
use std::rt::Files;
use std::sync::Arc;
use std::time::Clock;

/// How many sectors a file can have: its size in bytes is below 2^63.
const MOST_SECTORS: u64 = (1 << 54) - 1;

/// A disk of zeros that is to be made.
#[derive(Clone, Copy)]
pub(crate) struct Zeros<'a> {
    /// A file or a block device.
    pub(crate) path: &'a str,
    pub(crate) sectors: u64,
    /// Whether all of a new file is written, and not only what must be.
    pub(crate) is_allocated: bool,
}

// The sectors by which a file shows a disk.
#[derive(Drop)]
struct Marks {
    // The gates of a disk, in the order in which they are closed.
    gates: Vec<u64>,
    // What is made zeros behind them.
    others: Vec<u64>,
}

// These sectors, in memory of their own.
fn sectors_of(alloc: Global, told: &[u64]) -> Result<Vec<u64>, AllocError> {
    Ok(Vec::from_slice(alloc, told)?)
}

impl<R> Site<'_, R>
where
    R: Files<File = File> + Clock + Eprint + AllocGlobal + Copy + Drop,
{
    // Whether it is to be larger. Refuses more sectors than a file can have, and another size of a device than its own.
    fn is_to_grow(&self, sectors: u64) -> Result<bool, FileError>
        ensures { IfOk result (λ told. 512 * sectors < 2 ^ 63) }
    {
        if sectors > MOST_SECTORS {
            return Err(FileError::NoRoom);
        }
        let size = sectors * SECTOR;
        let data = self.note(FileCall::Size, 0, self.file.metadata())?;
        if !data.file_type().is_file() && self.size != size {
            return Err(FileError::OtherSize {
                sectors: self.size / SECTOR,
            });
        }
        Ok(size > self.size)
    }

    // The disk that stands there, where it may be one. Its size does not change meanwhile.
    fn disk(&self) -> Result<Option<Device<R>>, DiskError> {
        if self.size % SECTOR != 0 {
            return Ok(None);
        }
        let file = self.note(FileCall::Size, 0, self.file.try_clone())?;
        let file = LoggedFile::new(file, telltale_for(self.rt, self.path)?);
        Ok(Some(FileDisk::over(file)?))
    }

    // The sectors that show a disk: of what is too small for one, or has no whole sectors, the first two.
    fn marks(&self) -> Result<Marks, DiskError> {
        let alloc = self.rt.alloc();
        if let Some(mut disk) = self.disk()?
            && disk.sectors() >= LEAST_SECTORS
        {
            let order = order_of(&mut disk).map_err(FileError::from)?;
            return Ok(Marks {
                gates: sectors_of(alloc, &[order.0, order.1])?,
                others: sectors_of(alloc, &[order.0 + 1, order.1 + 1])?,
            });
        }
        Ok(Marks {
            gates: Vec::new(alloc),
            others: sectors_of(alloc, &[0, 1])?,
        })
    }

    // Each of these sectors as it is.
    fn keep_all(&self, marks: &Marks) -> Result<Vec<Kept>, DiskError> {
        let mut kept = Vec::new(self.rt.alloc());
        for sector in marks.gates.iter().chain(marks.others.iter()) {
            let sector = self.keep(*sector)?;
            kept.push(sector).map_err(AllocError::from)?;
        }
        Ok(kept)
    }

    // Closes the gates of the disk that stands there, and makes what is behind them zeros.
    fn close(&self, marks: &Marks) -> Result<(), DiskError> {
        if let Some(mut disk) = self.disk()?
            && disk.sectors() >= LEAST_SECTORS
        {
            close_gates(&mut disk).map_err(FileError::from)?;
        }
        for sector in &marks.others {
            self.clear(*sector)?;
        }
        Ok(())
    }

    // Makes it larger: what is new is written, so that room is found to be wanting before anything else is lost.
    fn grow(&self, size: u64) -> Result<(), FileError> {
        self.resize(size)?;
        self.write_zeros(self.size, size, 0)
    }

    // Gives it its size again, and what was closed, in reverse. Nobody is told where that fails.
    fn give_back(&self, kept: &[Kept]) {
        let _ = self.file.set_len(self.size);
        for sector in kept.iter().rev() {
            if self.put(sector).is_err() {
                return;
            }
        }
    }

    // Closes what stands there, and makes it larger; where there is no room for that, it is as it was.
    fn close_and_grow(&self, marks: Marks, sectors: u64) -> Result<(), DiskError>
        requires { 512 * sectors < 2 ^ 63 }
    {
        let mut marks = marks;
        marks.others.push(sectors / 2).map_err(AllocError::from)?;
        let kept = self.keep_all(&marks)?;
        self.close(&marks)?;
        match self.grow(sectors * SECTOR) {
            Ok(()) => Ok(()),
            Err(why) => {
                self.give_back(&kept);
                Err(DiskError::File(why))
            }
        }
    }

    // Readies what stands there to be made zeros. The gates of a disk are closed, that of the older segment first, and then the sectors
    // behind them made zeros, each durably. Only then a file that is to be larger is: where there is no room, what stood there stands
    // there again.
    fn ready(&self, sectors: u64) -> Result<(), DiskError>
        ensures { IfOk result (λ done. 512 * sectors < 2 ^ 63) }
    {
        let is_to_grow = self.is_to_grow(sectors)?;
        if self.size == 0 {
            return Ok(());
        }
        let marks = self.marks()?;
        if is_to_grow {
            self.close_and_grow(marks, sectors)
        } else {
            self.close(&marks)
        }
    }

    // Gives a file without bytes its size. Its bytes are zeros then, and no room is taken for them but where a disk begins and where its
    // second segment does: there a disk that is formatted is written first.
    fn extend(&self, sectors: u64) -> Result<(), FileError>
        requires { 512 * sectors < 2 ^ 63 }
    {
        let (size, half) = (sectors * SECTOR, sectors / 2 * SECTOR);
        self.resize(size)?;
        if size <= 2 * PIECE {
            return self.write_zeros(0, size, 0);
        }
        self.write_zeros(0, PIECE, 0)?;
        self.write_zeros(half, half + PIECE, PIECE)
    }

    // Makes it zeros and durable, where that was readied.
    fn fill(&self, zeros: &Zeros<'_>) -> Result<(), FileError>
        requires { 512 * zeros.now.sectors < 2 ^ 63 }
    {
        let size = zeros.sectors * SECTOR;
        if self.size > 0 {
            self.write_zeros(0, self.size.min(size), size.saturating_sub(self.size))?;
        } else if zeros.is_allocated {
            self.write_zeros(0, size, 0)?;
        } else {
            self.extend(zeros.sectors)?;
        }
        if self.size > size {
            self.resize(size)?;
        }
        self.settle()
    }
}

// Makes what a path names zeros.
fn try_make<R>(
    rt: &R,
    zeros: &Zeros<'_>,
    place: Place,
    file: &File,
    progress: &Arc<Progress<R>>,
) -> Result<(), DiskError>
where
    R: Files<File = File> + Clock + Eprint + AllocGlobal + Copy + Drop,
{
    let path = zeros.path;
    let log = progress_of(progress, path, zeros.sectors.saturating_mul(SECTOR))?;
    let site = Site {
        rt,
        path,
        file,
        size: place.size(),
        log,
    };
    site.ready(zeros.sectors)?;
    site.fill(zeros)?;
    Ok(())
}

/// Makes what a path names a disk of zeros of so many sectors, durably; what it held is lost. What stands there is closed first, so that a
/// stop leaves no older half of it. A new file, and one without bytes, is given its size, and only what a format writes first has room
/// then, unless room for all is asked for. All else is written whole. Where it is refused, it is given back. Both files are the one that
/// the path was opened as.
///
/// Refused: `OtherSize` where a block device has not that many sectors, `NoRoom`, `PermissionDenied`, and `Fault`.
pub(crate) fn make_zeros<R, L>(
    rt: &R,
    zeros: &Zeros<'_>,
    place: Place,
    same: &File,
    file: &LoggedFile<L>,
    progress: &Arc<Progress<R>>,
) -> Result<(), DiskError>
where
    R: Files<File = File> + Clock + Eprint + AllocGlobal + Copy + Drop,
    L: FaultLog + Drop,
{
    match try_make(rt, zeros, place, same, progress) {
        Ok(()) => Ok(()),
        Err(why) => {
            place.give_back(rt, zeros.path, file);
            Err(why)
        }
    }
}
