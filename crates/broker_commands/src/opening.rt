// Opening a disk for a command.
ghost use Rattle.std.specs.Prelude.{◌≡◌, ◌≤◌, IfOk, IfErr};
ghost use Rattle.sector_disk.specs.Disk.{HasRisen, IsSameDisk};
ghost use Rattle.broker_core.specs.Broker.{disk_of};
ghost use Rattle.broker_core.specs.Promises.{ForEachHistoryOn, IsRecovered};
ghost use Rattle.broker_core.specs.Refusals.{IsCutOff};
ghost use Rattle.resized_disk.specs.Reading.{OnlyReads};
ghost use Rattle.broker_commands.specs.Opening.{is_disk_fault, TellsSize};
ghost use Rattle.broker_commands.specs.declared.opening.DiskError.TheVariants as disk_error;
ghost use Rattle.sector_disk.specs.declared.file.FileError.TheVariants as file_error;

use crate::claims::enter_claim;
use crate::mounts::check_mount;
use crate::progress::{DiskProgress, Progress, progress_of};
use crate::telltale::{Telltale, telltale_by, telltale_for};
use crate::versions::check_version;
use broker_core::{Broker, OpenError, without_disk};
use disk_progress::ProgressDisk;
use port_meters::Lines;
use resized_disk::{Resized, ResizedError, resized};
use sector_disk::{
    Disk, FaultLog, FileCall, FileDisk, FileError, LoggedFile, SECTOR_SIZE, lock_file,
    lock_file_read_only,
};
use std::alloc::{AllocError, Global};
use std::fs::File;
use std::io;
use std::io::{Eprint, ErrorKind};
use std::rt::Files;
use std::sync::Arc;
use std::time::Clock;
use thiserror::Error;

/// Why a disk in a file was not opened.
#[derive(Clone, Copy, Debug, Error)]
pub enum DiskError {
    #[error("out of memory")]
    OutOfMemory(#[from] AllocError),
    #[error("{0}")]
    File(#[from] FileError),
    /// It was formatted with this many sectors, or with one more, and has another size now: its newer segment is not where it
    /// would be looked for.
    #[error("resized, formatted with {sectors} sectors")]
    Resized { sectors: u64 },
    /// Its one open segment goes on behind its half, since it was cut: at this sector an open gate stands where no frame has room.
    #[error("damaged at sector {sector}")]
    Cut { sector: u64 },
    /// A later version of the format, which this program does not know, wrote it.
    #[error("newer version")]
    NewerVersion,
    /// A broker that watches stands in its claim.
    #[error("claimed")]
    Claimed,
    /// It is seen through an overlay mount: who opens the file below it does not see its lock.
    #[error("seen through an overlay mount, which locks it apart from the file below")]
    Overlay,
}

impl DiskError {
    /// Whether the device failed.
    pub fn is_device_fault(&self) -> bool
        ensures { result ≡ is_disk_fault self.now }
    {
        matches!(self, DiskError::File(FileError::Fault))
    }
}

/// A disk in a file, each fault of which is told on standard error.
pub type Device<R> = FileDisk<LoggedFile<Telltale<R>>>;

/// The same, of which is told how far the work on it is.
pub type ToldDevice<R> = ProgressDisk<Device<R>, DiskProgress<R>>;

/// The broker on a disk, which is given up where it is not opened.
pub fn open<D: Disk + Drop>(alloc: Global, disk: D) -> Result<Broker<D>, OpenError>
    ensures same { IfOk result (λ broker. IsSameDisk (D.view disk) (D.view (disk_of broker))) }
    ensures stands { (D.view disk).honest
        → ForEachHistoryOn (D.view disk) (λ s history durable. IfOk result (IsRecovered D.view s history durable)) }
    // claim: Where each image of an honest disk is a legal stop of a history, only the device or want of memory refuses it. [: refused]
    ensures refused { (D.view disk).honest → ForEachHistoryOn (D.view disk) (λ s history durable. IfErr result IsCutOff) }
{
    without_disk(Broker::open(alloc, disk))
}

/// Refuses a disk that has another size than it was formatted with, as far as that can be seen. It only reads.
pub fn check_size<D: Disk>(alloc: Global, disk: &mut D) -> Result<(), DiskError>
    // claim: A disk passes only where the definition finds it neither resized nor cut, and is refused as that only where it
    // does. It is only read.
    ensures reads { OnlyReads (D.view disk.old) (D.view disk.new) }
    ensures later { D.fault_count disk.old ≤ D.fault_count disk.new }
    ensures fault { IfErr result (λ why. why ≡ disk_error.File file_error.Fault → HasRisen (D.fault_count disk.old) (D.fault_count disk.new)) }
    ensures exact { (D.view disk.old).honest → TellsSize (D.view disk.old).content result }
{
    match resized(alloc, disk) {
        Ok(None) => Ok(()),
        Ok(Some(Resized::Displaced { sectors })) => Err(DiskError::Resized { sectors }),
        Ok(Some(Resized::Cut { sector })) => Err(DiskError::Cut { sector }),
        Err(ResizedError::OutOfMemory) => Err(DiskError::OutOfMemory(AllocError)),
        Err(ResizedError::Fault) => Err(DiskError::File(FileError::Fault)),
    }
}

// Has the reads of a file that follow ask the device. A flush that finds no room is a fault of it: nobody asked for room.
fn drop_cached<R>(log: Telltale<R>, file: &LoggedFile<Telltale<R>>) -> Result<(), DiskError>
where
    R: Eprint + AllocGlobal + Copy + Drop,
{
    match file.drop_cached() {
        Err(FileError::NoRoom) => {
            let why = io::Error::from(ErrorKind::StorageFull);
            log.tell(FileCall::Sync, 0, &why);
            Err(DiskError::File(FileError::Fault))
        }
        Err(why) => Err(DiskError::File(why)),
        Ok(()) => Ok(()),
    }
}

// A file as a disk whose faults are told so and whose reads ask the device.
fn device<R>(telltale: Telltale<R>, file: File) -> Result<Device<R>, DiskError>
where
    R: Eprint + AllocGlobal + Copy + Drop,
{
    let log = telltale.another()?;
    let file = LoggedFile::new(file, telltale);
    drop_cached(log, &file)?;
    Ok(FileDisk::over(file)?)
}

// A disk of a version that is known, and of the size that it was formatted with.
fn checked<D: Disk + Drop>(alloc: Global, disk: D) -> Result<D, DiskError> {
    let mut disk = disk;
    check_version(&mut disk)?;
    check_size(alloc, &mut disk)?;
    Ok(disk)
}

// The file of a disk, locked, where that keeps others out.
fn lock_own<R>(rt: &R, path: &str) -> Result<File, DiskError>
where
    R: Files<File = File> + AllocGlobal,
{
    let file = lock_file(rt, path)?;
    check_mount(rt, &file)?;
    Ok(file)
}

/// Opens the disk in a file for reading and writing, where its version is known and it has the size that it was formatted with.
/// Nothing is written. It is refused `Overlay` where its lock would keep nobody out who opens the file below. Its faults are told by these
/// lines.
pub fn open_device_by<R>(rt: &R, path: &str, lines: &Arc<Lines>) -> Result<Device<R>, DiskError>
where
    R: Files<File = File> + Eprint + AllocGlobal + Copy + Drop,
{
    let telltale = telltale_by(rt, path, lines)?;
    checked(rt.alloc(), device(telltale, lock_own(rt, path)?)?)
}

// A file as a disk of a command, of which is told how far the work on it is.
fn told_device<R>(
    rt: &R,
    progress: &Arc<Progress<R>>,
    path: &str,
    file: File,
) -> Result<ToldDevice<R>, DiskError>
where
    R: Clock + Eprint + AllocGlobal + Copy + Drop,
{
    let disk = device(telltale_for(rt, path)?, file)?;
    let size = disk.sectors().saturating_mul(SECTOR_SIZE as u64);
    let log = progress_of(progress, path, size)?;
    checked(rt.alloc(), ProgressDisk::over(disk, log))
}

/// Opens the disk in a file for a command that may write it, where nobody claims it, or that claim is to be taken away: nobody stands
/// there then.
pub(crate) fn open_unclaimed<R>(
    rt: &R,
    progress: &Arc<Progress<R>>,
    path: &str,
    is_unclaimed: bool,
) -> Result<ToldDevice<R>, DiskError>
where
    R: Files<File = File> + Clock + Eprint + AllocGlobal + Copy + Drop,
{
    let mut disk = told_device(rt, progress, path, lock_own(rt, path)?)?;
    enter_claim(&mut disk, is_unclaimed)?;
    Ok(disk)
}

/// Opens the disk in a file for reading alone, where its version is known and it has the size that it was formatted with.
pub(crate) fn open_device_read_only<R>(
    rt: &R,
    progress: &Arc<Progress<R>>,
    path: &str,
) -> Result<ToldDevice<R>, DiskError>
where
    R: Files<File = File> + Clock + Eprint + AllocGlobal + Copy + Drop,
{
    told_device(rt, progress, path, lock_file_read_only(rt, path)?)
}
