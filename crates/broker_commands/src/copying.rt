// Copying all events of a disk to a new one.
ghost use Rattle.std.specs.Prelude.{◌≡◌};
ghost use Rattle.broker_commands.specs.Copying.{is_device_fault};

use crate::contents::ContentsError;
use crate::formatting::{check_place, text};
use crate::making::{Zeros, make_zeros};
use crate::mounts::check_mount_at;
use crate::opening::{DiskError, open, open_unclaimed};
use crate::progress::{Progress, progress_of};
use crate::telltale::{Telltale, telltale_for};
use aged_copy::copy_with_age;
use broker_core::{Broker, OpenError};
use checkpoint::least_sectors;
use disk_copy::{Change, ChangeError, CopyError, copy, grown_settings};
use disk_progress::ProgressDisk;
use retry_rules::{Field, RetryPolicy, Settings, Text};
use sector_disk::{Disk, FileDisk, FileError, LoggedFile, Place, SECTOR_SIZE};
use std::alloc::{AllocError, Global};
use std::fs::File;
use std::io::Eprint;
use std::rt::Files;
use std::sync::Arc;
use std::time::Clock;
use thiserror::Error;

/// What a copy has other than the old disk. What is absent stays as it is.
#[derive(Clone, Copy)]
pub struct NewLimits<'a> {
    pub environments: Option<u8>,
    pub events: Option<u16>,
    /// In bytes.
    pub payload: Option<u32>,
    /// In bytes.
    pub response: Option<u32>,
    pub name: Option<&'a str>,
    pub handler: Option<&'a str>,
    pub arn: Option<&'a str>,
}

/// A disk whose events are to be copied to a new one.
#[derive(Clone, Copy)]
pub struct NewCopy<'a> {
    /// The disk that is copied: a file or a block device.
    pub old: &'a str,
    /// The disk that is made: a file or a block device.
    pub path: &'a str,
    /// As many as the old disk has, where none is told.
    pub sectors: Option<u64>,
    pub limits: NewLimits<'a>,
    /// The age of each event that has not ended and has a shorter one, in seconds.
    pub age: Option<u32>,
    /// Whether it is made whatever is there.
    pub is_forced: bool,
    /// Whether all of a new file is written, so that there is room for all of it.
    pub is_allocated: bool,
    /// Whether a claim that stands on the old disk is taken away first.
    pub is_unclaimed: bool,
}

/// What was copied.
#[derive(Clone, Copy)]
pub struct Copied {
    /// How many events the old disk holds.
    pub events: usize,
    /// How many sectors the new one has.
    pub sectors: u64,
}

/// Why a disk was not copied. The old one is as it was.
#[derive(Clone, Copy, Debug, Error)]
pub enum CopyingError {
    #[error("out of memory")]
    OutOfMemory(#[from] AllocError),
    /// The new disk is to be the old one.
    #[error("OLD and NEW are one disk")]
    OneDisk,
    /// The old disk in its file.
    #[error("{0}")]
    Disk(#[from] DiskError),
    /// What is on the old disk.
    #[error("{0}")]
    Open(#[from] OpenError),
    #[error("{0}")]
    Change(#[from] ChangeError),
    #[error("too small, least {least}")]
    TooSmall { least: u64 },
    /// The file of the new disk.
    #[error("{0}")]
    File(#[from] FileError),
    /// What is there.
    #[error("{0}")]
    Contents(#[from] ContentsError),
    #[error("{0}")]
    Copy(#[from] CopyError),
}

impl CopyingError {
    /// Whether a device failed.
    pub fn is_device_fault(&self) -> bool
        ensures { result ≡ is_device_fault self.now }
    {
        match self {
            CopyingError::Disk(why) => why.is_device_fault(),
            CopyingError::Open(why) => matches!(why, OpenError::Fault),
            CopyingError::File(why) => matches!(why, FileError::Fault),
            CopyingError::Contents(why) => why.is_device_fault(),
            CopyingError::Copy(why) => matches!(why, CopyError::Fault),
            _ => false,
        }
    }
}

// A text that is told, if one is.
fn told_text(alloc: Global, told: Option<&str>) -> Result<Option<Text>, AllocError> {
    match told {
        Some(told) => Ok(Some(text(alloc, told)?)),
        None => Ok(None),
    }
}

// What the settings of a copy have other than those of the old disk.
fn change_for(alloc: Global, limits: &NewLimits<'_>) -> Result<Change, AllocError> {
    Ok(Change {
        environments: limits.environments,
        events: limits.events,
        payload: limits.payload,
        response: limits.response,
        name: told_text(alloc, limits.name)?,
        handler: told_text(alloc, limits.handler)?,
        arn: told_text(alloc, limits.arn)?,
    })
}

// Whether events may have this age.
fn is_bad_age(age: Option<u32>) -> bool {
    match age {
        Some(age) => RetryPolicy { retries: 0, age }.is_bad(),
        None => false,
    }
}

// Refuses a change that the old settings do not allow, an age that no event has, and a size that does not suffice.
fn check_change(
    old: &Settings,
    change: &Change,
    age: Option<u32>,
    sectors: u64,
) -> Result<(), CopyingError> {
    let settings = grown_settings(old, change)?;
    if is_bad_age(age) {
        return Err(CopyingError::Change(ChangeError::BadSettings { field: Field::Age }));
    }
    let least = least_sectors(&settings);
    if sectors < least {
        return Err(CopyingError::TooSmall { least });
    }
    Ok(())
}

// The file of the new disk, where it may be made one, and made zeros.
fn new_place<R>(
    rt: &R,
    progress: &Arc<Progress<R>>,
    new: &NewCopy<'_>,
    sectors: u64,
) -> Result<(LoggedFile<Telltale<R>>, Place), CopyingError>
where
    R: Files<File = File> + Clock + Eprint + AllocGlobal + Copy + Drop,
{
    check_mount_at(rt, new.path)?;
    let log = telltale_for(rt, new.path)?;
    let (file, place) = Place::open(rt, new.path)?;
    let same = file.try_clone().map_err(FileError::from)?;
    let mut file = LoggedFile::new(file, log);
    if !new.is_forced {
        let log = progress_of(progress, new.path, place.size())?;
        file = check_place(rt.alloc(), place, file, log)?;
    }
    let zeros = Zeros {
        path: new.path,
        sectors,
        is_allocated: new.is_allocated,
    };
    make_zeros(rt, &zeros, place, &same, &file, progress)?;
    Ok((file, place))
}

// Copies what a broker holds to a new disk, with an age where one is told. The disk is handed back, with the cause where it was refused.
fn copy_onto<D: Disk, E: Disk>(
    alloc: Global,
    broker: &Broker<D>,
    disk: E,
    change: &Change,
    age: Option<u32>,
) -> (E, Result<(), CopyError>) {
    let mut disk = disk;
    let copied = match age {
        Some(age) => copy_with_age(alloc, broker, &mut disk, change, age),
        None => copy(alloc, broker, &mut disk, change),
    };
    (disk, copied)
}

// Copies what a broker holds to a new disk in a file, which is given back where that fails.
fn copy_to_place<R, D>(
    rt: &R,
    progress: &Arc<Progress<R>>,
    broker: &Broker<D>,
    new: &NewCopy<'_>,
    change: &Change,
    sectors: u64,
) -> Result<(), CopyingError>
where
    R: Files<File = File> + Clock + Eprint + AllocGlobal + Copy + Drop,
    D: Disk,
{
    let size = sectors.saturating_mul(SECTOR_SIZE as u64);
    let log = progress_of(progress, new.path, size)?;
    let (file, place) = new_place(rt, progress, new, sectors)?;
    let disk = ProgressDisk::over(FileDisk::over(file)?, log);
    let (disk, copied) = copy_onto(rt.alloc(), broker, disk, change, new.age);
    match copied {
        Ok(()) => Ok(()),
        Err(why) => {
            let file = disk.into_inner().into_file();
            place.give_back(rt, new.path, &file);
            Err(CopyingError::Copy(why))
        }
    }
}

// Judges a copy of a broker, and makes it.
fn copy_broker<R, D>(
    rt: &R,
    progress: &Arc<Progress<R>>,
    broker: &Broker<D>,
    new: &NewCopy<'_>,
    change: &Change,
    sectors: u64,
) -> Result<Copied, CopyingError>
where
    R: Files<File = File> + Clock + Eprint + AllocGlobal + Copy + Drop,
    D: Disk,
{
    check_change(broker.table().settings(), change, new.age, sectors)?;
    let events = broker.table().rows().count();
    copy_to_place(rt, progress, broker, new, change, sectors)?;
    Ok(Copied { events, sectors })
}

// Copies what is on a disk, which is given up.
fn copy_on<R, D>(
    rt: &R,
    progress: &Arc<Progress<R>>,
    disk: D,
    new: &NewCopy<'_>,
    change: &Change,
) -> Result<Copied, CopyingError>
where
    R: Files<File = File> + Clock + Eprint + AllocGlobal + Copy + Drop,
    D: Disk + Drop,
{
    let sectors = new.sectors.unwrap_or(disk.sectors());
    let broker = open(rt.alloc(), disk)?;
    copy_broker(rt, progress, &broker, new, change, sectors)
}

/// Makes a new disk with every event of an old one. One path for both is refused. The old disk is opened and read, and nobody else has
/// it meanwhile. Then the new settings, the age and the size are judged, then the file of the new disk, and then what is there, unless
/// that is to be lost.
pub fn copy_disk<R>(
    rt: &R,
    progress: &Arc<Progress<R>>,
    new: &NewCopy<'_>,
) -> Result<Copied, CopyingError>
where
    R: Files<File = File> + Clock + Eprint + AllocGlobal + Copy + Drop,
{
    if new.old == new.path {
        return Err(CopyingError::OneDisk);
    }
    let change = change_for(rt.alloc(), &new.limits)?;
    let disk = open_unclaimed(rt, progress, new.old, new.is_unclaimed)?;
    copy_on(rt, progress, disk, new, &change)
}
