// Formatting a disk in a file.
ghost use Rattle.std.specs.Prelude.{◌≡◌, ◌≤◌, None, IfOk, OnOk};
ghost use Rattle.retry_rules.specs.Settings.{bad_field};
ghost use Rattle.checkpoint.specs.Image.{least_sectors};
ghost use Rattle.broker_commands.specs.Formatting.{settings_for, is_device_fault};

use crate::contents::{ContentsError, check_contents};
use crate::making::{Zeros, make_zeros};
use crate::mounts::check_mount_at;
use crate::opening::DiskError;
use crate::progress::{Progress, progress_of};
use crate::telltale::telltale_for;
use broker_core::{FormatError, format};
use checkpoint::least_sectors;
use disk_progress::{ProgressDisk, ProgressLog};
use retry_rules::{BadSettings, Settings, Text};
use sector_disk::{
    FaultLog, FileDisk, FileError, LoggedFile, Place, RandomAccessFile, SECTOR_SIZE,
};
use std::alloc::{AllocError, Global};
use std::fs::File;
use std::io::Eprint;
use std::rt::Files;
use std::sync::Arc;
use std::time::Clock;
use thiserror::Error;

/// The function that a disk is formatted for.
#[derive(Clone, Copy)]
pub struct Function<'a> {
    pub name: &'a str,
    pub handler: &'a str,
    pub arn: &'a str,
}

/// The settings that are numbers, in the units of `Settings`.
#[derive(Clone, Copy)]
pub struct NumericSettings {
    pub retries: u8,
    pub age: u32,
    pub timeout: u16,
    pub concurrency: u8,
    pub environments: u8,
    pub events: u16,
    pub payload: u32,
    pub response: u32,
}

/// A disk that is to be made.
#[derive(Clone, Copy)]
pub struct NewDisk<'a> {
    /// A file or a block device.
    pub path: &'a str,
    pub sectors: u64,
    pub function: Function<'a>,
    pub numbers: NumericSettings,
    /// Whether it is formatted whatever is there.
    pub is_forced: bool,
    /// Whether all of a new file is written, so that there is room for all of it.
    pub is_allocated: bool,
}

/// Why a disk was not made and formatted.
#[derive(Clone, Copy, Debug, Error)]
pub enum NewDiskError {
    #[error("out of memory")]
    OutOfMemory(#[from] AllocError),
    #[error("{0}")]
    Settings(#[from] BadSettings),
    #[error("{0}")]
    File(#[from] FileError),
    #[error("{0}")]
    Contents(#[from] ContentsError),
    /// What is there was not closed, or not made larger.
    #[error("{0}")]
    Disk(#[from] DiskError),
    #[error("{0}")]
    Format(#[from] FormatError),
}

impl NewDiskError {
    /// Whether the device failed.
    pub fn is_device_fault(&self) -> bool
        ensures { result ≡ is_device_fault self.now }
    {
        match self {
            NewDiskError::File(why) => matches!(why, FileError::Fault),
            NewDiskError::Contents(why) => why.is_device_fault(),
            NewDiskError::Disk(why) => why.is_device_fault(),
            NewDiskError::Format(why) => matches!(why, FormatError::Fault),
            _ => false,
        }
    }
}

pub(crate) fn text(alloc: Global, told: &str) -> Result<Text, AllocError>
    ensures { IfOk result (λ text. text ≡ told.now) }
{
    Ok(Text::from_vec(Vec::from_slice(alloc, told.as_bytes())?))
}

// The settings of the function.
fn settings(
    alloc: Global,
    function: &Function<'_>,
    n: &NumericSettings,
) -> Result<Settings, AllocError>
    ensures { IfOk result (λ s. s ≡ settings_for function.now n.now) }
{
    Ok(Settings {
        retries: n.retries,
        age: n.age,
        timeout: n.timeout,
        concurrency: n.concurrency,
        environments: n.environments,
        events: n.events,
        payload: n.payload,
        response: n.response,
        name: text(alloc, function.name)?,
        handler: text(alloc, function.handler)?,
        arn: text(alloc, function.arn)?,
    })
}

// Refuses settings that are outside their ranges, and a size that does not suffice for them.
fn check_settings(settings: &Settings, sectors: u64) -> Result<(), NewDiskError>
    ensures { OnOk result ((bad_field settings.now ≡ None) × (least_sectors settings.now ≤ sectors)) }
{
    settings.check()?;
    let least = least_sectors(settings);
    if sectors < least {
        return Err(NewDiskError::Format(FormatError::TooSmall { least }));
    }
    Ok(())
}

// Whether so many bytes at the front of a file are zeros.
fn are_zeros<L: FaultLog + Drop>(file: &mut LoggedFile<L>, size: u64) -> Result<bool, FileError> {
    let mut piece = [0; SECTOR_SIZE];
    for place in 0..=size / SECTOR_SIZE as u64 {
        let at = place.saturating_mul(SECTOR_SIZE as u64);
        let count = file.read_at(at, &mut piece)?;
        if (count as u64) < size.saturating_sub(at).min(SECTOR_SIZE as u64) {
            return Err(FileError::Fault);
        }
        if piece[..count].iter().any(|byte| *byte != 0) {
            return Ok(false);
        }
    }
    Ok(true)
}

// Refuses a file that is no disk, since it has no whole number of sectors, unless it is zeros.
fn check_part<L: FaultLog + Drop>(
    file: LoggedFile<L>,
    size: u64,
) -> Result<LoggedFile<L>, ContentsError> {
    let mut file = file;
    match are_zeros(&mut file, size) {
        Ok(true) => Ok(file),
        Ok(false) => Err(ContentsError::NotEmpty),
        Err(why) => Err(ContentsError::Disk(DiskError::File(why))),
    }
}

/// Refuses a file or a device that may not be formatted over. How far it was read is told to this log.
pub(crate) fn check_place<L: FaultLog + Drop, P: ProgressLog + Drop>(
    alloc: Global,
    place: Place,
    file: LoggedFile<L>,
    log: P,
) -> Result<LoggedFile<L>, ContentsError> {
    if place.size() % SECTOR_SIZE as u64 != 0 {
        return check_part(file, place.size());
    }
    let mut disk = match FileDisk::over(file) {
        Ok(disk) => ProgressDisk::over(disk, log),
        Err(why) => return Err(ContentsError::Disk(DiskError::File(why))),
    };
    check_contents(alloc, &mut disk)?;
    Ok(disk.into_inner().into_file())
}

// Formats a disk of zeros that was made there, or gives it back.
fn format_place<R, L>(
    rt: &R,
    new: &NewDisk<'_>,
    settings: &Settings,
    place: Place,
    file: LoggedFile<L>,
) -> Result<(), NewDiskError>
where
    R: Files<File = File> + AllocGlobal,
    L: FaultLog + Drop,
    requires { bad_field settings.now ≡ None }
{
    let mut disk = FileDisk::over(file)?;
    match format(rt.alloc(), &mut disk, settings) {
        Ok(()) => Ok(()),
        Err(why) => {
            place.give_back(rt, new.path, &disk.into_file());
            Err(NewDiskError::Format(why))
        }
    }
}

/// Makes a disk of zeros and formats it. Its settings are judged first, then whether so many sectors suffice for them, then the
/// file or device, and then what is there, unless that is to be lost. What is refused is as it was, but for `Fault`.
pub fn make_disk<R>(
    rt: &R,
    progress: &Arc<Progress<R>>,
    new: &NewDisk<'_>,
) -> Result<(), NewDiskError>
where
    R: Files<File = File> + Clock + Eprint + AllocGlobal + Copy + Drop,
{
    let settings = settings(rt.alloc(), &new.function, &new.numbers)?;
    check_settings(&settings, new.sectors)?;
    check_mount_at(rt, new.path)?;
    let log = telltale_for(rt, new.path)?;
    let (file, place) = Place::open(rt, new.path)?;
    let same = file.try_clone().map_err(FileError::from)?;
    let mut file = LoggedFile::new(file, log);
    if !new.is_forced {
        let log = progress_of(progress, new.path, place.size())?;
        file = check_place(rt.alloc(), place, file, log)?;
    }
    let zeros = Zeros {
        path: new.path,
        sectors: new.sectors,
        is_allocated: new.is_allocated,
    };
    make_zeros(rt, &zeros, place, &same, &file, progress)?;
    format_place(rt, new, &settings, place, file)
}
