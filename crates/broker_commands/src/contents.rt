// What stands where a disk is to be formatted.
ghost use Rattle.std.specs.Prelude.{◌≡◌, IfOk, IfErr, OnOk};
ghost use Rattle.sector_disk.specs.Disk.{IsSameDisk};
ghost use Rattle.resized_disk.specs.Blank.{is_blank};
ghost use Rattle.broker_commands.specs.Contents.{IsFree, HoldsEvents, IsOccupied, IsUnopened, IsPassing, is_contents_fault};

use crate::opening::{DiskError, check_size};
use crate::versions::check_version;
use audit_report::{Report, inspect};
use checkpoint::OpenError;
use resized_disk::{ResizedError, is_blank};
use sector_disk::{Disk, FileError};
use std::alloc::{AllocError, Global};
use thiserror::Error;

/// Why what is there is not formatted over.
#[derive(Clone, Copy, Debug, Error)]
pub enum ContentsError {
    /// A formatted disk with so many events.
    #[error("holds {events} events")]
    Holds { events: usize },
    /// Neither empty, nor zeros, nor a formatted disk.
    #[error("not empty")]
    NotEmpty,
    #[error("{0}")]
    Disk(#[from] DiskError),
    /// It is a formatted disk which cannot be opened, so nobody knows what it holds.
    #[error("{0}")]
    Open(#[from] OpenError),
}

impl ContentsError {
    /// Whether the device failed.
    pub fn is_device_fault(&self) -> bool
        ensures { result ≡ is_contents_fault self.now }
    {
        matches!(
            self,
            ContentsError::Disk(DiskError::File(FileError::Fault))
                | ContentsError::Open(OpenError::Fault)
        )
    }
}

// Whether a disk is all zeros.
fn is_zeros<D: Disk>(alloc: Global, disk: &mut D) -> Result<bool, DiskError>
    ensures content { (D.view disk.old).honest → (D.view disk.new).content ≡ (D.view disk.old).content }
    ensures same { IsSameDisk (D.view disk.old) (D.view disk.new) }
    ensures exact { (D.view disk.old).honest → IfOk result (λ blank. blank ≡ is_blank (D.view disk.old).content) }
    ensures refused { IfErr result IsPassing }
{
    match is_blank(alloc, disk) {
        Ok(blank) => Ok(blank),
        Err(ResizedError::OutOfMemory) => Err(DiskError::OutOfMemory(AllocError)),
        Err(ResizedError::Fault) => Err(DiskError::File(FileError::Fault)),
    }
}

// Refuses a formatted disk that holds events, and what is none.
fn check_events<D: Disk>(alloc: Global, disk: &mut D) -> Result<(), ContentsError>
    ensures free { (D.view disk.old).honest → OnOk result (HoldsEvents 0 (D.view disk.old).content) }
    ensures occupied { (D.view disk.old).honest → IfErr result (IsUnopened (D.view disk.old).content) }
{
    match inspect(alloc, disk) {
        Ok((_, Report { held: 0, .. })) => Ok(()),
        Ok((_, report)) => Err(ContentsError::Holds {
            events: report.held,
        }),
        Err(OpenError::NotFormatted) => Err(ContentsError::NotEmpty),
        Err(why) => Err(ContentsError::Open(why)),
    }
}

/// Refuses what may not be formatted over: a disk that holds events, one of a newer version, one of another size or one that cannot be
/// opened, and what is neither zeros nor a formatted disk. Beside a barrier it only reads.
pub(crate) fn check_contents<D: Disk>(alloc: Global, disk: &mut D) -> Result<(), ContentsError>
    // claim: The check before a format passes only zeros, or a formatted disk without events. A refusal tells what is there, or
    // that it could not be looked at.
    ensures free { (D.view disk.old).honest → OnOk result (IsFree (D.view disk.old).content) }
    ensures occupied { (D.view disk.old).honest → IfErr result (IsOccupied (D.view disk.old).content) }
{
    match is_zeros(alloc, disk) {
        Ok(true) => return Ok(()),
        Ok(false) => {}
        Err(why) => return Err(ContentsError::Disk(why)),
    }
    if let Err(why) = check_version(disk) {
        return Err(ContentsError::Disk(why));
    }
    match check_size(alloc, disk) {
        Ok(()) => check_events(alloc, disk),
        Err(why) => Err(ContentsError::Disk(why)),
    }
}
