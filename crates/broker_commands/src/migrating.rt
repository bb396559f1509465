// Migrating a disk in a file.
ghost use Rattle.std.specs.Prelude.{◌≡◌, IfOk, IfErr};
ghost use Rattle.broker_commands.specs.Migrating.{is_device_fault, IsMigrated, IsMigratingReason};

use crate::opening::{DiskError, open_unclaimed};
use crate::progress::Progress;
use audit_report::audit;
use group_commit::{MigrateError, MigrateFailure, OpenError, migrate};
use sector_disk::Disk;
use std::alloc::Global;
use std::fs::File;
use std::io::Eprint;
use std::rt::Files;
use std::sync::Arc;
use std::time::Clock;
use thiserror::Error;

/// A disk of version 1 of the format that is to be migrated.
#[derive(Clone, Copy, Debug)]
pub struct OldVersion<'a> {
    /// A file or a block device.
    pub path: &'a str,
    /// Whether a claim that stands there is taken away first.
    pub is_unclaimed: bool,
}

/// What a disk was migrated to.
#[derive(Clone, Copy)]
pub struct Migrated {
    /// The generation of its live segment.
    pub generation: u64,
    /// How many commands it recovers to.
    pub number: u64,
}

/// Why a disk was not migrated, or why it could not be read back.
#[derive(Clone, Copy, Debug, Error)]
pub enum MigratingError {
    #[error("{0}")]
    Disk(#[from] DiskError),
    #[error("{0}")]
    Migrate(#[from] MigrateError),
    /// The disk was migrated, and could not be read afterwards.
    #[error("{0}")]
    Open(#[from] OpenError),
}

impl MigratingError {
    /// Whether the device failed.
    pub fn is_device_fault(&self) -> bool
        ensures { result ≡ is_device_fault self.now }
    {
        match self {
            MigratingError::Disk(why) => why.is_device_fault(),
            MigratingError::Migrate(why) => matches!(why, MigrateError::Fault),
            MigratingError::Open(why) => matches!(why, OpenError::Fault),
        }
    }
}

// Migrates a disk, and reads back what it then holds.
fn migrate_disk<D: Disk + Drop>(alloc: Global, disk: D) -> Result<Migrated, MigratingError>
    // claim: Migrating tells the old disk's number and the next generation, or is refused for a migration's reason, or since
    // the disk could not be read back.
    ensures told { (D.view disk).honest → IfOk result (IsMigrated (D.view disk)) }
    ensures reason { (D.view disk).honest → IfErr result (IsMigratingReason (D.view disk)) }
{
    let disk = match migrate(alloc, disk) {
        Ok(disk) => disk,
        Err(MigrateFailure { cause, .. }) => return Err(MigratingError::Migrate(cause)),
    };
    match audit(alloc, disk) {
        Ok(report) => Ok(Migrated {
            generation: report.generation,
            number: report.number,
        }),
        Err(why) => Err(MigratingError::Open(why)),
    }
}

/// Migrates a disk of version 1 of the format. The file is judged first, and then what is on it. Nobody else has the disk
/// meanwhile.
pub fn migrate_file<R>(
    rt: &R,
    progress: &Arc<Progress<R>>,
    old: &OldVersion<'_>,
) -> Result<Migrated, MigratingError>
where
    R: Files<File = File> + Clock + Eprint + AllocGlobal + Copy + Drop,
{
    let disk = open_unclaimed(rt, progress, old.path, old.is_unclaimed)?;
    migrate_disk(rt.alloc(), disk)
}
