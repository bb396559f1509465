// Setting the retry policy of a disk.
ghost use Rattle.std.specs.Prelude.{◌≡◌, Some, Err, IfOk};
ghost use Rattle.broker_commands.specs.Configuring.{bad_option, IsAsked, refused_for, is_device_fault};
ghost use Rattle.retry_rules.specs.declared.settings.Field.{Field};

use crate::clock::now;
use crate::configured::{Configured, configure};
use crate::opening::{DiskError, ToldDevice, open_unclaimed};
use crate::progress::Progress;
use broker_core::{CommitError, IssueError, OpenError};
use retry_rules::{BadSettings, Field, RetryPolicy};
use std::alloc::AllocError;
use std::fs::File;
use std::io;
use std::io::Eprint;
use std::rt::Files;
use std::sync::Arc;
use std::time::Clock;
use thiserror::Error;

/// What is to be in force on a disk for the events that are accepted next. What is absent stays as it is.
#[derive(Clone, Copy)]
pub struct NewPolicy<'a> {
    /// A file or a block device.
    pub path: &'a str,
    /// Retries after a function error, 0 to 2.
    pub retries: Option<u8>,
    /// Greatest age of an event in seconds, 60 to 21600.
    pub age: Option<u32>,
    /// Whether a claim that stands there is taken away first.
    pub is_unclaimed: bool,
}

/// Why a disk was not configured.
#[derive(Debug, Drop, Error)]
pub enum ConfiguringError {
    #[error("out of memory")]
    OutOfMemory(#[from] AllocError),
    /// A value is outside its range. The disk was not looked at.
    #[error("{0}")]
    Settings(#[from] BadSettings),
    #[error("{0}")]
    Disk(#[from] DiskError),
    #[error("{0}")]
    Open(#[from] OpenError),
    /// The clock could not be read.
    #[error("{0}")]
    System(#[from] io::Error),
    #[error("{0}")]
    Issue(#[from] IssueError),
    #[error("{0}")]
    Commit(#[from] CommitError),
}

impl ConfiguringError {
    /// Whether the device failed.
    pub fn is_device_fault(&self) -> bool
        ensures { result ≡ is_device_fault self.now }
    {
        match self {
            ConfiguringError::Disk(why) => why.is_device_fault(),
            ConfiguringError::Open(why) => matches!(why, OpenError::Fault),
            ConfiguringError::Commit(why) => matches!(why, CommitError::Fault),
            _ => false,
        }
    }
}

// The first option that is outside its range.
fn bad_option(new: &NewPolicy<'_>) -> Option<Field>
    ensures { result ≡ bad_option new.now }
{
    let retries = new.retries.unwrap_or(0);
    let age = new.age.unwrap_or(60);
    if (RetryPolicy { retries, age: 60 }).is_bad() {
        Some(Field::Retries)
    } else if (RetryPolicy { retries: 0, age }).is_bad() {
        Some(Field::Age)
    } else {
        None
    }
}

/// Brings a retry policy in force on a disk, for the events that are accepted from then on: what is in force after it, the
/// retries and the age in seconds, with what shows that the disk holds it. The values are judged first, then the file, and then
/// what is on it. Nobody else has the disk meanwhile.
pub fn configure_disk<'a, R>(
    rt: &R,
    progress: &Arc<Progress<R>>,
    new: &NewPolicy<'a>,
) -> Result<Configured<'a, ToldDevice<R>>, ConfiguringError>
where
    R: Files<File = File> + Clock + Eprint + AllocGlobal + Copy + Drop,
    // claim: A value out of range is refused first, retries before age. A value asked for is told as asked. What is returned
    // shows that the disk was configured so. [: bad, asked, wanted; Configured: holds]
    ensures asked { IfOk result (λ done. IsAsked new.now done.told) }
    ensures wanted { IfOk result (λ done. done.wanted.value ≡ new.now) }
    ensures bad { (field : Field) → bad_option new.now ≡ Some field → result ≡ Err (refused_for field) }
{
    if let Some(field) = bad_option(new) {
        return Err(ConfiguringError::Settings(BadSettings { field }));
    }
    let disk = open_unclaimed(rt, progress, new.path, new.is_unclaimed)?;
    let now = now(rt)?;
    configure(rt.alloc(), disk, new, now)
}
