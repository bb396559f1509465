// Opening a disk, at once or once another program has ended with it.
use crate::error::OpeningError;
use broker_commands::{Address, Device, DiskError, open_device_by};
use port_meters::Lines;
use sector_disk::FileError;
use std::fs::File;
use std::io::{Eprint, Write};
use std::rt::Files;
use std::sync::{Arc, Wait};
use std::time::{Clock, Duration, Instant};
use std::{io, thread};

/// How long is waited before a lock that another program has is asked for again, in milliseconds.
const PAUSE: u64 = 50;

/// A disk that is open, and when its opening began.
pub type OpenDisk<R> = (Device<R>, io::Result<Instant>);

// Opens a disk.
fn open_now<R>(rt: &R, path: &str, lines: &Arc<Lines>) -> Result<OpenDisk<R>, DiskError>
where
    R: Files<File = File> + Clock + Eprint + AllocGlobal + Copy + Drop,
{
    let start = Instant::now(rt);
    let disk = open_device_by(rt, path, lines)?;
    Ok((disk, start))
}

// Whether another program has the disk open.
fn is_in_use<T>(opened: &Result<T, DiskError>) -> bool {
    matches!(opened, Err(DiskError::File(FileError::InUse)))
}

// Opens a disk once nobody else has it open. Until then nothing of it is read.
fn wait_for<R>(rt: &R, path: &str, lines: &Arc<Lines>) -> Result<OpenDisk<R>, DiskError>
where
    R: Files<File = File> + Clock + Wait + Eprint + AllocGlobal + Copy + Drop,
{
    for _ in rt.forever() {
        let opened = open_now(rt, path, lines);
        if !is_in_use(&opened) {
            return opened;
        }
        thread::sleep(rt, Duration::from_millis(PAUSE));
    }
    Err(DiskError::File(FileError::InUse))
}

/// Opens the disk that is to be served. Where another program has it open, a broker that stands by says so, once, and waits; any
/// other is refused as `InUse`. Its faults are told by these lines.
pub fn open_in_turn<R, W>(
    rt: &R,
    at: &Address<'_>,
    lines: &Arc<Lines>,
    out: &mut W,
) -> Result<OpenDisk<R>, OpeningError>
where
    R: Files<File = File> + Clock + Wait + Eprint + AllocGlobal + Copy + Drop,
    W: Write,
{
    let opened = open_now(rt, at.path, lines);
    if !at.is_standby || !is_in_use(&opened) {
        return Ok(opened?);
    }
    writeln!(out, "waiting for the lock")?;
    out.flush()?;
    Ok(wait_for(rt, at.path, lines)?)
}
