// How long the calls of a disk take.
ghost use Rattle.std.specs.Prelude.{◌≡◌, ◌<◌};

use crate::ProbeError;
use crate::figuring::{Figures, figures_of};
use disk_claim::look;
use sector_disk::{Disk, SECTOR_SIZE};
use std::fs::File;
use std::io;
use std::time::{Clock, Instant};

/// How often each call is timed.
const TIMES: u8 = 200;

// How many microseconds have gone since then.
fn micros_since<C: Clock>(rt: &C, start: &Instant) -> io::Result<u64> {
    Ok(u64::try_from(start.elapsed(rt)?.as_micros()).unwrap_or(u64::MAX))
}

/// How long barriers take, each behind a write to this sector.
pub(crate) fn time_barriers<C: Clock, D: Disk>(
    rt: &C,
    disk: &mut D,
    sector: u64,
) -> Result<Figures, ProbeError>
    requires { sector < (D.view disk.old).sectors }
    ensures { (D.view disk.new).sectors ≡ (D.view disk.old).sectors }
{
    let mut times = [0; TIMES as usize];
    for n in 0..TIMES {
        disk.write(sector, &[n; SECTOR_SIZE])?;
        let start = Instant::now(rt)?;
        disk.barrier()?;
        times[usize::from(n)] = micros_since(rt, &start)?;
    }
    Ok(figures_of(&mut times))
}

/// How long it takes to read this sector of a file past what the machine kept of it.
pub(crate) fn time_looks<C: Clock>(
    rt: &C,
    file: &File,
    sector: u64,
) -> Result<Figures, ProbeError> {
    let mut times = [0; TIMES as usize];
    for n in 0..TIMES {
        let start = Instant::now(rt)?;
        look(file, sector)?;
        times[usize::from(n)] = micros_since(rt, &start)?;
    }
    Ok(figures_of(&mut times))
}
