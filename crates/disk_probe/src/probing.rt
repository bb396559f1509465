// Probing a disk.
ghost use Rattle.std.specs.Prelude.{◌≡◌, ◌<◌, false};
ghost use Rattle.resized_disk.specs.Reading.{OnlyReads};
ghost use Rattle.resized_disk.specs.Blank.{is_blank};

use crate::measuring::{time_barriers, time_looks};
use crate::witness::{is_excluded, sight_of};
use crate::{Figures, Probe, ProbeError, Sight, Witnessed};
use resized_disk::is_blank;
use sector_disk::{Disk, FaultLog, FileDisk, FileError, LoggedFile, SECTOR_SIZE, lock_file};
use std::alloc::{AllocGlobal, Global};
use std::fs::File;
use std::rt::Files;
use std::time::Clock;

// What was measured by writes.
#[derive(Clone, Copy)]
struct Tried {
    barriers: Figures,
    sight: Option<Sight>,
}

// Measures by writes to a sector, which has zeros afterwards.
fn try_writes<R, D>(
    rt: &R,
    disk: &mut D,
    sector: u64,
    witness: Option<&str>,
) -> Result<Tried, ProbeError>
where
    R: Files<File = File> + Clock,
    D: Disk,
    requires { sector < (D.view disk.old).sectors }
{
    let barriers = time_barriers(rt, disk, sector)?;
    let sight = match witness {
        Some(path) => Some(sight_of(rt, disk, sector, path)?),
        None => None,
    };
    disk.write(sector, &[0; SECTOR_SIZE])?;
    disk.barrier()?;
    Ok(Tried { barriers, sight })
}

// Measures by writes to a sector of a disk of zeros. Any other disk is only read.
fn try_blank<R, D>(
    rt: &R,
    alloc: Global,
    disk: &mut D,
    sector: u64,
    witness: Option<&str>,
) -> Result<Option<Tried>, ProbeError>
where
    R: Files<File = File> + Clock,
    D: Disk,
    requires { sector < (D.view disk.old).sectors }
    // claim: A disk that is not all zeros is only read by a probe's trial of writes.
    ensures { (D.view disk.old).honest → is_blank (D.view disk.old).content ≡ false → OnlyReads (D.view disk.old) (D.view disk.new) }
{
    if is_blank(alloc, disk)? {
        Ok(Some(try_writes(rt, disk, sector, witness)?))
    } else {
        Ok(None)
    }
}

// Whether another opening of a disk is refused, which is open.
fn is_locked<R: Files<File = File>>(rt: &R, path: &str) -> bool {
    matches!(lock_file(rt, path), Err(FileError::InUse))
}

// What the witness tells, which sees this much.
fn witnessed(excluded: Option<bool>, tried: Option<Tried>) -> Option<Witnessed> {
    excluded.map(|is_excluded| Witnessed {
        is_excluded,
        sight: match tried {
            Some(tried) => tried.sight,
            None => None,
        },
    })
}

/// Measures a disk, and looks at another attachment of it, if one is told. Only a disk of zeros is written, in its last sector, which
/// has zeros again at the end. Nobody else has the disk meanwhile.
///
/// Refused: as an opening of the disk or of the witness, `Empty`, and `OtherSize`.
pub fn probe_disk<R, L>(
    rt: &R,
    path: &str,
    log: L,
    witness: Option<&str>,
) -> Result<Probe, ProbeError>
where
    R: Files<File = File> + Clock + AllocGlobal,
    L: FaultLog + Drop,
{
    let file = LoggedFile::new(lock_file(rt, path)?, log);
    file.drop_cached()?;
    let mut disk = FileDisk::over(file)?;
    let sectors = disk.sectors();
    if sectors == 0 {
        return Err(ProbeError::Empty);
    }
    let excluded = match witness {
        Some(path) => Some(is_excluded(rt, path, sectors)?),
        None => None,
    };
    let tried = try_blank(rt, rt.alloc(), &mut disk, sectors - 1, witness)?;
    let is_locked = is_locked(rt, path);
    let looks = time_looks(rt, &disk.into_file().into_file(), sectors - 1)?;
    Ok(Probe {
        sectors,
        is_locked,
        barriers: tried.map(|tried| tried.barriers),
        looks,
        witness: witnessed(excluded, tried),
    })
}
