// Another attachment of a volume, and whether it sees what is written.
ghost use Rattle.std.specs.Prelude.{◌≡◌, ◌<◌};

use crate::ProbeError;
use sector_disk::{
    Disk, FaultLog, FileCall, FileDisk, FileError, LoggedFile, SECTOR_SIZE, lock_file_read_only,
};
use std::fs::File;
use std::io;
use std::rt::Files;

/// How often a write is looked for.
pub(crate) const TRIES: u8 = 20;

/// How many of 20 synced writes were seen at once.
#[derive(Clone, Copy)]
pub struct Sight {
    /// By an opening that trusts what the machine kept.
    pub plain: u8,
    /// By an opening as this program makes it.
    pub opened: u8,
}

/// What is told of a witness.
#[derive(Clone, Copy)]
pub struct Witnessed {
    /// Whether its lock is refused while the disk's is held.
    pub is_excluded: bool,
    /// What it sees. None where nothing was written.
    pub sight: Option<Sight>,
}

// Of the witness no fault is told but in the line of the refusal.
#[derive(Clone, Copy)]
struct Untold;

impl FaultLog for Untold {
    fn tell(&self, _call: FileCall, _at: u64, _why: &io::Error) {}
}

// The witness as any program opens it, with what the machine kept of it.
fn open_plainly<R: Files<File = File>>(rt: &R, path: &str) -> Result<FileDisk<File>, FileError> {
    FileDisk::over(File::open(rt, path)?)
}

// The witness as this program opens it, but for its lock.
fn open_anew<R: Files<File = File>>(rt: &R, path: &str) -> Result<FileDisk<File>, FileError> {
    let file = LoggedFile::new(File::open(rt, path)?, Untold);
    file.drop_cached()?;
    FileDisk::over(file.into_file())
}

// Reads a sector, if it is on the disk.
fn sector_of(disk: &mut FileDisk<File>, sector: u64) -> Result<[u8; SECTOR_SIZE], FileError> {
    let mut bytes = [0; SECTOR_SIZE];
    if sector >= disk.sectors() {
        return Err(FileError::Fault);
    }
    disk.read(sector, &mut bytes)?;
    Ok(bytes)
}

// Whether a sector that is read through an opening has these bytes.
fn shows(
    opened: Result<FileDisk<File>, FileError>,
    sector: u64,
    bytes: &[u8; SECTOR_SIZE],
) -> Result<bool, FileError> {
    let mut disk = opened?;
    Ok(sector_of(&mut disk, sector)? == *bytes)
}

/// Refuses a witness that is not of so many sectors, and tells whether the lock that is held excludes it.
pub(crate) fn is_excluded<R: Files<File = File>>(
    rt: &R,
    path: &str,
    sectors: u64,
) -> Result<bool, ProbeError> {
    let is_excluded = match lock_file_read_only(rt, path) {
        Ok(_) => false,
        Err(FileError::InUse) => true,
        Err(why) => return Err(ProbeError::Witness(why)),
    };
    let disk = open_anew(rt, path).map_err(ProbeError::Witness)?;
    let found = disk.sectors();
    if found == sectors {
        Ok(is_excluded)
    } else {
        Err(ProbeError::OtherSize { sectors: found })
    }
}

// Writes these bytes to a sector, durably, and looks for them at the witness, which has been looked at before: adds what it sees.
fn try_sight<R: Files<File = File>, D: Disk>(
    rt: &R,
    disk: &mut D,
    sector: u64,
    path: &str,
    bytes: &[u8; SECTOR_SIZE],
) -> Result<(bool, bool), ProbeError>
    requires { sector < (D.view disk.old).sectors }
    ensures { (D.view disk.new).sectors ≡ (D.view disk.old).sectors }
{
    let mut before = open_plainly(rt, path).map_err(ProbeError::Witness)?;
    sector_of(&mut before, sector).map_err(ProbeError::Witness)?;
    disk.write(sector, bytes)?;
    disk.barrier()?;
    let plain = shows(open_plainly(rt, path), sector, bytes).map_err(ProbeError::Witness)?;
    let opened = shows(open_anew(rt, path), sector, bytes).map_err(ProbeError::Witness)?;
    Ok((plain, opened))
}

/// How many of so many writes to a sector the witness sees.
pub(crate) fn sight_of<R: Files<File = File>, D: Disk>(
    rt: &R,
    disk: &mut D,
    sector: u64,
    path: &str,
) -> Result<Sight, ProbeError>
    requires { sector < (D.view disk.old).sectors }
    ensures { (D.view disk.new).sectors ≡ (D.view disk.old).sectors }
{
    let mut sight = Sight {
        plain: 0,
        opened: 0,
    };
    for n in 1..=TRIES {
        let (plain, opened) = try_sight(rt, disk, sector, path, &[n; SECTOR_SIZE])?;
        sight.plain = sight.plain.saturating_add(u8::from(plain));
        sight.opened = sight.opened.saturating_add(u8::from(opened));
    }
    Ok(sight)
}
