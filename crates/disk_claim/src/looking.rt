// Looking at a claim past what this machine kept of it.
ghost use Rattle.std.specs.Prelude.{◌≡◌, ◌+◌, ◌%◌, ◌≤◌, ◌<◌, IfOk};
ghost use Rattle.disk_claim.specs.Volume.{IsSameVolume};
ghost use Rattle.disk_claim.specs.Token.{token_in};

use crate::{Token, Volume};
use libc::{POSIX_FADV_DONTNEED, posix_fadvise};
use sector_disk::{Fault, SECTOR_SIZE};
use std::fs::File;
use std::io;
use std::io::ErrorKind;
use std::os::fd::AsRawFd;
use std::os::unix::fs::FileExt;

/// The most bytes of a file that a machine keeps as one. It drops them only where all of them are to be dropped.
const MOST_KEPT: u64 = 1 << 21;

// Where a sector begins, in bytes.
fn place_of(sector: u64) -> io::Result<u64> {
    match sector.checked_mul(SECTOR_SIZE as u64) {
        Some(at) => Ok(at),
        None => Err(io::Error::from(ErrorKind::InvalidInput)),
    }
}

// Where the bytes may begin that this machine keeps as one with those at this place.
fn front_of(at: u64) -> u64
    // claim: A look drops what was kept from a multiple of 2 MiB on, which lies less than that in front of the claim.
    ensures whole { result % 2097152 ≡ 0 }
    ensures front { result ≤ at }
    ensures near { at < result + 2097152 }
{
    at - at % MOST_KEPT
}

// Drops what this machine kept of so many bytes of a file, as far as it is written. 0 bytes are all behind the place.
fn drop_kept(file: &File, at: i64, size: i64) -> io::Result<()> {
    match posix_fadvise(file.as_raw_fd(), at, size, POSIX_FADV_DONTNEED) {
        0 => Ok(()),
        _ => Err(io::Error::from(ErrorKind::Other)),
    }
}

/// Drops what this machine kept of a sector: all from the front of what it may keep as one with that to the end of the file.
pub(crate) fn forget_sector(file: &File, sector: u64) -> io::Result<()> {
    let Ok(at) = i64::try_from(front_of(place_of(sector)?)) else {
        return Err(io::Error::from(ErrorKind::InvalidInput));
    };
    drop_kept(file, at, 0)
}

/// Drops what this machine kept of a file.
pub(crate) fn forget_file(file: &File) -> io::Result<()> {
    drop_kept(file, 0, 0)
}

/// Reads a sector of a file.
pub(crate) fn read_sector(file: &File, sector: u64) -> io::Result<[u8; SECTOR_SIZE]> {
    let mut bytes = [0; SECTOR_SIZE];
    file.read_exact_at(&mut bytes, place_of(sector)?)?;
    Ok(bytes)
}

/// Reads a sector of a file from the device, and not what this machine kept of it: that is dropped before.
pub fn look(file: &File, sector: u64) -> io::Result<[u8; SECTOR_SIZE]> {
    forget_sector(file, sector)?;
    read_sector(file, sector)
}

/// Who stands in the claim of a volume, as the device tells.
pub(crate) fn look_at<V: Volume>(volume: &mut V) -> Result<Token, Fault>
    ensures same { IsSameVolume (V.view volume.old) (V.view volume.new) }
    // claim: A look tells who stands in the claim on the device at that moment, and not what this machine kept. [: shows]
    ensures shows { (V.view volume.old).honest → IfOk result (λ token. token.bytes ≡ token_in (V.view volume.new).device) }
{
    volume.forget()?;
    let claim = volume.read()?;
    Ok(Token::told_by(&claim))
}
