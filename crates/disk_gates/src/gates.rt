// Gates and headers of a disk, by the bytes of their sectors.
ghost use Rattle.std.specs.Prelude.{◌≡◌, ◌+◌, ◌<◌, ◌≤◌, length, take, drop, IfOk};
ghost use Rattle.std.specs.Int.{w64, from_be_bytes};
ghost use Rattle.sector_disk.specs.Disk.{HasCause};
ghost use Rattle.resized_disk.specs.Reading.{OnlyReads};
ghost use Rattle.resized_disk.specs.Sectors.{sector_at, is_open, has_letters};
ghost use Rattle.disk_gates.specs.Closing.{rank_of};
ghost use Rattle.disk_gates.specs.Versions.{is_newer};

use sector_disk::{Disk, Fault, SECTOR_SIZE};

/// What a header begins with.
const LETTERS: [u8; 7] = *b"AINVOKE";

/// The latest version of the format that this program knows.
const LATEST_VERSION: u8 = 2;

/// Fewer sectors than these are no formatted disk.
pub const LEAST_SECTORS: u64 = 6;

/// Reads a sector.
pub(crate) fn read_sector<D: Disk>(disk: &mut D, at: u64) -> Result<[u8; SECTOR_SIZE], Fault>
    requires { at < (D.view disk.old).sectors }
    ensures reads { OnlyReads (D.view disk.old) (D.view disk.new) }
    ensures cause { HasCause (D.fault_count disk.old) (D.fault_count disk.new) result }
    ensures bytes { (D.view disk.old).honest → IfOk result (λ bytes. bytes ≡ sector_at at (D.view disk.old).content) }
{
    let mut bytes = [0; SECTOR_SIZE];
    disk.read(at, &mut bytes)?;
    Ok(bytes)
}

/// Whether a gate is open.
pub(crate) fn is_open(gate: &[u8; SECTOR_SIZE]) -> bool
    ensures { result ≡ is_open gate.now }
{
    gate[0] == 1
}

// Whether a sector begins as a header does, of whichever version.
fn has_letters(header: &[u8; SECTOR_SIZE]) -> bool
    ensures { result ≡ has_letters header.now }
{
    header.starts_with(&LETTERS)
}

/// Whether a sector is a header of a later version than this program knows.
pub(crate) fn is_newer(header: &[u8; SECTOR_SIZE]) -> bool
    ensures { result ≡ is_newer header.now }
{
    has_letters(header) && header[7] > LATEST_VERSION
}

// The number in the eight bytes from this place on.
fn u64_at(bytes: &[u8], at: usize) -> u64
    requires { at + 8 ≤ length bytes.now }
    ensures { result ≡ from_be_bytes w64 (take 8 (drop at bytes.now)) }
{
    let (_, rest) = bytes.split_at(at);
    let (front, _) = rest.split_at(8);
    u64::from_be_bytes([
        front[0], front[1], front[2], front[3], front[4], front[5], front[6], front[7],
    ])
}

/// By which number a segment with this header is closed before one with a greater number: its generation, or, where it is no header,
/// the greatest.
#[tactic(auto, unfolding(resized_disk::specs::Sectors::generation))]
pub(crate) fn rank_of(header: &[u8; SECTOR_SIZE]) -> u64
    ensures { result ≡ rank_of header.now }
{
    if has_letters(header) {
        u64_at(header, 8)
    } else {
        u64::MAX
    }
}
