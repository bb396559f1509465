// Parts of a disk: up to 64 sectors at once, and one alone.
ghost use Rattle.std.specs.Prelude.{◌≡◌, ◌+◌, ◌*◌, ◌/◌, ◌%◌, ◌-◌, ◌≤◌, ◌<◌, length, IfOk, OnOk, min};
ghost use Rattle.sector_disk.specs.Disk.{HasCause};
ghost use Rattle.resized_disk.specs.Reading.{OnlyReads};
ghost use Rattle.resized_disk.specs.Sectors.{sector_at};
ghost use Rattle.resized_disk.specs.Pieces.{IsPiece};

use sector_disk::{Disk, Fault, SECTOR_SIZE};
use std::alloc::{AllocError, Global};

// How many sectors are read at once.
const PIECE_SECTORS: u64 = 64;

// Memory for one piece.
pub(crate) fn memory(alloc: Global) -> Result<Vec<u8>, AllocError>
    ensures { IfOk result (λ bytes. length bytes.items ≡ 32768) }
{
    vec![in alloc; 0; PIECE_SECTORS as usize * SECTOR_SIZE]
}

// How many sectors the piece has that begins at this one.
pub(crate) fn sectors_from(sectors: u64, at: u64) -> u64
    requires { at ≤ sectors }
    ensures { result ≡ min 64 (sectors - at) }
{
    PIECE_SECTORS.min(sectors - at)
}

// The bytes of a sector of a piece.
pub(crate) fn sector_in(piece: &[u8], place: usize) -> &[u8]
    requires { 512 * place + 512 ≤ length piece.now }
    ensures exact { result.now ≡ sector_at place piece.now }
    ensures len { length result.now ≡ 512 }
{
    let start = SECTOR_SIZE * place;
    &piece[start..start + SECTOR_SIZE]
}

// Reads a piece.
pub(crate) fn read_piece<D: Disk>(disk: &mut D, at: u64, piece: &mut [u8]) -> Result<(), Fault>
    requires whole { length piece.old % 512 ≡ 0 }
    requires inside { at + length piece.old / 512 ≤ (D.view disk.old).sectors }
    ensures reads { OnlyReads (D.view disk.old) (D.view disk.new) }
    ensures cause { HasCause (D.fault_count disk.old) (D.fault_count disk.new) result }
    ensures bytes { (D.view disk.old).honest → OnOk result (IsPiece (D.view disk.old).content at piece.new) }
{
    disk.read(at, piece)
}

// Reads a sector.
pub(crate) fn read_sector<D: Disk>(disk: &mut D, at: u64) -> Result<[u8; 512], Fault>
    requires { at < (D.view disk.old).sectors }
    ensures reads { OnlyReads (D.view disk.old) (D.view disk.new) }
    ensures cause { HasCause (D.fault_count disk.old) (D.fault_count disk.new) result }
    ensures bytes { (D.view disk.old).honest → IfOk result (λ bytes. bytes ≡ sector_at at (D.view disk.old).content) }
{
    let mut bytes = [0; SECTOR_SIZE];
    disk.read(at, &mut bytes)?;
    Ok(bytes)
}
