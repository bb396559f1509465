// Telling a disk on which nothing stands.
ghost use Rattle.std.specs.Prelude.{◌≡◌, ◌+◌, ◌*◌, ◌/◌, ◌%◌, ◌≤◌, length, take, drop, IsErrOf, IfOk};
ghost use Rattle.sector_disk.specs.Disk.{HasRisen, HasCause};
ghost use Rattle.resized_disk.specs.Reading.{OnlyReads};
ghost use Rattle.resized_disk.specs.Blank.{is_blank};

use crate::ResizedError;
use crate::piece::{memory, read_piece, sectors_from};
use sector_disk::{Disk, Fault, SECTOR_SIZE};
use std::alloc::Global;

// Each byte is zero.
fn are_zeros(bytes: &[u8]) -> bool
    ensures { result ≡ is_blank bytes.now }
{
    bytes.iter().all(|b| *b == 0)
}

// Reads the piece from this sector on, and tells whether it is all zeros.
fn is_blank_piece<D: Disk>(disk: &mut D, at: u64, piece: &mut [u8]) -> Result<bool, Fault>
    requires whole { length piece.old % 512 ≡ 0 }
    requires inside { at + length piece.old / 512 ≤ (D.view disk.old).sectors }
    ensures reads { OnlyReads (D.view disk.old) (D.view disk.new) }
    ensures cause { HasCause (D.fault_count disk.old) (D.fault_count disk.new) result }
    ensures exact { (D.view disk.old).honest
        → IfOk result (λ blank. blank ≡ is_blank (take (length piece.old) (drop (512 * at) (D.view disk.old).content))) }
{
    read_piece(disk, at, piece)?;
    Ok(are_zeros(piece))
}

// Whether each piece of the disk is all zeros.
fn are_blank_pieces<D: Disk>(disk: &mut D, buffer: &mut [u8]) -> Result<bool, Fault>
    requires room { length buffer.old ≡ 32768 }
    ensures reads { OnlyReads (D.view disk.old) (D.view disk.new) }
    ensures cause { HasCause (D.fault_count disk.old) (D.fault_count disk.new) result }
    ensures exact { (D.view disk.old).honest → IfOk result (λ blank. blank ≡ is_blank (D.view disk.old).content) }
{
    let sectors = disk.sectors();
    let mut at = 0;
    while at < sectors {
        let count = sectors_from(sectors, at);
        if !is_blank_piece(disk, at, &mut buffer[..count as usize * SECTOR_SIZE])? {
            return Ok(false);
        }
        at += count;
    }
    Ok(true)
}

/// Whether all bytes of the disk are zeros. It only reads, and ends at the first 64 sectors that are not all zeros.
/// `OutOfMemory` comes before the first read.
pub fn is_blank<D: Disk>(alloc: Global, disk: &mut D) -> Result<bool, ResizedError>
    ensures reads { OnlyReads (D.view disk.old) (D.view disk.new) }
    ensures later { D.fault_count disk.old ≤ D.fault_count disk.new }
    ensures fault { IsErrOf result ResizedError.Fault → HasRisen (D.fault_count disk.old) (D.fault_count disk.new) }
    ensures no_call { IsErrOf result ResizedError.OutOfMemory → disk.new ≡ disk.old }
    // claim: An Ok tells a disk blank exactly where all its bytes are zeros.
    ensures exact { (D.view disk.old).honest → IfOk result (λ blank. blank ≡ is_blank (D.view disk.old).content) }
{
    let mut buffer = memory(alloc)?;
    let is_blank = are_blank_pieces(disk, &mut buffer)?;
    Ok(is_blank)
}
