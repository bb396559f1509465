// Reads of a disk, and of numbers in its bytes.
ghost use Rattle.std.specs.Prelude.{◌≡◌, ◌+◌, ◌*◌, ◌≤◌, ◌<◌, ◌^◌, length, take, drop, None, Err, IfOk, IfErr, OnOk, IsErrOf};
ghost use Rattle.std.specs.Int.{w32, w64, from_be_bytes};
ghost use Rattle.sector_disk.specs.Disk.{IsOnDisk, HasRisen, HasCause};
ghost use Rattle.checkpoint.specs.Opening.{OnlyReads, IsNoFinding};
ghost use Rattle.checkpoint.specs.OpenSteps.{sectors_at};
ghost use Rattle.checkpoint.specs.Image.{sector_at, are_zeros};

use crate::OpenError;
use crate::pieces::PIECE_SIZE;
use invoke_records::RecordError;
use sector_disk::{Disk, Fault, SECTOR_SIZE};
use std::alloc::{AllocError, Global};

// Reads these bytes from this sector on, 64 sectors at once.
fn read_pieces<D: Disk>(disk: &mut D, at: u64, bytes: &mut [u8]) -> Result<(), Fault>
    requires whole { IsOnDisk (D.view disk.old).sectors at (length bytes.old) }
    requires small { 512 * at + length bytes.old < 512 * 2 ^ 64 }
    ensures reads { OnlyReads (D.view disk.old) (D.view disk.new) }
    ensures cause { HasCause (D.fault_count disk.old) (D.fault_count disk.new) result }
    ensures bytes { (D.view disk.old).honest
        → OnOk result (bytes.new ≡ take (length bytes.old) (drop (512 * at) (D.view disk.old).content)) }
{
    let mut done = 0;
    while done < bytes.len() {
        let size = PIECE_SIZE.min(bytes.len() - done);
        let sector = at + (done / SECTOR_SIZE) as u64;
        disk.read(sector, &mut bytes[done..done + size])?;
        done += size;
    }
    Ok(())
}

// The sectors from this one on, so many.
pub(crate) fn read_sectors<D: Disk>(
    alloc: Global,
    disk: &mut D,
    at: u64,
    count: u64,
) -> Result<Vec<u8>, OpenError>
    requires room { at + count ≤ (D.view disk.old).sectors }
    requires size { count < 2 ^ 50 }
    requires small { at + count < 2 ^ 64 }
    ensures reads { OnlyReads (D.view disk.old) (D.view disk.new) }
    ensures later { D.fault_count disk.old ≤ D.fault_count disk.new }
    ensures fault { IsErrOf result OpenError.Fault → HasRisen (D.fault_count disk.old) (D.fault_count disk.new) }
    ensures told { IfErr result (λ why. IsNoFinding why) }
    ensures bytes { (D.view disk.old).honest → IfOk result (λ bytes. bytes.items ≡ sectors_at at count (D.view disk.old).content) }
    ensures len { IfOk result (λ bytes. length bytes.items ≡ 512 * count) }
{
    let mut bytes = Vec::new(alloc);
    bytes.resize(count as usize * SECTOR_SIZE, 0)?;
    read_pieces(disk, at, &mut bytes)?;
    Ok(bytes)
}

// The sector's bytes.
pub(crate) fn read_sector<D: Disk>(disk: &mut D, at: u64) -> Result<[u8; 512], OpenError>
    requires { at < (D.view disk.old).sectors }
    ensures reads { OnlyReads (D.view disk.old) (D.view disk.new) }
    ensures later { D.fault_count disk.old ≤ D.fault_count disk.new }
    ensures fault { IsErrOf result OpenError.Fault → HasRisen (D.fault_count disk.old) (D.fault_count disk.new) }
    ensures told { IfErr result (λ why. IsNoFinding why) }
    ensures bytes { (D.view disk.old).honest → IfOk result (λ bytes. bytes ≡ sector_at at (D.view disk.old).content) }
{
    let mut bytes = [0; SECTOR_SIZE];
    disk.read(at, &mut bytes)?;
    Ok(bytes)
}

// The number in the four bytes from this place on.
pub(crate) fn u32_at(bytes: &[u8], at: usize) -> u32
    requires { at + 4 ≤ length bytes.now }
    ensures { result ≡ from_be_bytes w32 (take 4 (drop at bytes.now)) }
{
    let (_, rest) = bytes.split_at(at);
    let (front, _) = rest.split_at(4);
    u32::from_be_bytes([front[0], front[1], front[2], front[3]])
}

// The number in the eight bytes from this place on.
pub(crate) fn u64_at(bytes: &[u8], at: usize) -> u64
    requires { at + 8 ≤ length bytes.now }
    ensures { result ≡ from_be_bytes w64 (take 8 (drop at bytes.now)) }
{
    let (_, rest) = bytes.split_at(at);
    let (front, _) = rest.split_at(8);
    u64::from_be_bytes([
        front[0], front[1], front[2], front[3], front[4], front[5], front[6], front[7],
    ])
}

// Bytes that were not read as a record are none, unless memory ran out.
pub(crate) fn unread<T>(why: RecordError) -> Result<Option<T>, AllocError>
    ensures { IfOk result (λ found. (found ≡ None) × (why ≡ RecordError.OutOfMemory → ⊥)) }
{
    match why {
        RecordError::OutOfMemory => Err(AllocError),
        _ => Ok(None),
    }
}

// Each byte is zero.
pub(crate) fn are_zeros(bytes: &[u8]) -> bool
    ensures { result ≡ are_zeros bytes.now }
{
    bytes.iter().all(|b| *b == 0)
}
