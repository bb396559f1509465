// Telling a disk that had another size when it was formatted.
ghost use Rattle.std.specs.Prelude.{◌≡◌, ◌+◌, ◌*◌, ◌/◌, ◌≤◌, ◌<◌, ◌^◌, length, IsErrOf, IfOk, None, Some, Ok};
ghost use Rattle.sector_disk.specs.Disk.{HasRisen, HasCause};
ghost use Rattle.resized_disk.specs.Reading.{OnlyReads};
ghost use Rattle.resized_disk.specs.Sectors.{sector_at};
ghost use Rattle.resized_disk.specs.Frames.{frames_end};
ghost use Rattle.resized_disk.specs.Resized.{lone_open, lone_segment, TellsResized};
ghost use Rattle.resized_disk.specs.Pieces.{TellsCut};

use crate::frames::frames_end;
use crate::piece::{memory, read_sector};
use crate::searching::search;
use crate::sectors::{is_header, is_open};
use crate::segment::read_lone;
use crate::{Resized, ResizedError};
use sector_disk::{Disk, Fault};
use std::alloc::Global;

// The segment that begins at `base`, and whose frames end at this sector, is cut there.
fn cut_at<D: Disk>(disk: &mut D, base: u64, at: u64) -> Result<Option<Resized>, Fault>
    requires { base ≤ (D.view disk.old).sectors / 2 }
    ensures reads { OnlyReads (D.view disk.old) (D.view disk.new) }
    ensures cause { HasCause (D.fault_count disk.old) (D.fault_count disk.new) result }
    ensures exact { (D.view disk.old).honest → at ≡ frames_end base (D.view disk.old).content
        → IfOk result (TellsCut base (D.view disk.old).content) }
{
    let end = base + disk.sectors() / 2;
    if at < end && end - at < 3 {
        let gate = read_sector(disk, at)?;
        if is_open(&gate) {
            return Ok(Some(Resized::Cut { sector: at }));
        }
    }
    Ok(None)
}

// What is told of the disk whose one open segment begins at `base` and has this header.
fn judge_beside<D: Disk>(
    disk: &mut D,
    base: u64,
    header: &[u8],
    buffer: &mut [u8],
) -> Result<Option<Resized>, Fault>
    requires header { length header.now ≡ 512 }
    requires inside { base ≤ (D.view disk.old).sectors / 2 }
    requires room { length buffer.old ≡ 32768 }
    ensures reads { OnlyReads (D.view disk.old) (D.view disk.new) }
    ensures cause { HasCause (D.fault_count disk.old) (D.fault_count disk.new) result }
    ensures exact { (D.view disk.old).honest → lone_segment (D.view disk.old).content ≡ Some base
        → header.now ≡ sector_at (base + 1) (D.view disk.old).content → IfOk result (TellsResized (D.view disk.old).content) }
{
    let end = frames_end(disk, base, header)?;
    match search(disk, header, end + 1, buffer)? {
        Some(sector) => Ok(Some(Resized::Displaced {
            sectors: sector.saturating_mul(2),
        })),
        None => cut_at(disk, base, end),
    }
}

// What is told of the disk whose one open segment begins at `base`.
fn judge<D: Disk>(disk: &mut D, base: u64, buffer: &mut [u8]) -> Result<Option<Resized>, Fault>
    requires enough { 6 ≤ (D.view disk.old).sectors }
    requires inside { base ≤ (D.view disk.old).sectors / 2 }
    requires small { base + 1 < 2 ^ 64 }
    requires room { length buffer.old ≡ 32768 }
    ensures reads { OnlyReads (D.view disk.old) (D.view disk.new) }
    ensures cause { HasCause (D.fault_count disk.old) (D.fault_count disk.new) result }
    ensures exact { (D.view disk.old).honest → lone_open (D.view disk.old).content ≡ Some base
        → IfOk result (TellsResized (D.view disk.old).content) }
{
    let header = read_sector(disk, base + 1)?;
    if is_header(&header) {
        judge_beside(disk, base, &header, buffer)
    } else {
        Ok(None)
    }
}

/// Whether the disk had another size when it was formatted, as its one open segment tells. `Displaced`: behind the frames
/// of that segment a gate is open where neither segment begins, and behind the gate stands the header that a switch writes
/// beside the open segment. The number of sectors is twice the sector of the first such gate, up to the greatest number.
/// `Cut`: there is none, and at the sector where the frames end a gate is open, in the segment's last two sectors. None
/// otherwise, and where both segments are open or neither is, or the disk has fewer than 6 sectors. The frames are passed
/// over by their lengths, and what they hold is not looked at. It only reads. `OutOfMemory` comes before the first read.
pub fn resized<D: Disk>(alloc: Global, disk: &mut D) -> Result<Option<Resized>, ResizedError>
    // claim: It only reads. Want of memory leaves the disk as it was. `Fault` is told only where the count of faults
    // rose, or is at its greatest. [is_blank]
    ensures reads { OnlyReads (D.view disk.old) (D.view disk.new) }
    ensures later { D.fault_count disk.old ≤ D.fault_count disk.new }
    ensures fault { IsErrOf result ResizedError.Fault → HasRisen (D.fault_count disk.old) (D.fault_count disk.new) }
    ensures no_call { IsErrOf result ResizedError.OutOfMemory → disk.new ≡ disk.old }
    // claim: A disk of fewer than 6 sectors stays as it was, and `Ok(None)` is told.
    ensures small { (D.view disk.old).sectors < 6 → (result ≡ Ok None) × (disk.new ≡ disk.old) }
    // claim: An Ok tells that the newer segment stands displaced, or else that the open one is cut, exactly where the
    // bytes say so.
    ensures exact { (D.view disk.old).honest → IfOk result (TellsResized (D.view disk.old).content) }
{
    if disk.sectors() < 6 {
        return Ok(None);
    }
    let mut buffer = memory(alloc)?;
    let Some(base) = read_lone(disk)? else {
        return Ok(None);
    };
    let told = judge(disk, base, &mut buffer)?;
    Ok(told)
}
