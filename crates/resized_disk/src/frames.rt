// Where the frames of a segment end, by their gates and lengths alone.
ghost use Rattle.std.specs.Prelude.{◌≡◌, ◌+◌, ◌*◌, ◌/◌, ◌-◌, ◌≤◌, ◌<◌, ◌^◌, length, min, IfOk, IfSome};
ghost use Rattle.sector_disk.specs.Disk.{HasCause};
ghost use Rattle.resized_disk.specs.Reading.{OnlyReads};
ghost use Rattle.resized_disk.specs.Sectors.{sectors_of, sector_at, snapshot_size};
ghost use Rattle.resized_disk.specs.Frames.{sectors_for, frame_sectors, end_from, frames_end};
ghost use Rattle.resized_disk.specs.Pieces.{frame_at};

use crate::piece::{read_piece, sector_in};
use crate::sectors::{commands_size, is_open, snapshot_size};
use sector_disk::{Disk, Fault, SECTOR_SIZE};

// How many sectors the frame of this body takes: its gate, and the body.
fn frame_sectors(head: &[u8]) -> u64
    requires { length head.now ≡ 512 }
    ensures exact { result ≡ frame_sectors head.now }
    ensures some { 2 ≤ result }
{
    1 + (32 + commands_size(head) as u64).div_ceil(SECTOR_SIZE as u64)
}

// How many sectors the frame takes whose gate is at this sector, where that is open.
fn read_frame<D: Disk>(disk: &mut D, gate: u64) -> Result<Option<u64>, Fault>
    requires { gate + 2 ≤ (D.view disk.old).sectors }
    ensures reads { OnlyReads (D.view disk.old) (D.view disk.new) }
    ensures cause { HasCause (D.fault_count disk.old) (D.fault_count disk.new) result }
    ensures some { IfOk result (λ told. IfSome told (λ sectors. 2 ≤ sectors)) }
    ensures exact { (D.view disk.old).honest → IfOk result (λ told. told ≡ frame_at gate (D.view disk.old).content) }
{
    let mut bytes = [0; 2 * SECTOR_SIZE];
    read_piece(disk, gate, &mut bytes)?;
    if is_open(sector_in(&bytes, 0)) {
        Ok(Some(frame_sectors(sector_in(&bytes, 1))))
    } else {
        Ok(None)
    }
}

// The sector at which the frames end that begin at this gate, in an area that ends at `end`.
fn end_from<D: Disk>(disk: &mut D, gate: u64, end: u64) -> Result<u64, Fault>
    requires order { gate ≤ end }
    requires inside { end ≤ (D.view disk.old).sectors }
    ensures reads { OnlyReads (D.view disk.old) (D.view disk.new) }
    ensures cause { HasCause (D.fault_count disk.old) (D.fault_count disk.new) result }
    ensures inside { IfOk result (λ at. at ≤ end) }
    ensures exact { (D.view disk.old).honest
        → IfOk result (λ at. at ≡ end_from (D.view disk.old).sectors end gate (D.view disk.old).content) }
{
    let mut at = gate;
    while end - at >= 3 {
        match read_frame(disk, at)? {
            Some(sectors) => at = at.saturating_add(sectors).min(end),
            None => return Ok(at),
        }
    }
    Ok(at)
}

// The first gate of the area of a segment with this header, which begins at `base` and ends at `end`.
fn first_gate(header: &[u8], base: u64, end: u64) -> u64
    requires { length header.now ≡ 512 }
    ensures { result ≡ min (base + 2 + sectors_for (snapshot_size header.now)) end }
{
    let snapshot = snapshot_size(header).div_ceil(SECTOR_SIZE as u64);
    base.saturating_add(2).saturating_add(snapshot).min(end)
}

// The sector at which the frames of the segment end that begins at `base` with this header.
pub(crate) fn frames_end<D: Disk>(disk: &mut D, base: u64, header: &[u8]) -> Result<u64, Fault>
    requires header { length header.now ≡ 512 }
    requires inside { base ≤ (D.view disk.old).sectors / 2 }
    ensures reads { OnlyReads (D.view disk.old) (D.view disk.new) }
    ensures cause { HasCause (D.fault_count disk.old) (D.fault_count disk.new) result }
    ensures small { IfOk result (λ at. at + 1 < 2 ^ 64) }
    ensures exact { (D.view disk.old).honest → header.now ≡ sector_at (base + 1) (D.view disk.old).content
        → IfOk result (λ at. at ≡ frames_end base (D.view disk.old).content) }
{
    let end = base + disk.sectors() / 2;
    end_from(disk, first_gate(header, base, end), end)
}
