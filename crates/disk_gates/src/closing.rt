// Closing the gates of what stands on a disk, so that a stop leaves no older half of it alone.
ghost use Rattle.std.specs.Prelude.{◌≡◌, ◌+◌, ◌*◌, ◌/◌, ◌<◌, ◌≤◌, replicate, false, IfOk, OnOk};
ghost use Rattle.sector_disk.specs.Disk.{IsSameDisk, HasCause, HasOneImage, Holds};
ghost use Rattle.sector_disk.specs.Moments.{LeavesOnly};
ghost use Rattle.resized_disk.specs.Reading.{OnlyReads};
ghost use Rattle.resized_disk.specs.Sectors.{sector_at, is_open};
ghost use Rattle.disk_gates.specs.Closing.{order_in, DiffersAt, IsShutting, IsClosing, AreApart, AreClosed, HasClosed};

use crate::gates::{is_open, rank_of, read_sector};
use sector_disk::{Disk, Fault, SECTOR_SIZE};

// Makes a sector zeros, durably.
fn clear_sector<D: Disk>(disk: &mut D, sector: u64) -> Result<(), Fault>
    requires { sector < (D.view disk.old).sectors }
    ensures same { IsSameDisk (D.view disk.old) (D.view disk.new) }
    ensures cause { HasCause (D.fault_count disk.old) (D.fault_count disk.new) result }
    ensures zeros { (D.view disk.old).honest
        → OnOk result (Holds (D.view disk.old).content (512 * sector) (replicate 512 0) (D.view disk.new).content × HasOneImage (D.view disk.new)) }
    ensures moments { (D.view disk.old).honest → HasOneImage (D.view disk.old)
        → LeavesOnly (D.view disk.old) (D.view disk.new) (DiffersAt sector (D.view disk.old).content) }
{
    disk.write(sector, &[0; SECTOR_SIZE])?;
    disk.barrier()
}

// Closes the gate at a sector of a disk that is settled, if it is open.
fn close_gate<D: Disk>(disk: &mut D, sector: u64) -> Result<(), Fault>
    requires { sector < (D.view disk.old).sectors }
    ensures same { IsSameDisk (D.view disk.old) (D.view disk.new) }
    ensures cause { HasCause (D.fault_count disk.old) (D.fault_count disk.new) result }
    ensures closed { (D.view disk.old).honest → HasOneImage (D.view disk.old) → OnOk result (
        (is_open (sector_at sector (D.view disk.new).content) ≡ false)
        × DiffersAt sector (D.view disk.old).content (D.view disk.new).content × HasOneImage (D.view disk.new)) }
    ensures moments { (D.view disk.old).honest → HasOneImage (D.view disk.old)
        → LeavesOnly (D.view disk.old) (D.view disk.new) (DiffersAt sector (D.view disk.old).content) }
{
    let gate = read_sector(disk, sector)?;
    if is_open(&gate) {
        clear_sector(disk, sector)
    } else {
        Ok(())
    }
}

/// Where the segment begins that is closed first, and where the other one does.
pub fn order_of<D: Disk>(disk: &mut D) -> Result<(u64, u64), Fault>
    requires { 6 ≤ (D.view disk.old).sectors }
    ensures reads { OnlyReads (D.view disk.old) (D.view disk.new) }
    ensures cause { HasCause (D.fault_count disk.old) (D.fault_count disk.new) result }
    ensures inside { IfOk result (λ order. (order.0 < (D.view disk.old).sectors) × (order.1 < (D.view disk.old).sectors)) }
    ensures exact { (D.view disk.old).honest → IfOk result (λ order. order ≡ order_in (D.view disk.old).content) }
{
    let half = disk.sectors() / 2;
    let first = read_sector(disk, 1)?;
    let second = read_sector(disk, half + 1)?;
    if rank_of(&first) < rank_of(&second) {
        Ok((0, half))
    } else {
        Ok((half, 0))
    }
}

// Closes these gates of a disk that is settled, one after the other.
fn close_both<D: Disk>(disk: &mut D, first: u64, second: u64) -> Result<(), Fault>
    requires first { first < (D.view disk.old).sectors }
    requires second { second < (D.view disk.old).sectors }
    ensures same { IsSameDisk (D.view disk.old) (D.view disk.new) }
    ensures cause { HasCause (D.fault_count disk.old) (D.fault_count disk.new) result }
    ensures moments { (D.view disk.old).honest → HasOneImage (D.view disk.old)
        → LeavesOnly (D.view disk.old) (D.view disk.new) (IsShutting first second (D.view disk.old).content) }
    ensures closed { (D.view disk.old).honest → HasOneImage (D.view disk.old) → AreApart first second
        → OnOk result (AreClosed first second (D.view disk.new)) }
{
    close_gate(disk, first)?;
    close_gate(disk, second)
}

/// Settles a disk, and closes the gates of what stands on it, each durably: that of the older segment first. A closed gate is not
/// written. So a stop leaves what was there, or the newer segment alone, or no formatted disk.
pub fn close_gates<D: Disk>(disk: &mut D) -> Result<(), Fault>
    requires { 6 ≤ (D.view disk.old).sectors }
    ensures same { IsSameDisk (D.view disk.old) (D.view disk.new) }
    ensures cause { HasCause (D.fault_count disk.old) (D.fault_count disk.new) result }
    // claim: Before a disk is made zeros its gates are closed: a crash meanwhile leaves an old image, or the old bytes but for the
    // gate of the segment with the lower generation, or these with that gate closed but for the other one. [: moments, closed]
    ensures moments { (D.view disk.old).honest → LeavesOnly (D.view disk.old) (D.view disk.new) (IsClosing (D.view disk.old)) }
    ensures closed { (D.view disk.old).honest → OnOk result (HasClosed (D.view disk.old).content (D.view disk.new)) }
{
    disk.barrier()?;
    let order = order_of(disk)?;
    close_both(disk, order.0, order.1)
}
