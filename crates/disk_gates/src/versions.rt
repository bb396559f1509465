// Telling a disk of a later version of the format.
ghost use Rattle.std.specs.Prelude.{◌≡◌, ◌+◌, ◌<◌, ◌^◌, IfOk};
ghost use Rattle.sector_disk.specs.Disk.{HasCause};
ghost use Rattle.resized_disk.specs.Reading.{OnlyReads};
ghost use Rattle.disk_gates.specs.Versions.{is_newer_at, is_newer_disk};

use crate::gates::{LEAST_SECTORS, is_newer, is_open, read_sector};
use sector_disk::{Disk, Fault};

// Whether the segment that begins at this sector is open and of a later version.
fn is_newer_at<D: Disk>(disk: &mut D, base: u64) -> Result<bool, Fault>
    requires inside { base + 1 < (D.view disk.old).sectors }
    requires small { base + 1 < 2 ^ 64 }
    ensures reads { OnlyReads (D.view disk.old) (D.view disk.new) }
    ensures cause { HasCause (D.fault_count disk.old) (D.fault_count disk.new) result }
    ensures exact { (D.view disk.old).honest → IfOk result (λ told. told ≡ is_newer_at base (D.view disk.old).content) }
{
    let gate = read_sector(disk, base)?;
    let header = read_sector(disk, base + 1)?;
    Ok(is_open(&gate) && is_newer(&header))
}

/// Whether one of its segments is open and of a later version. It only reads.
pub fn is_newer_disk<D: Disk>(disk: &mut D) -> Result<bool, Fault>
    ensures reads { OnlyReads (D.view disk.old) (D.view disk.new) }
    ensures cause { HasCause (D.fault_count disk.old) (D.fault_count disk.new) result }
    // claim: A disk is told to be of a newer version exactly where behind an open gate stands a header of a version that this program
    // does not know. [: exact]
    ensures exact { (D.view disk.old).honest → IfOk result (λ told. told ≡ is_newer_disk (D.view disk.old).content) }
{
    let sectors = disk.sectors();
    if sectors < LEAST_SECTORS {
        return Ok(false);
    }
    let first = is_newer_at(disk, 0)?;
    let second = is_newer_at(disk, sectors / 2)?;
    Ok(first || second)
}
