// Telling a disk that somebody claims.
ghost use Rattle.std.specs.Prelude.{◌≡◌, IfOk, false, IsTrue};
ghost use Rattle.sector_disk.specs.Disk.{HasCause};
ghost use Rattle.resized_disk.specs.Reading.{OnlyReads};
ghost use Rattle.disk_gates.specs.Claims.{is_formatted, IsClaimed, IsFree};

use crate::gates::{LEAST_SECTORS, is_open, read_sector};
use disk_claim::holder;
use sector_disk::{Disk, Fault};

// Whether one of its gates is open. Without one the last sector is no claim.
fn is_formatted<D: Disk>(disk: &mut D) -> Result<bool, Fault>
    ensures reads { OnlyReads (D.view disk.old) (D.view disk.new) }
    ensures cause { HasCause (D.fault_count disk.old) (D.fault_count disk.new) result }
    ensures exact { (D.view disk.old).honest → IfOk result (λ told. told ≡ is_formatted (D.view disk.old).content) }
{
    let sectors = disk.sectors();
    if sectors < LEAST_SECTORS {
        return Ok(false);
    }
    let first = read_sector(disk, 0)?;
    let second = read_sector(disk, sectors / 2)?;
    Ok(is_open(&first) || is_open(&second))
}

/// Whether somebody stands in the claim of a formatted disk. It only reads.
pub fn is_claimed<D: Disk>(disk: &mut D) -> Result<bool, Fault>
    ensures reads { OnlyReads (D.view disk.old) (D.view disk.new) }
    // claim: Who does not watch is told that a formatted disk is claimed exactly where a token stands in its claim. [: claimed, free]
    ensures claimed { (D.view disk.old).honest → IfOk result (λ told. IsTrue told → IsClaimed (D.view disk.old).content) }
    ensures free { (D.view disk.old).honest → IfOk result (λ told. told ≡ false → IsFree (D.view disk.old).content) }
{
    let is_formatted = is_formatted(disk)?;
    if is_formatted {
        let holder = holder(disk)?;
        Ok(!holder.is_nobody())
    } else {
        Ok(false)
    }
}
