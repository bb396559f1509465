// Who may open a disk that somebody claims.
ghost use Rattle.sector_disk.specs.Disk.{IsSameDisk};
ghost use Rattle.resized_disk.specs.Reading.{OnlyReads};
ghost use Rattle.broker_commands.specs.Claims.{TellsClaim};

use crate::opening::DiskError;
use disk_claim::unclaim;
use disk_gates::is_claimed;
use sector_disk::{Disk, Fault, FileError};

/// Refuses a formatted disk in whose claim somebody stands. It only reads.
pub(crate) fn check_claim<D: Disk>(disk: &mut D) -> Result<(), DiskError>
    // claim: Who does not watch a formatted disk is refused where a token stands in its claim, and passes where none does.
    ensures reads { OnlyReads (D.view disk.old) (D.view disk.new) }
    ensures exact { (D.view disk.old).honest → TellsClaim (D.view disk.old).content result }
{
    match is_claimed(disk) {
        Ok(false) => Ok(()),
        Ok(true) => Err(DiskError::Claimed),
        Err(Fault) => Err(DiskError::File(FileError::Fault)),
    }
}

/// Refuses a formatted disk in whose claim somebody stands, or takes that claim away, durably, before anything else is written.
pub fn enter_claim<D: Disk>(disk: &mut D, is_unclaimed: bool) -> Result<(), DiskError>
    ensures same { IsSameDisk (D.view disk.old) (D.view disk.new) }
{
    match check_claim(disk) {
        Err(DiskError::Claimed) if is_unclaimed => match unclaim(disk) {
            Ok(()) => Ok(()),
            Err(Fault) => Err(DiskError::File(FileError::Fault)),
        },
        judged => judged,
    }
}
