// Refusing a disk of a later version of the format.
ghost use Rattle.resized_disk.specs.Reading.{OnlyReads};
ghost use Rattle.broker_commands.specs.Versions.{TellsVersion};

use crate::opening::DiskError;
use disk_gates::is_newer_disk;
use sector_disk::{Disk, Fault, FileError};

/// Refuses a disk of a later version of the format. It only reads.
pub(crate) fn check_version<D: Disk>(disk: &mut D) -> Result<(), DiskError>
    // claim: A disk is refused as one of a newer version exactly where behind an open gate stands a header of a version that this
    // program does not know.
    ensures reads { OnlyReads (D.view disk.old) (D.view disk.new) }
    ensures exact { (D.view disk.old).honest → TellsVersion (D.view disk.old).content result }
{
    match is_newer_disk(disk) {
        Ok(false) => Ok(()),
        Ok(true) => Err(DiskError::NewerVersion),
        Err(Fault) => Err(DiskError::File(FileError::Fault)),
    }
}
