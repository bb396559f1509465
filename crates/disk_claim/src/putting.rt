// Writing a claim.
ghost use Rattle.std.specs.Prelude.{◌≡◌, OnOk};
ghost use Rattle.sector_disk.specs.Disk.{IsSameDisk};
ghost use Rattle.disk_claim.specs.Putting.{HasClaim};
ghost use Rattle.disk_claim.specs.Token.{claim_of};

use crate::Token;
use crate::place::claim_sector;
use sector_disk::{Disk, Fault};

/// Has a token stand in the claim of a disk, durably. A disk that has none stays as it is.
pub(crate) fn put<D: Disk>(disk: &mut D, token: Token) -> Result<(), Fault>
    ensures same { IsSameDisk (D.view disk.old) (D.view disk.new) }
    ensures claim { OnOk result (HasClaim (D.view disk.old) (claim_of token.bytes) (D.view disk.new)) }
{
    let Some(sector) = claim_sector(disk.sectors()) else {
        return Ok(());
    };
    disk.write(sector, &token.claim())?;
    disk.barrier()
}
