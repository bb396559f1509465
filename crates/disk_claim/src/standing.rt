// Who stands in the claim of a disk, for those that do not watch it.
ghost use Rattle.std.specs.Prelude.{◌≡◌, replicate, IfOk, OnOk};
ghost use Rattle.sector_disk.specs.Disk.{IsSameDisk, IsUntouched, HasCause};
ghost use Rattle.disk_claim.specs.Standing.{holder_in};
ghost use Rattle.disk_claim.specs.Putting.{HasClaim};
ghost use Rattle.disk_claim.specs.Settling.{told};
ghost use Rattle.disk_claim.specs.Token.{claim_of};

use crate::Token;
use crate::place::claim_sector;
use crate::putting::put;
use sector_disk::{Disk, Fault, SECTOR_SIZE};

/// Who stands in the claim of a disk: nobody, where it has no sector for one. It only reads.
pub fn holder<D: Disk>(disk: &mut D) -> Result<Token, Fault>
    ensures same { IsSameDisk (D.view disk.old) (D.view disk.new) }
    ensures cause { HasCause (D.fault_count disk.old) (D.fault_count disk.new) (told result) }
    ensures untouched { (D.view disk.old).honest → IsUntouched (D.view disk.old) (D.view disk.new) }
    // claim: Who does not watch is told the token that stands in the claim of the disk, or nobody where it has no sector for one.
    // [: exact]
    ensures exact { (D.view disk.old).honest
        → IfOk result (λ token. token.bytes ≡ holder_in (D.view disk.old).sectors (D.view disk.old).content) }
{
    let Some(sector) = claim_sector(disk.sectors()) else {
        return Ok(Token::NOBODY);
    };
    let mut claim = [0; SECTOR_SIZE];
    disk.read(sector, &mut claim)?;
    Ok(Token::told_by(&claim))
}

/// Takes away who stands in the claim of a disk, durably: nobody stands there then.
pub fn unclaim<D: Disk>(disk: &mut D) -> Result<(), Fault>
    ensures same { IsSameDisk (D.view disk.old) (D.view disk.new) }
    // claim: Behind an Ok nobody stands in the claim, durably, and nothing else of the disk has changed. [: zeros]
    ensures zeros { OnOk result (HasClaim (D.view disk.old) (claim_of (replicate 16 0)) (D.view disk.new)) }
{
    put(disk, Token::NOBODY)
}
