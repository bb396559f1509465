// Claiming a disk.
ghost use Rattle.std.specs.Prelude.{◌≡◌, None, true, IfOk, IsErrOf, OnOk, is_some};
ghost use Rattle.disk_claim.specs.Place.{claim_sector};
ghost use Rattle.disk_claim.specs.Claiming.{Claims, HasForgotten, HasFound};

use crate::place::claim_sector;
use crate::putting::put;
use crate::{Holding, Token, Volume, Watch, WatchedDisk};
use sector_disk::{Disk, Fault};
use thiserror::Error;

/// Why a disk was not claimed.
#[derive(Clone, Copy, Debug, PartialEq, Eq, Error)]
pub enum ClaimError {
    /// It has no sector for a claim, and nothing was written.
    #[error("no sector for a claim: a disk that is watched has 8 n + 1 sectors")]
    NoSector,
    /// Another broker claimed it right behind this one.
    #[error("taken over")]
    Taken,
    /// The device failed.
    #[error("device fault")]
    Fault,
}

impl From<Fault> for ClaimError {
    ghost use Rattle.disk_claim.specs.declared.claiming.ClaimError.TheVariants as claim_error;

    ghost from_gives = { λ _ e. e ≡ claim_error.Fault };

    fn from(_fault: Fault) -> Self {
        ClaimError::Fault
    }
}

/// A disk that was claimed.
#[derive(Drop)]
pub struct Claimed<D: Disk, V: Volume> {
    pub disk: WatchedDisk<D, V>,
    /// Who stood in the claim before: nobody, where the last broker that watched ended in order.
    pub found: Token,
}

/// Claims a disk, of which nothing that is served was read yet: the token of who watches stands in its claim, durably, and then each
/// read asks the device.
///
/// Refused: `NoSector`, before anything is written; `Taken`, and `Fault`.
pub fn claim<D: Disk, V: Volume>(disk: D, watch: Watch<V>) -> Result<Claimed<D, V>, ClaimError>
where
    D: Drop,
    V: Drop,
    // claim: A disk is claimed by the token of who watches it, durably, and nothing else of it changes. Of an honest volume's
    // claim the machine keeps nothing then, and who is told to have stood there did at a look. [: claims, forgets, found]
    ensures claims { IfOk result (λ claimed. Claims D.view disk watch.own claimed.disk) }
    ensures forgets { IfOk result (λ claimed. HasForgotten V.view watch claimed.disk) }
    ensures found { IfOk result (λ claimed. HasFound V.view watch claimed.found) }
    ensures none { IsErrOf result ClaimError.NoSector → claim_sector (D.view disk).sectors ≡ None }
    ensures sector { OnOk result (is_some (claim_sector (D.view disk).sectors) ≡ true) }
{
    let (mut disk, mut watch) = (disk, watch);
    if claim_sector(disk.sectors()).is_none() {
        return Err(ClaimError::NoSector);
    }
    let found = watch.peek()?;
    put(&mut disk, watch.own())?;
    match watch.look() {
        Holding::Held => {}
        Holding::Taken => return Err(ClaimError::Taken),
        Holding::Unread => return Err(ClaimError::Fault),
    }
    watch.forget_all()?;
    Ok(Claimed {
        disk: WatchedDisk::over(disk, Some(watch)),
        found,
    })
}
