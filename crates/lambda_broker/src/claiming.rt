// Claiming the disk that is served.
use crate::clock_look::ClockLook;
use crate::disk_look::DiskLook;
use crate::lookout::Sights;
use crate::owner::{function_of, is_formatted};
use crate::serving::ServingError;
use crate::turns::{SharedVolume, Turn};
use broker_commands::{Address, Device, DiskError, enter_claim, telltale_by};
use broker_core::OpenError;
use broker_opening::{OpeningError, check_name};
use disk_claim::{
    ClaimError, Claimed, FileVolume, SharedHolding, Token, Watch, WatchedDisk, claim, claim_sector,
};
use port_meters::{Lines, Machine, Premises};
use rand::TryRng;
use rand::rngs::SysRng;
use sector_disk::{Disk, FileError};
use std::alloc::AllocGlobal;
use std::fs::File;
use std::io;
use std::random::RandomSource;
use std::rt::Files;
use std::sync::Arc;

/// Who watches the claim of a disk.
pub(crate) type Watcher<R> = Watch<SharedVolume<R>>;

/// A disk that is served, whether it is claimed or not.
pub(crate) type Watched<R> = WatchedDisk<Device<R>, SharedVolume<R>>;

/// A disk that is to be served, and what is looked at once a second meanwhile.
#[derive(Drop)]
pub(crate) struct OwnDisk<D, W> {
    pub(crate) disk: D,
    /// Another broker claimed it and did not end in order, so that it may still write.
    pub(crate) is_takeover: bool,
    pub(crate) lookout: W,
}

// Refuses a disk that is not formatted, or is another function's than the one that is asked for, before anything of it is written.
fn check_owner<R, D: Disk>(rt: &R, at: &Address<'_>, disk: &mut D) -> Result<(), ServingError>
where
    R: AllocGlobal,
{
    match is_formatted(disk) {
        Ok(true) => {}
        Ok(false) => return Err(ServingError::Opening(OpeningError::Open(OpenError::NotFormatted))),
        Err(_) => return Err(ServingError::Broken),
    }
    match function_of(rt.alloc(), disk) {
        Ok(Some(name)) => Ok(check_name(rt.alloc(), &name, at.name)?),
        Ok(None) => Ok(()),
        Err(_) => Err(ServingError::Broken),
    }
}

// A token of random bytes.
fn draw<R: RandomSource>(rt: &R) -> io::Result<Token> {
    let mut bytes = [0; 16];
    SysRng::new(rt).try_fill_bytes(&mut bytes)?;
    Ok(Token::of(bytes))
}

// Who watches the claim in this sector for a token, where it is the own turn.
fn watch_at<R>(
    rt: &R,
    path: &str,
    sector: u64,
    own: Token,
    turn: &Turn,
    holding: &SharedHolding,
    lines: &Arc<Lines>,
) -> Result<Watcher<R>, ServingError>
where
    R: Files<File = File> + Machine,
{
    let log = telltale_by(rt, path, lines)?;
    match FileVolume::open(rt, path, sector, log) {
        Ok(volume) => {
            let shared = SharedVolume::new(*rt, volume, turn.another()?);
            Ok(Watch::new(shared, own, holding.another()?))
        }
        Err(why) => Err(not_opened(why)),
    }
}

// Why a claim was not opened.
fn not_opened(why: FileError) -> ServingError {
    ServingError::Opening(OpeningError::Disk(DiskError::File(why)))
}

// What is claimed of a disk.
#[derive(Drop)]
struct Claim<D, W> {
    disk: D,
    is_takeover: bool,
    lookout: Option<W>,
}

// What is claimed of a disk in a file.
type FileClaim<R> = Claim<Watched<R>, Watcher<R>>;

// The disk as it is served by who does not watch it, where nobody claims it.
fn unwatched<R>(rt: &R, at: &Address<'_>, disk: Device<R>) -> Result<FileClaim<R>, ServingError>
where
    R: Files<File = File> + Machine,
{
    let mut disk = disk;
    if at.is_unclaimed {
        check_owner(rt, at, &mut disk)?;
    }
    match enter_claim(&mut disk, at.is_unclaimed) {
        Ok(()) => Ok(Claim {
            disk: WatchedDisk::over(disk, None),
            is_takeover: false,
            lookout: None,
        }),
        Err(why) => Err(ServingError::Opening(OpeningError::Disk(why))),
    }
}

// The disk, claimed by a token of its own, where that is asked for.
fn claim_own<R>(
    rt: &R,
    at: &Address<'_>,
    disk: Device<R>,
    holding: &SharedHolding,
    lines: &Arc<Lines>,
) -> Result<FileClaim<R>, ServingError>
where
    R: Files<File = File> + Machine,
{
    if !at.is_watched {
        return unwatched(rt, at, disk);
    }
    let Some(sector) = claim_sector(disk.sectors()) else {
        return Err(ServingError::Claim(ClaimError::NoSector));
    };
    let mut disk = disk;
    check_owner(rt, at, &mut disk)?;
    let (token, turn) = (draw(rt)?, Turn::new(rt.alloc())?);
    let lookout = watch_at(rt, at.path, sector, token, &turn, holding, lines)?;
    let watch = watch_at(rt, at.path, sector, token, &turn, holding, lines)?;
    let Claimed { disk, found } = claim(disk, watch)?;
    Ok(Claim {
        disk,
        is_takeover: found != Token::NOBODY,
        lookout: Some(lookout),
    })
}

/// The disk as it is served: claimed by a token of its own, where that is asked for, before anything is read that is served. What looks
/// at the claim show is told to `holding`, and what else is looked at to the premises.
///
/// Refused: `Claimed` where somebody stands in the claim of a disk that is not to be claimed; `NoSector`, `NotFormatted` and
/// `OtherFunction`, before anything is written; `Taken` where another broker claimed it right behind, and where the device, memory or
/// random bytes fail: the own token may stand there then.
pub(crate) fn own_disk<R>(
    rt: &R,
    at: &Address<'_>,
    disk: Device<R>,
    look: DiskLook,
    clock: Option<ClockLook>,
    premises: Arc<Premises>,
    holding: &SharedHolding,
) -> Result<OwnDisk<Watched<R>, Sights<R>>, ServingError>
where
    R: Files<File = File> + Machine,
{
    let Claim {
        disk,
        is_takeover,
        lookout,
    } = claim_own(rt, at, disk, holding, premises.lines())?;
    let sights = Sights {
        claim: lookout,
        disk: look,
        clock,
        premises,
    };
    Ok(OwnDisk {
        disk,
        is_takeover,
        lookout: sights,
    })
}
