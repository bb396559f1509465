// Serving a disk on the ports of this machine.
ghost use Rattle.std.specs.Prelude.{◌≡◌, []};
ghost use Rattle.broker_core.specs.Broker.{pending_of, settings_of};
ghost use Rattle.hall_core.specs.Fresh.{IsFresh};
ghost use Rattle.receipts.specs.Desks.{desk_count};
ghost use Rattle.lambda_broker.specs.Status as status;

use crate::claiming::{OwnDisk, Watched, own_disk};
use crate::clock_look::ClockLook;
use crate::disk_look::DiskLook;
use crate::lookout::{Lookout, Sights};
use admin_port::AdminPort;
use broker_commands::Address;
use broker_core::Broker;
use broker_opening::{
    OpenedDisk, OpeningError, note_stop, open_in_turn, open_to_serve, own_version, warn,
    warn_of_layers, warn_of_unproved,
};
use disk_claim::{ClaimError, Holding, SharedHolding};
use disk_guard::{Guard, GuardedDisk};
use hall_core::Hall;
use http_front::{Discard, Ending, ServeError, WhenPending, serve};
use http_port::Listening;
use port_meters::{Lines, Machine, Premises};
use receipts::{Gone, SharedOpening, SharedTrace, desks};
use saving_port::{Saving, wait_to_lose};
use sector_disk::{CountingDisk, Disk, Written};
use std::alloc::AllocError;
use std::fs::File;
use std::io::Write;
use std::marker::Brand;
use std::net::SocketAddr;
use std::rt::Files;
use std::sync::Arc;
use std::sync::ledger::{Blank, Ledger};
use std::time::{Duration, Instant};
use std::{io, thread};
use thiserror::Error;

/// How long is waited until a port is tried again on which what was told is to be saved, in seconds.
const PAUSE: u64 = 1;

/// Why a disk was not served, or not to its end.
#[derive(Debug, Drop, Error)]
pub enum ServingError {
    #[error("out of memory")]
    OutOfMemory(#[from] AllocError),
    #[error("{0}")]
    Opening(#[from] OpeningError),
    #[error("{0}")]
    Serve(#[from] ServeError),
    /// The disk was not claimed.
    #[error("{0}")]
    Claim(#[from] ClaimError),
    /// No random bytes, or no thread, were to be had.
    #[error("{0}")]
    System(#[from] io::Error),
    /// The device failed while it was served.
    #[error("device fault")]
    Broken,
    /// Another broker has claimed the disk.
    #[error("taken over")]
    TakenOver,
    /// Another file was put where the disk was, between its opening and the first look at it.
    #[error("another file is at its path since it was opened")]
    Replaced,
    /// The file of the disk was removed, replaced, cut or overwritten, and then the program was asked to end all the same.
    #[error("disk is gone")]
    DiskGone,
}

impl ServingError {
    /// Whether the device failed.
    pub fn is_device_fault(&self) -> bool
        ensures { result ≡ status.is_device_fault self.now }
    {
        match self {
            ServingError::Opening(why) => why.is_device_fault(),
            ServingError::Claim(why) => matches!(why, ClaimError::Fault),
            ServingError::Broken => true,
            _ => false,
        }
    }

    /// Whether another broker has taken the disk over.
    pub fn is_taken_over(&self) -> bool
        ensures { result ≡ status.is_taken_over self.now }
    {
        matches!(
            self,
            ServingError::TakenOver | ServingError::Claim(ClaimError::Taken)
        )
    }
}

// Serves a hall by a ledger of the blank's, until the broker is stopped: the disk.
fn serve_by<R, L, T, D>(
    rt: R,
    hall: Hall<Broker<D>>,
    blank: Blank,
    listeners: Vec<Listening>,
    callers: u8,
    admin: Option<AdminPort>,
    discard: Discard,
    premises: Arc<Premises>,
) -> Result<D, ServingError>
where
    R: Machine,
    L: Ledger + Send + Sync + 'static,
    T: SharedTrace + 'static,
    T::Opening: SharedOpening + 'static,
    D: Disk + Drop,
    requires nothing { pending_of hall.issuer ≡ [] }
    requires fresh { IsFresh (settings_of hall.issuer) hall }
    requires name { blank.name ≡ L.name }
    requires parts { blank.parts ≡ L.parts }
    requires count { L.parts ≡ desk_count (settings_of hall.issuer) }
{
    let served = serve::<R, L, T, D, WhenPending, AdminPort>(
        rt,
        hall,
        blank,
        listeners,
        callers,
        admin,
        discard,
        premises,
        &WhenPending,
    )?;
    match served.ending {
        Ending::Stopped => Ok(served.half.close()),
        Ending::Broken => Err(ServingError::Broken),
    }
}

// Serves a hall until the broker is stopped: the disk.
fn serve_hall<R, T, D>(
    rt: R,
    hall: Hall<Broker<D>>,
    listeners: Vec<Listening>,
    callers: u8,
    admin: Option<AdminPort>,
    discard: Discard,
    premises: Arc<Premises>,
) -> Result<D, ServingError>
where
    R: Machine,
    T: SharedTrace + 'static,
    T::Opening: SharedOpening + 'static,
    D: Disk + Drop,
    requires nothing { pending_of hall.issuer ≡ [] }
    requires fresh { IsFresh (settings_of hall.issuer) hall }
{
    let blank = Blank::new(desks(hall.table().settings()));
    serve_by::<R, Brand, T, D>(
        rt, hall, blank, listeners, callers, admin, discard, premises,
    )
}

// Serves a disk that is open, by what is discarded: the disk.
fn serve_opened<R, T, D>(
    rt: R,
    opened: OpenedDisk<Hall<Broker<D>>>,
    at: &Address<'_>,
    premises: Arc<Premises>,
) -> Result<D, ServingError>
where
    R: Machine,
    T: SharedTrace + 'static,
    T::Opening: SharedOpening + 'static,
    D: Disk + Drop,
    requires nothing { pending_of opened.hall.issuer ≡ [] }
    requires fresh { IsFresh (settings_of opened.hall.issuer) opened.hall }
{
    let discard = Discard {
        success: at.discards_success,
        failure: at.discards_failure,
    };
    let OpenedDisk {
        hall,
        listeners,
        callers,
        admin,
    } = opened;
    serve_hall::<R, T, D>(rt, hall, listeners, callers, admin, discard, premises)
}

// Refuses all until what was told is saved, or is to be lost: the disk is gone. It is refused where a port, a thread or memory is.
fn try_to_save<R>(rt: R, look: &DiskLook, at: &Address<'_>) -> io::Result<()>
where
    R: Files<File = File> + Machine,
{
    let words = look.words(&rt, at.reach, at.port)?;
    let saving = Saving {
        callers: SocketAddr::new(at.reach, at.port),
        admin: at.admin,
        host: at.host,
        dialect: at.dialect,
        words: Arc::new(rt.alloc(), words).map_err(|_| AllocError)?,
    };
    wait_to_lose(rt, &saving)
}

// The same, for as long as it is refused: an end would destroy the last copy of what was told.
fn save<R>(rt: R, look: &DiskLook, at: &Address<'_>) -> ServingError
where
    R: Files<File = File> + Machine,
{
    for _ in rt.forever() {
        if try_to_save(rt, look, at).is_ok() {
            break;
        }
        thread::sleep(&rt, Duration::from_secs(PAUSE));
    }
    ServingError::DiskGone
}

// Serves what is on a disk, once it is opened, while it is looked at what that rests on: the disk. Where that is gone, all is refused
// until what was told is saved.
fn serve_on<R, T, D, W>(
    rt: R,
    own: OwnDisk<D, Sights<R>>,
    written: Written,
    at: &Address<'_>,
    start: &io::Result<Instant>,
    premises: &Arc<Premises>,
    out: &mut W,
) -> Result<D, ServingError>
where
    R: Files<File = File> + Machine,
    R::Dir: Send + 'static,
    T: SharedTrace + 'static,
    T::Opening: SharedOpening + 'static,
    D: Disk + Drop,
    W: Write,
{
    let OwnDisk {
        disk,
        is_takeover,
        lookout,
    } = own;
    let opened = open_to_serve(&rt, disk, written, is_takeover, at, start, premises, out)?;
    let theirs = Arc::try_clone(premises)?;
    let lookout = Lookout::start(rt, lookout, at)?;
    let served = serve_opened::<R, T, D>(rt, opened, at, theirs);
    let look = lookout.end(&rt);
    if look.guard().is_shut() {
        return Err(save(rt, &look, at));
    }
    served
}

// Serves what is on a disk by what keeps no trace: the disk.
fn serve_traceless<R, D, W>(
    rt: R,
    own: OwnDisk<D, Sights<R>>,
    written: Written,
    at: &Address<'_>,
    start: &io::Result<Instant>,
    premises: &Arc<Premises>,
    out: &mut W,
) -> Result<D, ServingError>
where
    R: Files<File = File> + Machine,
    R::Dir: Send + 'static,
    D: Disk + Drop,
    W: Write,
{
    serve_on::<R, Gone, D, W>(rt, own, written, at, start, premises, out)
}

// Serves a disk, and gives its claim up at an orderly end.
fn serve_own<R, W>(
    rt: R,
    own: OwnDisk<Watched<R>, Sights<R>>,
    guard: Arc<Guard>,
    at: &Address<'_>,
    start: &io::Result<Instant>,
    premises: &Arc<Premises>,
    out: &mut W,
) -> Result<(), ServingError>
where
    R: Files<File = File> + Machine,
    R::Dir: Send + 'static,
    W: Write,
{
    let OwnDisk {
        disk,
        is_takeover,
        lookout,
    } = own;
    let written = Written::new(rt.alloc())?;
    let counted = OwnDisk {
        disk: CountingDisk::over(GuardedDisk::over(disk, guard), written.another()?),
        is_takeover,
        lookout,
    };
    let served = serve_traceless(rt, counted, written, at, start, premises, out)?;
    match served.into_inner().into_inner().release() {
        Ok(_) => Ok(()),
        Err(_) => Err(ServingError::Broken),
    }
}

// How it ended, where this is what looks at the claim have shown.
fn ended(served: Result<(), ServingError>, holding: Holding) -> Result<(), ServingError> {
    match holding {
        Holding::Held => served,
        Holding::Taken => Err(ServingError::TakenOver),
        Holding::Unread => Err(ServingError::Broken),
    }
}

/// Serves a disk: callers on a port of this machine and environment n on the port n behind it, from the line that is
/// printed on until the broker is stopped. The file is looked at first, as soon as it is this broker's turn, then it is claimed, where
/// that is asked for, then what is on it is looked at, and then the ports.
pub fn serve_disk<R, W>(rt: R, at: &Address<'_>, out: &mut W) -> Result<(), ServingError>
where
    R: Files<File = File> + Machine,
    R::Dir: Send + 'static,
    W: Write,
{
    let alloc = rt.alloc();
    let grace = Duration::from_secs(u64::from(at.clock_grace));
    let premises = Premises::new(alloc, Lines::new(alloc)?, grace)?;
    let lines = premises.lines();
    let (disk, start) = open_in_turn(&rt, at, lines, out)?;
    warn_of_unproved(&rt, lines, &own_version(&rt)?);
    warn(&rt, lines, at);
    let (guard, clock) = (Guard::new(alloc)?, ClockLook::now(&rt));
    let look = DiskLook::open(&rt, at.path, Arc::try_clone(&guard)?)?;
    if look.is_in_layers(&rt) {
        warn_of_layers(&rt, lines, at.path);
    }
    let holding = SharedHolding::new(alloc)?;
    let own = own_disk(
        &rt,
        at,
        disk,
        look,
        clock,
        Arc::try_clone(&premises)?,
        &holding,
    )?;
    let served = serve_own(rt, own, guard, at, &start, &premises, out);
    ended(served, holding.get())?;
    note_stop(&rt, lines, at);
    Ok(())
}
