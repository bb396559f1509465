// Looks at a claim, one behind the other.
use broker_commands::Telltale;
use disk_claim::{FileVolume, Volume};
use sector_disk::{Fault, SECTOR_SIZE};
use std::alloc::{AllocError, Global};
use std::io::Eprint;
use std::sync::Arc;
use std::sync::atomic::{AtomicBool, Ordering};
use std::thread;
use std::time::{Clock, Duration};

/// How long is slept before it is asked again whether nobody looks, in microseconds.
const PAUSE: u64 = 50;

/// How often that is asked: for ten seconds and more.
const MOST_TRIES: u32 = 200_000;

/// Whether somebody looks at a claim.
#[derive(Drop)]
pub(crate) struct Turn {
    is_taken: Arc<AtomicBool, Global>,
}

impl Turn {
    /// Nobody looks.
    pub(crate) fn new(alloc: Global) -> Result<Turn, AllocError> {
        let is_taken = Arc::new(alloc, AtomicBool::new(false))?;
        Ok(Turn { is_taken })
    }

    /// The same turn.
    pub(crate) fn another(&self) -> Result<Turn, AllocError> {
        let is_taken = Arc::try_clone(&self.is_taken)?;
        Ok(Turn { is_taken })
    }

    // Takes it, where nobody has it: whether it was taken.
    fn is_taken_now(&self) -> bool {
        self.is_taken
            .compare_exchange(false, true, Ordering::SeqCst, Ordering::SeqCst)
            .is_ok()
    }

    // Takes it, once nobody has it.
    fn take<R: Clock>(&self, rt: &R) -> Result<(), Fault> {
        for _ in 0..MOST_TRIES {
            if self.is_taken_now() {
                return Ok(());
            }
            thread::sleep(rt, Duration::from_micros(PAUSE));
        }
        Err(Fault)
    }

    // Gives it back.
    fn give(&self) {
        self.is_taken.store(false, Ordering::SeqCst);
    }
}

/// The claim of a disk, at which one looks at a time, from `forget` to `read`. What the machine keeps of a page is not dropped while
/// another one reads it, and a read behind that would give what stood there before.
#[derive(Drop)]
pub(crate) struct SharedVolume<R: Drop> {
    rt: R,
    volume: FileVolume<Telltale<R>>,
    turn: Turn,
}

impl<R: Drop> SharedVolume<R> {
    /// This claim, by this turn.
    pub(crate) fn new(rt: R, volume: FileVolume<Telltale<R>>, turn: Turn) -> SharedVolume<R> {
        SharedVolume { rt, volume, turn }
    }
}

impl<R: Eprint + AllocGlobal + Clock + Copy + Drop> Volume for SharedVolume<R> {
    ghost use Rattle.disk_claim.specs.Volume.{unclaimed};

    ghost view = { λ volume. unclaimed };

    fn forget(&mut self) -> Result<(), Fault> {
        self.turn.take(&self.rt)?;
        let forgotten = self.volume.forget();
        if forgotten.is_err() {
            self.turn.give();
        }
        forgotten
    }

    fn forget_all(&mut self) -> Result<(), Fault> {
        self.volume.forget_all()
    }

    fn read(&mut self) -> Result<[u8; SECTOR_SIZE], Fault> {
        let read = self.volume.read();
        self.turn.give();
        read
    }
}
