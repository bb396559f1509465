// A disk in memory that tells what it does, and a hall over it.
ghost use Rattle.std.specs.Prelude.{◌≡◌, [], IfOk};
ghost use Rattle.broker_core.specs.Broker.{pending_of, settings_of};
ghost use Rattle.hall_core.specs.Fresh.{IsFresh};

use broker_core::{Broker, format};
use hall_core::Hall;
use retry_rules::{Settings, Text};
use sector_disk::{CallKind, Disk, Fault, FaultOnceDisk, MemDisk};
use std::alloc::{AllocError, Global};
use std::sync::Arc;
use std::sync::atomic::{AtomicBool, AtomicU64, Ordering};
use std::test::Fail;
use std::thread;

/// After so many turns a test has failed.
pub const MOST_TURNS: u64 = 1_000_000;

fn text(alloc: Global, bytes: &[u8]) -> Result<Text, AllocError> {
    Ok(Text::from_vec(Vec::from_slice(alloc, bytes)?))
}

fn settings(alloc: Global) -> Result<Settings, AllocError> {
    let name = text(alloc, b"my-function")?;
    let handler = text(alloc, b"app.main")?;
    let arn = text(
        alloc,
        b"arn:aws:lambda:us-east-2:123456789012:function:my-function",
    )?;
    Ok(Settings {
        retries: 2,
        age: 21600,
        timeout: 3,
        concurrency: 10,
        environments: 1,
        events: 4,
        payload: 1024,
        response: 1024,
        name,
        handler,
        arn,
    })
}

// How many sectors a disk of the tests has.
const SECTORS: u64 = 64;

// Formats a disk with the settings of all tests.
fn format_disk<D: Disk>(alloc: Global, disk: &mut D) -> Result<(), Fail> {
    let settings = settings(alloc)?;
    if settings.check().is_err() {
        return Err(Fail::new("the settings are not good"));
    }
    match format(alloc, disk, &settings) {
        Ok(()) => Ok(()),
        Err(_) => Err(Fail::new("the disk is not formatted")),
    }
}

// A formatted disk in memory.
fn formatted(alloc: Global) -> Result<MemDisk, Fail> {
    let mut disk = MemDisk::new(alloc, SECTORS)?;
    format_disk(alloc, &mut disk)?;
    Ok(disk)
}

/// What a disk does beside what it is asked.
#[derive(Clone, Copy)]
pub struct Trouble {
    /// The number of the change that fails, 0 for none.
    pub fault: u64,
    /// The number of the barrier that waits, 0 for none. The first one is the opening's.
    pub barrier: u64,
    /// How many answers that barrier waits for.
    pub answers: u64,
}

/// A disk that does just what it is asked.
pub const NO_TROUBLE: Trouble = Trouble {
    fault: 0,
    barrier: 0,
    answers: 0,
};

/// What a disk and the threads of a test tell each other.
#[derive(Drop)]
pub struct DiskWatch {
    trouble: Trouble,
    barriers: AtomicU64,
    answers: AtomicU64,
    is_late: AtomicBool,
}

impl DiskWatch {
    pub fn new(trouble: Trouble) -> DiskWatch {
        DiskWatch {
            trouble,
            barriers: AtomicU64::new(0),
            answers: AtomicU64::new(0),
            is_late: AtomicBool::new(false),
        }
    }

    /// A call was answered.
    pub fn note_answer(&self) {
        self.answers.fetch_add(1, Ordering::SeqCst);
    }

    /// Waits until the barrier that waits has begun.
    pub fn wait_for_barrier(&self) {
        for _turn in 0..MOST_TURNS {
            if self.barriers() >= self.trouble.barrier {
                return;
            }
            thread::yield_now();
        }
    }

    // The barrier that waits does so.
    fn wait_for_answers(&self) {
        for _turn in 0..MOST_TURNS {
            if self.answers.load(Ordering::SeqCst) >= self.trouble.answers {
                return;
            }
            thread::yield_now();
        }
        self.is_late.store(true, Ordering::SeqCst);
    }

    /// How many barriers have begun.
    pub fn barriers(&self) -> u64 {
        self.barriers.load(Ordering::SeqCst)
    }

    /// Whether the disk waited in vain.
    pub fn is_late(&self) -> bool {
        self.is_late.load(Ordering::SeqCst)
    }
}

/// A disk one of whose barriers waits.
#[derive(Drop)]
pub struct WatchedDisk<D: Disk> {
    inner: D,
    watch: Arc<DiskWatch>,
}

/// The disk of all tests: one call may fail, and it is watched.
pub type TestDisk = WatchedDisk<FaultOnceDisk<MemDisk>>;

impl<D: Disk> Disk for WatchedDisk<D> {
    ghost view = { λ disk. D.view disk.inner };

    ghost fault_count = { λ disk. D.fault_count disk.inner };

    ghost laws = { λ disk. D.laws disk.inner };

    fn sectors(&self) -> u64 {
        self.inner.sectors()
    }

    fn faults(&self) -> u64 {
        self.inner.faults()
    }

    fn read(&mut self, at: u64, out: &mut [u8]) -> Result<(), Fault> {
        self.inner.read(at, out)
    }

    fn write(&mut self, at: u64, bytes: &[u8]) -> Result<(), Fault> {
        self.inner.write(at, bytes)
    }

    fn barrier(&mut self) -> Result<(), Fault> {
        let number = self.watch.barriers.fetch_add(1, Ordering::SeqCst);
        if number.saturating_add(1) == self.watch.trouble.barrier {
            self.watch.wait_for_answers();
        }
        self.inner.barrier()
    }
}

/// A hall over a new disk that is watched.
pub fn hall(alloc: Global, watch: &Arc<DiskWatch>) -> Result<Hall<Broker<TestDisk>>, Fail>
    ensures nothing { IfOk result (λ hall. pending_of hall.issuer ≡ []) }
    ensures fresh { IfOk result (λ hall. IsFresh (settings_of hall.issuer) hall) }
{
    let watch = Arc::try_clone(watch)?;
    let fault = watch.trouble.fault;
    let inner = FaultOnceDisk::new(formatted(alloc)?, CallKind::Changes, fault);
    hall_over(alloc, WatchedDisk { inner, watch })
}

// A hall over a formatted disk.
fn hall_over<D: Disk + Drop>(alloc: Global, disk: D) -> Result<Hall<Broker<D>>, Fail>
    ensures nothing { IfOk result (λ hall. pending_of hall.issuer ≡ []) }
    ensures fresh { IfOk result (λ hall. IsFresh (settings_of hall.issuer) hall) }
{
    let Ok(broker) = Broker::open(alloc, disk) else {
        return Err(Fail::new("the disk is not opened"));
    };
    match Hall::new(alloc, broker) {
        Ok(hall) => Ok(hall),
        Err(_) => Err(Fail::new("there is no memory for a hall")),
    }
}
