// A disk that is used no more once its guard is shut.
ghost use Rattle.std.specs.Prelude.{◌≡◌};
ghost use Rattle.disk_guard.specs.Guarded.{counted};

use crate::guard::Guard;
use sector_disk::{Disk, Fault, SECTOR_SIZE};
use std::sync::Arc;

/// A disk of which each call fails once its guard is shut. Until then it does what the disk within does.
#[derive(Drop)]
pub struct GuardedDisk<D: Disk> {
    inner: D,
    guard: Arc<Guard>,
    failed: u64,
}

// Counts a fault.
fn fault(failed: &mut u64) -> Fault
    ensures { failed.new ≡ counted failed.old }
{
    *failed = failed.saturating_add(1);
    Fault
}

impl<D: Disk> GuardedDisk<D> {
    /// This disk, by this guard.
    pub fn over(inner: D, guard: Arc<Guard>) -> GuardedDisk<D>
        // claim: A guarded disk is seen as the disk within, and its calls do no more: one that fails by its guard does nothing.
        // [GuardedDisk: view, fault_count]
        ensures inner { result.inner ≡ inner }
        ensures failed { result.failed ≡ 0 }
    {
        GuardedDisk {
            inner,
            guard,
            failed: 0,
        }
    }

    /// The disk within.
    pub fn into_inner(self) -> D
        ensures { result ≡ self.inner }
    {
        let GuardedDisk { inner, .. } = self;
        inner
    }
}

impl<D: Disk> Disk for GuardedDisk<D> {
    ghost use Rattle.disk_guard.specs.Guarded.{view_of, faults_of};

    ghost view = { view_of D.view };

    ghost fault_count = { faults_of D.fault_count };

    ghost laws = { λ disk. D.laws disk.inner };

    fn sectors(&self) -> u64 {
        self.inner.sectors()
    }

    fn faults(&self) -> u64 {
        self.inner.faults().saturating_add(self.failed)
    }

    fn read(&mut self, at: u64, out: &mut [u8]) -> Result<(), Fault> {
        if self.guard.is_shut() {
            return Err(fault(&mut self.failed));
        }
        self.guard.turn();
        let read = self.inner.read(at, out);
        self.guard.turn();
        if read.is_ok() {
            self.guard
                .note_read(self.inner.sectors() / 2 <= at, at, &*out);
        }
        read
    }

    fn write(&mut self, at: u64, bytes: &[u8]) -> Result<(), Fault> {
        if self.guard.is_shut() {
            return Err(fault(&mut self.failed));
        }
        self.guard.forget(at, (bytes.len() / SECTOR_SIZE) as u64);
        self.guard.turn();
        let written = self.inner.write(at, bytes);
        self.guard.turn();
        if written.is_ok() {
            self.guard.note_write(at, bytes);
        }
        written
    }

    fn barrier(&mut self) -> Result<(), Fault> {
        if self.guard.is_shut() {
            return Err(fault(&mut self.failed));
        }
        self.guard.turn();
        let settled = self.inner.barrier();
        self.guard.turn();
        settled
    }
}
