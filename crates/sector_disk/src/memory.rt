// A disk in memory, which can tear. It keeps what it had at first and each call.
ghost use Rattle.std.specs.Prelude.{◌≡◌, ◌*◌, ◌+◌, ◌<◌, ◌^◌, [], ◌∷◌, List, ℕ, false, length, replicate, IfOk, IsOk, is_ok, if◌then◌else◌};
ghost use Rattle.sector_disk.specs.Replay.{content_after, unsettled_after, is_unsettled_after, IsTorn, IsImage};
ghost use Rattle.sector_disk.specs.Disk.{IsOnDisk, IsSameDisk, HasCause, IsRead, IsWrite, IsBarrier};

use crate::disk::count_fault;
use crate::replay::{Call, overwrite, record, record_write};
use crate::{Disk, Fault, SECTOR_SIZE};
use std::alloc::{AllocError, Global};

/// A disk in memory. A stop may leave any bytes in the sectors that were written since the last barrier.
#[derive(Drop)]
pub struct MemDisk {
    alloc: Global,
    sectors: u64,
    first: Vec<u8>,
    bytes: Vec<u8>,
    calls: Vec<Call>,
    barriers: u64,
    faults: u64,
    ghost sized: { length bytes.items ≡ 512 * sectors },
    ghost replayed: { bytes.items ≡ content_after calls.items first.items },
}

impl MemDisk {
    ghost use Rattle.sector_disk.specs.Disk.{HasOneImage};
    ghost use Rattle.sector_disk.specs.Memory.{memory_view, barriers_of, faults_of, is_unsettled};

    /// A disk of zeros, all of them on it. A size that memory cannot have is want of memory.
    pub fn new(alloc: Global, sectors: u64) -> Result<MemDisk, AllocError>
        ensures content { IfOk result (λ disk. (memory_view disk).content ≡ replicate (512 * sectors) 0) }
        ensures settled { IfOk result (λ disk. HasOneImage (memory_view disk)) }
        ensures sectors { IfOk result (λ disk. (memory_view disk).sectors ≡ sectors) }
        ensures counts { IfOk result (λ disk. (faults_of disk ≡ 0) × (barriers_of disk ≡ 0)) }
    {
        let size = SECTOR_SIZE.checked_mul(sectors as usize).ok_or(AllocError)?;
        Ok(MemDisk {
            alloc,
            sectors,
            first: vec![in alloc; 0; size]?,
            bytes: vec![in alloc; 0; size]?,
            calls: Vec::new(alloc),
            barriers: 0,
            faults: 0,
        })
    }

    /// How many barriers have succeeded. The count stays at its greatest value.
    pub fn barriers(&self) -> u64
        ensures { result ≡ barriers_of self.now }
    {
        self.barriers
    }

    /// The disk after a stop. A listed sector that is unsettled takes the listed bytes, the last entry's if it is
    /// listed twice, and another unsettled sector keeps what was last written. Other entries are ignored.
    pub fn stop(self, choice: &[(u64, [u8; 512])]) -> MemDisk
        // claim: A crash can be played: chosen bytes in sectors that were not flushed. It leaves an image that the disk
        // might have left.
        ensures image { IsTorn (is_unsettled self) choice.now (memory_view self).content (memory_view result).content }
        ensures possible { (memory_view self).may_leave (memory_view result).content }
        ensures settled { HasOneImage (memory_view result) }
        ensures sectors { (memory_view result).sectors ≡ (memory_view self).sectors }
        ensures counts { (faults_of result ≡ faults_of self) × (barriers_of result ≡ barriers_of self) }
    {
        let MemDisk {
            alloc,
            sectors,
            mut first,
            mut bytes,
            mut calls,
            barriers,
            faults,
        } = self;
        tear(&mut bytes, sectors, &calls, choice);
        first.copy_from_slice(&bytes);
        calls.clear();
        MemDisk {
            alloc,
            sectors,
            first,
            bytes,
            calls,
            barriers,
            faults,
        }
    }
}

// Whether the sector was written since the last barrier.
fn was_written(calls: &[Call], sector: u64) -> bool
    requires { 512 * sector + 512 < 2 ^ 64 }
    ensures { result ≡ unsettled_after calls.now sector false }
{
    let size = SECTOR_SIZE as u64;
    let start = size * sector;
    let mut unsettled = false;
    for call in calls {
        match call {
            Call::Write { at, bytes } => {
                let count = bytes.len() as u64;
                unsettled = *at <= start && start - *at + size <= count || unsettled;
            }
            Call::Barrier => unsettled = false,
        }
    }
    unsettled
}

// Writes the bytes of each entry over its sector, if that is unsettled.
fn tear(content: &mut [u8], sectors: u64, calls: &[Call], choice: &[(u64, [u8; 512])])
    requires { length content.old ≡ 512 * sectors }
    ensures image { IsTorn (is_unsettled_after sectors calls.now) choice.now content.old content.new }
    ensures possible { (first : List ℕ) → IsImage first calls.now content.old → IsImage first calls.now content.new }
{
    for (sector, bytes) in choice {
        tear_sector(content, sectors, calls, *sector, bytes);
    }
}

// Writes these bytes over a sector, if it is unsettled.
fn tear_sector(content: &mut [u8], sectors: u64, calls: &[Call], sector: u64, bytes: &[u8; 512])
    requires { length content.old ≡ 512 * sectors }
    ensures image { IsTorn (is_unsettled_after sectors calls.now) ((sector, bytes.now) ∷ []) content.old content.new }
    ensures possible { (first : List ℕ) → IsImage first calls.now content.old → IsImage first calls.now content.new }
{
    if sector < sectors && was_written(calls, sector) {
        overwrite(content, SECTOR_SIZE * sector as usize, bytes);
    }
}

impl Disk for MemDisk {
    ghost use Rattle.sector_disk.specs.Memory.{memory_view, barriers_of, faults_of, one_more, memory_laws};

    ghost view = { memory_view };

    ghost fault_count = { faults_of };

    ghost laws = { λ disk honest. memory_laws disk };

    fn sectors(&self) -> u64 {
        self.sectors
    }

    fn faults(&self) -> u64 {
        self.faults
    }

    fn read(&mut self, at: u64, out: &mut [u8]) -> Result<(), Fault>
        requires { IsOnDisk (memory_view self.old).sectors at (length out.old) }
        ensures same { IsSameDisk (memory_view self.old) (memory_view self.new) }
        ensures cause { HasCause (faults_of self.old) (faults_of self.new) result }
        // claim: All that a disk has to, the disk in memory does. It fails no read. [: read, works; MemDisk::write: write;
        // MemDisk::barrier: barrier; MemDisk: laws]
        ensures read { IsRead (memory_view self.old) (memory_view self.new) (512 * at) (length out.old) out.new result }
        ensures barriers { barriers_of self.new ≡ barriers_of self.old }
        ensures works { IsOk result }
    {
        let from = SECTOR_SIZE * at as usize;
        out.copy_from_slice(&self.bytes[from..from + out.len()]);
        Ok(())
    }

    fn write(&mut self, at: u64, bytes: &[u8]) -> Result<(), Fault>
        requires { IsOnDisk (memory_view self.old).sectors at (length bytes.now) }
        ensures same { IsSameDisk (memory_view self.old) (memory_view self.new) }
        ensures cause { HasCause (faults_of self.old) (faults_of self.new) result }
        ensures write { IsWrite (memory_view self.old) (memory_view self.new) (512 * at) bytes.now result }
        ensures barriers { barriers_of self.new ≡ barriers_of self.old }
    {
        let from = SECTOR_SIZE * at as usize;
        match record_write(self.alloc, &mut self.calls, from as u64, bytes) {
            Ok(()) => {
                overwrite(&mut self.bytes, from, bytes);
                Ok(())
            }
            Err(_) => Err(count_fault(&mut self.faults)),
        }
    }

    fn barrier(&mut self) -> Result<(), Fault>
        ensures same { IsSameDisk (memory_view self.old) (memory_view self.new) }
        ensures cause { HasCause (faults_of self.old) (faults_of self.new) result }
        ensures barrier { IsBarrier (memory_view self.old) (memory_view self.new) result }
        ensures barriers { barriers_of self.new ≡ (if is_ok result then one_more (barriers_of self.old) else barriers_of self.old) }
    {
        match record(&mut self.calls, Call::Barrier) {
            Ok(()) => {
                self.barriers = self.barriers.saturating_add(1);
                Ok(())
            }
            Err(_) => Err(count_fault(&mut self.faults)),
        }
    }
}
