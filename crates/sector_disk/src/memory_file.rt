// A file in memory. It keeps what it had at first and each call.
ghost use Rattle.std.specs.Prelude.{◌≡◌, ◌≤◌, length, replicate, IfOk, IsOk};
ghost use Rattle.sector_disk.specs.Replay.{content_after};
ghost use Rattle.sector_disk.specs.RandomAccess.{IsSameFile, IsDurable, SizesHonestly, ReadsAtHonestly, WritesAtHonestly};

use crate::replay::{Call, overwrite, record, record_write};
use crate::{Fault, RandomAccessFile};
use std::alloc::{AllocError, Global};

/// How many bytes a call reads or writes at most: no whole number of sectors, so that a longer call is cut within one.
const MOST_AT_ONCE: usize = 1000;

/// A file in memory, which is honest. Its size stays: what lies behind its end is neither read nor written. A call reads or
/// writes 1000 bytes at most, so that who has more to do goes on from there. Only want of memory is a fault.
#[derive(Drop)]
pub struct MemFile {
    alloc: Global,
    first: Vec<u8>,
    bytes: Vec<u8>,
    calls: Vec<Call>,
    ghost replayed: { bytes.items ≡ content_after calls.items first.items },
}

impl MemFile {
    ghost use Rattle.sector_disk.specs.MemoryFile.{memory_view};

    /// A file of so many zeros, all of them durable.
    pub fn new(alloc: Global, size: usize) -> Result<MemFile, AllocError>
        // claim: A file in memory begins as zeros, and is honest. [MemFile::size, MemFile::read_at, MemFile::write_at:
        // honest; MemFile: laws]
        ensures content { IfOk result (λ file. (memory_view file).content ≡ replicate size 0) }
        ensures durable { IfOk result (λ file. IsDurable (memory_view file)) }
    {
        Ok(MemFile {
            alloc,
            first: vec![in alloc; 0; size]?,
            bytes: vec![in alloc; 0; size]?,
            calls: Vec::new(alloc),
        })
    }
}

impl RandomAccessFile for MemFile {
    ghost use Rattle.sector_disk.specs.MemoryFile.{memory_view, memory_laws, count_at_once};

    ghost view = { memory_view };

    ghost laws = { λ file honest. memory_laws file };

    fn size(&mut self) -> Result<u64, Fault>
        ensures same { IsSameFile (memory_view self.old) (memory_view self.new) }
        ensures honest { SizesHonestly (memory_view self.old) (memory_view self.new) result }
        ensures works { IsOk result }
    {
        Ok(self.bytes.len() as u64)
    }

    fn read_at(&mut self, at: u64, out: &mut [u8]) -> Result<usize, Fault>
        ensures bound { IfOk result (λ count. count ≤ length out.old) }
        ensures same { IsSameFile (memory_view self.old) (memory_view self.new) }
        ensures honest { ReadsAtHonestly (memory_view self.old) (memory_view self.new) at out.new result }
        ensures count { IfOk result (λ count. count ≡ count_at_once (memory_view self.old) at (length out.old)) }
        ensures works { IsOk result }
    {
        let from = self.bytes.len().min(at as usize);
        let count = out.len().min(self.bytes.len() - from).min(MOST_AT_ONCE);
        overwrite(out, 0, &self.bytes[from..from + count]);
        Ok(count)
    }

    fn write_at(&mut self, at: u64, bytes: &[u8]) -> Result<usize, Fault>
        ensures bound { IfOk result (λ count. count ≤ length bytes.now) }
        ensures same { IsSameFile (memory_view self.old) (memory_view self.new) }
        ensures honest { WritesAtHonestly (memory_view self.old) (memory_view self.new) at bytes.now result }
        ensures count { IfOk result (λ count. count ≡ count_at_once (memory_view self.old) at (length bytes.now)) }
    {
        let from = self.bytes.len().min(at as usize);
        let count = bytes.len().min(self.bytes.len() - from).min(MOST_AT_ONCE);
        let part = &bytes[..count];
        match record_write(self.alloc, &mut self.calls, from as u64, part) {
            Ok(()) => {
                overwrite(&mut self.bytes, from, part);
                Ok(count)
            }
            Err(_) => Err(Fault),
        }
    }

    fn sync(&mut self) -> Result<(), Fault> {
        match record(&mut self.calls, Call::Barrier) {
            Ok(()) => Ok(()),
            Err(_) => Err(Fault),
        }
    }
}
