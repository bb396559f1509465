// A disk that counts what is written to it.
ghost use Rattle.std.specs.Prelude.{◌≡◌, ◌*◌, length};
ghost use Rattle.sector_disk.specs.Disk.{IsOnDisk, IsSameDisk, HasCause, ReadsHonestly, WritesHonestly, SettlesHonestly};
ghost use Rattle.sector_disk.specs.Counting.{counted};

use crate::{Disk, Fault, Written};

/// A disk that counts the bytes that were handed to its writes, those of a write that failed too. It does what the disk
/// within does.
#[derive(Drop)]
pub struct CountingDisk<D: Disk> {
    inner: D,
    count: u64,
    written: Written,
}

// Counts so many bytes.
fn count(count: &mut u64, bytes: usize)
    ensures { count.new ≡ counted count.old bytes }
{
    *count = count.saturating_add(bytes as u64);
}

impl<D: Disk> CountingDisk<D> {
    ghost use Rattle.sector_disk.specs.Counting.{inner_of, written_to};

    /// A disk of which no byte was counted. What it counts is shown by `written`.
    pub fn over(inner: D, written: Written) -> Self
        // claim: A disk that counts does what the disk within does. The bytes of writes count, of failed ones too; nothing
        // else. [CountingDisk::count, CountingDisk::into_inner; CountingDisk::read, CountingDisk::write,
        // CountingDisk::barrier: honest, count]
        ensures inner { inner_of result ≡ inner }
        ensures count { written_to result ≡ 0 }
    {
        CountingDisk {
            inner,
            count: 0,
            written,
        }
    }

    /// How many bytes were handed to its writes, up to the greatest number.
    pub fn count(&self) -> u64
        ensures { result ≡ written_to self.now }
    {
        self.count
    }

    /// The disk within.
    pub fn into_inner(self) -> D
        ensures { result ≡ inner_of self }
    {
        let CountingDisk { inner, .. } = self;
        inner
    }
}

impl<D: Disk> Disk for CountingDisk<D> {
    ghost use Rattle.sector_disk.specs.Counting.{inner_of, view_of, faults_of, written_to, counted};

    ghost view = { view_of D.view };

    ghost fault_count = { faults_of D.fault_count };

    ghost laws = { λ disk. D.laws (inner_of disk) };

    fn sectors(&self) -> u64 {
        self.inner.sectors()
    }

    fn faults(&self) -> u64 {
        self.inner.faults()
    }

    fn read(&mut self, at: u64, out: &mut [u8]) -> Result<(), Fault>
        requires { IsOnDisk (view_of D.view self.old).sectors at (length out.old) }
        ensures same { IsSameDisk (view_of D.view self.old) (view_of D.view self.new) }
        ensures cause { HasCause (faults_of D.fault_count self.old) (faults_of D.fault_count self.new) result }
        ensures honest { ReadsHonestly (view_of D.view self.old) (view_of D.view self.new) (512 * at) (length out.old) out.new result }

        ensures count { written_to self.new ≡ written_to self.old }
    {
        self.inner.read(at, out)
    }

    fn write(&mut self, at: u64, bytes: &[u8]) -> Result<(), Fault>
        requires { IsOnDisk (view_of D.view self.old).sectors at (length bytes.now) }
        ensures same { IsSameDisk (view_of D.view self.old) (view_of D.view self.new) }
        ensures cause { HasCause (faults_of D.fault_count self.old) (faults_of D.fault_count self.new) result }
        ensures honest { WritesHonestly (view_of D.view self.old) (view_of D.view self.new) (512 * at) bytes.now result }

        // Done or failed, its bytes count.
        ensures count { written_to self.new ≡ counted (written_to self.old) (length bytes.now) }
    {
        count(&mut self.count, bytes.len());
        self.written.show(self.count);
        self.inner.write(at, bytes)
    }

    fn barrier(&mut self) -> Result<(), Fault>
        ensures same { IsSameDisk (view_of D.view self.old) (view_of D.view self.new) }
        ensures cause { HasCause (faults_of D.fault_count self.old) (faults_of D.fault_count self.new) result }
        ensures honest { SettlesHonestly (view_of D.view self.old) (view_of D.view self.new) result }

        ensures count { written_to self.new ≡ written_to self.old }
    {
        self.inner.barrier()
    }
}
