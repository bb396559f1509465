// A disk that tells how much of it was read and written.
ghost use Rattle.std.specs.Prelude.{◌≡◌, ◌*◌, length};
ghost use Rattle.sector_disk.specs.Disk.{IsOnDisk, IsSameDisk, HasCause, ReadsHonestly, WritesHonestly, SettlesHonestly};
ghost use Rattle.sector_disk.specs.Counting.{counted};

use sector_disk::{Disk, Fault};

/// Who is told how far the work on a disk is.
pub trait ProgressLog {
    /// So many bytes were handed to reads of the disk until now, and so many to writes.
    fn note(&self, read: u64, written: u64);
}

/// A disk that counts the bytes that its reads and writes were handed, those of a call that failed too, and tells them behind each call.
/// It does what the disk within does.
#[derive(Drop)]
pub struct ProgressDisk<D: Disk, L: ProgressLog + Drop> {
    inner: D,
    log: L,
    read: u64,
    written: u64,
}

// Counts so many bytes.
fn count(count: &mut u64, bytes: usize)
    ensures { count.new ≡ counted count.old bytes }
{
    *count = count.saturating_add(bytes as u64);
}

impl<D: Disk, L: ProgressLog + Drop> ProgressDisk<D, L> {
    ghost use Rattle.disk_progress.specs.Progress.{inner_of, read_of, written_of};

    /// This disk, of which nothing was read or written. What is, is told to this log.
    pub fn over(inner: D, log: L) -> Self
        // claim: A disk that tells how far work on it is does what the disk within does. The bytes that reads and writes were handed
        // count, each on its side, of failed calls too; nothing else. [ProgressDisk::read_bytes, ProgressDisk::written_bytes,
        // ProgressDisk::into_inner; ProgressDisk::read, ProgressDisk::write, ProgressDisk::barrier: honest, read, written]
        ensures inner { inner_of result ≡ inner }
        ensures read { read_of result ≡ 0 }
        ensures written { written_of result ≡ 0 }
    {
        ProgressDisk {
            inner,
            log,
            read: 0,
            written: 0,
        }
    }

    /// How many bytes its reads were handed, up to the greatest number.
    pub fn read_bytes(&self) -> u64
        ensures { result ≡ read_of self.now }
    {
        self.read
    }

    /// How many bytes its writes were handed, up to the greatest number.
    pub fn written_bytes(&self) -> u64
        ensures { result ≡ written_of self.now }
    {
        self.written
    }

    /// The disk within.
    pub fn into_inner(self) -> D
        ensures { result ≡ inner_of self }
    {
        let ProgressDisk { inner, .. } = self;
        inner
    }
}

impl<D: Disk, L: ProgressLog + Drop> Disk for ProgressDisk<D, L> {
    ghost use Rattle.disk_progress.specs.Progress.{inner_of, view_of, faults_of, read_of, written_of};

    ghost view = { view_of D.view };

    ghost fault_count = { faults_of D.fault_count };

    ghost laws = { λ disk. D.laws (inner_of disk) };

    fn sectors(&self) -> u64 {
        self.inner.sectors()
    }

    fn faults(&self) -> u64 {
        self.inner.faults()
    }

    fn read(&mut self, at: u64, out: &mut [u8]) -> Result<(), Fault>
        requires { IsOnDisk (view_of D.view self.old).sectors at (length out.old) }
        ensures same { IsSameDisk (view_of D.view self.old) (view_of D.view self.new) }
        ensures cause { HasCause (faults_of D.fault_count self.old) (faults_of D.fault_count self.new) result }
        ensures honest { ReadsHonestly (view_of D.view self.old) (view_of D.view self.new) (512 * at) (length out.old) out.new result }

        // Done or failed, its bytes count.
        ensures read { read_of self.new ≡ counted (read_of self.old) (length out.old) }
        ensures written { written_of self.new ≡ written_of self.old }
    {
        count(&mut self.read, out.len());
        let done = self.inner.read(at, out);
        self.log.note(self.read, self.written);
        done
    }

    fn write(&mut self, at: u64, bytes: &[u8]) -> Result<(), Fault>
        requires { IsOnDisk (view_of D.view self.old).sectors at (length bytes.now) }
        ensures same { IsSameDisk (view_of D.view self.old) (view_of D.view self.new) }
        ensures cause { HasCause (faults_of D.fault_count self.old) (faults_of D.fault_count self.new) result }
        ensures honest { WritesHonestly (view_of D.view self.old) (view_of D.view self.new) (512 * at) bytes.now result }

        ensures read { read_of self.new ≡ read_of self.old }
        ensures written { written_of self.new ≡ counted (written_of self.old) (length bytes.now) }
    {
        count(&mut self.written, bytes.len());
        let done = self.inner.write(at, bytes);
        self.log.note(self.read, self.written);
        done
    }

    fn barrier(&mut self) -> Result<(), Fault>
        ensures same { IsSameDisk (view_of D.view self.old) (view_of D.view self.new) }
        ensures cause { HasCause (faults_of D.fault_count self.old) (faults_of D.fault_count self.new) result }
        ensures honest { SettlesHonestly (view_of D.view self.old) (view_of D.view self.new) result }

        ensures read { read_of self.new ≡ read_of self.old }
        ensures written { written_of self.new ≡ written_of self.old }
    {
        let done = self.inner.barrier();
        self.log.note(self.read, self.written);
        done
    }
}
