// A file as a disk calls it, and its calls repeated until all is read or written.
ghost use Rattle.std.specs.Prelude.{◌+◌, ◌<◌, ◌≤◌, ◌^◌, length, IfOk};
ghost use Rattle.sector_disk.specs.RandomAccess.{FileView, IsSameFile, SizesHonestly, ReadsAtHonestly, WritesAtHonestly, SyncsHonestly, IsFile};
ghost use Rattle.sector_disk.specs.WholeCalls.{ReadsWhole, WritesWhole};

use crate::Fault;

/// A file that is read and written from any place on. A read or a write may do less than it was asked for, as the
/// system's may.
pub trait RandomAccessFile {
    /// The file at a moment: its bytes, and what a stop may leave of them.
    ghost view: { Self → FileView };

    /// How many bytes it has, which never changes.
    fn size(&mut self) -> Result<u64, Fault>
        ensures same { IsSameFile (view self.old) (view self.new) }
        // claim: An honest file tells its size, reads what stands there and writes within it what it was given, as far as each
        // went. [RandomAccessFile::read_at, RandomAccessFile::write_at]
        ensures honest { SizesHonestly (view self.old) (view self.new) result };

    /// Reads from the place `at` on, in bytes, and tells how many bytes it read. The rest of `out` may be any, and all of
    /// it where the call failed.
    fn read_at(&mut self, at: u64, out: &mut [u8]) -> Result<usize, Fault>
        ensures bound { IfOk result (λ count. count ≤ length out.old) }
        ensures same { IsSameFile (view self.old) (view self.new) }
        ensures honest { ReadsAtHonestly (view self.old) (view self.new) at out.new result };

    /// Writes from the place `at` on, in bytes, and tells how many bytes it wrote. Until the next `sync`, done or failed, a
    /// stop may leave any bytes in the places of `bytes`. Of a write that reaches behind the end of the file nothing is
    /// said.
    fn write_at(&mut self, at: u64, bytes: &[u8]) -> Result<usize, Fault>
        ensures bound { IfOk result (λ count. count ≤ length bytes.now) }
        ensures same { IsSameFile (view self.old) (view self.new) }
        ensures honest { WritesAtHonestly (view self.old) (view self.new) at bytes.now result };

    /// Once it has succeeded, a stop leaves what a read gives.
    fn sync(&mut self) -> Result<(), Fault>
        // claim: Until the next flush a crash leaves any bytes where a write was; after one that succeeded, just what a
        // read gives. [RandomAccessFile::write_at: honest; RandomAccessFile: laws]
        ensures same { IsSameFile (view self.old) (view self.new) }
        ensures honest { SyncsHonestly (view self.old) (view self.new) result };

    /// What holds of an honest file at each moment.
    ghost laws: { (file : Self) → (view file).honest → IsFile (view file) };
}

// Reads until `out` is full. A read of no bytes is a fault: the file has ended.
pub(crate) fn read_whole<F: RandomAccessFile>(
    file: &mut F,
    at: u64,
    out: &mut [u8],
) -> Result<(), Fault>
    requires { at + length out.old < 2 ^ 64 }
    ensures same { IsSameFile (F.view file.old) (F.view file.new) }
    ensures honest { ReadsWhole (F.view file.old) (F.view file.new) at (length out.old) out.new result }
{
    let mut done = 0;
    while done < out.len() {
        match file.read_at(at + done as u64, &mut out[done..]) {
            Ok(count) if count > 0 => done += count,
            _ => return Err(Fault),
        }
    }
    Ok(())
}

// Writes until all is written. A write of no bytes is a fault.
pub(crate) fn write_whole<F: RandomAccessFile>(
    file: &mut F,
    at: u64,
    bytes: &[u8],
) -> Result<(), Fault>
    requires { at + length bytes.now < 2 ^ 64 }
    ensures same { IsSameFile (F.view file.old) (F.view file.new) }
    ensures honest { WritesWhole (F.view file.old) (F.view file.new) at bytes.now result }
{
    let mut done = 0;
    while done < bytes.len() {
        match file.write_at(at + done as u64, &bytes[done..]) {
            Ok(count) if count > 0 => done += count,
            _ => return Err(Fault),
        }
    }
    Ok(())
}
