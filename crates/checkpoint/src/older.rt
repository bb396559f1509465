// Reading the older segment, beside the live one.
ghost use Rattle.std.specs.Prelude.{◌≡◌, ◌+◌, ◌*◌, ◌≤◌, ◌<◌, ◌^◌, length, Ok, IsErrOf, IfOk, IfErr, IfSome, option_map};
ghost use Rattle.sector_disk.specs.Disk.{HasRisen};
ghost use Rattle.invoke_records.specs.declared.snapshot.Snapshot.{Snapshot};
ghost use Rattle.checkpoint.specs.Live.{HasRoom};
ghost use Rattle.checkpoint.specs.Opening.{OnlyReads, Refuses};
ghost use Rattle.checkpoint.specs.Older.{parts_at, older_parts, told_parts, IsOlderOf};

use crate::choosing::{Found, other_base};
use crate::opening::read_opened;
use crate::segment::open_header;
use crate::{OpenError, Opened};
use invoke_records::{Command, Snapshot};
use sector_disk::Disk;
use std::alloc::Global;

// The snapshot of the segment that begins at this sector and has so many, and the commands behind it, if its gate is open.
fn read_parts<D: Disk>(
    alloc: Global,
    disk: &mut D,
    base: u64,
    sectors: u64,
) -> Result<Option<(Snapshot, Vec<Command>)>, OpenError>
    requires base { base ≤ sectors }
    requires enough { 2 ≤ sectors }
    requires small { sectors < 2 ^ 63 }
    requires inside { 2 * sectors ≤ (D.view disk.old).sectors }
    ensures reads { OnlyReads (D.view disk.old) (D.view disk.new) }
    ensures later { D.fault_count disk.old ≤ D.fault_count disk.new }
    ensures fault { IsErrOf result OpenError.Fault → HasRisen (D.fault_count disk.old) (D.fault_count disk.new) }
    ensures below { IfOk result (λ r. IfSome r (λ s. s.0.number + length s.1.items ≤ 2 ^ 62)) }
    ensures exact { (D.view disk.old).honest
        → IfOk result (λ r. parts_at base sectors (D.view disk.old).content ≡ Ok (option_map told_parts r)) }
    ensures refused { (D.view disk.old).honest → IfErr result (λ why. Refuses why (parts_at base sectors (D.view disk.old).content)) }
{
    let Some(header) = open_header(alloc, disk, base, sectors)? else {
        return Ok(None);
    };
    let found = Found { base, header };
    let (_, snapshot, commands) = read_opened(alloc, disk, found, sectors, true)?;
    Ok(Some((snapshot, commands)))
}

/// The older segment of an opened disk: its snapshot and the commands behind it, or none where its gate is closed. It only
/// reads. It was whole when the disk was opened, so `Damaged` says that the disk has changed since; else it is refused by
/// `Fault` and `OutOfMemory` alone.
pub fn read_older<D: Disk>(
    alloc: Global,
    disk: &mut D,
    opened: &Opened,
) -> Result<Option<(Snapshot, Vec<Command>)>, OpenError>
    requires { HasRoom (D.view disk.old).sectors opened.now }
    ensures reads { OnlyReads (D.view disk.old) (D.view disk.new) }
    ensures later { D.fault_count disk.old ≤ D.fault_count disk.new }
    ensures fault { IsErrOf result OpenError.Fault → HasRisen (D.fault_count disk.old) (D.fault_count disk.new) }
    ensures below { IfOk result (λ r. IfSome r (λ s. s.0.number + length s.1.items ≤ 2 ^ 62)) }

    // claim: Of the older segment is told what its bytes hold; on a live disk, what its image says. [: exact, refused,
    // live]
    ensures exact { (D.view disk.old).honest
        → IfOk result (λ r. older_parts (D.view disk.old) opened.now ≡ Ok (option_map told_parts r)) }
    ensures refused { (D.view disk.old).honest → IfErr result (λ why. Refuses why (older_parts (D.view disk.old) opened.now)) }

    // On a disk that is live it is that of its image, and nothing is damaged.
    ensures live { (D.view disk.old).honest → (table : Snapshot) → IsOlderOf (D.view disk.old) opened.now table result }
{
    let half = disk.sectors() / 2;
    read_parts(alloc, disk, other_base(half, opened.base), half)
}
