// The one open segment of a disk.
ghost use Rattle.std.specs.Prelude.{◌≡◌, ◌/◌, ◌≤◌, IfOk, IfSome};
ghost use Rattle.sector_disk.specs.Disk.{HasCause};
ghost use Rattle.resized_disk.specs.Reading.{OnlyReads};
ghost use Rattle.resized_disk.specs.Resized.{lone_base, lone_open};

use crate::piece::read_sector;
use crate::sectors::is_open;
use sector_disk::{Disk, Fault};

// Where the open segment begins, where just one of A and B is open.
fn lone_base(half: u64, is_a_open: bool, is_b_open: bool) -> Option<u64>
    ensures exact { result ≡ lone_base half is_a_open is_b_open }
    ensures inside { IfSome result (λ base. base ≤ half) }
{
    match (is_a_open, is_b_open) {
        (true, false) => Some(0),
        (false, true) => Some(half),
        _ => None,
    }
}

// Where the one open segment begins, on a disk that is large enough for two.
pub(crate) fn read_lone<D: Disk>(disk: &mut D) -> Result<Option<u64>, Fault>
    requires { 6 ≤ (D.view disk.old).sectors }
    ensures reads { OnlyReads (D.view disk.old) (D.view disk.new) }
    ensures cause { HasCause (D.fault_count disk.old) (D.fault_count disk.new) result }
    ensures inside { IfOk result (λ told. IfSome told (λ base. base ≤ (D.view disk.old).sectors / 2)) }
    ensures exact { (D.view disk.old).honest → IfOk result (λ told. told ≡ lone_open (D.view disk.old).content) }
{
    let half = disk.sectors() / 2;
    let gate_a = read_sector(disk, 0)?;
    let gate_b = read_sector(disk, half)?;
    Ok(lone_base(half, is_open(&gate_a), is_open(&gate_b)))
}
