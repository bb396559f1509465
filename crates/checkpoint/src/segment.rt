// Reading a segment: its header, its snapshot and the frames of its journal.
ghost use Rattle.std.specs.Prelude.{◌≡◌, ◌+◌, ◌*◌, ◌-◌, ◌≤◌, ◌<◌, ◌^◌, length, take, drop, ℕ, None, Some, Ok, Err, IfOk, IfErr, IfSome, IsErrOf};
ghost use Rattle.sector_disk.specs.Disk.{HasRisen};
ghost use Rattle.retry_rules.specs.Settings.{bad_field};
ghost use Rattle.gate_journal.specs.Frames.{sectors_for};
ghost use Rattle.gate_journal.specs.Journal as journal;
ghost use Rattle.checkpoint.specs.Image.{header_in, snapshot_in, open_header, found_in};
ghost use Rattle.checkpoint.specs.Opening.{OnlyReads, Refuses};
ghost use Rattle.checkpoint.specs.OpenSteps.{IsSoundHeader, IsSoundFound, IsDamage, IsRead};
ghost use Rattle.checkpoint.specs.declared.error.OpenError.TheVariants as open_error;

use crate::OpenError;
use crate::choosing::Found;
use crate::header::{Header, read_header};
use crate::reading::{read_sector, read_sectors};
use crate::sizes::sectors_for;
use crate::snapshot::read_snapshot;
use gate_journal::{Area, Journal};
use invoke_records::{Command, Snapshot, Version};
use retry_rules::Settings;
use sector_disk::Disk;
use std::alloc::Global;

// A segment as it was read: the commands of its journal stand behind their gates.
#[derive(Drop)]
pub(crate) struct Segment {
    pub(crate) version: Version,
    pub(crate) base: u64,
    pub(crate) settings: Settings,
    pub(crate) generation: u64,
    pub(crate) snapshot: Snapshot,
    pub(crate) journal: Journal,
    pub(crate) behind: Vec<(u64, Command)>,
}

// The header in this sector, of a segment of so many sectors.
fn header_from<D: Disk>(
    alloc: Global,
    disk: &mut D,
    sector: u64,
    sectors: u64,
) -> Result<Header, OpenError>
    requires { sector < (D.view disk.old).sectors }
    ensures reads { OnlyReads (D.view disk.old) (D.view disk.new) }
    ensures later { D.fault_count disk.old ≤ D.fault_count disk.new }
    ensures fault { IsErrOf result OpenError.Fault → HasRisen (D.fault_count disk.old) (D.fault_count disk.new) }
    ensures old { IsErrOf result OpenError.OldVersion → ⊥ }
    ensures sound { IfOk result (IsSoundHeader sectors) }
    ensures exact { (D.view disk.old).honest → IfOk result (λ h. header_in sector sectors (D.view disk.old).content ≡ Some h) }
    ensures refused { (D.view disk.old).honest → IfErr result (IsDamage sector (header_in sector sectors (D.view disk.old).content)) }
{
    let bytes = read_sector(disk, sector)?;
    match read_header(alloc, &bytes, sectors)? {
        Some(header) => Ok(header),
        None => Err(OpenError::Damaged { sector }),
    }
}

// The header of the segment that begins at this sector and has so many, if its gate is open.
pub(crate) fn open_header<D: Disk>(
    alloc: Global,
    disk: &mut D,
    base: u64,
    sectors: u64,
) -> Result<Option<Header>, OpenError>
    requires base { base ≤ sectors }
    requires sectors { sectors < 2 ^ 63 }
    requires inside { base + sectors ≤ (D.view disk.old).sectors }
    requires enough { 2 ≤ sectors }
    ensures reads { OnlyReads (D.view disk.old) (D.view disk.new) }
    ensures later { D.fault_count disk.old ≤ D.fault_count disk.new }
    ensures fault { IsErrOf result OpenError.Fault → HasRisen (D.fault_count disk.old) (D.fault_count disk.new) }
    ensures old { IsErrOf result OpenError.OldVersion → ⊥ }
    ensures sound { IfOk result (λ found. IfSome found (IsSoundHeader sectors)) }
    ensures exact { (D.view disk.old).honest → IfOk result (λ h. open_header base sectors (D.view disk.old).content ≡ Ok h) }
    ensures refused { (D.view disk.old).honest → IfErr result (λ why. Refuses why (open_header base sectors (D.view disk.old).content)) }
{
    let gate = read_sector(disk, base)?;
    if gate[0] != 1 {
        return Ok(None);
    }
    let header = header_from(alloc, disk, base + 1, sectors)?;
    Ok(Some(header))
}

// The snapshot of which the header speaks, from this sector on.
fn snapshot_from<D: Disk>(
    alloc: Global,
    disk: &mut D,
    sector: u64,
    header: &Header,
) -> Result<Snapshot, OpenError>
    requires size { header.now.size < 2 ^ 50 }
    requires room { sector + sectors_for header.now.size ≤ (D.view disk.old).sectors }
    requires small { sector + sectors_for header.now.size < 2 ^ 64 }
    ensures reads { OnlyReads (D.view disk.old) (D.view disk.new) }
    ensures later { D.fault_count disk.old ≤ D.fault_count disk.new }
    ensures fault { IsErrOf result OpenError.Fault → HasRisen (D.fault_count disk.old) (D.fault_count disk.new) }
    ensures old { IsErrOf result OpenError.OldVersion → ⊥ }
    ensures number { IfOk result (λ snapshot. snapshot.number ≤ 2 ^ 62) }
    ensures exact { (D.view disk.old).honest → IfOk result (λ s. snapshot_in sector header.now (D.view disk.old).content ≡ Some s) }
    ensures refused { (D.view disk.old).honest
        → IfErr result (IsDamage sector (snapshot_in sector header.now (D.view disk.old).content)) }
{
    let bytes = read_sectors(alloc, disk, sector, sectors_for(header.size))?;
    match read_snapshot(alloc, header, &bytes)? {
        Some(snapshot) => Ok(snapshot),
        None => Err(OpenError::Damaged { sector }),
    }
}

// The snapshot and the frames of a segment of so many sectors that was found open.
pub(crate) fn read_segment<D: Disk>(
    alloc: Global,
    disk: &mut D,
    found: Found,
    sectors: u64,
) -> Result<Segment, OpenError>
    requires sound { IsSoundFound sectors found }
    requires sectors { sectors < 2 ^ 63 }
    requires inside { 2 * sectors ≤ (D.view disk.old).sectors }
    ensures reads { OnlyReads (D.view disk.old) (D.view disk.new) }
    ensures later { D.fault_count disk.old ≤ D.fault_count disk.new }
    ensures fault { IsErrOf result OpenError.Fault → HasRisen (D.fault_count disk.old) (D.fault_count disk.new) }
    ensures old { IsErrOf result OpenError.OldVersion → ⊥ }
    ensures version { IfOk result (λ segment. segment.version ≡ found.header.version) }
    ensures settings { IfOk result (λ segment. segment.settings ≡ found.header.settings) }
    ensures end { IfOk result (λ segment. journal.end_of segment.journal ≡ found.base + sectors) }
    ensures number { IfOk result (λ s. journal.number_of s.journal ≡ s.snapshot.number + length s.behind.items + 1) }
    ensures below { IfOk result (λ segment. segment.snapshot.number + length segment.behind.items ≤ 2 ^ 62) }
    ensures exact { (D.view disk.old).honest → IfOk result (λ segment. IsRead sectors found (D.view disk.old).content segment) }
    ensures refused { (D.view disk.old).honest → IfErr result (λ why. Refuses why (found_in sectors found (D.view disk.old).content)) }
{
    let Found { base, header } = found;
    let snapshot = snapshot_from(alloc, disk, base + 2, &header)?;
    let Header {
        version,
        generation,
        size,
        settings,
    } = header;
    let area = Area {
        generation,
        number: snapshot.number + 1,
        start: base + 2 + sectors_for(size),
        end: base + sectors,
    };
    let (journal, behind) = Journal::read_all(alloc, disk, area)?;
    Ok(Segment {
        version,
        base,
        settings,
        generation,
        snapshot,
        journal,
        behind,
    })
}
