// Switching to the other segment.
ghost use Rattle.std.specs.Prelude.{◌≡◌, ◌↔◌, ◌+◌, ◌*◌, ◌<◌, ◌≤◌, ◌^◌, length, true, false, None, IsErrOf, IfOk, OnOk, OnErr};
ghost use Rattle.sector_disk.specs.Disk.{IsSameDisk, HasRisen, HasCause};
ghost use Rattle.sector_disk.specs.Moments.{LeavesOnly};
ghost use Rattle.retry_rules.specs.Settings.{bad_field};
ghost use Rattle.invoke_records.specs.Spelling.{snapshot_text, snapshot_fault, IsSnapshot};
ghost use Rattle.gate_journal.specs.Frames.{is_open, sectors_for};
ghost use Rattle.checkpoint.specs.Image.{sector_at, header_text};
ghost use Rattle.checkpoint.specs.Pieces.{StandsFrom, parts_text};
ghost use Rattle.invoke_records.specs.declared.version.Version.TheVariants.{Two};
ghost use Rattle.checkpoint.specs.Live.{version_of, settings_of, generation_of, number_of, HasRoom, may_stand};
ghost use Rattle.checkpoint.specs.Live.{Switches, LeavesBeforeOrSnapshot, SwitchesEither, LeavesOldOrSnapshot};
ghost use Rattle.checkpoint.specs.Image.{other_base};
ghost use Rattle.checkpoint.specs.SwitchSteps.{OnSettled, HasGate, IsBeingClosed, LeavesElsewhere, Rewrites, LeavesSwitching, IsSwitched};

use crate::choosing::other_base;
use crate::pieces::Pieces;
use crate::sizes::sectors_for;
use crate::snapshot::may_stand;
use crate::writing::spell_header;
use crate::{Opened, SwitchError};
use gate_journal::{Area, Journal};
use invoke_records::{Snapshot, Version};
use retry_rules::Settings;
use sector_disk::{Disk, Fault, SECTOR_SIZE};
use std::alloc::Global;

// Writes a gate, and settles it.
fn write_gate<D: Disk>(disk: &mut D, sector: u64, gate: &[u8; 512]) -> Result<(), Fault>
    requires { sector < (D.view disk.old).sectors }
    ensures same { IsSameDisk (D.view disk.old) (D.view disk.new) }
    ensures cause { HasCause (D.fault_count disk.old) (D.fault_count disk.new) result }
    ensures any_moment { LeavesElsewhere (D.view disk.old) (D.view disk.new) sector (sector + 1) }
    ensures written { Rewrites (D.view disk.old) (D.view disk.new) sector (sector + 1) result
        (λ content. sector_at sector content ≡ gate.now) }
{
    disk.write(sector, gate)?;
    disk.barrier()
}

// Closes a gate, if it is open: a stop could leave one that is closed open, over old bytes.
pub(crate) fn close_gate<D: Disk>(disk: &mut D, sector: u64, was_open: bool) -> Result<(), Fault>
    requires { sector < (D.view disk.old).sectors }
    ensures same { IsSameDisk (D.view disk.old) (D.view disk.new) }
    ensures cause { HasCause (D.fault_count disk.old) (D.fault_count disk.new) result }
    ensures any_moment { OnSettled (D.view disk.old) (HasGate (D.view disk.old) sector was_open
        → LeavesOnly (D.view disk.old) (D.view disk.new) (IsBeingClosed sector was_open (D.view disk.old).content)) }
    ensures written { HasGate (D.view disk.old) sector was_open
        → Rewrites (D.view disk.old) (D.view disk.new) sector (sector + 1) result (λ content. is_open (sector_at sector content) ≡ false) }
{
    if !was_open {
        return Ok(());
    }
    write_gate(disk, sector, &[0; SECTOR_SIZE])
}

// Writes a header, a snapshot and a closed first gate from this sector on, and settles them.
fn write_parts<D: Disk>(
    disk: &mut D,
    pieces: &mut Pieces,
    first: u64,
    last: u64,
    header: &[u8],
    snapshot: &Snapshot,
) -> Result<(), Fault>
    requires header { length header.now ≡ 512 }
    requires spelled { snapshot_fault snapshot.now ≡ None }
    requires room { first + 1 + sectors_for (length (snapshot_text snapshot.now)) + 1 ≤ last }
    requires inside { last ≤ (D.view disk.old).sectors }
    ensures same { IsSameDisk (D.view disk.old) (D.view disk.new) }
    ensures cause { HasCause (D.fault_count disk.old) (D.fault_count disk.new) result }
    ensures any_moment { LeavesElsewhere (D.view disk.old) (D.view disk.new) first last }
    ensures written { Rewrites (D.view disk.old) (D.view disk.new) first last result
        (StandsFrom first (parts_text header.now snapshot.now)) }
{
    pieces.write_segment(disk, first, last, header, snapshot)?;
    disk.barrier()
}

// Makes the segment of so many sectors that begins at this one the live one.
pub(crate) fn write_live<D: Disk>(
    disk: &mut D,
    pieces: &mut Pieces,
    base: u64,
    sectors: u64,
    was_open: bool,
    header: &[u8],
    snapshot: &Snapshot,
) -> Result<(), Fault>
    requires header { length header.now ≡ 512 }
    requires spelled { snapshot_fault snapshot.now ≡ None }
    requires room { 3 + sectors_for (length (snapshot_text snapshot.now)) ≤ sectors }
    requires small { base + sectors < 2 ^ 64 }
    requires inside { base + sectors ≤ (D.view disk.old).sectors }
    ensures same { IsSameDisk (D.view disk.old) (D.view disk.new) }
    ensures cause { HasCause (D.fault_count disk.old) (D.fault_count disk.new) result }
    ensures any_moment { LeavesSwitching (D.view disk.old) (D.view disk.new) base sectors was_open (parts_text header.now snapshot.now) }
    ensures written { HasGate (D.view disk.old) base was_open
        → Rewrites (D.view disk.old) (D.view disk.new) base (base + sectors) result
        (IsSwitched base sectors (parts_text header.now snapshot.now) (D.view disk.old).content) }
{
    close_gate(disk, base, was_open)?;
    write_parts(disk, pieces, base + 1, base + sectors, header, snapshot)?;
    let mut open = [0; SECTOR_SIZE];
    open[0] = 1;
    write_gate(disk, base, &open)
}

// The header of this generation, and memory for one piece, if a disk with these settings can hold this snapshot.
fn prepare(
    alloc: Global,
    generation: u64,
    settings: &Settings,
    snapshot: &Snapshot,
) -> Result<(Vec<u8>, Pieces), SwitchError>
    requires { bad_field settings.now ≡ None }
    ensures bad { IsErrOf result SwitchError.BadKind ↔ (may_stand settings.now snapshot.now ≡ false) }
    ensures fault { IsErrOf result SwitchError.Fault → ⊥ }
    ensures stands { OnOk result (may_stand settings.now snapshot.now ≡ true) }
    ensures spelled { OnOk result (IsSnapshot snapshot.now) }
    ensures header { IfOk result (λ r. r.0.items ≡ header_text generation (length (snapshot_text snapshot.now)) settings.now) }
{
    if !may_stand(alloc, settings, snapshot) {
        return Err(SwitchError::BadKind);
    }
    let header = spell_header(alloc, generation, snapshot.size() as usize, settings)?;
    let pieces = Pieces::new(alloc)?;
    Ok((header, pieces))
}

/// Makes the other segment the live one, with this snapshot, no frames, and the generation one higher. What it writes is of
/// version 2 of the format, of whichever version the live segment was.
///
/// The other segment's gate is closed first where it is open, and settled; a closed one is not written. Then its header,
/// the snapshot and a closed first gate are written, 64 sectors at once, and settled, and then its gate is opened and
/// settled. Memory for the header and for one piece of 64 sectors is asked for before the first call of the disk.
///
/// `BadKind` comes exactly where the snapshot has no spelling or is past the limits of the settings; it and `OutOfMemory`
/// come before any call of the disk. After `Fault` the disk has to be opened again.
pub fn switch<D: Disk>(
    alloc: Global,
    disk: &mut D,
    opened: &mut Opened,
    snapshot: &Snapshot,
) -> Result<(), SwitchError>
    requires good { bad_field (settings_of opened.old) ≡ None }
    requires generation { generation_of opened.old < 2 ^ 62 }
    requires room { HasRoom (D.view disk.old).sectors opened.old }
    ensures same { IsSameDisk (D.view disk.old) (D.view disk.new) }
    ensures later { D.fault_count disk.old ≤ D.fault_count disk.new }
    ensures fault { IsErrOf result SwitchError.Fault → HasRisen (D.fault_count disk.old) (D.fault_count disk.new) }
    // claim: A snapshot is bad exactly where it may not stand on the disk. So it is told, as want of memory is,
    // before any call of the disk.
    ensures bad { IsErrOf result SwitchError.BadKind ↔ (may_stand (settings_of opened.old) snapshot.now ≡ false) }
    ensures no_call { IsErrOf result SwitchError.BadKind → disk.new ≡ disk.old }
    ensures no_call_either { IsErrOf result SwitchError.OutOfMemory → disk.new ≡ disk.old }

    ensures err { OnErr result (opened.new ≡ opened.old) }
    ensures settings { settings_of opened.new ≡ settings_of opened.old }
    ensures room { HasRoom (D.view disk.new).sectors opened.new }
    ensures version { OnOk result (version_of opened.new ≡ Two) }
    ensures generation { OnOk result (generation_of opened.new ≡ generation_of opened.old + 1) }
    ensures number { OnOk result (number_of opened.new ≡ snapshot.now.number + 1) }

    // claim: After Ok a live disk recovers to the snapshot, in the next generation. [: generation, switched]
    ensures switched { Switches (D.view disk.old) (D.view disk.new) opened.old opened.new snapshot.now result }

    // claim: A crash meanwhile leaves it with the table from before, or the snapshot.
    ensures any_moment { LeavesBeforeOrSnapshot (D.view disk.old) (D.view disk.new) opened.old snapshot.now }

    // claim: The same from a live segment of version 1. The snapshot is written in version 2.
    ensures switched_either { SwitchesEither (D.view disk.old) (D.view disk.new) opened.old opened.new snapshot.now result }
    ensures any_moment_either { LeavesOldOrSnapshot (D.view disk.old) (D.view disk.new) opened.old snapshot.now }
{
    let generation = opened.generation + 1;
    let (header, mut pieces) = prepare(alloc, generation, &opened.settings, snapshot)?;
    let size = snapshot.size();
    let half = disk.sectors() / 2;
    let base = other_base(half, opened.base);
    write_live(
        disk,
        &mut pieces,
        base,
        half,
        opened.other_open,
        &header,
        snapshot,
    )?;
    opened.version = Version::Two;
    opened.base = base;
    opened.generation = generation;
    opened.journal = Journal::empty(Area {
        generation,
        number: snapshot.number + 1,
        start: base + 2 + sectors_for(size),
        end: base + half,
    });
    opened.other_open = true;
    Ok(())
}
