// Formatting a disk with a whole table at once.
ghost use Rattle.std.specs.Prelude.{◌≡◌, ◌↔◌, ◌+◌, ◌*◌, ◌<◌, ◌≤◌, ℕ, length, false, true, None, Err, IsErrOf, IfOk, OnOk};
ghost use Rattle.sector_disk.specs.Disk.{IsSameDisk, HasRisen, HasCause};
ghost use Rattle.retry_rules.specs.Settings.{bad_field};
ghost use Rattle.invoke_records.specs.Spelling.{snapshot_text, snapshot_fault, IsSnapshot};
ghost use Rattle.gate_journal.specs.Frames.{is_open, sectors_for};
ghost use Rattle.checkpoint.specs.declared.error.SeedError.TheVariants as seed_error;
ghost use Rattle.checkpoint.specs.Image.{least_sectors, sector_at, header_text, HasGeneration};
ghost use Rattle.checkpoint.specs.Live.{may_stand};
ghost use Rattle.checkpoint.specs.Pieces.{parts_text};
ghost use Rattle.checkpoint.specs.Formatting.{IsTooSmall, TellsLeastToSeed, IsBadToSeed, IsSeeded, LeavesSeeding, LeavesOldOrWhole, LeavesNoneOrWhole};
ghost use Rattle.checkpoint.specs.FormatSteps.{IsFirst};
ghost use Rattle.checkpoint.specs.SwitchSteps.{Rewrites};
ghost use Rattle.checkpoint.specs.SeedSteps.{LeavesShutting, LeavesClosing, AreBothClosed, LeavesSeedSteps};

use crate::SeedError;
use crate::pieces::Pieces;
use crate::sizes::least_sectors;
use crate::snapshot::may_stand;
use crate::switching::{close_gate, write_live};
use crate::writing::spell_header;
use invoke_records::Snapshot;
use retry_rules::Settings;
use sector_disk::{Disk, Fault, SECTOR_SIZE};
use std::alloc::Global;

// The header of generation 1, and memory for one piece, if a disk of so many sectors can be formatted with this table.
fn prepare(
    alloc: Global,
    sectors: u64,
    settings: &Settings,
    snapshot: &Snapshot,
) -> Result<(Vec<u8>, Pieces), SeedError>
    requires { bad_field settings.now ≡ None }
    ensures least { (least : ℕ) → result ≡ Err (seed_error.TooSmall least)
        → (least ≡ least_sectors settings.now) × (sectors < least_sectors settings.now) }
    ensures too_small { sectors < least_sectors settings.now → result ≡ Err (seed_error.TooSmall (least_sectors settings.now)) }
    ensures bad { IsErrOf result SeedError.BadKind
        ↔ ((least_sectors settings.now ≤ sectors) × (may_stand settings.now snapshot.now ≡ false)) }
    ensures fault { IsErrOf result SeedError.Fault → ⊥ }
    ensures room { OnOk result (least_sectors settings.now ≤ sectors) }
    ensures stands { OnOk result (may_stand settings.now snapshot.now ≡ true) }
    ensures spelled { OnOk result (IsSnapshot snapshot.now) }
    ensures header { IfOk result (λ r. r.0.items ≡ header_text 1 (length (snapshot_text snapshot.now)) settings.now) }
{
    let least = least_sectors(settings);
    if sectors < least {
        return Err(SeedError::TooSmall { least });
    }
    if !may_stand(alloc, settings, snapshot) {
        return Err(SeedError::BadKind);
    }
    let header = spell_header(alloc, 1, snapshot.size() as usize, settings)?;
    let pieces = Pieces::new(alloc)?;
    Ok((header, pieces))
}

// Closes the gate in this sector, if it is open.
fn shut_gate<D: Disk>(disk: &mut D, sector: u64) -> Result<(), Fault>
    requires { sector < (D.view disk.old).sectors }
    ensures same { IsSameDisk (D.view disk.old) (D.view disk.new) }
    ensures cause { HasCause (D.fault_count disk.old) (D.fault_count disk.new) result }
    ensures any_moment { LeavesShutting (D.view disk.old) (D.view disk.new) sector }
    ensures written { Rewrites (D.view disk.old) (D.view disk.new) sector (sector + 1) result
        (λ content. is_open (sector_at sector content) ≡ false) }
{
    let mut gate = [0; SECTOR_SIZE];
    disk.read(sector, &mut gate)?;
    close_gate(disk, sector, gate[0] == 1)
}

// Settles the disk, and closes each gate that is open, where segment B begins at this sector.
fn shut_both<D: Disk>(disk: &mut D, second: u64) -> Result<(), Fault>
    requires behind { 1 ≤ second }
    requires inside { second < (D.view disk.old).sectors }
    ensures same { IsSameDisk (D.view disk.old) (D.view disk.new) }
    ensures cause { HasCause (D.fault_count disk.old) (D.fault_count disk.new) result }
    ensures any_moment { LeavesClosing (D.view disk.old) (D.view disk.new) second }
    ensures closed { AreBothClosed (D.view disk.old) (D.view disk.new) second result }
{
    disk.barrier()?;
    shut_gate(disk, 0)?;
    shut_gate(disk, second)
}

// Makes segment A the only open one, with this header and this snapshot, where segment B begins at this sector.
fn write_alone<D: Disk>(
    disk: &mut D,
    pieces: &mut Pieces,
    second: u64,
    header: &[u8],
    snapshot: &Snapshot,
) -> Result<(), Fault>
    requires header { length header.now ≡ 512 }
    requires spelled { snapshot_fault snapshot.now ≡ None }
    requires room { 3 + sectors_for (length (snapshot_text snapshot.now)) ≤ second }
    requires inside { second < (D.view disk.old).sectors }
    ensures same { IsSameDisk (D.view disk.old) (D.view disk.new) }
    ensures cause { HasCause (D.fault_count disk.old) (D.fault_count disk.new) result }
    ensures any_moment { LeavesSeedSteps (D.view disk.old) (D.view disk.new) second (parts_text header.now snapshot.now) }
    ensures written { (D.view disk.old).honest
        → OnOk result (IsFirst (D.view disk.new) second (parts_text header.now snapshot.now)) }
{
    shut_both(disk, second)?;
    write_live(disk, pieces, 0, second, false, header, snapshot)
}

/// Formats a disk with good settings and a whole table at once: it then recovers to just that. What the disk held is lost.
///
/// The disk is settled first, and each gate that is open is closed and settled; a closed one is not written. Then segment A
/// is written with generation 1, the snapshot in pieces of 64 sectors and a closed first gate, and settled, and then its gate
/// is opened and settled. So a disk that was not formatted is at no
/// moment formatted without the table.
///
/// `TooSmall` names the least number of sectors. `BadKind` comes exactly where the disk is large enough, and the snapshot has
/// no spelling or is past the limits of the settings. They and `OutOfMemory` come before any call of the disk.
pub fn seed<D: Disk>(
    alloc: Global,
    disk: &mut D,
    settings: &Settings,
    snapshot: &Snapshot,
) -> Result<(), SeedError>
    requires { bad_field settings.now ≡ None }
    ensures same { IsSameDisk (D.view disk.old) (D.view disk.new) }
    ensures later { D.fault_count disk.old ≤ D.fault_count disk.new }
    ensures fault { IsErrOf result SeedError.Fault → HasRisen (D.fault_count disk.old) (D.fault_count disk.new) }
    // claim: Too small a disk, a table that may not stand on it, and want of memory are refused before any call.
    ensures least { TellsLeastToSeed (D.view disk.old) settings.now result }
    ensures too_small { IsTooSmall (D.view disk.old) settings.now → result ≡ Err (seed_error.TooSmall (least_sectors settings.now)) }
    ensures bad { IsErrOf result SeedError.BadKind ↔ IsBadToSeed (D.view disk.old) settings.now snapshot.now }
    ensures no_call { (least : ℕ) → result ≡ Err (seed_error.TooSmall least) → disk.new ≡ disk.old }
    ensures no_call_bad { IsErrOf result SeedError.BadKind → disk.new ≡ disk.old }
    ensures no_call_either { IsErrOf result SeedError.OutOfMemory → disk.new ≡ disk.old }

    // claim: A crash meanwhile leaves what was there but for the gates, no formatted disk, or the whole table.
    ensures any_moment { LeavesSeeding (D.view disk.old) (D.view disk.new) settings.now snapshot.now }

    // claim: Where no image was a formatted disk, none is but with the whole table. One that read as unformatted has an
    // old image, reads so still, or has the whole table.
    ensures old_or_whole { LeavesOldOrWhole (D.view disk.old) (D.view disk.new) settings.now snapshot.now }
    ensures none_or_whole { LeavesNoneOrWhole (D.view disk.old) (D.view disk.new) settings.now snapshot.now }

    // claim: After Ok the disk recovers to the whole table, in generation 1.
    ensures generation { (D.view disk.old).honest → OnOk result (HasGeneration 1 (D.view disk.new).content) }
    ensures seeded { (D.view disk.old).honest → OnOk result (IsSeeded (D.view disk.new) settings.now snapshot.now) }
{
    let sectors = disk.sectors();
    let (header, mut pieces) = prepare(alloc, sectors, settings, snapshot)?;
    write_alone(disk, &mut pieces, sectors / 2, &header, snapshot)?;
    Ok(())
}
