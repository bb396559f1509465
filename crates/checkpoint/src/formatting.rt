// Formatting a disk.
ghost use Rattle.std.specs.Prelude.{◌≡◌, ◌+◌, ◌*◌, ◌<◌, ◌≤◌, List, ℕ, length, None, Ok, Err, IsErrOf, IfErr, OnOk};
ghost use Rattle.sector_disk.specs.Disk.{IsSameDisk, HasRisen, HasCause, IsOnDisk};
ghost use Rattle.retry_rules.specs.Settings.{bad_field};
ghost use Rattle.checkpoint.specs.declared.error.FormatError.TheVariants as format_error;
ghost use Rattle.checkpoint.specs.Image.{least_sectors, HasGeneration};
ghost use Rattle.checkpoint.specs.Formatting.{IsTooSmall, TellsLeast, IsFormatted, LeavesFormatting};
ghost use Rattle.checkpoint.specs.FormatSteps.{IsFirst, LeavesFirst};

use crate::FormatError;
use crate::sizes::least_sectors;
use crate::writing::spell_segment;
use invoke_records::{Rows, Snapshot};
use retry_rules::Settings;
use sector_disk::{Disk, Fault, SECTOR_SIZE};
use std::alloc::Global;

// Makes this segment A the live one, where segment B begins at this sector.
fn write_first<D: Disk>(disk: &mut D, second: u64, segment: &[u8]) -> Result<(), Fault>
    requires whole { IsOnDisk (D.view disk.old).sectors 1 (length segment.now) }
    requires before { 512 + length segment.now ≤ 512 * second }
    requires inside { second < (D.view disk.old).sectors }
    ensures same { IsSameDisk (D.view disk.old) (D.view disk.new) }
    ensures cause { HasCause (D.fault_count disk.old) (D.fault_count disk.new) result }
    ensures written { (D.view disk.old).honest → OnOk result (IsFirst (D.view disk.new) second segment.now) }
    ensures any_moment { LeavesFirst (D.view disk.old) (D.view disk.new) second segment.now }
{
    let closed = [0; SECTOR_SIZE];
    let mut open = [0; SECTOR_SIZE];
    open[0] = 1;
    disk.write(0, &closed)?;
    disk.write(second, &closed)?;
    disk.barrier()?;
    disk.write(1, segment)?;
    disk.barrier()?;
    disk.write(0, &open)?;
    disk.barrier()
}

/// Formats a disk with good settings: it then recovers to the table with no command. What the disk held is lost.
///
/// Both gates are closed and settled first, then segment A is written with generation 1, an empty snapshot and a closed
/// first gate, and settled, and then its gate is opened and settled. `TooSmall` names the least number of sectors; it
/// and `OutOfMemory` come before any call of the disk.
pub fn format<D: Disk>(alloc: Global, disk: &mut D, settings: &Settings) -> Result<(), FormatError>
    requires { bad_field settings.now ≡ None }
    ensures same { IsSameDisk (D.view disk.old) (D.view disk.new) }
    ensures later { D.fault_count disk.old ≤ D.fault_count disk.new }
    ensures fault { IsErrOf result FormatError.Fault → HasRisen (D.fault_count disk.old) (D.fault_count disk.new) }
    // claim: Too small a disk is refused with the least number of sectors. That, and want of memory, come before any call.
    ensures least { TellsLeast (D.view disk.old) settings.now result }
    ensures too_small { IsTooSmall (D.view disk.old) settings.now → result ≡ Err (format_error.TooSmall (least_sectors settings.now)) }
    ensures no_call { (least : ℕ) → result ≡ Err (format_error.TooSmall least) → disk.new ≡ disk.old }
    ensures no_call_either { IsErrOf result FormatError.OutOfMemory → disk.new ≡ disk.old }

    // claim: A crash meanwhile leaves what was there but for the gates, no formatted disk, or the empty table.
    ensures any_moment { LeavesFormatting (D.view disk.old) (D.view disk.new) settings.now }

    // claim: After Ok the disk recovers to the empty table, in generation 1.
    ensures generation { (D.view disk.old).honest → OnOk result (HasGeneration 1 (D.view disk.new).content) }
    ensures formatted { (D.view disk.old).honest → OnOk result (IsFormatted (D.view disk.new) settings.now) }
{
    let sectors = disk.sectors();
    let least = least_sectors(settings);
    if sectors < least {
        return Err(FormatError::TooSmall { least });
    }
    let empty = Snapshot {
        number: 0,
        last_moment: 0,
        policy: settings.policy(),
        rows: Rows::empty(alloc),
    };
    let segment = spell_segment(alloc, 1, settings, &empty)?;
    write_first(disk, sectors / 2, &segment)?;
    Ok(())
}
