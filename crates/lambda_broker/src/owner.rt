// Whose disk it is, by its header, before anything of it is written.
ghost use Rattle.std.specs.Prelude.{◌≡◌, ◌+◌, ◌<◌};

use invoke_records::SettingsRecord;
use retry_rules::{Settings, Text};
use sector_disk::{Disk, Fault, SECTOR_SIZE};
use std::alloc::Global;

/// How many sectors a formatted disk has at least.
const LEAST_SECTORS: u64 = 6;

/// What a header begins with.
const LETTERS: &[u8] = b"AINVOKE";

/// Where the settings begin in a header, in bytes.
const SETTINGS: usize = 28;

// Whether the first byte of a sector is 1, as that of an open gate is.
fn has_open_gate<D: Disk>(disk: &mut D, sector: u64) -> Result<bool, Fault>
    requires { sector < (D.view disk.old).sectors }
    ensures { (D.view disk.new).sectors ≡ (D.view disk.old).sectors }
{
    let mut gate = [0; SECTOR_SIZE];
    disk.read(sector, &mut gate)?;
    Ok(gate[0] == 1)
}

// The segments that are open: where each begins. Without one it is no broker's disk, or was never formatted.
fn open_segment<D: Disk>(disk: &mut D) -> Result<Option<u64>, Fault>
    ensures { (D.view disk.new).sectors ≡ (D.view disk.old).sectors }
{
    let sectors = disk.sectors();
    if sectors < LEAST_SECTORS {
        return Ok(None);
    }
    if has_open_gate(disk, 0)? {
        return Ok(Some(0));
    }
    if has_open_gate(disk, sectors / 2)? {
        return Ok(Some(sectors / 2));
    }
    Ok(None)
}

/// Whether one of its segments is open. Without one it is no broker's disk, or was never formatted, and is not to be written.
pub(crate) fn is_formatted<D: Disk>(disk: &mut D) -> Result<bool, Fault> {
    Ok(open_segment(disk)?.is_some())
}

/// The name of its function, as the header of an open segment tells it. None where none does.
pub(crate) fn function_of<D: Disk>(alloc: Global, disk: &mut D) -> Result<Option<Text>, Fault> {
    let Some(segment) = open_segment(disk)? else {
        return Ok(None);
    };
    if disk.sectors() <= segment.saturating_add(1) {
        return Ok(None);
    }
    let mut header = [0; SECTOR_SIZE];
    disk.read(segment.saturating_add(1), &mut header)?;
    if !header.starts_with(LETTERS) {
        return Ok(None);
    }
    match Settings::decode(alloc, &header[SETTINGS..]) {
        Ok((settings, _)) => Ok(Some(settings.name)),
        Err(_) => Ok(None),
    }
}
