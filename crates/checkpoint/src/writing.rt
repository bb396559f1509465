// The bytes of a segment without frames.
ghost use Rattle.std.specs.Prelude.{◌≡◌, ◌≤◌, ◌<◌, ◌^◌, ◌++◌, length, None, IfOk, OnOk, OnErr};
ghost use Rattle.retry_rules.specs.Settings.{bad_field};
ghost use Rattle.gate_journal.specs.Frames.{padded};
ghost use Rattle.checkpoint.specs.Image.{header_front, header_text, segment_text};

use crate::header::MAGIC;
use crate::sizes::sectors_for;
use invoke_records::{SettingsRecord, Snapshot};
use retry_rules::Settings;
use sector_disk::SECTOR_SIZE;
use std::alloc::{AllocError, Global};

// Zeros to the end of the last sector.
fn pad(bytes: &mut Vec<u8>) -> Result<(), AllocError>
    ensures { OnOk result (bytes.new.items ≡ padded bytes.old.items) }
{
    let sectors = sectors_for(bytes.len() as u64) as usize;
    bytes.resize(SECTOR_SIZE * sectors, 0)
}

// The header of a segment whose snapshot has so many bytes.
#[tactic(auto, unfolding(crate::specs::Image::header_text))]
pub(crate) fn spell_header(
    alloc: Global,
    generation: u64,
    size: usize,
    settings: &Settings,
) -> Result<Vec<u8>, AllocError>
    requires { bad_field settings.now ≡ None }
    ensures { IfOk result (λ bytes. bytes.items ≡ header_text generation size settings.now) }
{
    let text = match settings.encode(alloc) {
        Ok(text) => text,
        Err(_) => return Err(AllocError),
    };
    let mut bytes = Vec::new(alloc);
    bytes.extend_from_slice(&MAGIC)?;
    bytes.extend_from_slice(&generation.to_be_bytes())?;
    bytes.extend_from_slice(&(size as u64).to_be_bytes())?;
    bytes.extend_from_slice(&(text.len() as u32).to_be_bytes())?;
    bytes.extend_from_slice(&text)?;
    pad(&mut bytes)?;
    Ok(bytes)
}

// A segment behind its gate, without frames: its header, its snapshot, a closed gate.
pub(crate) fn spell_segment(
    alloc: Global,
    generation: u64,
    settings: &Settings,
    snapshot: &Snapshot,
) -> Result<Vec<u8>, AllocError>
    requires { bad_field settings.now ≡ None }
    ensures { IfOk result (λ bytes. bytes.items ≡ segment_text generation settings.now snapshot.now) }
{
    let mut text = match snapshot.encode(alloc) {
        Ok(text) => text,
        Err(_) => return Err(AllocError),
    };
    let mut bytes = spell_header(alloc, generation, text.len(), settings)?;
    pad(&mut text)?;
    bytes.extend_from_slice(&text)?;
    bytes.extend_from_slice(&[0; SECTOR_SIZE])?;
    Ok(bytes)
}
