// The header of a segment.
ghost use Rattle.std.specs.Prelude.{◌≡◌, ◌+◌, ◌≤◌, ◌<◌, ◌^◌, length, drop, None, Some, Ok, IfOk, IfSome, List, ℕ};
ghost use Rattle.retry_rules.specs.Settings.{bad_field};
ghost use Rattle.invoke_records.specs.Spelling.{settings_text};
ghost use Rattle.gate_journal.specs.Frames.{sectors_for};
ghost use Rattle.checkpoint.specs.OpenSteps.{IsSoundHeader};
ghost use Rattle.checkpoint.specs.Image.{header_with, header_at, is_version, version_named};

use crate::reading::{are_zeros, u32_at, u64_at, unread};
use crate::sizes::{allows, most_snapshot_in, segment_sectors_in};
use invoke_records::{SettingsRecord, Version};
use retry_rules::{RetryPolicy, Settings};
use std::alloc::{AllocError, Global};

// What a header begins with.
const LETTERS: [u8; 7] = *b"AINVOKE";

// The letters and the version, as they are written.
pub(crate) const MAGIC: [u8; 8] = *b"AINVOKE\x02";

/// The greatest generation of a segment: behind it the disk is worn out for switches.
pub const MOST_GENERATIONS: u64 = 1 << 62;

/// What the header of a segment says.
#[derive(Drop)]
pub(crate) struct Header {
    /// The version of the format that the segment is of.
    pub(crate) version: Version,
    /// The generation of the segment, from 1 to `MOST_GENERATIONS`.
    pub(crate) generation: u64,
    /// How many bytes the snapshot has.
    pub(crate) size: u64,
    pub(crate) settings: Settings,
}

// Whether this byte names a version.
fn is_version(byte: u8) -> bool
    ensures { result ≡ is_version byte }
{
    byte == 1 || byte == 2
}

// The version that such a byte names.
fn version_named(byte: u8, policy: RetryPolicy) -> Version
    ensures { result ≡ version_named byte policy }
{
    if byte == 1 {
        Version::One(policy)
    } else {
        Version::Two
    }
}

// The header with these settings, behind which these bytes are left, if a segment of so many sectors is large enough.
fn with_settings(bytes: &[u8], sectors: u64, settings: Settings, rest: &[u8]) -> Option<Header>
    requires whole { length bytes.now ≡ 512 }
    requires left { length rest.now ≤ 512 }
    requires good { bad_field settings ≡ None }
    ensures exact { result ≡ header_with sectors bytes.now (Ok (settings, rest.now)) }
    ensures sound { IfSome result (IsSoundHeader sectors) }
{
    let generation = u64_at(bytes, 8);
    let size = u64_at(bytes, 16);
    let told = u32_at(bytes, 24) as usize;
    let version = version_named(bytes[7], settings.policy());
    let fits = told + rest.len() == 484
        && are_zeros(rest)
        && size <= most_snapshot_in(version, &settings)
        && segment_sectors_in(version, &settings) <= sectors
        && allows(version, &settings);
    if fits {
        Some(Header {
            version,
            generation,
            size,
            settings,
        })
    } else {
        None
    }
}

// The header that this sector is, in a segment of so many sectors, if it is one.
#[tactic(auto, unfolding(crate::specs::Image::header_at))]
pub(crate) fn read_header(
    alloc: Global,
    bytes: &[u8],
    sectors: u64,
) -> Result<Option<Header>, AllocError>
    requires { length bytes.now ≡ 512 }
    ensures exact { IfOk result (λ found. found ≡ header_at sectors bytes.now) }
    ensures sound { IfOk result (λ found. IfSome found (IsSoundHeader sectors)) }
{
    let generation = u64_at(bytes, 8);
    if !bytes.starts_with(&LETTERS)
        || !is_version(bytes[7])
        || generation < 1
        || generation > MOST_GENERATIONS
    {
        return Ok(None);
    }
    let (_, behind) = bytes.split_at(28);
    match Settings::decode(alloc, behind) {
        Ok((settings, taken)) => {
            let (_, rest) = behind.split_at(taken.min(484));
            Ok(with_settings(bytes, sectors, settings, rest))
        }
        Err(why) => unread(why),
    }
}
