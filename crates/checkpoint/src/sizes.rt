// How many sectors a segment and a disk have.
ghost use Rattle.std.specs.Prelude.{◌≡◌, ◌+◌, ◌*◌, ◌<◌, ◌≤◌, ◌^◌};
ghost use Rattle.gate_journal.specs.Frames.{sectors_for};
ghost use Rattle.checkpoint.specs.Image.{segment_sectors, least_sectors, most_snapshot_in, segment_sectors_in, allows};

use invoke_records::Version;
use retry_rules::Settings;

// How many sectors so many bytes fill.
pub(crate) fn sectors_for(size: u64) -> u64
    requires { size < 2 ^ 63 }
    ensures { result ≡ sectors_for size }
{
    (size + 511) / 512
}

// The greatest length of a snapshot of this version under these settings.
pub(crate) fn most_snapshot_in(version: Version, settings: &Settings) -> u64
    ensures exact { result ≡ most_snapshot_in version settings.now }
    ensures bounded { result < 2 ^ 50 }
{
    let row = version.row_front() + settings.payload as u64 + settings.response as u64;
    version.snapshot_front() + settings.events as u64 * row
}

// How many sectors a segment of this version has at least under these settings.
pub(crate) fn segment_sectors_in(version: Version, settings: &Settings) -> u64
    ensures exact { result ≡ segment_sectors_in version settings.now }
    ensures bounded { result < 2 ^ 50 }
{
    2 + sectors_for(most_snapshot_in(version, settings)) + 3
}

// How many sectors a segment that is written has at least under these settings.
pub(crate) fn segment_sectors(settings: &Settings) -> u64
    ensures exact { result ≡ segment_sectors settings.now }
    ensures bounded { result < 2 ^ 50 }
{
    segment_sectors_in(Version::Two, settings)
}

/// How many sectors a disk has at least that is formatted with these settings, or migrated.
pub fn least_sectors(settings: &Settings) -> u64
    ensures exact { result ≡ least_sectors settings.now }
    ensures bounded { result < 2 ^ 51 }
{
    2 * segment_sectors(settings)
}

// Whether a disk of this version may have these settings: version 1 has smaller payloads.
pub(crate) fn allows(version: Version, settings: &Settings) -> bool
    ensures { result ≡ allows version settings.now }
{
    match version {
        Version::One(_) => settings.payload <= version.most_payload(),
        Version::Two => true,
    }
}
