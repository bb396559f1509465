// Which segment of a disk is live.
ghost use Rattle.std.specs.Prelude.{◌≡◌, ◌+◌, ◌≤◌, ◌<◌, ◌^◌, None, Some, IsErrOf, IfOk, IfErr, IfSome};
ghost use Rattle.retry_rules.specs.Settings.{bad_field};
ghost use Rattle.gate_journal.specs.Frames.{sectors_for};
ghost use Rattle.checkpoint.specs.Image.{chosen, other_base, is_later_than, in_order};
ghost use Rattle.checkpoint.specs.OpenSteps.{IsSoundHeader, IsSoundFound};

use crate::OpenError;
use crate::header::Header;
use invoke_records::Version;

/// A segment whose gate is open.
#[derive(Drop)]
pub(crate) struct Found {
    /// The sector where it begins.
    pub(crate) base: u64,
    pub(crate) header: Header,
}

// Where the other segment begins, if each has so many sectors and this one begins there.
pub(crate) fn other_base(half: u64, base: u64) -> u64
    ensures { result ≡ other_base half base }
{
    if base == 0 { half } else { 0 }
}

// Of the open segments A and B the live one, which has the greater generation, and the older one, which may not be of version 2
// beside a live one of version 1.
pub(crate) fn choose(
    half: u64,
    a: Option<Header>,
    b: Option<Header>,
) -> Result<(Found, Option<Found>), OpenError>
    requires small { half < 2 ^ 63 }
    requires a { IfSome a (IsSoundHeader half) }
    requires b { IfSome b (IsSoundHeader half) }
    ensures exact { result ≡ chosen half a b }
    ensures fault { IsErrOf result OpenError.Fault → ⊥ }
    ensures old { IsErrOf result OpenError.OldVersion → ⊥ }
    ensures live { IfOk result (λ found. IsSoundFound half found.0) }
    ensures older { IfOk result (λ found. IfSome found.1 (IsSoundFound half)) }
{
    match (a, b) {
        (None, None) => Err(OpenError::NotFormatted),
        (Some(header), None) => Ok((Found { base: 0, header }, None)),
        (None, Some(header)) => Ok((Found { base: half, header }, None)),
        (Some(a), Some(b)) => choose_newer(half, a, b),
    }
}

// Whether an older segment is of a later version than the live one, whose version comes first.
fn is_later_than(live: Version, older: Version) -> bool
    ensures { result ≡ is_later_than live older }
{
    match live {
        Version::Two => false,
        Version::One(_) => !older.is_old(),
    }
}

// The live segment and the older one, which is of no later version.
fn in_order(live: Found, older: Found) -> Result<(Found, Option<Found>), OpenError>
    requires small { older.base < 2 ^ 63 }
    ensures exact { result ≡ in_order live older }
    ensures fault { IsErrOf result OpenError.Fault → ⊥ }
    ensures old { IsErrOf result OpenError.OldVersion → ⊥ }
    ensures same { IfOk result (λ found. found ≡ (live, Some older)) }
{
    if is_later_than(live.header.version, older.header.version) {
        let sector = older.base + 1;
        return Err(OpenError::Damaged { sector });
    }
    Ok((live, Some(older)))
}

fn choose_newer(half: u64, a: Header, b: Header) -> Result<(Found, Option<Found>), OpenError>
    requires small { half < 2 ^ 63 }
    requires a { IsSoundHeader half a }
    requires b { IsSoundHeader half b }
    ensures exact { result ≡ chosen half (Some a) (Some b) }
    ensures fault { IsErrOf result OpenError.Fault → ⊥ }
    ensures old { IsErrOf result OpenError.OldVersion → ⊥ }
    ensures live { IfOk result (λ found. IsSoundFound half found.0) }
    ensures older { IfOk result (λ found. IfSome found.1 (IsSoundFound half)) }
{
    if a.generation == b.generation {
        return Err(OpenError::Damaged { sector: half });
    }
    let is_a_newer = b.generation < a.generation;
    let a = Found { base: 0, header: a };
    let b = Found {
        base: half,
        header: b,
    };
    if is_a_newer {
        in_order(a, b)
    } else {
        in_order(b, a)
    }
}
