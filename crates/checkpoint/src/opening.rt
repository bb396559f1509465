// Opening a disk.
ghost use Rattle.std.specs.Prelude.{◌≡◌, ◌+◌, ◌*◌, ◌≤◌, ◌<◌, ◌^◌, List, ℕ, length, map, None, Some, Ok, Err, IsErrOf, IfOk, IfErr, IfSome, OnOk, IsOk, IsSome};
ghost use Rattle.sector_disk.specs.Disk.{IsSameDisk, HasRisen, HasOneImage};
ghost use Rattle.sector_disk.specs.Moments.{LeavesOnly};
ghost use Rattle.retry_rules.specs.Settings.{bad_field};
ghost use Rattle.async_core.specs.Rules.{replay};
ghost use Rattle.checkpoint.specs.declared.error.OpenError.TheVariants as open_error;
ghost use Rattle.checkpoint.specs.Image.{folded_in, found_in, read_image};
ghost use Rattle.checkpoint.specs.ReadSteps.{segments_in};
ghost use Rattle.checkpoint.specs.Live.{version_of, settings_of, number_of, HasRoom, HasRoomFor};
ghost use Rattle.checkpoint.specs.Opening.{IsReadIn, IsRecovered, AreLiveParts, TellsNotFormatted, TellsDamage, TellsOld, TellsUnread};
ghost use Rattle.checkpoint.specs.Opening.{OnlyReads, Refuses};
ghost use Rattle.checkpoint.specs.OpenSteps.{IsSoundFound, Opens, IsOpened, AreBoth, IsOpenedAs, AreOpened};

use crate::choosing::{Found, choose};
use crate::legality::{judge, without_gates};
use crate::segment::{Segment, open_header, read_segment};
use crate::{OpenError, Opened};
use invoke_records::{Command, Snapshot};
use sector_disk::Disk;
use std::alloc::Global;

// The segment as the live one, if each of its commands is legal.
fn judged(
    alloc: Global,
    segment: Segment,
    other_open: bool,
) -> Result<(Opened, Snapshot, Vec<Command>), OpenError>
    requires { segment.snapshot.number + length segment.behind.items ≤ 2 ^ 62 }
    ensures opens { IfOk result (λ r. Opens segment other_open r.0 r.1 r.2.items) }
    ensures refused { IfErr result
        (λ why. Refuses why (folded_in segment.version segment.settings segment.snapshot segment.behind.items)) }
    ensures fault { IfErr result (λ why. why ≡ open_error.Fault → ⊥) }
    ensures old { IfErr result (λ why. why ≡ open_error.OldVersion → ⊥) }
{
    let Segment {
        version,
        base,
        settings,
        generation,
        snapshot,
        journal,
        behind,
    } = segment;
    let snapshot = judge(alloc, version, &settings, snapshot, &behind)?;
    let commands = without_gates(alloc, behind)?;
    let opened = Opened {
        version,
        base,
        settings,
        generation,
        journal,
        other_open,
    };
    Ok((opened, snapshot, commands))
}

// A segment that was found open, whole: its snapshot, its frames, and whether their commands are legal.
pub(crate) fn read_opened<D: Disk>(
    alloc: Global,
    disk: &mut D,
    found: Found,
    sectors: u64,
    other_open: bool,
) -> Result<(Opened, Snapshot, Vec<Command>), OpenError>
    requires sound { IsSoundFound sectors found }
    requires sectors { sectors < 2 ^ 63 }
    requires inside { 2 * sectors ≤ (D.view disk.old).sectors }
    ensures reads { OnlyReads (D.view disk.old) (D.view disk.new) }
    ensures later { D.fault_count disk.old ≤ D.fault_count disk.new }
    ensures fault { IsErrOf result OpenError.Fault → HasRisen (D.fault_count disk.old) (D.fault_count disk.new) }
    ensures old { IsErrOf result OpenError.OldVersion → ⊥ }
    ensures settings { IfOk result (λ r. bad_field (settings_of r.0) ≡ None) }
    ensures room { IfOk result (λ r. HasRoomFor (version_of r.0) (D.view disk.old).sectors r.0) }
    ensures number { IfOk result (λ r. number_of r.0 ≡ r.1.number + length r.2.items + 1) }
    ensures below { IfOk result (λ r. r.1.number + length r.2.items ≤ 2 ^ 62) }
    ensures legal { IfOk result (λ r. IsSome (replay (settings_of r.0) r.1 r.2.items)) }
    ensures exact { (D.view disk.old).honest
        → IfOk result (λ r. IsOpened sectors found (D.view disk.old).content other_open r.0 r.1 r.2.items) }
    ensures refused { (D.view disk.old).honest → IfErr result (λ why. Refuses why (found_in sectors found (D.view disk.old).content)) }
{
    let segment = read_segment(alloc, disk, found, sectors)?;
    judged(alloc, segment, other_open)
}

// The live segment whole, and then the older one, of which nothing is kept.
fn read_both<D: Disk>(
    alloc: Global,
    disk: &mut D,
    live: Found,
    older: Found,
    sectors: u64,
) -> Result<(Opened, Snapshot, Vec<Command>), OpenError>
    requires live { IsSoundFound sectors live }
    requires older { IsSoundFound sectors older }
    requires sectors { sectors < 2 ^ 63 }
    requires inside { 2 * sectors ≤ (D.view disk.old).sectors }
    ensures reads { OnlyReads (D.view disk.old) (D.view disk.new) }
    ensures later { D.fault_count disk.old ≤ D.fault_count disk.new }
    ensures fault { IsErrOf result OpenError.Fault → HasRisen (D.fault_count disk.old) (D.fault_count disk.new) }
    ensures old { IsErrOf result OpenError.OldVersion → ⊥ }
    ensures settings { IfOk result (λ r. bad_field (settings_of r.0) ≡ None) }
    ensures room { IfOk result (λ r. HasRoomFor (version_of r.0) (D.view disk.old).sectors r.0) }
    ensures number { IfOk result (λ r. number_of r.0 ≡ r.1.number + length r.2.items + 1) }
    ensures below { IfOk result (λ r. r.1.number + length r.2.items ≤ 2 ^ 62) }
    ensures legal { IfOk result (λ r. IsSome (replay (settings_of r.0) r.1 r.2.items)) }
    ensures exact { (D.view disk.old).honest → IfOk result (λ r. AreBoth sectors live older (D.view disk.old).content r.0 r.1 r.2.items) }
    ensures refused { (D.view disk.old).honest
        → IfErr result (λ why. Refuses why (segments_in sectors (D.view disk.old).content (Ok (live, Some older)))) }
{
    let (opened, snapshot, commands) = read_opened(alloc, disk, live, sectors, true)?;
    read_opened(alloc, disk, older, sectors, true)?;
    Ok((opened, snapshot, commands))
}

// What the segments hold that were found open.
fn read_found<D: Disk>(
    alloc: Global,
    disk: &mut D,
    live: Found,
    older: Option<Found>,
    sectors: u64,
) -> Result<(Opened, Snapshot, Vec<Command>), OpenError>
    requires live { IsSoundFound sectors live }
    requires older { IfSome older (IsSoundFound sectors) }
    requires sectors { sectors < 2 ^ 63 }
    requires inside { 2 * sectors ≤ (D.view disk.old).sectors }
    ensures reads { OnlyReads (D.view disk.old) (D.view disk.new) }
    ensures later { D.fault_count disk.old ≤ D.fault_count disk.new }
    ensures fault { IsErrOf result OpenError.Fault → HasRisen (D.fault_count disk.old) (D.fault_count disk.new) }
    ensures old { IsErrOf result OpenError.OldVersion → ⊥ }
    ensures settings { IfOk result (λ r. bad_field (settings_of r.0) ≡ None) }
    ensures room { IfOk result (λ r. HasRoomFor (version_of r.0) (D.view disk.old).sectors r.0) }
    ensures number { IfOk result (λ r. number_of r.0 ≡ r.1.number + length r.2.items + 1) }
    ensures below { IfOk result (λ r. r.1.number + length r.2.items ≤ 2 ^ 62) }
    ensures legal { IfOk result (λ r. IsSome (replay (settings_of r.0) r.1 r.2.items)) }
    ensures exact { (D.view disk.old).honest
        → IfOk result (λ r. AreOpened sectors live older (D.view disk.old).content r.0 r.1 r.2.items) }
    ensures refused { (D.view disk.old).honest
        → IfErr result (λ why. Refuses why (segments_in sectors (D.view disk.old).content (Ok (live, older)))) }
{
    match older {
        None => read_opened(alloc, disk, live, sectors, false),
        Some(older) => read_both(alloc, disk, live, older, sectors),
    }
}

// What `open_either` answers, by reads alone.
fn read_live<D: Disk>(
    alloc: Global,
    disk: &mut D,
) -> Result<(Opened, Snapshot, Vec<Command>), OpenError>
    ensures reads { OnlyReads (D.view disk.old) (D.view disk.new) }
    ensures later { D.fault_count disk.old ≤ D.fault_count disk.new }
    ensures fault { IsErrOf result OpenError.Fault → HasRisen (D.fault_count disk.old) (D.fault_count disk.new) }
    ensures old { IsErrOf result OpenError.OldVersion → ⊥ }
    ensures settings { IfOk result (λ r. bad_field (settings_of r.0) ≡ None) }
    ensures room { IfOk result (λ r. HasRoomFor (version_of r.0) (D.view disk.old).sectors r.0) }
    ensures number { IfOk result (λ r. number_of r.0 ≡ r.1.number + length r.2.items + 1) }
    ensures below { IfOk result (λ r. r.1.number + length r.2.items ≤ 2 ^ 62) }
    ensures legal { IfOk result (λ r. IsSome (replay (settings_of r.0) r.1 r.2.items)) }
    ensures exact { (D.view disk.old).honest
        → IfOk result (λ r. IsOpenedAs (read_image (D.view disk.old).content) (D.view disk.old).content r.0 r.1 r.2.items) }
    ensures refused { (D.view disk.old).honest → IfErr result (λ why. Refuses why (read_image (D.view disk.old).content)) }
{
    let sectors = disk.sectors();
    if sectors < 6 {
        return Err(OpenError::NotFormatted);
    }
    let half = sectors / 2;
    let a = open_header(alloc, disk, 0, half)?;
    let b = open_header(alloc, disk, half, half)?;
    let (live, older) = choose(half, a, b)?;
    read_found(alloc, disk, live, older, half)
}

/// Opens a disk whose live segment is of version 1 of the format, or of version 2: that segment, the snapshot and the commands
/// behind it. One barrier comes first, then reads alone. What is not a formatted disk is refused by what is wrong and where,
/// and nothing is written: both gates and the headers behind open ones are judged first, then the live segment, then the older
/// one. Rows and snapshots of version 1 have the retries and the age of their header.
pub fn open_either<D: Disk>(
    alloc: Global,
    disk: &mut D,
) -> Result<(Opened, Snapshot, Vec<Command>), OpenError>
    ensures same { IsSameDisk (D.view disk.old) (D.view disk.new) }
    ensures later { D.fault_count disk.old ≤ D.fault_count disk.new }
    ensures fault { IsErrOf result OpenError.Fault → HasRisen (D.fault_count disk.old) (D.fault_count disk.new) }
    ensures old { IsErrOf result OpenError.OldVersion → ⊥ }
    ensures content { (D.view disk.old).honest → (D.view disk.new).content ≡ (D.view disk.old).content }

    // A stop at any moment of the call leaves an image from before it.
    ensures any_moment { (D.view disk.old).honest → LeavesOnly (D.view disk.old) (D.view disk.new) (D.view disk.old).may_leave }

    ensures settings { IfOk result (λ r. bad_field (settings_of r.0) ≡ None) }
    ensures room { IfOk result (λ r. HasRoomFor (version_of r.0) (D.view disk.old).sectors r.0) }
    ensures number { IfOk result (λ r. number_of r.0 ≡ r.1.number + length r.2.items + 1) }
    ensures below { IfOk result (λ r. r.1.number + length r.2.items ≤ 2 ^ 62) }
    ensures legal { IfOk result (λ r. IsSome (replay (settings_of r.0) r.1 r.2.items)) }

    // claim: A disk of either version is opened by what its bytes say in its version, or refused by what is wrong.
    ensures live { (D.view disk.old).honest → IfOk result (λ r. IsReadIn (D.view disk.old) (D.view disk.new) r.0 r.1 r.2.items) }
    ensures parts { (D.view disk.old).honest → IfOk result (λ r. AreLiveParts (D.view disk.old).content r.1 r.2.items) }
    ensures refused { TellsUnread (D.view disk.old) result }
{
    disk.barrier()?;
    read_live(alloc, disk)
}

/// Opens a formatted disk as `open_either` does. `OldVersion` says that all of it can be read, and that its live segment is of
/// version 1.
pub fn open<D: Disk>(
    alloc: Global,
    disk: &mut D,
) -> Result<(Opened, Snapshot, Vec<Command>), OpenError>
    ensures same { IsSameDisk (D.view disk.old) (D.view disk.new) }
    ensures later { D.fault_count disk.old ≤ D.fault_count disk.new }
    ensures fault { IsErrOf result OpenError.Fault → HasRisen (D.fault_count disk.old) (D.fault_count disk.new) }
    ensures content { (D.view disk.old).honest → (D.view disk.new).content ≡ (D.view disk.old).content }

    // claim: Opening changes no byte. A crash meanwhile leaves an image from before. [: content, any_moment; open_either]
    ensures any_moment { (D.view disk.old).honest → LeavesOnly (D.view disk.old) (D.view disk.new) (D.view disk.old).may_leave }

    ensures settings { IfOk result (λ r. bad_field (settings_of r.0) ≡ None) }
    ensures room { IfOk result (λ r. HasRoom (D.view disk.old).sectors r.0) }
    ensures number { IfOk result (λ r. number_of r.0 ≡ r.1.number + length r.2.items + 1) }
    ensures below { IfOk result (λ r. r.1.number + length r.2.items ≤ 2 ^ 62) }
    ensures legal { IfOk result (λ r. IsSome (replay (settings_of r.0) r.1 r.2.items)) }

    // claim: A disk opens as what its bytes recover to, by both segments. It is not formatted, damaged or old only where
    // they say so.
    ensures live { (D.view disk.old).honest → IfOk result (λ r. IsRecovered (D.view disk.old) (D.view disk.new) r.0 r.1 r.2.items) }
    ensures parts { (D.view disk.old).honest → IfOk result (λ r. AreLiveParts (D.view disk.old).content r.1 r.2.items) }
    ensures not_formatted { TellsNotFormatted (D.view disk.old) result }
    ensures damaged { TellsDamage (D.view disk.old) result }
    ensures old_version { TellsOld (D.view disk.old) result }
{
    let (opened, snapshot, commands) = open_either(alloc, disk)?;
    if opened.is_old() {
        return Err(OpenError::OldVersion);
    }
    Ok((opened, snapshot, commands))
}
