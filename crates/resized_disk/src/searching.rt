// Searching a disk for a displaced segment.
ghost use Rattle.std.specs.Prelude.{◌≡◌, ◌+◌, ◌*◌, ◌/◌, ◌-◌, ◌%◌, ◌≤◌, ◌<◌, ◌^◌, length, IfOk};
ghost use Rattle.sector_disk.specs.Disk.{HasCause};
ghost use Rattle.resized_disk.specs.Reading.{OnlyReads};
ghost use Rattle.resized_disk.specs.Pieces.{TellsFirst, TellsNext, is_found};

use crate::piece::{read_piece, sector_in, sectors_from};
use crate::sectors::{follows, is_open};
use sector_disk::{Disk, Fault, SECTOR_SIZE};

// A displaced segment stands at this place of a piece, whose first sector is `at`.
#[tactic(auto, unfolding(crate::specs::Pieces::is_found, crate::specs::Resized::leads_on))]
fn is_found(header: &[u8], half: u64, at: u64, place: usize, piece: &[u8]) -> bool
    requires header { length header.now ≡ 512 }
    requires inside { 512 * place + 1024 ≤ length piece.now }
    requires small { at + place < 2 ^ 64 }
    ensures { result ≡ is_found header.now half at place piece.now }
{
    let sector = at + place as u64;
    sector != 0
        && sector != half
        && is_open(sector_in(piece, place))
        && follows(header, sector_in(piece, place + 1))
}

// The first place of a piece where one stands.
fn first_in(header: &[u8], half: u64, at: u64, piece: &[u8]) -> Option<usize>
    requires header { length header.now ≡ 512 }
    requires some { 512 ≤ length piece.now }
    requires small { at + length piece.now / 512 < 2 ^ 64 }
    ensures { TellsFirst (λ place. is_found header.now half at place piece.now) 0 (length piece.now / 512 - 1) result }
{
    for place in 0..piece.len() / SECTOR_SIZE - 1 {
        if is_found(header, half, at, place, piece) {
            return Some(place);
        }
    }
    None
}

// Reads the piece from this sector on, and tells the first sector of it at which one stands.
fn search_piece<D: Disk>(
    disk: &mut D,
    header: &[u8],
    at: u64,
    piece: &mut [u8],
) -> Result<Option<u64>, Fault>
    requires header { length header.now ≡ 512 }
    requires whole { length piece.old % 512 ≡ 0 }
    requires some { 512 ≤ length piece.old }
    requires inside { at + length piece.old / 512 ≤ (D.view disk.old).sectors }
    ensures reads { OnlyReads (D.view disk.old) (D.view disk.new) }
    ensures cause { HasCause (D.fault_count disk.old) (D.fault_count disk.new) result }
    ensures exact { (D.view disk.old).honest
        → IfOk result (TellsNext header.now at (at + (length piece.old / 512 - 1)) (D.view disk.old).content) }
{
    let half = disk.sectors() / 2;
    read_piece(disk, at, piece)?;
    match first_in(header, half, at, piece) {
        Some(place) => Ok(Some(at + place as u64)),
        None => Ok(None),
    }
}

// The first sector of the disk, from this one on, at which one stands.
pub(crate) fn search<D: Disk>(
    disk: &mut D,
    header: &[u8],
    from: u64,
    buffer: &mut [u8],
) -> Result<Option<u64>, Fault>
    requires header { length header.now ≡ 512 }
    requires room { length buffer.old ≡ 32768 }
    ensures reads { OnlyReads (D.view disk.old) (D.view disk.new) }
    ensures cause { HasCause (D.fault_count disk.old) (D.fault_count disk.new) result }
    ensures exact { (D.view disk.old).honest
        → IfOk result (TellsNext header.now from ((D.view disk.old).sectors - 1) (D.view disk.old).content) }
{
    let sectors = disk.sectors();
    let mut at = from;
    while at.saturating_add(1) < sectors {
        let count = sectors_from(sectors, at);
        let found = search_piece(
            disk,
            header,
            at,
            &mut buffer[..count as usize * SECTOR_SIZE],
        )?;
        if found.is_some() {
            return Ok(found);
        }
        at += count - 1;
    }
    Ok(None)
}
