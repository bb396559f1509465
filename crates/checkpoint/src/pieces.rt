// Writing a segment in pieces, with no memory but one piece.
ghost use Rattle.std.specs.Prelude.{◌≡◌, ◌≤◌, vec_capacity, vec_len};

use crate::sizes::sectors_for;
use invoke_records::{EventRow, Snapshot};
use sector_disk::{Disk, Fault, SECTOR_SIZE};
use std::alloc::{AllocError, Global};

// How many bytes are read or written at once: 64 sectors.
pub(crate) const PIECE_SIZE: usize = 32768;

/// Bytes on their way to the sectors from `first` to before `last`.
#[derive(Drop)]
pub(crate) struct Pieces {
    // Those that are not written yet, and the sector where they will be.
    piece: Vec<u8>,
    at: u64,
    first: u64,
    last: u64,
    ghost room: { 32768 ≤ vec_capacity piece },
    ghost filled: { vec_len piece ≤ 32768 },
    ghost behind: { first ≤ at },
}

impl Pieces {
    ghost use Rattle.std.specs.Prelude.{◌+◌, ◌%◌, ◌<◌, ◌^◌, ◌++◌, [], None, OnOk, length, take};
    ghost use Rattle.std.specs.List.{flat_map};
    ghost use Rattle.sector_disk.specs.Disk.{HasCause, IsSameDisk};
    ghost use Rattle.invoke_records.specs.Spelling.{row_text, row_fault, rows_fault, snapshot_text, snapshot_fault};
    ghost use Rattle.gate_journal.specs.Frames.{sectors_for};
    ghost use Rattle.checkpoint.specs.Pieces.{HasSpace, IsEmptyFrom, LeavesWithin, Puts, StandsFrom, ending, parts_text};

    /// Memory for one piece. No other is asked for.
    pub(crate) fn new(alloc: Global) -> Result<Pieces, AllocError> {
        Ok(Pieces {
            piece: Vec::with_capacity(alloc, PIECE_SIZE)?,
            at: 0,
            first: 0,
            last: 0,
        })
    }

    // Forgets what was on its way.
    fn start(&mut self, first: u64, last: u64)
        ensures { IsEmptyFrom self.new first last }
    {
        self.piece.clear();
        self.first = first;
        self.last = last;
        self.at = first;
    }

    // Writes the bytes of the piece.
    fn flush<D: Disk>(&mut self, disk: &mut D) -> Result<(), Fault>
        requires room { HasSpace (D.view disk.old) self.old 0 }
        requires whole { length self.old.piece.items % 512 ≡ 0 }
        ensures puts { Puts (D.view disk.old) (D.view disk.new) self.old self.new [] result }
        ensures cause { HasCause (D.fault_count disk.old) (D.fault_count disk.new) result }
        ensures empty { OnOk result (self.new.piece.items ≡ []) }
    {
        disk.write(self.at, &self.piece)?;
        self.at += (self.piece.len() / SECTOR_SIZE) as u64;
        self.piece.clear();
        Ok(())
    }

    // Writes the piece if it is full.
    fn make_room<D: Disk>(&mut self, disk: &mut D) -> Result<(), Fault>
        requires { HasSpace (D.view disk.old) self.old 0 }
        ensures puts { Puts (D.view disk.old) (D.view disk.new) self.old self.new [] result }
        ensures cause { HasCause (D.fault_count disk.old) (D.fault_count disk.new) result }
        ensures room { OnOk result (length self.new.piece.items < 32768) }
    {
        if self.piece.len() < PIECE_SIZE {
            return Ok(());
        }
        self.flush(disk)
    }

    // Copies as many bytes as the piece has room for.
    fn fill(&mut self, bytes: &[u8]) -> usize
        ensures at { self.new.at ≡ self.old.at }
        ensures first { self.new.first ≡ self.old.first }
        ensures last { self.new.last ≡ self.old.last }
        ensures piece { self.new.piece.items ≡ self.old.piece.items ++ take result bytes.now }
        ensures within { result ≤ length bytes.now }
        ensures some { length self.old.piece.items < 32768 → 0 < length bytes.now → 0 < result }
    {
        let room = PIECE_SIZE - self.piece.len();
        let count = if bytes.len() < room {
            bytes.len()
        } else {
            room
        };
        self.piece.extend_from_slice(&bytes[..count]).unwrap();
        count
    }

    // Takes these bytes, and writes the piece each time it is full.
    fn put<D: Disk>(&mut self, disk: &mut D, bytes: &[u8]) -> Result<(), Fault>
        requires { HasSpace (D.view disk.old) self.old (length bytes.now) }
        ensures puts { Puts (D.view disk.old) (D.view disk.new) self.old self.new bytes.now result }
        ensures cause { HasCause (D.fault_count disk.old) (D.fault_count disk.new) result }
    {
        let mut done = 0;
        while done < bytes.len() {
            self.make_room(disk)?;
            done += self.fill(&bytes[done..]);
        }
        Ok(())
    }

    fn put_row<D: Disk>(&mut self, disk: &mut D, row: &EventRow) -> Result<(), Fault>
        requires room { HasSpace (D.view disk.old) self.old (length (row_text row.now)) }
        requires spelled { row_fault row.now ≡ None }
        ensures puts { Puts (D.view disk.old) (D.view disk.new) self.old self.new (row_text row.now) result }
        ensures cause { HasCause (D.fault_count disk.old) (D.fault_count disk.new) result }
    {
        self.put(disk, &row.head())?;
        self.put(disk, row.payload.as_slice())?;
        self.put(disk, row.answer.bytes())
    }

    fn put_rows<D: Disk>(&mut self, disk: &mut D, rows: &[EventRow]) -> Result<(), Fault>
        requires room { HasSpace (D.view disk.old) self.old (length (flat_map row_text rows.now)) }
        requires spelled { rows_fault rows.now ≡ None }
        ensures puts { Puts (D.view disk.old) (D.view disk.new) self.old self.new (flat_map row_text rows.now) result }
        ensures cause { HasCause (D.fault_count disk.old) (D.fault_count disk.new) result }
    {
        for row in rows {
            self.put_row(disk, row)?;
        }
        Ok(())
    }

    fn put_snapshot<D: Disk>(&mut self, disk: &mut D, snapshot: &Snapshot) -> Result<(), Fault>
        requires room { HasSpace (D.view disk.old) self.old (length (snapshot_text snapshot.now)) }
        requires spelled { snapshot_fault snapshot.now ≡ None }
        ensures puts { Puts (D.view disk.old) (D.view disk.new) self.old self.new (snapshot_text snapshot.now) result }
        ensures cause { HasCause (D.fault_count disk.old) (D.fault_count disk.new) result }
    {
        self.put(disk, &snapshot.head())?;
        self.put_rows(disk, snapshot.rows.as_slice())
    }

    // Zeros to the end of the last sector of so many bytes, and a closed gate.
    fn put_ending<D: Disk>(&mut self, disk: &mut D, size: u64) -> Result<(), Fault>
        requires room { HasSpace (D.view disk.old) self.old (length (ending size)) }
        requires small { size < 2 ^ 31 }
        ensures puts { Puts (D.view disk.old) (D.view disk.new) self.old self.new (ending size) result }
        ensures cause { HasCause (D.fault_count disk.old) (D.fault_count disk.new) result }
    {
        let zeros = [0; 2 * SECTOR_SIZE];
        let count = SECTOR_SIZE as u64 * sectors_for(size) - size;
        self.put(disk, &zeros[..count as usize + SECTOR_SIZE])
    }

    /// Writes a segment without frames to the sectors from `first` on: its header, its snapshot, a closed gate.
    ///
    /// It is written in pieces of 64 sectors, the last one shorter, and asks for no memory. No barrier is made.
    pub(crate) fn write_segment<D: Disk>(
        &mut self,
        disk: &mut D,
        first: u64,
        last: u64,
        header: &[u8],
        snapshot: &Snapshot,
    ) -> Result<(), Fault>
        requires header { length header.now ≡ 512 }
        requires spelled { snapshot_fault snapshot.now ≡ None }
        requires room { first + 1 + sectors_for (length (snapshot_text snapshot.now)) + 1 ≤ last }
        requires inside { last ≤ (D.view disk.old).sectors }
        ensures same { IsSameDisk (D.view disk.old) (D.view disk.new) }
        ensures cause { HasCause (D.fault_count disk.old) (D.fault_count disk.new) result }

        // A stop at any moment leaves each other sector as it was.
        ensures any_moment { LeavesWithin (D.view disk.old) (D.view disk.new) first last }

        ensures written { (D.view disk.old).honest
            → OnOk result (StandsFrom first (parts_text header.now snapshot.now) (D.view disk.new).content) }
    {
        self.start(first, last);
        self.put(disk, header)?;
        self.put_snapshot(disk, snapshot)?;
        self.put_ending(disk, snapshot.size())?;
        self.flush(disk)
    }
}
