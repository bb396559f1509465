// A journal: reading it whole, and a batch appended to it.
ghost use Rattle.std.specs.Prelude.{◌≡◌, ◌↔◌, ◌+◌, ◌≤◌, ◌^◌, length, false, All, None, IsErrOf, OnOk, OnErr, IfOk};
ghost use Rattle.sector_disk.specs.Disk.{IsSameDisk, HasRisen, IsUntouched};
ghost use Rattle.invoke_records.specs.Spelling.{commands_text, command_fault};
ghost use Rattle.gate_journal.specs.Journal.{generation_of, number_of, next_of, end_of, free_sectors_of, fits, IsFound, TellsDamage, Acknowledges, LeavesBeforeOrAfter};

use crate::reading::read_frame;
use crate::writing::{batch_size, body_sectors, open_gate, spell_frame};
use crate::{AppendError, Area, ReadError};
use invoke_records::Command;
use sector_disk::{Disk, SECTOR_SIZE};
use std::alloc::Global;

/// How many commands one frame may hold.
pub const MOST_IN_FRAME: usize = 256;

/// The journal of a segment, at the closed gate after its last frame.
#[derive(Drop)]
pub struct Journal {
    pub(crate) generation: u64,
    pub(crate) number: u64,
    pub(crate) next: u64,
    end: u64,
}

impl Journal {
    /// The journal of an area that holds no frame: it stands at the area's first gate.
    pub fn empty(area: Area) -> Journal
        ensures generation { generation_of result ≡ area.generation }
        ensures number { number_of result ≡ area.number }
        ensures next { next_of result ≡ area.start }
        ensures end { end_of result ≡ area.end }
    {
        Journal {
            generation: area.generation,
            number: area.number,
            next: area.start,
            end: area.end,
        }
    }

    /// How many sectors are free behind the last frame, from where the next frame would begin up to the area's end.
    pub fn free_sectors(&self) -> u64
        // claim: How many sectors are free, and whether a size fits, is told exactly. [Journal::fits]
        ensures { result ≡ free_sectors_of self.now }
    {
        self.end.saturating_sub(self.next)
    }

    /// Whether a frame of commands that fill so many bytes fits behind the last one.
    pub fn fits(&self, size: u64) -> bool
        ensures { result ≡ fits self.now size }
    {
        body_sectors(size) + 2 <= self.free_sectors()
    }

    /// Reads the frames of an area: each command with the sector of its frame's gate. It only reads.
    ///
    /// `Damaged` names the first open gate that stands before no body of the area's generation and the next number.
    pub fn read_all<D: Disk>(
        alloc: Global,
        disk: &mut D,
        area: Area,
    ) -> Result<(Journal, Vec<(u64, Command)>), ReadError>
        requires forward { area.start ≤ area.end }
        requires inside { area.end ≤ (D.view disk.old).sectors }
        requires number { area.number ≤ 2 ^ 62 + 1 }

        ensures same { IsSameDisk (D.view disk.old) (D.view disk.new) }
        ensures later { D.fault_count disk.old ≤ D.fault_count disk.new }
        ensures fault { IsErrOf result ReadError.Fault → HasRisen (D.fault_count disk.old) (D.fault_count disk.new) }
        ensures untouched { (D.view disk.old).honest → IsUntouched (D.view disk.old) (D.view disk.new) }

        ensures generation { IfOk result (λ r. generation_of r.0 ≡ area.generation) }
        ensures end { IfOk result (λ r. end_of r.0 ≡ area.end) }
        ensures numbers { IfOk result (λ r. number_of r.0 ≡ area.number + length r.1.items) }
        ensures below { IfOk result (λ r. number_of r.0 ≤ 2 ^ 62 + 1) }

        // claim: It reads just the frames that the bytes hold, and changes nothing. Damage is told only with the first open
        // gate that has no frame. [: read, damaged, untouched]
        ensures read { (D.view disk.old).honest → IfOk result (λ r. IsFound (D.view disk.old) area r.0 r.1.items) }
        ensures damaged { TellsDamage (D.view disk.old) area result }
    {
        let mut found = Vec::new(alloc);
        let mut left = area;
        while let Some(next) = read_frame(alloc, disk, left, &mut found)? {
            left = next;
        }
        let journal = Journal {
            generation: area.generation,
            number: left.number,
            next: left.start,
            end: area.end,
        };
        Ok((journal, found))
    }

    /// Appends a batch as one frame: its body with a closed gate behind it, a barrier, its open gate, a barrier.
    ///
    /// `NoRoom` comes exactly where the frame does not fit; it and `OutOfMemory` come before any call of the disk. After
    /// `Fault` the area has to be read again.
    pub fn append<D: Disk>(
        &mut self,
        alloc: Global,
        disk: &mut D,
        commands: &[Command],
    ) -> Result<(), AppendError>
        requires room { end_of self.old ≤ (D.view disk.old).sectors }
        requires count { length commands.now ≤ 256 }
        requires numbers { number_of self.old + length commands.now ≤ 2 ^ 62 + 1 }
        requires spelled { All (λ c. command_fault c ≡ None) commands.now }

        ensures same { IsSameDisk (D.view disk.old) (D.view disk.new) }
        ensures later { D.fault_count disk.old ≤ D.fault_count disk.new }
        ensures fault { IsErrOf result AppendError.Fault → HasRisen (D.fault_count disk.old) (D.fault_count disk.new) }
        // claim: It is refused for room exactly where the frame does not fit. This refusal, and that for want of
        // memory, are told before any call of the disk.
        ensures no_room { IsErrOf result AppendError.NoRoom ↔ (fits self.old (length (commands_text commands.now)) ≡ false) }
        ensures no_call { IsErrOf result AppendError.NoRoom → disk.new ≡ disk.old }
        ensures no_call_either { IsErrOf result AppendError.OutOfMemory → disk.new ≡ disk.old }

        ensures err { OnErr result (self.new ≡ self.old) }
        ensures end { end_of self.new ≡ end_of self.old }
        ensures generation { generation_of self.new ≡ generation_of self.old }
        ensures number { OnOk result (number_of self.new ≡ number_of self.old + length commands.now) }

        // claim: After Ok the batch is there, if nothing waited for a flush, and nothing outside the log has changed.
        ensures acknowledged { Acknowledges (D.view disk.old) (D.view disk.new) self.old self.new commands.now result }

        // claim: Where nothing waited for a flush, a crash at any moment leaves the frames from before, or those and the whole
        // batch.
        ensures any_moment { LeavesBeforeOrAfter (D.view disk.old) (D.view disk.new) self.old commands.now }
    {
        let size = batch_size(commands);
        if !self.fits(size) {
            return Err(AppendError::NoRoom);
        }
        let frame = spell_frame(alloc, self.generation, self.number, size, commands)?;
        let gate = open_gate();
        disk.write(self.next + 1, &frame)?;
        disk.barrier()?;
        disk.write(self.next, &gate)?;
        disk.barrier()?;
        self.next += (frame.len() / SECTOR_SIZE) as u64;
        self.number += commands.len() as u64;
        Ok(())
    }
}
