// A frame written before its gate is opened, so that one barrier settles that gate and the next frame's body.
ghost use Rattle.std.specs.Prelude.{◌≡◌, ◌↔◌, ◌+◌, ◌≤◌, ◌^◌, length, false, All, None, IsErrOf, OnOk, OnErr, IfOk};
ghost use Rattle.sector_disk.specs.Disk.{IsSameDisk, HasRisen, HasCause};
ghost use Rattle.invoke_records.specs.Spelling.{commands_text, command_fault};
ghost use Rattle.gate_journal.specs.Journal.{generation_of, number_of, end_of, fits};
ghost use Rattle.gate_journal.specs.Staged.{count_of, fits_behind, LiesIn, LeavesBefore, Stages, LeavesWithStaged, Advances, Opens};

use crate::staged::Staged;
use crate::writing::{batch_size, body_sectors, open_gate, spell_frame};
use crate::{AppendError, Journal};
use invoke_records::Command;
use sector_disk::{Disk, Fault, SECTOR_SIZE};
use std::alloc::Global;

impl Journal {
    /// Whether a frame of commands that fill so many bytes fits behind a staged one.
    pub fn fits_behind(&self, staged: Staged, size: u64) -> bool
        ensures { result ≡ fits_behind self.now staged size }
    {
        body_sectors(size) + 2 <= self.free_sectors().saturating_sub(staged.sectors)
    }

    /// Writes a batch as a frame behind the journal's gate, which stays closed: its body with a closed gate behind it, and a
    /// barrier.
    ///
    /// It is refused as `append` is.
    pub fn stage<D: Disk>(
        &self,
        alloc: Global,
        disk: &mut D,
        commands: &[Command],
    ) -> Result<Staged, AppendError>
        requires room { end_of self.now ≤ (D.view disk.old).sectors }
        requires count { length commands.now ≤ 256 }
        requires numbers { number_of self.now + length commands.now ≤ 2 ^ 62 + 1 }
        requires spelled { All (λ c. command_fault c ≡ None) commands.now }

        ensures same { IsSameDisk (D.view disk.old) (D.view disk.new) }
        ensures later { D.fault_count disk.old ≤ D.fault_count disk.new }
        ensures fault { IsErrOf result AppendError.Fault → HasRisen (D.fault_count disk.old) (D.fault_count disk.new) }
        ensures no_room { IsErrOf result AppendError.NoRoom ↔ (fits self.now (length (commands_text commands.now)) ≡ false) }
        ensures no_call { IsErrOf result AppendError.NoRoom → disk.new ≡ disk.old }
        ensures no_call_either { IsErrOf result AppendError.OutOfMemory → disk.new ≡ disk.old }

        ensures inside { IfOk result (LiesIn self.now) }
        ensures number { IfOk result (λ staged. count_of staged ≡ length commands.now) }

        // claim: Where nothing waited for a flush, a staged frame is no part of the log: at each moment a crash leaves the
        // frames from before, which Ok leaves with the batch behind their closed gate.
        ensures staged { Stages (D.view disk.old) (D.view disk.new) self.now commands.now result }
        ensures any_moment { LeavesBefore (D.view disk.old) (D.view disk.new) self.now }
    {
        let size = batch_size(commands);
        if !self.fits(size) {
            return Err(AppendError::NoRoom);
        }
        let frame = spell_frame(alloc, self.generation, self.number, size, commands)?;
        disk.write(self.next + 1, &frame)?;
        disk.barrier()?;
        Ok(Staged {
            sectors: (frame.len() / SECTOR_SIZE) as u64,
            count: commands.len() as u64,
        })
    }

    /// Opens the gate before a staged frame and stages a batch behind it, by one barrier.
    ///
    /// It is refused as `append` is: `NoRoom` comes exactly where the frame does not fit behind the staged one.
    pub fn advance<D: Disk>(
        &mut self,
        alloc: Global,
        disk: &mut D,
        staged: Staged,
        commands: &[Command],
    ) -> Result<Staged, AppendError>
        requires room { end_of self.old ≤ (D.view disk.old).sectors }
        requires count { length commands.now ≤ 256 }
        requires numbers { number_of self.old + count_of staged + length commands.now ≤ 2 ^ 62 + 1 }
        requires spelled { All (λ c. command_fault c ≡ None) commands.now }

        ensures same { IsSameDisk (D.view disk.old) (D.view disk.new) }
        ensures later { D.fault_count disk.old ≤ D.fault_count disk.new }
        ensures fault { IsErrOf result AppendError.Fault → HasRisen (D.fault_count disk.old) (D.fault_count disk.new) }
        ensures no_room { IsErrOf result AppendError.NoRoom ↔ (fits_behind self.old staged (length (commands_text commands.now)) ≡ false) }
        ensures no_call { IsErrOf result AppendError.NoRoom → disk.new ≡ disk.old }
        ensures no_call_either { IsErrOf result AppendError.OutOfMemory → disk.new ≡ disk.old }

        ensures err { OnErr result (self.new ≡ self.old) }
        ensures end { end_of self.new ≡ end_of self.old }
        ensures generation { generation_of self.new ≡ generation_of self.old }
        ensures number { OnOk result (number_of self.new ≡ number_of self.old + count_of staged) }
        ensures inside { IfOk result (LiesIn self.new) }
        ensures next_number { IfOk result (λ next. count_of next ≡ length commands.now) }

        // claim: Where nothing waited for a flush, one barrier adds a staged batch to the log and stages the next. At each
        // moment a crash leaves the frames from before, or those and the staged batch, and nothing of the next.
        ensures advanced { Advances (D.view disk.old) (D.view disk.new) self.old self.new staged commands.now result }
        ensures any_moment { LeavesWithStaged (D.view disk.old) (D.view disk.new) self.old staged }
    {
        let size = batch_size(commands);
        if !self.fits_behind(staged, size) {
            return Err(AppendError::NoRoom);
        }
        let next = self.next + staged.sectors;
        let number = self.number + staged.count;
        let frame = spell_frame(alloc, self.generation, number, size, commands)?;
        disk.write(self.next, &open_gate())?;
        disk.write(next + 1, &frame)?;
        disk.barrier()?;
        self.next = next;
        self.number = number;
        Ok(Staged {
            sectors: (frame.len() / SECTOR_SIZE) as u64,
            count: commands.len() as u64,
        })
    }

    /// Opens the gate before a staged frame, and makes a barrier.
    pub fn open_staged<D: Disk>(&mut self, disk: &mut D, staged: Staged) -> Result<(), Fault>
        requires room { end_of self.old ≤ (D.view disk.old).sectors }
        requires inside { LiesIn self.old staged }
        requires numbers { number_of self.old + count_of staged ≤ 2 ^ 62 + 1 }

        ensures same { IsSameDisk (D.view disk.old) (D.view disk.new) }
        ensures cause { HasCause (D.fault_count disk.old) (D.fault_count disk.new) result }
        ensures err { OnErr result (self.new ≡ self.old) }
        ensures end { end_of self.new ≡ end_of self.old }
        ensures generation { generation_of self.new ≡ generation_of self.old }
        ensures number { OnOk result (number_of self.new ≡ number_of self.old + count_of staged) }

        // claim: Where nothing waited for a flush, opening a staged frame adds its batch. At each moment a crash leaves the
        // frames with it or without.
        ensures opened { Opens (D.view disk.old) (D.view disk.new) self.old self.new staged result }
        ensures any_moment { LeavesWithStaged (D.view disk.old) (D.view disk.new) self.old staged }
    {
        disk.write(self.next, &open_gate())?;
        disk.barrier()?;
        self.next += staged.sectors;
        self.number += staged.count;
        Ok(())
    }
}
