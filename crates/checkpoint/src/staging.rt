// A batch written before its gate is opened, so that one barrier settles that gate and the next batch's frame.
ghost use Rattle.std.specs.Prelude.{◌≡◌, ◌↔◌, ◌+◌, ◌≤◌, ◌^◌, length, false, All, None, IsErrOf, OnOk, OnErr, IfOk};
ghost use Rattle.sector_disk.specs.Disk.{IsSameDisk, HasRisen, HasCause};
ghost use Rattle.invoke_records.specs.Spelling.{commands_text, command_fault};
ghost use Rattle.gate_journal.specs.Staged.{count_of};
ghost use Rattle.checkpoint.specs.Live.{version_of, settings_of, generation_of, number_of, end_of, fits};
ghost use Rattle.checkpoint.specs.Ahead.{fits_behind, LiesIn, Stages, LeavesTable, Advances, Opens, LeavesWithStaged};

use crate::Opened;
use gate_journal::{AppendError, Staged};
use invoke_records::Command;
use sector_disk::{Disk, Fault};
use std::alloc::Global;

impl Opened {
    /// Whether a frame of commands that fill so many bytes fits behind a staged one.
    pub fn fits_behind(&self, staged: Staged, size: u64) -> bool
        ensures { result ≡ fits_behind self.now staged size }
    {
        self.journal.fits_behind(staged, size)
    }

    /// Writes a batch as one frame behind the last one, whose gate stays closed, by one barrier.
    ///
    /// It is refused as `append` is.
    pub fn stage<D: Disk>(
        &self,
        alloc: Global,
        disk: &mut D,
        commands: &[Command],
    ) -> Result<Staged, AppendError>
        requires room { end_of self.now ≤ (D.view disk.old).sectors }
        requires count { length commands.now ≤ 256 }
        requires numbers { number_of self.now + length commands.now ≤ 2 ^ 62 + 1 }
        requires spelled { All (λ c. command_fault c ≡ None) commands.now }

        ensures same { IsSameDisk (D.view disk.old) (D.view disk.new) }
        ensures later { D.fault_count disk.old ≤ D.fault_count disk.new }
        ensures fault { IsErrOf result AppendError.Fault → HasRisen (D.fault_count disk.old) (D.fault_count disk.new) }
        ensures no_room { IsErrOf result AppendError.NoRoom ↔ (fits self.now (length (commands_text commands.now)) ≡ false) }
        ensures no_call { IsErrOf result AppendError.NoRoom → disk.new ≡ disk.old }
        ensures no_call_either { IsErrOf result AppendError.OutOfMemory → disk.new ≡ disk.old }
        ensures inside { IfOk result (LiesIn self.now) }
        ensures count { IfOk result (λ staged. count_of staged ≡ length commands.now) }

        // claim: A staged batch changes no table: where nothing waited for a flush, a live disk stays live with its own, and a
        // crash meanwhile leaves that.
        ensures staged { Stages (D.view disk.old) (D.view disk.new) self.now commands.now result }
        ensures any_moment { LeavesTable (D.view disk.old) (D.view disk.new) self.now }
    {
        self.journal.stage(alloc, disk, commands)
    }

    /// Opens a staged batch and stages another behind it, by one barrier.
    ///
    /// It is refused as `append` is: `NoRoom` comes exactly where the frame does not fit behind the staged one.
    pub fn advance<D: Disk>(
        &mut self,
        alloc: Global,
        disk: &mut D,
        staged: Staged,
        commands: &[Command],
    ) -> Result<Staged, AppendError>
        requires room { end_of self.old ≤ (D.view disk.old).sectors }
        requires count { length commands.now ≤ 256 }
        requires numbers { number_of self.old + count_of staged + length commands.now ≤ 2 ^ 62 + 1 }
        requires spelled { All (λ c. command_fault c ≡ None) commands.now }

        ensures same { IsSameDisk (D.view disk.old) (D.view disk.new) }
        ensures later { D.fault_count disk.old ≤ D.fault_count disk.new }
        ensures fault { IsErrOf result AppendError.Fault → HasRisen (D.fault_count disk.old) (D.fault_count disk.new) }
        ensures no_room { IsErrOf result AppendError.NoRoom ↔ (fits_behind self.old staged (length (commands_text commands.now)) ≡ false) }
        ensures no_call { IsErrOf result AppendError.NoRoom → disk.new ≡ disk.old }
        ensures no_call_either { IsErrOf result AppendError.OutOfMemory → disk.new ≡ disk.old }

        ensures err { OnErr result (self.new ≡ self.old) }
        ensures version { version_of self.new ≡ version_of self.old }
        ensures settings { settings_of self.new ≡ settings_of self.old }
        ensures generation { generation_of self.new ≡ generation_of self.old }
        ensures end { end_of self.new ≡ end_of self.old }
        ensures number { OnOk result (number_of self.new ≡ number_of self.old + count_of staged) }
        ensures inside { IfOk result (LiesIn self.new) }
        ensures count { IfOk result (λ next. count_of next ≡ length commands.now) }

        // claim: Where nothing waited for a flush, one barrier makes a staged batch durable and stages the next. A crash
        // meanwhile leaves the table from before, or after the whole staged batch, and nothing of the next.
        ensures advanced { Advances (D.view disk.old) (D.view disk.new) self.old self.new staged commands.now result }
        ensures any_moment { LeavesWithStaged (D.view disk.old) (D.view disk.new) self.old staged }
    {
        self.journal.advance(alloc, disk, staged, commands)
    }

    /// Opens a staged batch, by one barrier.
    pub fn open_staged<D: Disk>(&mut self, disk: &mut D, staged: Staged) -> Result<(), Fault>
        requires room { end_of self.old ≤ (D.view disk.old).sectors }
        requires inside { LiesIn self.old staged }
        requires numbers { number_of self.old + count_of staged ≤ 2 ^ 62 + 1 }

        ensures same { IsSameDisk (D.view disk.old) (D.view disk.new) }
        ensures cause { HasCause (D.fault_count disk.old) (D.fault_count disk.new) result }
        ensures err { OnErr result (self.new ≡ self.old) }
        ensures version { version_of self.new ≡ version_of self.old }
        ensures settings { settings_of self.new ≡ settings_of self.old }
        ensures generation { generation_of self.new ≡ generation_of self.old }
        ensures end { end_of self.new ≡ end_of self.old }
        ensures number { OnOk result (number_of self.new ≡ number_of self.old + count_of staged) }

        // claim: Where nothing waited for a flush, a staged batch that is opened is durable. A crash meanwhile leaves the
        // table with it or without.
        ensures opened { Opens (D.view disk.old) (D.view disk.new) self.old self.new staged result }
        ensures any_moment { LeavesWithStaged (D.view disk.old) (D.view disk.new) self.old staged }
    {
        self.journal.open_staged(disk, staged)
    }
}
