// A disk that was opened: its live segment.
ghost use Rattle.std.specs.Prelude.{◌≡◌, ◌↔◌, ◌+◌, ◌≤◌, ◌^◌, length, false, All, None, IsErrOf, OnOk, OnErr};
ghost use Rattle.sector_disk.specs.Disk.{IsSameDisk, HasRisen};
ghost use Rattle.invoke_records.specs.Spelling.{commands_text, command_fault};
ghost use Rattle.invoke_records.specs.Versions.{is_old};

use gate_journal::{AppendError, Journal};
use invoke_records::{Command, Version};
use retry_rules::Settings;
use sector_disk::Disk;
use std::alloc::Global;

/// The live segment of a disk that was opened.
#[derive(Drop)]
pub struct Opened {
    // The version of the format that it is of. Only what is of version 2 is appended to.
    pub(crate) version: Version,
    // The sector where it begins.
    pub(crate) base: u64,
    pub(crate) settings: Settings,
    pub(crate) generation: u64,
    pub(crate) journal: Journal,
    // Whether the gate of the other segment is open.
    pub(crate) other_open: bool,
}

impl Opened {
    ghost use Rattle.checkpoint.specs.Live.{version_of, settings_of, generation_of, number_of, end_of, free_sectors_of, fits, Acknowledges, LeavesBeforeOrAfter};

    /// The settings that the disk was formatted with.
    pub fn settings(&self) -> &Settings
        ensures { result.now ≡ settings_of self.now }
    {
        &self.settings
    }

    /// Whether the live segment is of version 1 of the format: it can be read, and has to be migrated.
    pub fn is_old(&self) -> bool
        ensures { result ≡ is_old (version_of self.now) }
    {
        self.version.is_old()
    }

    /// The generation of the live segment: one more with each switch, from 1 on.
    pub fn generation(&self) -> u64
        // claim: The live segment's generation and free sectors are told exactly. [Opened::free_sectors]
        ensures { result ≡ generation_of self.now }
    {
        self.generation
    }

    /// How many sectors of the live segment are free: those behind its last frame.
    pub fn free_sectors(&self) -> u64
        ensures { result ≡ free_sectors_of self.now }
    {
        self.journal.free_sectors()
    }

    /// Appends a batch of commands as one frame.
    ///
    /// `NoRoom` comes exactly where the frame does not fit; it and `OutOfMemory` come before any call of the disk. After
    /// `Fault` the disk has to be opened again.
    pub fn append<D: Disk>(
        &mut self,
        alloc: Global,
        disk: &mut D,
        commands: &[Command],
    ) -> Result<(), AppendError>
        requires room { end_of self.old ≤ (D.view disk.old).sectors }
        requires count { length commands.now ≤ 256 }
        requires numbers { number_of self.old + length commands.now ≤ 2 ^ 62 + 1 }
        requires spelled { All (λ c. command_fault c ≡ None) commands.now }

        ensures same { IsSameDisk (D.view disk.old) (D.view disk.new) }
        ensures later { D.fault_count disk.old ≤ D.fault_count disk.new }
        ensures fault { IsErrOf result AppendError.Fault → HasRisen (D.fault_count disk.old) (D.fault_count disk.new) }
        ensures no_room { IsErrOf result AppendError.NoRoom ↔ (fits self.old (length (commands_text commands.now)) ≡ false) }
        ensures no_call { IsErrOf result AppendError.NoRoom → disk.new ≡ disk.old }
        ensures no_call_either { IsErrOf result AppendError.OutOfMemory → disk.new ≡ disk.old }

        ensures err { OnErr result (self.new ≡ self.old) }
        ensures version { version_of self.new ≡ version_of self.old }
        ensures settings { settings_of self.new ≡ settings_of self.old }
        ensures generation { generation_of self.new ≡ generation_of self.old }
        ensures end { end_of self.new ≡ end_of self.old }
        ensures number { OnOk result (number_of self.new ≡ number_of self.old + length commands.now) }

        // claim: After Ok a live disk has the whole legal batch. A frame that does not fit, and want of memory, come before
        // any call. [: acknowledged, no_room, no_call, no_call_either]
        ensures acknowledged { Acknowledges (D.view disk.old) (D.view disk.new) self.old self.new commands.now result }

        // claim: A crash meanwhile leaves a live disk with the table from before, or after the whole legal batch.
        ensures any_moment { LeavesBeforeOrAfter (D.view disk.old) (D.view disk.new) self.old commands.now }
    {
        self.journal.append(alloc, disk, commands)
    }
}
