// Committing: all that is pending becomes durable, by one frame or with the whole table.
ghost use Rattle.std.specs.Prelude.{◌≡◌, ◌⊎◌, ◌≤◌, ◌↔◌, [], true, false, Ok, Err, IsErrOf, OnOk, OnErr, IfOk};
ghost use Rattle.sector_disk.specs.Disk.{IsSameDisk};
ghost use Rattle.checkpoint.specs.Live.{IsLive};
ghost use Rattle.broker_core.specs.declared.error.CommitError.TheVariants as commit_error;
ghost use Rattle.broker_core.specs.Broker.{disk_of, table_in, pending_of, is_broken, opened_of, Stands, IsSameBroker, Commits, Breaks};
ghost use Rattle.broker_core.specs.Promises.{ForEachHistory, LeavesLegalStops, HasAllDurable};
ghost use Rattle.broker_core.specs.Refusals.{FaultsHaveRisen, AnswersAtOnce, NeedsSwitch, NeedsNoSwitch, IsWornOut, HasBadTable, HasSwitched};
ghost use Rattle.broker_core.specs.Steps.{ForBothTables, LeavesEither};

use crate::{Broker, CommitError, Durable};
use checkpoint::{AppendError, MOST_GENERATIONS, SwitchError};
use sector_disk::Disk;

impl<D: Disk> Broker<D> {
    // `switch` of a broker that is not broken: the table goes to the other segment.
    pub(crate) fn write_table(&mut self) -> Result<Durable, CommitError>
        requires { is_broken self.old ≡ false }
        ensures same { IsSameDisk (D.view (disk_of self.old)) (D.view (disk_of self.new)) }
        ensures later { D.fault_count (disk_of self.old) ≤ D.fault_count (disk_of self.new) }
        ensures fault { IsErrOf result CommitError.Fault → FaultsHaveRisen D.fault_count self.old self.new }
        ensures worn_out { (result ≡ Err commit_error.WornOut) ↔ IsWornOut self.old }
        ensures bad { result ≡ Err commit_error.BadKind → HasBadTable self.old }
        ensures ok { IfOk result (λ durable. Commits self.old self.new durable) }
        ensures switches { OnOk result (HasSwitched 1 self.old self.new) }
        ensures breaks { result ≡ Err commit_error.Fault → Breaks self.old self.new }
        ensures not_broken { result ≡ Err commit_error.Broken → ⊥ }
        ensures kept { OnErr result (result ≡ Err commit_error.Fault ⊎ IsSameBroker self.old self.new) }

        ensures acknowledged { ForBothTables D.view self.old (λ before.
            OnOk result (IsLive (D.view (disk_of self.new)) (opened_of self.new) (table_in self.old))) }
        ensures any_moment { ForBothTables D.view self.old (LeavesEither D.view self.old self.new) }
    {
        if self.opened.generation() >= MOST_GENERATIONS {
            return Err(CommitError::WornOut);
        }
        let Ok(snapshot) = self.table.snapshot() else {
            return Err(CommitError::OutOfMemory);
        };
        match checkpoint::switch(self.alloc, &mut self.disk, &mut self.opened, &snapshot) {
            Ok(()) => {
                self.durable = snapshot.number;
                self.pending.clear();
                self.staged = None;
                Ok(Durable::new(self.durable))
            }
            Err(SwitchError::BadKind) => Err(CommitError::BadKind),
            Err(SwitchError::OutOfMemory) => Err(CommitError::OutOfMemory),
            Err(SwitchError::Fault) => {
                self.broken = true;
                Err(CommitError::Fault)
            }
        }
    }

    // `commit` of a broker that is not broken: by a frame of the live segment, or with the table.
    fn write(&mut self) -> Result<Durable, CommitError>
        requires { is_broken self.old ≡ false }
        ensures same { IsSameDisk (D.view (disk_of self.old)) (D.view (disk_of self.new)) }
        ensures later { D.fault_count (disk_of self.old) ≤ D.fault_count (disk_of self.new) }
        ensures fault { IsErrOf result CommitError.Fault → FaultsHaveRisen D.fault_count self.old self.new }
        ensures nothing { pending_of self.old ≡ [] → AnswersAtOnce self.old self.new result }
        ensures worn_out { result ≡ Err commit_error.WornOut → IsWornOut self.old × NeedsSwitch self.old }
        ensures worn { IsWornOut self.old → NeedsSwitch self.old → result ≡ Err commit_error.WornOut }
        ensures bad { result ≡ Err commit_error.BadKind → HasBadTable self.old × NeedsSwitch self.old }
        ensures ok { IfOk result (λ durable. Commits self.old self.new durable) }
        ensures stays { NeedsNoSwitch self.old → HasSwitched 0 self.old self.new }
        ensures switches { NeedsSwitch self.old → OnOk result (HasSwitched 1 self.old self.new) }
        ensures breaks { result ≡ Err commit_error.Fault → Breaks self.old self.new }
        ensures not_broken { result ≡ Err commit_error.Broken → ⊥ }
        ensures kept { OnErr result (result ≡ Err commit_error.Fault ⊎ IsSameBroker self.old self.new) }

        ensures acknowledged { ForBothTables D.view self.old (λ before.
            OnOk result (IsLive (D.view (disk_of self.new)) (opened_of self.new) (table_in self.old))) }
        ensures any_moment { ForBothTables D.view self.old (LeavesEither D.view self.old self.new) }
    {
        if self.pending.is_empty() {
            return Ok(Durable::new(self.durable));
        }
        match self
            .opened
            .append(self.alloc, &mut self.disk, &self.pending)
        {
            Ok(()) => {
                self.durable = self.table.number();
                self.pending.clear();
                self.staged = None;
                Ok(Durable::new(self.durable))
            }
            Err(AppendError::NoRoom) => self.write_table(),
            Err(AppendError::OutOfMemory) => Err(CommitError::OutOfMemory),
            Err(AppendError::Fault) => {
                self.broken = true;
                Err(CommitError::Fault)
            }
        }
    }

    /// Makes all that is pending durable, by one frame: two writes and two barriers, whatever the number of commands. With
    /// nothing pending the disk is not called. Where the frame does not fit into what is left of the segment, it switches.
    ///
    /// It is refused, and then all that was pending stays so: `Broken`, `WornOut` (a switch is needed, and the generation
    /// has reached 2^62), `BadKind` (a switch is needed, and the table, which was read from a disk, is that of no history),
    /// `OutOfMemory`, and `Fault`, after which the broker is broken until its disk is closed and opened again.
    pub fn commit(&mut self) -> Result<Durable, CommitError>
        ensures same { IsSameDisk (D.view (disk_of self.old)) (D.view (disk_of self.new)) }
        ensures later { D.fault_count (disk_of self.old) ≤ D.fault_count (disk_of self.new) }
        // claim: A commit tells a fault only where the count rose, or is at its greatest. `Broken`, `WornOut` and `BadKind` have
        // their reason. [: fault, broken, worn_out, worn, bad; Broker::switch]
        ensures fault { IsErrOf result CommitError.Fault → FaultsHaveRisen D.fault_count self.old self.new }
        ensures broken { (result ≡ Err commit_error.Broken) ↔ (is_broken self.old ≡ true) }
        ensures nothing { is_broken self.old ≡ false → pending_of self.old ≡ [] → AnswersAtOnce self.old self.new result }
        ensures worn_out { result ≡ Err commit_error.WornOut → IsWornOut self.old × NeedsSwitch self.old }
        ensures worn { is_broken self.old ≡ false → IsWornOut self.old → NeedsSwitch self.old → result ≡ Err commit_error.WornOut }
        ensures bad { result ≡ Err commit_error.BadKind → HasBadTable self.old × NeedsSwitch self.old }

        // claim: After Ok all that was pending is durable, and a commit has switched segments just where its frame did not fit.
        // A fault breaks the broker, another refusal changes nothing. [Broker::switch: ok, breaks, kept]
        ensures ok { IfOk result (λ durable. Commits self.old self.new durable) }
        ensures stays { NeedsNoSwitch self.old → HasSwitched 0 self.old self.new }
        ensures switches { NeedsSwitch self.old → OnOk result (HasSwitched 1 self.old self.new) }
        ensures breaks { result ≡ Err commit_error.Fault → Breaks self.old self.new }
        ensures kept { OnErr result (result ≡ Err commit_error.Fault ⊎ IsSameBroker self.old self.new) }

        // claim: The broker stands for the same history after any answer, all durable after Ok. No history's table is refused
        // as bad. [Broker::switch]
        ensures stands { ForEachHistory D.view self.old (λ history. Stands D.view self.new history) }
        ensures acknowledged { ForEachHistory D.view self.old (λ history. IfOk result (HasAllDurable self.new history)) }
        ensures sound { ForEachHistory D.view self.old (λ history. result ≡ Err commit_error.BadKind → ⊥) }

        // A stop at any moment of the call leaves a legal stop of the history.
        ensures any_moment { LeavesLegalStops D.view self.old (disk_of self.new) }
    {
        if self.broken {
            return Err(CommitError::Broken);
        }
        self.write()
    }

    /// Writes the table after all that was issued to the other segment and goes on there: all that was pending is then
    /// durable. It makes its calls also where nothing is pending.
    ///
    /// It is refused as `commit` is, `WornOut` where the generation has reached 2^62.
    pub fn switch(&mut self) -> Result<Durable, CommitError>
        ensures same { IsSameDisk (D.view (disk_of self.old)) (D.view (disk_of self.new)) }
        ensures later { D.fault_count (disk_of self.old) ≤ D.fault_count (disk_of self.new) }
        ensures fault { IsErrOf result CommitError.Fault → FaultsHaveRisen D.fault_count self.old self.new }
        ensures broken { (result ≡ Err commit_error.Broken) ↔ (is_broken self.old ≡ true) }
        ensures worn_out { result ≡ Err commit_error.WornOut → IsWornOut self.old }
        ensures worn { is_broken self.old ≡ false → IsWornOut self.old → result ≡ Err commit_error.WornOut }
        ensures bad { result ≡ Err commit_error.BadKind → HasBadTable self.old }

        // At Ok it has switched, and all that was pending is durable. A fault breaks the broker, and any other refusal
        // changes nothing.
        ensures ok { IfOk result (λ durable. Commits self.old self.new durable) }
        ensures switches { OnOk result (HasSwitched 1 self.old self.new) }
        ensures breaks { result ≡ Err commit_error.Fault → Breaks self.old self.new }
        ensures kept { OnErr result (result ≡ Err commit_error.Fault ⊎ IsSameBroker self.old self.new) }

        // The broker stands for the same history after it, also after a fault, and after an Ok with all of it durable. The
        // table of a history is never bad.
        ensures stands { ForEachHistory D.view self.old (λ history. Stands D.view self.new history) }
        ensures acknowledged { ForEachHistory D.view self.old (λ history. IfOk result (HasAllDurable self.new history)) }
        ensures sound { ForEachHistory D.view self.old (λ history. result ≡ Err commit_error.BadKind → ⊥) }

        // A stop at any moment of the call leaves a legal stop of the history.
        ensures any_moment { LeavesLegalStops D.view self.old (disk_of self.new) }
    {
        if self.broken {
            return Err(CommitError::Broken);
        }
        self.write_table()
    }
}
