// Staging: what is pending is written behind the log, and opened by the barrier that the next group needs in any case.
ghost use Rattle.std.specs.Prelude.{◌≡◌, ◌⊎◌, ◌<◌, ◌≤◌, true, false, None, Some, Ok, Err, length, IsErrOf, OnOk, OnErr};
ghost use Rattle.sector_disk.specs.Disk.{IsSameDisk, HasRisen, HasCause};
ghost use Rattle.checkpoint.specs.Live.{IsLive};
ghost use Rattle.gate_journal.specs.Staged.{count_of};
ghost use Rattle.broker_core.specs.declared.error.CommitError.TheVariants as commit_error;
ghost use Rattle.broker_core.specs.Broker.{disk_of, table_in, pending_of, is_broken, opened_of, staged_of, Stands, IsSameBroker, Breaks};
ghost use Rattle.broker_core.specs.Promises.{ForEachHistory, LeavesLegalStops};
ghost use Rattle.broker_core.specs.Refusals.{FaultsHaveRisen, NeedsSwitch, IsWornOut, HasBadTable, HasSwitched};
ghost use Rattle.broker_core.specs.Steps.{ForBothTables, LeavesEither};
ghost use Rattle.broker_core.specs.AdvanceSteps.{StagesAs, IsLiveWith, table_with, OpensFront, ForBothFronts, LeavesOneOf, GoesOn};

use crate::taking::forget_first;
use crate::{Broker, CommitError};
use checkpoint::{AppendError, Staged};
use sector_disk::{Disk, Fault};

impl<D: Disk> Broker<D> {
    // Writes all that is pending as one frame behind the log, whose gate stays closed, by one barrier. Where it does not fit,
    // the table goes to the other segment, and all is durable. With nothing pending the disk is not called.
    fn stage(&mut self) -> Result<(), CommitError>
        requires whole { is_broken self.old ≡ false }
        requires none { staged_of self.old ≡ None }
        ensures same { IsSameDisk (D.view (disk_of self.old)) (D.view (disk_of self.new)) }
        ensures later { D.fault_count (disk_of self.old) ≤ D.fault_count (disk_of self.new) }
        ensures fault { IsErrOf result CommitError.Fault → FaultsHaveRisen D.fault_count self.old self.new }
        ensures worn_out { result ≡ Err commit_error.WornOut → IsWornOut self.old × NeedsSwitch self.old }
        ensures bad { result ≡ Err commit_error.BadKind → HasBadTable self.old × NeedsSwitch self.old }
        ensures ok { OnOk result (StagesAs (staged_of self.new) self.old self.new) }
        ensures switched { OnOk result (HasSwitched 0 self.old self.new ⊎ HasSwitched 1 self.old self.new) }
        ensures breaks { result ≡ Err commit_error.Fault → Breaks self.old self.new }
        ensures not_broken { result ≡ Err commit_error.Broken → ⊥ }
        ensures kept { OnErr result (result ≡ Err commit_error.Fault ⊎ IsSameBroker self.old self.new) }

        ensures live { ForBothTables D.view self.old (λ before. OnOk result (IsLiveWith (D.view (disk_of self.new)) (opened_of self.new)
            (table_with (staged_of self.new) before (table_in self.old)) (pending_of self.new) (staged_of self.new))) }
        ensures any_moment { ForBothTables D.view self.old (LeavesEither D.view self.old self.new) }
    {
        if self.pending.is_empty() {
            return Ok(());
        }
        match self.opened.stage(self.alloc, &mut self.disk, &self.pending) {
            Ok(group) => {
                self.staged = Some(group);
                Ok(())
            }
            Err(AppendError::NoRoom) => match self.write_table() {
                Ok(_) => Ok(()),
                Err(why) => Err(why),
            },
            Err(AppendError::OutOfMemory) => Err(CommitError::OutOfMemory),
            Err(AppendError::Fault) => {
                self.broken = true;
                Err(CommitError::Fault)
            }
        }
    }

    // Opens what is staged, by one barrier.
    fn open_alone(&mut self, group: Staged) -> Result<(), Fault>
        requires whole { is_broken self.old ≡ false }
        requires staged { staged_of self.old ≡ Some group }
        ensures same { IsSameDisk (D.view (disk_of self.old)) (D.view (disk_of self.new)) }
        ensures cause { HasCause (D.fault_count (disk_of self.old)) (D.fault_count (disk_of self.new)) result }
        ensures ok { OnOk result (OpensFront self.old self.new group) }
        ensures none { OnOk result (staged_of self.new ≡ None) }
        ensures err { OnErr result (Breaks self.old self.new) }
        ensures live { ForBothFronts D.view self.old group (λ before after.
            OnOk result (IsLive (D.view (disk_of self.new)) (opened_of self.new) after)) }
        ensures any_moment { ForBothFronts D.view self.old group (LeavesOneOf D.view self.old self.new) }
    {
        match self.opened.open_staged(&mut self.disk, group) {
            Ok(()) => {
                forget_first(&mut self.pending, group.count() as usize);
                self.durable += group.count();
                self.staged = None;
                Ok(())
            }
            Err(Fault) => {
                self.broken = true;
                Err(Fault)
            }
        }
    }

    // Opens what is staged, and stages what else is pending behind it, by one barrier: whether that was done. Where the rest does
    // not fit, or memory is wanting for it, nothing was.
    fn open_with_rest(&mut self, group: Staged) -> Result<bool, Fault>
        requires whole { is_broken self.old ≡ false }
        requires staged { staged_of self.old ≡ Some group }
        requires more { count_of group < length (pending_of self.old) }
        ensures same { IsSameDisk (D.view (disk_of self.old)) (D.view (disk_of self.new)) }
        ensures cause { HasCause (D.fault_count (disk_of self.old)) (D.fault_count (disk_of self.new)) result }
        ensures ok { result ≡ Ok true → OpensFront self.old self.new group }
        ensures kept { result ≡ Ok false → IsSameBroker self.old self.new }
        ensures err { OnErr result (Breaks self.old self.new) }
        ensures live { ForBothFronts D.view self.old group (λ before after. result ≡ Ok true → IsLiveWith (D.view (disk_of self.new))
            (opened_of self.new) after (pending_of self.new) (staged_of self.new)) }
        ensures any_moment { ForBothFronts D.view self.old group (LeavesOneOf D.view self.old self.new) }
    {
        let count = group.count() as usize;
        let rest = &self.pending[count..];
        match self.opened.advance(self.alloc, &mut self.disk, group, rest) {
            Ok(next) => {
                forget_first(&mut self.pending, count);
                self.durable += group.count();
                self.staged = Some(next);
                Ok(true)
            }
            Err(AppendError::NoRoom) => Ok(false),
            Err(AppendError::OutOfMemory) => Ok(false),
            Err(AppendError::Fault) => {
                self.broken = true;
                Err(Fault)
            }
        }
    }

    // Opens what is staged, by one barrier, with what else is pending staged behind it, where that can be done.
    fn open_front(&mut self, group: Staged) -> Result<(), Fault>
        requires whole { is_broken self.old ≡ false }
        requires staged { staged_of self.old ≡ Some group }
        ensures same { IsSameDisk (D.view (disk_of self.old)) (D.view (disk_of self.new)) }
        ensures cause { HasCause (D.fault_count (disk_of self.old)) (D.fault_count (disk_of self.new)) result }
        ensures ok { OnOk result (OpensFront self.old self.new group) }
        ensures err { OnErr result (Breaks self.old self.new) }
        ensures live { ForBothFronts D.view self.old group (λ before after. OnOk result (IsLiveWith (D.view (disk_of self.new))
            (opened_of self.new) after (pending_of self.new) (staged_of self.new))) }
        ensures any_moment { ForBothFronts D.view self.old group (LeavesOneOf D.view self.old self.new) }
    {
        if group.count() as usize == self.pending.len() {
            return self.open_alone(group);
        }
        match self.open_with_rest(group) {
            Ok(true) => Ok(()),
            Ok(false) => self.open_alone(group),
            Err(Fault) => Err(Fault),
        }
    }

    /// Makes one barrier at most for what is pending, unless it switches: what is staged is opened, and then durable, and what else
    /// is pending is staged behind it, where it fits. Where nothing was staged and it does not fit, the broker switches.
    ///
    /// It is refused as `commit` is, and then nothing more is durable.
    pub(crate) fn advance(&mut self) -> Result<(), CommitError>
        requires { is_broken self.old ≡ false }
        ensures same { IsSameDisk (D.view (disk_of self.old)) (D.view (disk_of self.new)) }
        ensures later { D.fault_count (disk_of self.old) ≤ D.fault_count (disk_of self.new) }
        ensures fault { IsErrOf result CommitError.Fault → FaultsHaveRisen D.fault_count self.old self.new }
        ensures worn_out { result ≡ Err commit_error.WornOut → IsWornOut self.old × NeedsSwitch self.old }
        ensures bad { result ≡ Err commit_error.BadKind → HasBadTable self.old × NeedsSwitch self.old }
        ensures ok { OnOk result (GoesOn self.old self.new) }
        ensures breaks { result ≡ Err commit_error.Fault → Breaks self.old self.new }
        ensures not_broken { result ≡ Err commit_error.Broken → ⊥ }
        ensures kept { OnErr result (result ≡ Err commit_error.Fault ⊎ IsSameBroker self.old self.new) }

        ensures stands { ForEachHistory D.view self.old (λ history. Stands D.view self.new history) }
        ensures sound { ForEachHistory D.view self.old (λ history. result ≡ Err commit_error.BadKind → ⊥) }
        ensures any_moment { LeavesLegalStops D.view self.old (disk_of self.new) }
    {
        match self.staged {
            None => self.stage(),
            Some(group) => match self.open_front(group) {
                Ok(()) => Ok(()),
                Err(Fault) => Err(CommitError::Fault),
            },
        }
    }
}
