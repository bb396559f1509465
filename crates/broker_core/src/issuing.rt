// Issuing commands: they are applied to the table and pending until they are committed.
ghost use Rattle.std.specs.Prelude.{◌≡◌, ◌+◌, ◌<◌, ◌≤◌, ◌^◌, ◌++◌, ◌∷◌, [], false, None, Some, Err, length, IsTrue, IsOkUnless, OnOk, OnErr, IfOk, IfErr};
ghost use Rattle.invoke_records.specs.declared.command.Command.{Command};
ghost use Rattle.async_core.specs.declared.illegal.Illegal.{Illegal};
ghost use Rattle.async_core.specs.Rules.{refusal_at};
ghost use Rattle.async_core.specs.State.{refusal_by, state_after};
ghost use Rattle.broker_core.specs.declared.error.IssueError.TheVariants as issue_error;
ghost use Rattle.broker_core.specs.Broker.{disk_of, settings_of, issued_of, is_broken, Stands, IsSameBroker, Issues, IsReason};
ghost use Rattle.broker_core.specs.Promises.{ForEachHistory, LeavesLegalStops, Accepts};
ghost use Rattle.broker_core.specs.Refusals.{OnUsable, IsLegalNow, Fails, IsFull, HasPlace, TellsIllegal};
ghost use Rattle.broker_core.specs.History.{AreGood};
ghost use Rattle.broker_core.specs.Steps.{IsErrorFor, IsTakeReason, AreSpelled};

use crate::broker::{MOST_COMMANDS, MOST_PENDING};
use crate::{Broker, IssueError, Ticket};
use async_core::{ApplyError, Table};
use invoke_records::Command;
use sector_disk::Disk;

// Why a command is refused: it is not legal now, or else this.
fn refusal(table: &Table, command: &Command, otherwise: IssueError) -> IssueError
    ensures either { IsErrorFor (refusal_at table.now.settings table.now.table command.now) otherwise result }
    ensures illegal { (why : Illegal) → refusal_at table.now.settings table.now.table command.now ≡ Some why
        → result ≡ issue_error.Illegal why }
    ensures legal { refusal_at table.now.settings table.now.table command.now ≡ None → result ≡ otherwise }
{
    match table.judge(command) {
        Ok(()) => otherwise,
        Err(why) => IssueError::Illegal(why),
    }
}

// Applies a command to a table, and keeps it behind those that are pending.
pub(crate) fn take(
    table: &mut Table,
    pending: &mut Vec<Command>,
    command: Command,
) -> Result<(), IssueError>
    requires few { length pending.old.items ≤ 256 }
    ensures worn_out { 2 ^ 62 ≤ table.old.table.number → result ≡ Err issue_error.WornOut }
    ensures illegal { table.old.table.number < 2 ^ 62 → (why : Illegal) → refusal_by table.old command ≡ Some why
        → result ≡ Err (issue_error.Illegal why) }
    ensures backlog { table.old.table.number < 2 ^ 62 → refusal_by table.old command ≡ None → length pending.old.items ≡ 256
        → result ≡ Err issue_error.Backlog }
    ensures accepted { table.old.table.number < 2 ^ 62 → refusal_by table.old command ≡ None → length pending.old.items < 256
        → IsOkUnless result issue_error.OutOfMemory }
    ensures reason { IfErr result (IsTakeReason table.old pending.old.items command) }
    ensures settings { table.new.settings ≡ table.old.settings }
    ensures counted { table.new.table.number + length pending.old.items ≡ table.old.table.number + length pending.new.items }
    ensures bounded { table.old.table.number ≤ 2 ^ 62 → table.new.table.number ≤ 2 ^ 62 }
    ensures few { length pending.new.items ≤ 256 }
    ensures spelled { AreGood table.old.settings → AreSpelled pending.old.items → AreSpelled pending.new.items }
    ensures legal { OnOk result (refusal_by table.old command ≡ None) }
    ensures applied { OnOk result (table.new ≡ state_after table.old command) }
    ensures number { OnOk result (table.new.table.number ≡ table.old.table.number + 1) }
    ensures kept { OnOk result (pending.new.items ≡ pending.old.items ++ command ∷ []) }
    ensures err { OnErr result (table.new ≡ table.old) }
    ensures err_kept { OnErr result (pending.new.items ≡ pending.old.items) }
{
    if table.number() >= MOST_COMMANDS {
        return Err(IssueError::WornOut);
    }
    if pending.len() >= MOST_PENDING {
        return Err(refusal(table, &command, IssueError::Backlog));
    }
    if pending.reserve(1).is_err() {
        return Err(refusal(table, &command, IssueError::OutOfMemory));
    }
    match table.apply(&command) {
        Ok(()) => {
            pending.push_reserved(command);
            Ok(())
        }
        Err(ApplyError::Illegal(why)) => Err(IssueError::Illegal(why)),
        Err(ApplyError::OutOfMemory) => Err(IssueError::OutOfMemory),
    }
}

impl<D: Disk> Broker<D> {
    /// Applies a command that is legal now, and keeps it pending: it is not durable before it is committed.
    ///
    /// It is refused, and then changes nothing: `Broken`, `WornOut` (2^62 commands were issued), `Illegal` with the first
    /// check that fails, `Backlog` (256 commands are pending), `OutOfMemory`, in that order. The disk is not called.
    pub fn issue(&mut self, command: Command) -> Result<Ticket, IssueError>
        // claim: Refusals come in this order: broken, worn out, not legal, 256 pending, no memory. There is no other.
        ensures broken { IsTrue (is_broken self.old) → result ≡ Err issue_error.Broken }
        ensures worn_out { is_broken self.old ≡ false → 2 ^ 62 ≤ issued_of self.old → result ≡ Err issue_error.WornOut }
        ensures illegal { OnUsable self.old ((why : Illegal) → Fails self.old command why → result ≡ Err (issue_error.Illegal why)) }
        ensures backlog { OnUsable self.old (IsLegalNow self.old command → IsFull self.old → result ≡ Err issue_error.Backlog) }
        ensures accepted { OnUsable self.old (IsLegalNow self.old command → HasPlace self.old
            → IsOkUnless result issue_error.OutOfMemory) }

        // claim: Each refusal has its reason, and changes nothing. Issuing does not call the disk.
        ensures reason { IfErr result (IsReason self.old command) }
        ensures no_call { disk_of self.new ≡ disk_of self.old }
        ensures ok { IfOk result (λ ticket. Issues self.old self.new command ticket) }
        ensures err { OnErr result (IsSameBroker self.old self.new) }

        // claim: An issued command was legal after the history. The broker then stands for the history with it.
        ensures stands { ForEachHistory D.view self.old (λ history. IfOk result (Accepts D.view self.old history command self.new)) }
        ensures refused { ForEachHistory D.view self.old (λ history. TellsIllegal (settings_of self.old) history command result) }
        ensures stands_refused { ForEachHistory D.view self.old (λ history. OnErr result (Stands D.view self.new history)) }

        // claim: A crash at any moment leaves a legal stop: a prefix with at least the durable commands. [: any_moment;
        // Broker::commit, Broker::switch, Broker::resume; Broker::close: any_moment, disk]
        ensures any_moment { LeavesLegalStops D.view self.old (disk_of self.new) }
    {
        if self.broken {
            return Err(IssueError::Broken);
        }
        match take(&mut self.table, &mut self.pending, command) {
            Ok(()) => Ok(Ticket::new(self.table.number())),
            Err(why) => Err(why),
        }
    }
}
