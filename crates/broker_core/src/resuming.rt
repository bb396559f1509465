// Resuming after a stop: attempts that it cut off are marked as interrupted.
ghost use Rattle.std.specs.Prelude.{◌≡◌, ◌≤◌, Err, IfErr, OnErr, IsTrue};
ghost use Rattle.invoke_records.specs.declared.command.Command.{Command};
ghost use Rattle.broker_core.specs.declared.error.IssueError.TheVariants as issue_error;
ghost use Rattle.broker_core.specs.Broker.{disk_of, settings_of, durable_of, is_broken, opened_of, IsSameBroker};
ghost use Rattle.broker_core.specs.Promises.{ForEachHistory, LeavesLegalStops};
ghost use Rattle.broker_core.specs.Resume.{interrupt_at, Resumes, TellsRest, IsOwnReason};

use crate::{Broker, IssueError, Ticket};
use invoke_records::{Bytes, Command, Kind};
use sector_disk::Disk;

// The command that says that an event's attempt was cut off.
fn interrupt(id: [u8; 16], time: u64) -> Command
    ensures { result ≡ interrupt_at id time }
{
    Command {
        kind: Kind::Interrupt,
        id,
        environment: 0,
        time,
        bytes: Bytes::empty(),
    }
}

impl<D: Disk> Broker<D> {
    /// Issues an Interrupt for the running event that was accepted first, at `now` (milliseconds since 1970) or at the last
    /// command's moment, whichever is later; answers None exactly where nothing runs. Called until then after an opening, it
    /// leaves each event waiting, due again or ended: the attempts that a stop cut off are pushed back and use no retry.
    ///
    /// It is refused as `issue` is, but never as `Illegal`, and then changes nothing.
    pub fn resume(&mut self, now: u64) -> Result<Option<Ticket>, IssueError>
        requires { now ≤ 253402300799999 }
        // claim: Resuming issues a legal Interrupt for the running event accepted first. At None each held event waits, is due
        // again or ended. A refusal is never `Illegal`, and changes nothing. [: reason, err, no_call, resumes, rested]
        ensures broken { IsTrue (is_broken self.old) → result ≡ Err issue_error.Broken }
        ensures reason { IfErr result (IsOwnReason self.old) }
        ensures err { OnErr result (IsSameBroker self.old self.new) }
        ensures settings { settings_of self.new ≡ settings_of self.old }
        ensures durable { durable_of self.new ≡ durable_of self.old }
        ensures still { is_broken self.new ≡ is_broken self.old }
        ensures no_call { disk_of self.new ≡ disk_of self.old }
        ensures segment { opened_of self.new ≡ opened_of self.old }
        ensures resumes { ForEachHistory D.view self.old (λ history. Resumes D.view self.old history now result self.new) }
        ensures rested { ForEachHistory D.view self.old (λ history. TellsRest (settings_of self.old) history result) }

        // A stop at any moment of the call leaves a legal stop of the history.
        ensures any_moment { LeavesLegalStops D.view self.old (disk_of self.new) }
    {
        if self.broken {
            return Err(IssueError::Broken);
        }
        let Some(first) = self.table.next_running(0) else {
            return Ok(None);
        };
        let id = first.1;
        let time = now.max(self.table.last_moment());
        match self.issue(interrupt(id, time)) {
            Ok(ticket) => Ok(Some(ticket)),
            Err(why) => Err(why),
        }
    }
}
