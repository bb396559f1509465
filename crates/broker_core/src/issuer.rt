// An issuer of commands as the layers above see it: the histories that it stands for, and what a command does to them.
ghost use Rattle.std.specs.Prelude.{◌≡◌, ◌≤◌, ◌^◌, false, Err, IsTrue, IsOkUnless, OnErr, IfOk, IfErr};
ghost use Rattle.async_core.specs.declared.illegal.Illegal.{Illegal};
ghost use Rattle.broker_core.specs.declared.error.IssueError.TheVariants as issue_error;
ghost use Rattle.broker_core.specs.Issuer.{IssuerView, IsIssuer, issued_in, state_in, ForEachHistory, GoesOn};
ghost use Rattle.broker_core.specs.Issuer.{OnUsable, IsLegalNow, Fails, IsFull, HasPlace, IsReason, IsSameIssuer, Issues, Accepts};
ghost use Rattle.broker_core.specs.Refusals.{TellsIllegal};

use crate::{Broker, Durable, IssueError, Ticket};
use async_core::Table;
use invoke_records::Command;
use sector_disk::Disk;

/// Issues commands, and knows which of them are durable. Where they are kept is its own matter.
pub trait Issuer {
    /// The issuer at a moment: its table, what is pending, and the histories that it stands for.
    ghost view: { Self → IssuerView };

    /// Nothing outside memory was called between these two moments.
    ghost is_untouched: { Self → Self → Type 0 };

    /// How many commands were issued.
    fn issued(&self) -> u64
        ensures { result ≡ issued_in (view self.now) };

    /// How many of them are durable: no stop takes them away.
    fn durable(&self) -> Durable
        ensures { result ≡ (view self.now).durable };

    /// A ticket of all that was issued: its number is how many commands that is. It takes no memory.
    fn ticket(&self) -> Ticket
        ensures { result ≡ issued_in (view self.now) };

    /// The table after all that was issued.
    fn table(&self) -> &Table
        ensures { result.now ≡ state_in (view self.now) };

    /// Applies a command that is legal now, and keeps it pending: it is not durable at once.
    ///
    /// It is refused, and then changes nothing: `Broken`, `WornOut` (2^62 commands were issued), `Illegal` with the first
    /// check that fails, `Backlog` (256 commands are pending), `OutOfMemory`, in that order.
    fn issue(&mut self, command: Command) -> Result<Ticket, IssueError>
        ensures broken { IsTrue (view self.old).broken → result ≡ Err issue_error.Broken }
        ensures worn_out { (view self.old).broken ≡ false → 2 ^ 62 ≤ issued_in (view self.old) → result ≡ Err issue_error.WornOut }
        ensures illegal { OnUsable (view self.old) ((why : Illegal) → Fails (view self.old) command why
            → result ≡ Err (issue_error.Illegal why)) }
        ensures backlog { OnUsable (view self.old) (IsLegalNow (view self.old) command → IsFull (view self.old)
            → result ≡ Err issue_error.Backlog) }
        ensures accepted { OnUsable (view self.old) (IsLegalNow (view self.old) command → HasPlace (view self.old)
            → IsOkUnless result issue_error.OutOfMemory) }

        ensures reason { IfErr result (IsReason (view self.old) command) }
        ensures no_call { is_untouched self.old self.new }
        ensures ok { IfOk result (λ ticket. Issues (view self.old) (view self.new) command ticket) }
        ensures err { OnErr result (IsSameIssuer (view self.old) (view self.new)) }

        // claim: Whatever issues, a broker or an issue half, promises what `Broker::issue` does, but for crashes. [: broken,
        // worn_out, illegal, backlog, accepted, reason, no_call, ok, err, stands, refused; Issuer::issued, Issuer::durable,
        // Issuer::ticket, Issuer::table; Issuer: laws, goes_on; IssueHalf::issue: broken, worn_out, illegal, backlog, accepted,
        // reason, lent, ok, err, stands, refused; Broker, IssueHalf: laws]
        ensures stands { ForEachHistory (view self.old) (λ history. IfOk result (Accepts (view self.old) history command (view self.new))) }
        ensures refused { ForEachHistory (view self.old) (λ history. TellsIllegal (view self.old).settings history command result) };

    /// What holds at each moment: it stands for histories of its table and its pending commands, and for no other.
    ghost laws: { (issuer : Self) → IsIssuer (view issuer) };

    /// That holds where no time goes by, and adds up.
    ghost goes_on: { GoesOn is_untouched };
}

impl<D: Disk> Issuer for Broker<D> {
    ghost use Rattle.broker_core.specs.IssuerBroker.{issuer_of, issuer_laws, has_same_disk, same_disk_goes_on};

    ghost view = { issuer_of D.view };

    ghost is_untouched = { has_same_disk };

    ghost laws = { issuer_laws D.view };

    ghost goes_on = { same_disk_goes_on };

    fn issued(&self) -> u64 {
        Broker::issued(self)
    }

    fn durable(&self) -> Durable {
        Broker::durable(self)
    }

    fn ticket(&self) -> Ticket {
        Broker::ticket(self)
    }

    fn table(&self) -> &Table {
        Broker::table(self)
    }

    fn issue(&mut self, command: Command) -> Result<Ticket, IssueError> {
        Broker::issue(self, command)
    }
}
