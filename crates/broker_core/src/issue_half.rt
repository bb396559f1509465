// The half of a broker that issues: its table and what is pending. It calls no disk.
ghost use Rattle.std.specs.Prelude.{◌≡◌, ℕ, ◌+◌, ◌<◌, ◌≤◌, ◌^◌, length, drop, false, Some, Err, IsTrue, IsSome, IsOkUnless, OnOk, OnErr, IfOk, IfErr};
ghost use Rattle.async_core.specs.declared.illegal.Illegal.{Illegal};
ghost use Rattle.broker_core.specs.declared.error.IssueError.TheVariants as issue_error;
ghost use Rattle.broker_core.specs.History.{AreGood};
ghost use Rattle.broker_core.specs.Issuer.{issued_in, state_in, ForEachHistory};
ghost use Rattle.broker_core.specs.Issuer.{OnUsable, IsLegalNow, Fails, IsFull, HasPlace, IsReason, IsSameIssuer, Issues, Accepts};
ghost use Rattle.broker_core.specs.Refusals.{TellsIllegal};

use crate::batch::{Batch, Failed, Written};
use crate::copying::copy_commands;
use crate::issuing::take;
use crate::taking::forget_first;
use crate::{Durable, IssueError, Issuer, LendError, SettleError, Ticket, WriteError};
use async_core::Table;
use invoke_records::Command;
use std::alloc::Global;

/// The half of a broker that issues commands. What is pending is lent to the half over the disk, and becomes durable when
/// what that half answers is settled.
#[derive(Drop)]
pub struct IssueHalf {
    pub(crate) alloc: Global,
    pub(crate) table: Table,
    pub(crate) pending: Vec<Command>,
    pub(crate) durable: u64,
    /// The last number of what is out.
    pub(crate) lent: Option<u64>,
    pub(crate) broken: bool,
    ghost good: { AreGood table.settings },
    ghost counted: { durable + length pending.items ≡ table.table.number },
    ghost below: { table.table.number ≤ 2 ^ 62 },
    ghost few: { length pending.items ≤ 256 },
    ghost within: { (last : ℕ) → lent ≡ Some last → (durable < last) × (last ≤ table.table.number) },
    ghost sound: { IsSome lent → broken ≡ false },
}

impl IssueHalf {
    ghost use Rattle.broker_core.specs.IssuerHalf.{half_view, has_same_lent};
    ghost use Rattle.broker_core.specs.Lending.{Lends, CanLend, IsLendReason, SettlesBy, IsNotSettled};

    /// How many commands were issued.
    pub fn issued(&self) -> u64
        ensures { result ≡ issued_in (half_view self.now) }
    {
        self.table.number()
    }

    /// How many of them are durable: no stop takes them away.
    pub fn durable(&self) -> Durable
        ensures { result ≡ (half_view self.now).durable }
    {
        Durable::new(self.durable)
    }

    /// A ticket of all that was issued: its number is how many commands that is. It takes no memory.
    pub fn ticket(&self) -> Ticket
        ensures { result ≡ issued_in (half_view self.now) }
    {
        Ticket::new(self.table.number())
    }

    /// The table after all that was issued.
    pub fn table(&self) -> &Table
        ensures { result.now ≡ state_in (half_view self.now) }
    {
        &self.table
    }

    /// Applies a command that is legal now, and keeps it pending, as `Broker::issue` does, with the same refusals. What is
    /// lent counts as pending.
    pub fn issue(&mut self, command: Command) -> Result<Ticket, IssueError>
        ensures broken { IsTrue (half_view self.old).broken → result ≡ Err issue_error.Broken }
        ensures worn_out { (half_view self.old).broken ≡ false → 2 ^ 62 ≤ issued_in (half_view self.old)
            → result ≡ Err issue_error.WornOut }
        ensures illegal { OnUsable (half_view self.old) ((why : Illegal) → Fails (half_view self.old) command why
            → result ≡ Err (issue_error.Illegal why)) }
        ensures backlog { OnUsable (half_view self.old) (IsLegalNow (half_view self.old) command → IsFull (half_view self.old)
            → result ≡ Err issue_error.Backlog) }
        ensures accepted { OnUsable (half_view self.old) (IsLegalNow (half_view self.old) command → HasPlace (half_view self.old)
            → IsOkUnless result issue_error.OutOfMemory) }

        ensures reason { IfErr result (IsReason (half_view self.old) command) }
        ensures lent { has_same_lent self.old self.new }
        ensures ok { IfOk result (λ ticket. Issues (half_view self.old) (half_view self.new) command ticket) }
        ensures err { OnErr result (IsSameIssuer (half_view self.old) (half_view self.new)) }

        // Where it stands for a history, it accepts what is legal after it, and then stands for it with the command.
        ensures stands { ForEachHistory (half_view self.old) (λ history.
            IfOk result (Accepts (half_view self.old) history command (half_view self.new))) }
        ensures refused { ForEachHistory (half_view self.old) (λ history.
            TellsIllegal (half_view self.old).settings history command result) }
    {
        if self.broken {
            return Err(IssueError::Broken);
        }
        match take(&mut self.table, &mut self.pending, command) {
            Ok(()) => Ok(Ticket::new(self.table.number())),
            Err(why) => Err(why),
        }
    }

    /// A copy of all that is pending, with its numbers, or None where nothing is. It is then out until its result is
    /// settled.
    ///
    /// It is refused, and then changes nothing: `Broken`, `Lent` (a batch is out), `OutOfMemory`, in that order.
    pub fn lend(&mut self) -> Result<Option<Batch>, LendError>
        // claim: `lend` lends all that is pending, with its numbers, and is refused while something is out. Refusals have their
        // reason.
        ensures same { IsSameIssuer (half_view self.old) (half_view self.new) }
        ensures could { IfOk result (λ batch. CanLend self.old) }
        ensures ok { IfOk result (Lends self.old self.new) }
        ensures reason { IfErr result (IsLendReason self.old) }
        ensures kept { OnErr result (has_same_lent self.old self.new) }
    {
        if self.broken {
            return Err(LendError::Broken);
        }
        if self.lent.is_some() {
            return Err(LendError::Lent);
        }
        if self.pending.is_empty() {
            return Ok(None);
        }
        let Ok(commands) = copy_commands(self.alloc, &self.pending) else {
            return Err(LendError::OutOfMemory);
        };
        let last = self.table.number();
        self.lent = Some(last);
        Ok(Some(Batch {
            first: self.durable + 1,
            last,
            commands,
        }))
    }

    /// Takes what became of the batch that is out, and answers how many commands are durable: all up to the batch's last.
    /// What was issued since it was lent stays pending. It takes no memory.
    ///
    /// `Mismatch`: no batch is out, or the numbers are not those of the batch that is out; nothing changes. `NotWritten`: the
    /// batch was not written; after `Fault` or `Broken` the half is broken, else the commands are pending and not lent.
    pub fn settle(&mut self, outcome: Result<Written, Failed>) -> Result<Durable, SettleError>
        // claim: By `settle` the durable number moves only where a written batch is settled, to its last number. What came since
        // stays pending. [: ok, err]
        ensures ok { IfOk result (SettlesBy self.old self.new outcome) }
        // claim: A settled fault, or a broken disk half, breaks the half. After another failed write all stays pending, and may
        // be lent again.
        ensures err { IfErr result (IsNotSettled self.old self.new outcome) }
    {
        let (first, last) = match &outcome {
            Ok(written) => (written.first(), written.last()),
            Err(failed) => (failed.first(), failed.last()),
        };
        if self.lent != Some(last) || first != self.durable + 1 {
            return Err(SettleError::Mismatch);
        }
        self.lent = None;
        match outcome {
            Ok(_) => {
                forget_first(&mut self.pending, (last - self.durable) as usize);
                self.durable = last;
                Ok(Durable::new(last))
            }
            Err(failed) => {
                let cause = failed.cause();
                self.broken = matches!(cause, WriteError::Fault | WriteError::Broken);
                Err(SettleError::NotWritten(cause))
            }
        }
    }
}

impl IssueHalf {
    ghost use Rattle.broker_core.specs.IssuerHalf.{half_view, has_same_lent};
    ghost use Rattle.broker_core.specs.LendingMore.{LendsMore, IsNoMoreReason, SettlesFront, IsFrontNotSettled};

    /// A copy of all that is pending and not lent, with its numbers, or None where nothing is pending. It is then out beside
    /// what was, until it is settled, or a refusal is. Where all that is pending is out, the batch is empty.
    ///
    /// It is refused, and then changes nothing: `Broken`, `OutOfMemory`, in that order.
    pub fn lend_more(&mut self) -> Result<Option<Batch>, LendError>
        // claim: All that is pending and not lent is lent, with its numbers, beside what is out. Refusals have their reason.
        ensures same { IsSameIssuer (half_view self.old) (half_view self.new) }
        ensures could { OnOk result ((half_view self.old).broken ≡ false) }
        ensures ok { IfOk result (LendsMore self.old self.new) }
        ensures reason { IfErr result (IsNoMoreReason self.old) }
        ensures kept { OnErr result (has_same_lent self.old self.new) }
    {
        if self.broken {
            return Err(LendError::Broken);
        }
        if self.pending.is_empty() {
            return Ok(None);
        }
        let known = match self.lent {
            Some(last) => last,
            None => self.durable,
        };
        let rest = &self.pending[(known - self.durable) as usize..];
        let Ok(commands) = copy_commands(self.alloc, rest) else {
            return Err(LendError::OutOfMemory);
        };
        let last = self.table.number();
        self.lent = Some(last);
        Ok(Some(Batch {
            first: known + 1,
            last,
            commands,
        }))
    }

    /// Takes that the first commands that are out were written, and answers how many commands are durable: all up to the last
    /// of these. What else is out stays out, and what else is pending stays pending. It takes no memory.
    ///
    /// `Mismatch`: those are not the first that are out; nothing changes.
    pub fn settle_front(&mut self, written: Written) -> Result<Durable, SettleError>
        // claim: The durable number moves to the last of commands that were written, the first that are out, or not at all.
        ensures ok { IfOk result (SettlesFront self.old self.new written) }
        ensures err { IfErr result (IsFrontNotSettled self.old self.new written) }
    {
        let (first, last) = (written.first(), written.last());
        let Some(out) = self.lent else {
            return Err(SettleError::Mismatch);
        };
        if first != self.durable + 1 || last < first || out < last {
            return Err(SettleError::Mismatch);
        }
        forget_first(&mut self.pending, (last - self.durable) as usize);
        self.durable = last;
        self.lent = if last == out { None } else { Some(out) };
        Ok(Durable::new(last))
    }
}

impl Issuer for IssueHalf {
    ghost use Rattle.broker_core.specs.IssuerHalf.{half_view, half_laws, has_same_lent, same_lent_goes_on};

    ghost view = { half_view };

    ghost is_untouched = { has_same_lent };

    ghost laws = { half_laws };

    ghost goes_on = { same_lent_goes_on };

    fn issued(&self) -> u64 {
        IssueHalf::issued(self)
    }

    fn durable(&self) -> Durable {
        IssueHalf::durable(self)
    }

    fn ticket(&self) -> Ticket {
        IssueHalf::ticket(self)
    }

    fn table(&self) -> &Table {
        IssueHalf::table(self)
    }

    fn issue(&mut self, command: Command) -> Result<Ticket, IssueError> {
        IssueHalf::issue(self, command)
    }
}
