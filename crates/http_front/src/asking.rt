// Asking the office to advance: once, or twice where the first call made nothing durable.
ghost use Rattle.std.specs.Prelude.{◌≡◌, ◌≤◌, true, IfOk, IfErr, OnErr, Ok, Err, Some, is_some};
ghost use Rattle.broker_core.specs.Splitting.{broker_of};
ghost use Rattle.receipts.specs.Advancing.{IsToldUpTo, AdvancesBy};
ghost use Rattle.receipts.specs.Answers.{IsCommitRefusal};
ghost use Rattle.receipts.specs.Broken.{is_last, ShowsBroken, left_by};
ghost use Rattle.receipts.specs.Serving.{HasServed};

use broker_core::{DiskHalf, Durable};
use hall_core::HallError;
use receipts::{BrokenHall, Committed, Desk, Office, Trace};
use sector_disk::Disk;
use std::sync::Wait;
use std::sync::ledger::Ledger;

/// Why an office did not commit. Only asking one makes it: nobody else can say that a commit was refused. Where the hall is broken,
/// it shows that.
#[derive(Drop)]
pub(crate) struct NotCommitted {
    why: HallError,
    broken: Option<BrokenHall>,
    ghost shown: { is_last why ≡ true → is_some broken ≡ true },
}

impl NotCommitted {
    /// Whether the hall is broken, so that nothing more becomes durable.
    pub(crate) fn is_last(&self) -> bool
        ensures { result ≡ is_last self.now.why }
    {
        matches!(self.why, HallError::Fault | HallError::Broken)
    }

    /// What shows that the hall is broken.
    pub(crate) fn into_broken(self) -> BrokenHall
        requires { is_last self.why ≡ true }
        ensures { self.broken ≡ Some result }
    {
        let NotCommitted { broken, .. } = self;
        match broken {
            Some(broken) => broken,
            None => unreachable!(),
        }
    }
}

/// Advances once, as `Office::advance` says.
pub(crate) fn ask<D: Disk, L: Ledger, T: Trace, R: Wait>(
    rt: &R,
    office: &Office<L, T>,
    desk: &mut Desk<L, T>,
    half: &mut DiskHalf<D>,
) -> (Result<Durable, NotCommitted>, Committed<L, T>)
    // claim: An advance is the office's: its answer, its steps, and what its desk is told. `Fault` and `Broken` end a hall. [:
    // told, err, refused, ok, why, met, steps; NotCommitted: shown; NotCommitted::is_last]
    ensures told { IfOk result.0 (IsToldUpTo desk.old.told desk.new.told) }
    ensures err { OnErr result.0 (desk.new.told ≡ desk.old.told) }
    ensures refused { IfErr result.0 (λ refused. IsCommitRefusal desk.old.told refused.why) }
    ensures served { HasServed D.view D.fault_count (broker_of half.old) (broker_of half.new) }
    ensures ok { IfOk result.0 (λ durable. result.1.answer ≡ Ok durable) }
    ensures why { IfErr result.0 (λ refused. result.1.answer ≡ Err refused.why) }
    ensures met { IfErr result.0 (λ refused. ShowsBroken (left_by result.1) refused.broken) }
    ensures steps { AdvancesBy D.view D.fault_count result.1 desk.old desk.new (broker_of half.old) (broker_of half.new) }
{
    let mut committed = office.advance(rt, desk, half);
    let broken = committed.broken.take();
    match committed.answer {
        Ok(durable) => (Ok(durable), committed),
        Err(why) => (Err(NotCommitted { why, broken }), committed),
    }
}

// The same, and what it learned alone.
fn advance<D: Disk, L: Ledger, T: Trace, R: Wait>(
    rt: &R,
    office: &Office<L, T>,
    desk: &mut Desk<L, T>,
    half: &mut DiskHalf<D>,
) -> Result<Durable, NotCommitted>
    ensures told { IfOk result (λ durable. durable ≤ desk.new.told) }
    ensures later { desk.old.told ≤ desk.new.told }
    ensures served { HasServed D.view D.fault_count (broker_of half.old) (broker_of half.new) }
{
    let (answer, _) = ask(rt, office, desk, half);
    answer
}

/// Makes some of what is pending durable: what an earlier call left written behind the log, while what came since is written there.
/// Where none was left, it advances once, which writes what is pending, and once more, which makes that durable.
pub(crate) fn commit_some<D: Disk, L: Ledger, T: Trace, R: Wait>(
    rt: &R,
    office: &Office<L, T>,
    desk: &mut Desk<L, T>,
    half: &mut DiskHalf<D>,
) -> Result<Durable, NotCommitted>
    ensures told { IfOk result (λ durable. durable ≤ desk.new.told) }
    ensures later { desk.old.told ≤ desk.new.told }
    ensures served { HasServed D.view D.fault_count (broker_of half.old) (broker_of half.new) }
{
    let before = half.durable().number();
    let first = advance(rt, office, desk, half);
    if first.is_ok() && half.durable().number() == before && before < half.issued() {
        return advance(rt, office, desk, half);
    }
    first
}
