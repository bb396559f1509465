// The steps of an advance: what is pending is lent beside what is out, and what came first is settled.
ghost use Rattle.std.specs.Prelude.{◌≡◌};
ghost use Rattle.broker_core.specs.IssuerHalf.{half_view};
ghost use Rattle.hall_core.specs.Hall.{view_of, StandsFor, ForEachPast};
ghost use Rattle.hall_core.specs.Halves.{HasSameParts};
ghost use Rattle.receipts.specs.Advancing.{SharesTo, SettlesAs, SettlesAdvance};

use super::{Loan, Locked};
use crate::desk::Desk;
use crate::mark::Trace;
use broker_core::{Durable, Failed, IssueHalf, Written};
use hall_core::{Hall, HallError};
use std::sync::ledger::Ledger;

// What became of an advance, as the hall settles it.
fn settle_in(
    hall: &mut Hall<IssueHalf>,
    outcome: Result<Option<Written>, Failed>,
) -> Result<Durable, HallError>
    ensures stands { ForEachPast (view_of half_view hall.old) (λ past. StandsFor (view_of half_view hall.new) past) }
    ensures parts { HasSameParts (view_of half_view hall.old) (view_of half_view hall.new) }
    ensures settles { SettlesAs hall.old.issuer hall.new.issuer outcome result }
{
    match outcome {
        Ok(Some(written)) => hall.settle_front(written),
        Ok(None) => Ok(hall.durable()),
        Err(failed) => hall.settle(Err(failed)),
    }
}

impl<L: Ledger, T: Trace> Locked<L, T> {
    /// What there is to write beside what is out, which is then out too; where nothing is pending, the desk is told how much is
    /// durable.
    pub(crate) fn share(&mut self, desk: &mut Desk<L, T>) -> Result<Loan, HallError>
        ensures { SharesTo self.old self.new desk.old.steps desk.new.steps desk.old desk.new result }
    {
        desk.steps.count();
        self.check(desk)?;
        match self.hall.lend_more() {
            Ok(Some(batch)) => Ok(Loan::Out(batch)),
            Ok(None) => {
                let all = self.hall.durable();
                desk.told = all.number();
                Ok(Loan::Nothing(all))
            }
            Err(why) => Err(why),
        }
    }

    /// What became of an advance: what it made durable, if something, or why it went on no more. The desk is told how much is
    /// durable.
    pub(crate) fn settle_advance(
        &mut self,
        desk: &mut Desk<L, T>,
        outcome: Result<Option<Written>, Failed>,
    ) -> Result<Durable, HallError>
        ensures { SettlesAdvance self.old self.new desk.old.steps desk.new.steps desk.old desk.new outcome result }
    {
        desk.steps.count();
        match settle_in(&mut self.hall, outcome) {
            Ok(durable) => {
                desk.told = desk.told.max(durable.number());
                Ok(durable)
            }
            Err(why) => Err(why),
        }
    }
}
