// What comes of a call under the lock: its mark, and what its desk is told.
ghost use Rattle.std.specs.Prelude.{◌≡◌, ◌<◌, ◌++◌, map, vec_len, vec_capacity, option_map};
ghost use Rattle.receipts.specs.Marks.{marks_by};
ghost use Rattle.receipts.specs.Locked.{hall_in, number_of, either_number};
ghost use Rattle.hall_core.specs.Hall.{IsSameHall, answered_slots};

use crate::desk::Desk;
use crate::mark::{Mark, Trace};
use crate::marks::Marks;
use broker_core::IssueHalf;
use hall_core::{Hall, Issued};
use std::sync::ledger::Ledger;

/// Marks what a call issued, if it did, where there is room for a mark, and has the desk tell it.
pub(crate) fn note<L: Ledger, T: Trace>(
    marks: &mut Marks<L, T>,
    desk: &mut Desk<L, T>,
    issued: Option<Issued>,
)
    requires room_here { vec_len marks.old.all < vec_capacity marks.old.all }
    requires room_there { vec_len desk.old.own < vec_capacity desk.old.own }
    ensures all { map T.mark marks.new.all.items ≡ map T.mark marks.old.all.items ++ marks_by desk.old.number issued }
    ensures own { map T.mark desk.new.own.items ≡ map T.mark desk.old.own.items ++ marks_by desk.old.number issued }
    ensures desk { (desk.new.number ≡ desk.old.number) × (desk.new.told ≡ desk.old.told) × (desk.new.steps ≡ desk.old.steps) }
    ensures issued { desk.new.issued ≡ issued }
{
    if let Some(issued) = issued {
        let mark = Mark::of(issued, desk.number);
        marks.add(desk, mark);
    }
    desk.issued = issued;
}

/// The number of what a tick issued, if it did, which the desk is told.
pub(crate) fn told_by<L: Ledger, T: Trace>(
    desk: &mut Desk<L, T>,
    issued: Option<Issued>,
) -> Option<u64>
    ensures number { result ≡ option_map number_of issued }
    ensures told { desk.new.told ≡ either_number desk.old.told issued }
    ensures rest { (desk.new.number ≡ desk.old.number) × (desk.new.own.items ≡ desk.old.own.items) × (desk.new.steps ≡ desk.old.steps) }
    ensures issued { desk.new.issued ≡ desk.old.issued }
{
    match issued {
        Some(issued) => {
            desk.told = issued.number;
            Some(issued.number)
        }
        None => None,
    }
}

/// Puts here the slots of the polls that the hall's last request or move answered, while the lock is held: the next request of
/// another desk would put its own in their place. They are moved, so nothing fails once a command is issued.
pub(crate) fn hand_out(hall: &mut Hall<IssueHalf>, answered: &mut Vec<u64>)
    ensures slots { answered.new.items ≡ answered_slots hall.old }
    ensures issuer { hall.new.issuer ≡ hall.old.issuer }
    ensures same { IsSameHall (hall_in hall.old) (hall_in hall.new) }
{
    *answered = hall.take_answered();
}
