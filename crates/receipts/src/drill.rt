// Desks that ask one after another, in any order.
ghost use Rattle.std.specs.Prelude.{◌≡◌, map};
ghost use Rattle.receipts.specs.Marks.{KeepsHistories, AreHistories};

use crate::desk::Desk;
use crate::locked::Locked;
use crate::mark::Trace;
use crate::unlocked::Unlocked;
use api_core::Call;
use invoke_records::GREATEST_MOMENT;
use std::sync::ledger::Ledger;

/// What a desk asks.
#[derive(Drop)]
pub enum Ask {
    /// A request comes now, with two random words.
    Arrive {
        call: Call,
        now: u64,
        words: [u64; 2],
    },
    /// A move that is due now is made.
    Tick(u64),
}

/// The place of the desk that asks, and what it asks.
#[derive(Drop)]
pub struct DeskStep {
    pub desk: usize,
    pub ask: Ask,
}

impl<L: Ledger, T: Trace> Locked<L, T> {
    // What the desk asks is done, unless it is refused.
    fn ask(&mut self, desk: &mut Desk<L, T>, ask: Ask)
        ensures histories { KeepsHistories desk.old.number (map T.mark self.old.marks.all.items) (map T.mark desk.old.own.items)
            (map T.mark self.new.marks.all.items) (map T.mark desk.new.own.items) }
        ensures number { desk.new.number ≡ desk.old.number }
    {
        match ask {
            Ask::Arrive { call, now, words } => {
                let _ = self.arrive(desk, call, now, words);
            }
            Ask::Tick(now) => {
                if now <= GREATEST_MOMENT {
                    let _ = self.tick(desk, now);
                }
            }
        }
    }
}

impl<L: Ledger, T: Trace> Unlocked<L, T> {
    /// Lets desks ask, in any order. Whichever do, the marks of each desk stay its history among all marks. An office that is
    /// just opened has no marks, and the desk at each place has the number of the place.
    pub fn drill(&mut self, desks: &mut Vec<Desk<L, T>>, steps: Vec<DeskStep>)
        requires { AreHistories (λ d. d.number) (λ d. map T.mark d.own.items) (map T.mark self.old.locked.marks.all.items) desks.old.items }
        // claim: In whatever order desks ask, the marks of each stay its own among all.
        ensures { AreHistories (λ d. d.number) (λ d. map T.mark d.own.items) (map T.mark self.new.locked.marks.all.items) desks.new.items }
    {
        for step in steps {
            if let Some(desk) = desks.get_mut(step.desk) {
                self.locked.ask(desk, step.ask);
            }
        }
    }
}
