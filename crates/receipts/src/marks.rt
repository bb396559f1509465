// The marks of all desks, and the book that counts them.
ghost use Rattle.std.specs.Prelude.{◌≡◌, ◌+◌, ◌<◌, ◌++◌, ◌∷◌, [], map, OnOk, length, vec_len, vec_capacity};
ghost use Rattle.receipts.specs.Marks.{sum_of_lists};
ghost use Rattle.receipts.specs.Counters.{counters_of};

use crate::command_counters::CommandCounters;
use crate::desk::Desk;
use crate::mark::{Mark, Trace};
use std::alloc::{AllocError, Global};
use std::sync::ledger::{Book, Ledger, Share};

/// The marks of all commands since the opening, in order.
#[derive(Drop)]
pub(crate) struct Marks<L: Ledger, T: Trace> {
    /// What is kept of them.
    pub(crate) all: Vec<T>,
    /// The sum of what all desks have.
    pub(crate) book: Book<L>,
    /// How many of them are of which kind.
    pub(crate) counters: CommandCounters,
    ghost counted: { vec_len all ≡ book.total },
    ghost counters_are: { counters ≡ counters_of (map T.mark all.items) },
}

// What is counted of these desks together, and of a share beside them.
fn gather<L: Ledger>(share: Share<L>, desks: Vec<Desk<L>>) -> Share<L>
    ensures parts { result.parts ≡ share.parts + length desks.items }
    ensures amount { result.amount ≡ share.amount + sum_of_lists (λ d. d.own.items) desks.items }
{
    let mut gathered = share;
    let mut left = desks;
    while let Some(desk) = left.pop() {
        let Desk { share, .. } = desk;
        gathered.merge(share);
    }
    gathered
}

impl<L: Ledger, T: Trace> Marks<L, T> {
    /// None. It takes no memory.
    pub(crate) fn new(alloc: Global, book: Book<L>) -> Marks<L, T>
        requires { book.total ≡ 0 }
        ensures { result.all.items ≡ [] }
    {
        Marks {
            all: Vec::new(alloc),
            book,
            counters: CommandCounters::new(),
        }
    }

    /// Makes room for one mark more here and at the desk.
    pub(crate) fn reserve(&mut self, desk: &mut Desk<L, T>) -> Result<(), AllocError>
        ensures all { self.new.all.items ≡ self.old.all.items }
        ensures own { desk.new.own.items ≡ desk.old.own.items }
        ensures desk { (desk.new.number ≡ desk.old.number) × (desk.new.told ≡ desk.old.told) × (desk.new.steps ≡ desk.old.steps) }
        ensures answered { desk.new.answered ≡ desk.old.answered }
        ensures issued { desk.new.issued ≡ desk.old.issued }
        ensures room_here { OnOk result (vec_len self.new.all < vec_capacity self.new.all) }
        ensures room_there { OnOk result (vec_len desk.new.own < vec_capacity desk.new.own) }
    {
        self.all.reserve(1)?;
        desk.own.reserve(1)?;
        Ok(())
    }

    /// Adds a mark here and at the desk, where there is room. It takes no memory.
    pub(crate) fn add(&mut self, desk: &mut Desk<L, T>, mark: Mark)
        requires room_here { vec_len self.old.all < vec_capacity self.old.all }
        requires room_there { vec_len desk.old.own < vec_capacity desk.old.own }
        ensures all { map T.mark self.new.all.items ≡ map T.mark self.old.all.items ++ mark ∷ [] }
        ensures own { map T.mark desk.new.own.items ≡ map T.mark desk.old.own.items ++ mark ∷ [] }
        ensures desk { (desk.new.number ≡ desk.old.number) × (desk.new.told ≡ desk.old.told) × (desk.new.steps ≡ desk.old.steps) }
    {
        let Marks {
            all,
            book,
            counters,
        } = self;
        let Desk { own, share, .. } = desk;
        own.push_reserved(T::of(&mark));
        all.push_reserved(T::of(&mark));
        counters.count(mark.kind);
        book.add(share, 1);
    }
}

impl<L: Ledger> Marks<L, Mark> {
    /// All marks. The desks, of which there are as many as the ledger has parts, have just so many together.
    pub(crate) fn into_list(self, desks: Vec<Desk<L>>) -> Vec<Mark>
        requires some { 0 < L.parts }
        requires desks { length desks.items ≡ L.parts }
        ensures all { result.items ≡ self.all.items }
        ensures sum { sum_of_lists (λ d. d.own.items) desks.items ≡ length self.all.items }
    {
        let Marks { all, book, .. } = self;
        let mut book = book;
        let mut desks = desks;
        if let Some(desk) = desks.pop() {
            let Desk { share, .. } = desk;
            let mut whole = gather(share, desks);
            book.audit(&mut whole);
        }
        all
    }
}
