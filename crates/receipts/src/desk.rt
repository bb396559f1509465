// The desks of an office, one for each thread that asks it.
ghost use Rattle.std.specs.Prelude.{◌≡◌, ◌<◌, ◌≤◌, [], map, All, vec_len, vec_capacity};
ghost use Rattle.std.specs.List.{range_with_len};
ghost use Rattle.receipts.specs.Desks.{desk_count};

use crate::mark::{Mark, Trace};
use hall_core::Issued;
use retry_rules::Settings;
use std::alloc::Global;
use std::mem;
use std::snapshot::Snapshot as Seen;
use std::sync::ledger::{Ledger, Share};

/// How many desks an office has: for each environment's port one, and three for the callers' port, the committer and the
/// ticker; at least eight.
pub fn desks(settings: &Settings) -> u64
    ensures { result ≡ desk_count settings.now }
{
    let wanted = u64::from(settings.environments) + 3;
    if wanted < 8 { 8 } else { wanted }
}

/// How many steps a desk made under the lock of its office, and how many of those were to make a move, modulo 2^64. A step counts
/// itself. Only a new desk has a value of this type, so that nothing takes a step back.
#[derive(Drop)]
pub(crate) struct Steps {
    count: u64,
    moves: u64,
}

impl Steps {
    ghost use Rattle.receipts.specs.Steps.{after_step, after_move, no_steps};

    // None.
    fn none() -> Steps
        ensures { result ≡ no_steps }
    {
        Steps { count: 0, moves: 0 }
    }

    /// What a look shows, which is no step.
    pub(crate) fn of_look() -> Seen<Steps>
        ensures { result.value ≡ no_steps }
    {
        Seen::of(&Steps::none())
    }

    /// One more.
    #[tactic(auto, unfolding(crate::specs::Steps::after_step))]
    pub(crate) fn count(&mut self)
        ensures { self.new ≡ after_step self.old }
    {
        self.count = self.count.wrapping_add(1);
    }

    /// One more, which is to make a move.
    #[tactic(auto, unfolding(crate::specs::Steps::after_move))]
    pub(crate) fn count_move(&mut self)
        ensures { self.new ≡ after_move self.old }
    {
        self.count();
        self.moves = self.moves.wrapping_add(1);
    }
}

/// A place from which one thread asks the office at a time. It keeps the marks of the commands that its calls issued, the
/// greatest number that it was told, and what its last request or move issued and which polls that answered.
#[derive(Drop)]
pub struct Desk<L: Ledger, T: Trace = Mark> {
    /// From 0 on.
    pub(crate) number: u64,
    /// The greatest number that it was told.
    pub(crate) told: u64,
    /// What is kept of its marks, in order.
    pub(crate) own: Vec<T>,
    /// How many they are counts in the ledger.
    pub(crate) share: Share<L>,
    /// The slots of the polls that its last request or move answered, until they are handed out.
    pub(crate) answered: Vec<u64>,
    /// What its last request or move issued.
    pub(crate) issued: Option<Issued>,
    /// How many steps it made under the lock.
    pub(crate) steps: Steps,
    ghost one: { share.parts ≡ 1 },
    ghost counted: { vec_len own ≡ share.amount },
    ghost few: { number < 32 },
}

impl<L: Ledger, T: Trace> Desk<L, T> {
    // A desk of this number, with this part of the share, that made no step.
    fn new(alloc: Global, number: u64, share: Share<L>) -> Desk<L, T>
        requires few { number < 32 }
        requires one { share.parts ≡ 1 }
        requires none { share.amount ≡ 0 }
        ensures number { result.number ≡ number }
        ensures none { result.own.items ≡ [] }
        ensures untold { result.told ≡ 0 }
    {
        Desk {
            number,
            told: 0,
            own: Vec::new(alloc),
            share,
            answered: Vec::new(alloc),
            issued: None,
            steps: Steps::none(),
        }
    }

    /// Its number among the desks of its office, from 0 on.
    pub fn number(&self) -> u64
        ensures { result ≡ self.now.number }
    {
        self.number
    }

    /// The greatest number that it was told.
    pub fn told(&self) -> u64
        ensures { result ≡ self.now.told }
    {
        self.told
    }

    /// What is kept of the marks of the commands that its calls issued, in order.
    pub fn marks(&self) -> &[T]
        ensures { result.now ≡ self.now.own.items }
    {
        &self.own
    }

    /// What its last request or move that was not refused issued, if it did.
    pub fn issued(&self) -> Option<Issued>
        ensures { result ≡ self.now.issued }
    {
        self.issued
    }

    /// Hands out the slots of the polls that the desk's last request or move answered, in the order of their replies: none
    /// are left, and nothing else changes. It takes no memory.
    pub fn take_answered(&mut self) -> Vec<u64>
        ensures slots { result.items ≡ self.old.answered.items }
        ensures none_left { self.new.answered.items ≡ [] }
        ensures number { self.new.number ≡ self.old.number }
        ensures told { self.new.told ≡ self.old.told }
        ensures marks { self.new.own ≡ self.old.own }
        ensures issued { self.new.issued ≡ self.old.issued }
        ensures steps { self.new.steps ≡ self.old.steps }
    {
        let none = Vec::new(*self.answered.allocator());
        mem::replace(&mut self.answered, none)
    }
}

/// So many desks, each with one part of the whole share and no mark. There is room for them.
pub(crate) fn make_desks<L: Ledger, T: Trace>(
    alloc: Global,
    room: Vec<Desk<L, T>>,
    share: Share<L>,
    count: u64,
) -> Vec<Desk<L, T>>
    requires none { room.items ≡ [] }
    requires room { vec_capacity room ≡ count }
    requires few { count ≤ 32 }
    requires parts { share.parts ≡ count }
    requires whole { share.parts ≡ L.parts }
    requires amount { share.amount ≡ 0 }
    ensures numbers { map (λ d. d.number) result.items ≡ range_with_len 0 count }
    ensures none { All (λ d. d.own.items ≡ []) result.items }
    ensures untold { All (λ d. d.told ≡ 0) result.items }
{
    let mut desks = room;
    let mut rest = share;
    for number in 0..count {
        let share = rest.split_off(1, 0);
        desks.push_reserved(Desk::new(alloc, number, share));
    }
    desks
}
