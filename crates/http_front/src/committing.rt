// The committer: what its loop works on.
ghost use Rattle.std.specs.Prelude.{◌≡◌, [], ◌∷◌, ◌++◌};
ghost use Rattle.commit_loop.specs.Committer.{Step, IsRun};
ghost use Rattle.commit_loop.specs.declared.gate.Turn.TheVariants.{End};
ghost use Rattle.front_board.specs.Seated.{seen_by};
ghost use Rattle.broker_core.specs.Splitting.{broker_of};
ghost use Rattle.hall_core.specs.Hall.{pending_in};
ghost use Rattle.receipts.specs.Locked.{issuer_in};
ghost use Rattle.receipts.specs.Broken.{is_last};
ghost use Rattle.receipts.specs.Serving.{HasServed};
ghost use Rattle.receipts.specs.laws.Serving.{served_at_first, served_both};
ghost use Rattle.http_front.specs.Learning.{known, HasLearned};
ghost use Rattle.http_front.specs.Ending.{IsSaidAt};
ghost use Rattle.http_front.specs.Resting.{IsSleep, pause_for, RestsAt};
ghost use Rattle.http_front.specs.laws.Learned.{learned_nothing, learned_more};

use crate::asking::{NotCommitted, commit_some};
use crate::front_state::FrontState;
use crate::gathering::Gathering;
use crate::resting::CommitterSlept;
use crate::wake::{Slept, Wake};
use broker_core::{DiskHalf, Durable};
use commit_loop::{CommitterRan, Committing, Gate, commit_all};
use front_board::Seated;
use long_poll::{Rung, RungForAll, SaidBroken};
use port_meters::DiskState;
use receipts::{Desk, Trace, Witnessed};
use sector_disk::Disk;
use std::sync::Wait;
use std::sync::ledger::Ledger;
use std::time::{Clock, Instant};

/// How long the committer sleeps at most where something is left to do that nobody calls for, in milliseconds.
const PAUSE: u64 = 100;

/// What the committer works with: a desk, the half of the broker over the disk, and a seat of the board.
#[derive(Drop)]
pub struct Committer<L: Ledger, T: Trace, D: Disk> {
    desk: Desk<L, T>,
    half: DiskHalf<D>,
    seated: Seated,
}

/// How the disk of this half stands.
pub(crate) fn state_of<D: Disk>(half: &DiskHalf<D>) -> DiskState {
    DiskState {
        generation: half.generation(),
        sectors: half.sectors(),
        free_sectors: half.free_sectors(),
    }
}

// Sleeps until the committer is called. Where something is left to do that nobody calls for, not for long.
fn sleep_for<R: Wait + Clock>(rt: &R, wake: &Wake, is_unfinished: bool) -> Slept
    ensures { IsSleep wake.now.source (pause_for is_unfinished) result }
{
    if is_unfinished {
        wake.wait_at_most(rt, PAUSE)
    } else {
        wake.wait(rt)
    }
}

// The same, by a look at what is left.
fn sleep_by_look<R: Wait + Clock, L: Ledger, T: Trace>(
    rt: &R,
    front: &FrontState<L, T>,
) -> CommitterSlept<L, T>
    ensures { RestsAt front.now.wake.source front.now.bell.value.source result }
{
    let look = front.look_at_rest(rt);
    let slept = sleep_for(rt, &front.wake, look.is_unfinished());
    CommitterSlept { look, slept }
}

// A committer at a front.
#[derive(Drop)]
struct CommitterAtFront<'a, R, L: Ledger, T: Trace, D: Disk> {
    rt: &'a R,
    front: &'a FrontState<L, T>,
    committer: Committer<L, T, D>,
    gathering: Gathering,
}

impl<R: Wait + Clock, L: Ledger, T: Trace, D: Disk> Committing
    for CommitterAtFront<'_, R, L, T, D> {
    type Durable = Durable;

    type Failure = NotCommitted;

    type Counted = Witnessed<(), L, T>;

    type Rung = Rung;

    type RungForAll = RungForAll;

    type SaidBroken = SaidBroken;

    type Slept = CommitterSlept<L, T>;

    type Shown = DiskHalf<D>;

    ghost number = { λ durable. durable };

    ghost count = { λ seen. pending_in (issuer_in seen.before.value.hall) };

    ghost rings = { λ at number rung. (rung.up_to ≡ number) × (rung.at.value ≡ at.front.now.bell.value.source) };

    ghost rings_all = { λ at all. all.rung.at.value ≡ at.front.now.bell.value.source };

    ghost tells = { λ at said. IsSaidAt at.front.now.bell.value.source said };

    ghost view = { λ at. at.committer.half };

    ghost rests = { λ at slept. RestsAt at.front.now.wake.source at.front.now.bell.value.source slept };

    ghost breaks = { λ refused. is_last refused.why };

    ghost leads = { λ old steps new. HasLearned
        (known old.committer.desk.told (seen_by old.committer.seated))
        steps
        (known new.committer.desk.told (seen_by new.committer.seated))
        × HasServed D.view D.fault_count (broker_of old.committer.half) (broker_of new.committer.half) };

    fn pending(&mut self) -> (usize, Witnessed<(), L, T>) {
        let durable = self.committer.half.durable().number();
        self.gathering.wait(self.rt, &self.front.office, durable);
        self.front.office.pending(self.rt).split()
    }

    fn commit(&mut self) -> Result<Durable, NotCommitted> {
        let begun = Instant::now(self.rt);
        let committed = commit_some(
            self.rt,
            &self.front.office,
            &mut self.committer.desk,
            &mut self.committer.half,
        );
        let disk = state_of(&self.committer.half);
        self.front
            .meters
            .note_commit(self.rt, begun, committed.is_ok(), disk);
        committed
    }

    fn is_broken_by(&self, why: &NotCommitted) -> bool {
        why.is_last()
    }

    fn raise(&mut self, durable: &Durable) {
        self.committer.seated.raise(*durable);
    }

    fn say_broken(&mut self, why: NotCommitted) -> SaidBroken {
        self.front.bell.say_broken(why.into_broken())
    }

    fn ring(&mut self, durable: &Durable) -> Rung {
        self.front.discarding.call(self.rt);
        self.front.bell.ring(self.rt, *durable)
    }

    fn ring_all(&mut self) -> RungForAll {
        self.front.bell.ring_all(self.rt)
    }

    fn sleep(&mut self) -> CommitterSlept<L, T> {
        sleep_by_look(self.rt, self.front)
    }

    fn shown(&self) -> &DiskHalf<D> {
        &self.committer.half
    }

    ghost stays = { λ value. (
      learned_nothing (known value.committer.desk.told (seen_by value.committer.seated)),
      served_at_first D.view D.laws D.fault_count (broker_of value.committer.half),
    ) };

    ghost goes_on = { λ first second third before after one two. (
      learned_more
          (known first.committer.desk.told (seen_by first.committer.seated))
          (known second.committer.desk.told (seen_by second.committer.seated))
          (known third.committer.desk.told (seen_by third.committer.seated))
          before after one.0 two.0,
      served_both D.view D.fault_count
          (broker_of first.committer.half) (broker_of second.committer.half) (broker_of third.committer.half) one.1 two.1,
    ) };
}

impl<L: Ledger, T: Trace, D: Disk + Drop> Committer<L, T, D> {
    /// A committer that raises the board from this seat.
    pub fn new(desk: Desk<L, T>, half: DiskHalf<D>, seated: Seated) -> Committer<L, T, D>
        ensures desk { result.desk ≡ desk }
        ensures half { result.half ≡ half }
        ensures seat { result.seated ≡ seated }
    {
        Committer { desk, half, seated }
    }

    /// Commits as the gate says, until it ends the loop, and gives the committer back: what is pending at a turn becomes durable
    /// by that commit or by the next one that succeeds. Where nothing is pending, or a commit was refused, it
    /// sleeps until the next command, or for a while, where something is left to do; where the gate skips what is pending, it
    /// is asked again. Beside it is what shows that its loop ran.
    ///
    /// On an honest disk a stop at any moment leaves a legal stop of the half's list with what it took: a beginning of that with
    /// all that was durable at the call.
    pub fn run<R: Wait + Clock, G: Gate>(
        self,
        rt: &R,
        front: &FrontState<L, T>,
        gate: &G,
    ) -> (Committer<L, T, D>, CommitterRan<DiskHalf<D>, G::Seen>)
        // claim: As far as its desk and its seat show, a committer did at each turn what its gate said: its desk was told
        // no less than was committed, and its seat saw no less than was raised.
        ensures learned { IsRun HasLearned (G.says gate.now)
            (known self.desk.told (seen_by self.seated))
            (known result.0.desk.told (seen_by result.0.seated)) }
        // claim: It hands its disk half back, which goes on from each history that it stood for. At each moment a crash
        // leaves a prefix of that and what it took, with all that was durable before. [: served; ask]
        ensures served { HasServed D.view D.fault_count (broker_of self.half) (broker_of result.0.half) }
        // claim: It hands out what shows that its loop ran, over which halves, and what the gate saw that led to its end. [:
        // before, after, seen; tick_all: before, after, seen]
        ensures before { result.1.before.value ≡ self.half }
        ensures after { result.1.after.value ≡ result.0.half }
        ensures seen { G.leads_to result.1.seen End }
    {
        let mut at = CommitterAtFront {
            rt,
            front,
            committer: self,
            gathering: Gathering::NONE,
        };
        let ran = commit_all(rt, gate, &mut at);
        let CommitterAtFront { committer, .. } = at;
        (committer, ran)
    }

    /// The half of the broker over the disk.
    pub(crate) fn half(&self) -> &DiskHalf<D>
        ensures { result.now ≡ self.now.half }
    {
        &self.half
    }

    /// Its desk, and the half of the broker over the disk.
    pub fn into_parts(self) -> (Desk<L, T>, DiskHalf<D>)
        ensures { (result.0 ≡ self.desk) × (result.1 ≡ self.half) }
    {
        let Committer { desk, half, .. } = self;
        (desk, half)
    }
}
