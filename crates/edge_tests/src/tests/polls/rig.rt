// A port of an office, a committer and a board, and the futures of replies, on one thread.
use crate::tests::house::{Desks, House, NOW, invoke};
use api_core::Call;
use async_core::Side;
use broker_core::{DiskHalf, Durable, Receipt, Ticket};
use front_board::Seated;
use futures::Future;
use futures::executor::LocalPool;
use futures::task::{Context, Poll};
use hall_core::HallError;
use long_poll::{Arrived, Bell, Port, Waiting};
use receipts::{BrokenHall, Desk, Office};
use sector_disk::Disk;
use std::alloc::{AllocGlobal, Global};
use std::random::RandomSource;
use std::sync::ledger::Ledger;
use std::sync::{Arc, Mutex, Wait};

// How many polls a run makes at most.
const POLLS: usize = 1000;

// The slot of what was refused.
const NO_SLOT: u64 = u64::MAX;

/// The slot of what has arrived.
pub fn slot_of<L: Ledger>(arrived: &Option<Arrived<L>>) -> u64 {
    match arrived {
        Some(arrived) => arrived.slot(),
        None => NO_SLOT,
    }
}

/// A reply that was told: its slot and its status.
pub type SlotStatus = (u64, u16);

/// What was told since the last time.
#[derive(Clone, Copy)]
pub struct Heard {
    count: usize,
    first: SlotStatus,
    second: SlotStatus,
    /// How many polls were pending.
    pending: usize,
}

impl Heard {
    /// Whether nothing was told.
    pub fn is_nothing(self) -> bool {
        self.count == 0
    }

    /// Whether this reply was told, and no other.
    pub fn is_one(self, slot: u64, status: u16) -> bool {
        self.count == 1 && self.first == (slot, status)
    }

    /// Whether just so many polls were made in vain.
    pub fn has_waited(self, pending: usize) -> bool {
        self.pending == pending
    }

    /// Whether these two replies were told, in whatever order, and no other.
    pub fn are_two(self, one: SlotStatus, two: SlotStatus) -> bool {
        let is_so = self.first == one && self.second == two;
        self.count == 2 && (is_so || self.first == two && self.second == one)
    }
}

// Notes what a future is told.
#[derive(Drop)]
pub struct Noted<R: Wait + Drop, L: Ledger> {
    rt: R,
    waiting: Waiting<R, L>,
    told: Arc<Mutex<Heard>>,
}

impl<R: Wait + Drop, L: Ledger> Future for Noted<R, L> {
    type Output = ();

    fn poll(&mut self, cx: &mut Context<'_>) -> Poll<()> {
        let released = match self.waiting.poll(cx) {
            Poll::Pending => {
                let mut heard = self.told.lock(&self.rt);
                heard.pending = heard.pending.saturating_add(1);
                return Poll::Pending;
            }
            Poll::Ready(told) => told.answer,
        };
        let reply = (released.slot(), released.into_reply().status);
        let mut heard = self.told.lock(&self.rt);
        if heard.count == 0 {
            heard.first = reply;
        } else {
            heard.second = reply;
        }
        heard.count = heard.count.saturating_add(1);
        Poll::Ready(())
    }
}

/// What polls the futures.
pub type Pool<R, L> = LocalPool<Noted<R, L>>;

const NOTHING: Heard = Heard {
    count: 0,
    first: (0, 0),
    second: (0, 0),
    pending: 0,
};

#[derive(Drop)]
pub struct PollRig<R: Wait + Drop, L: Ledger, D: Disk + Drop> {
    rt: R,
    port: Arc<Port<L>>,
    desk: Desk<L>,
    half: DiskHalf<D>,
    durable: Durable,
    props: Props,
}

// What a rig needs beside its port: the seats of the committer and of one who looks, and where replies are noted.
#[derive(Drop)]
struct Props {
    committer: Seated,
    looker: Seated,
    told: Arc<Mutex<Heard>>,
}

// Three seats of a board at this number: the committer's, that of one who looks, and a port's.
fn seats(alloc: Global, durable: Durable) -> Option<(Seated, Seated, Seated)> {
    let mut seats = Seated::open(alloc, durable, 3).ok()?;
    match (seats.pop(), seats.pop(), seats.pop()) {
        (Some(committer), Some(looker), Some(port)) => Some((committer, looker, port)),
        _ => None,
    }
}

// A port of an office, with a desk and a seat.
fn port<L: Ledger>(
    alloc: Global,
    office: Office<L>,
    desk: Desk<L>,
    seated: Seated,
    durable: Durable,
) -> Option<Arc<Port<L>>> {
    let office = Arc::new(alloc, office).ok()?;
    let bell = Arc::new(alloc, Bell::new(alloc, durable)).ok()?;
    Arc::new(alloc, Port::new(office, bell, desk, seated)).ok()
}

// A port of an office, and what its rig needs beside it.
fn placed<L: Ledger>(
    alloc: Global,
    office: Office<L>,
    desk: Desk<L>,
    durable: Durable,
) -> Option<(Arc<Port<L>>, Props)> {
    let told = Arc::new(alloc, Mutex::new(NOTHING)).ok()?;
    let (committer, looker, seated) = seats(alloc, durable)?;
    let port = port(alloc, office, desk, seated, durable)?;
    let props = Props {
        committer,
        looker,
        told,
    };
    Some((port, props))
}

/// A rig in a house. None where there is no memory for it.
pub fn rig_in<R, L, D>(rt: R, house: House<L, D>) -> Option<PollRig<R, L, D>>
where
    R: Wait + AllocGlobal + Copy + Drop,
    L: Ledger,
    D: Disk + Drop,
{
    let House {
        office,
        desks,
        half,
        durable,
    } = house;
    let Desks { one, two, .. } = desks;
    match placed(rt.alloc(), office, one, durable) {
        Some((port, props)) => Some(PollRig {
            rt,
            port,
            desk: two,
            half,
            durable,
            props,
        }),
        None => None,
    }
}

impl<R, L, D> PollRig<R, L, D>
where
    R: Wait + RandomSource + AllocGlobal + Copy + Drop,
    L: Ledger,
    D: Disk + Drop,
{
    // A request comes, with this number for a new id.
    fn arrive(&self, call: Call, number: u64) -> Option<Arrived<L>> {
        self.port.arrive(&self.rt, call, NOW, [0, number]).ok()
    }

    /// An invoke comes, whose event gets the n-th id.
    pub fn arrive_invoke(&self, n: u64) -> Option<Arrived<L>> {
        match invoke(self.rt.alloc()) {
            Ok(call) => self.arrive(call, n),
            Err(_) => None,
        }
    }

    // The future of the reply of a request.
    fn wait_for(&self, arrived: Arrived<L>) -> Option<Waiting<R, L>> {
        match Arc::try_clone(&self.port) {
            Ok(port) => Some(Waiting::new(self.rt, port, arrived)),
            Err(_) => None,
        }
    }

    /// The future of the reply of what has arrived.
    pub fn waiting(&self, arrived: Option<Arrived<L>>) -> Option<Waiting<R, L>> {
        match arrived {
            Some(arrived) => self.wait_for(arrived),
            None => None,
        }
    }

    // Lets the pool poll a future: whether it does.
    fn spawn(&self, pool: &Pool<R, L>, waiting: Waiting<R, L>) -> bool {
        let (Ok(told), Ok(spawner)) = (Arc::try_clone(&self.props.told), pool.spawner()) else {
            return false;
        };
        let rt = self.rt;
        spawner.spawn(Noted { rt, waiting, told }).is_ok()
    }

    // Lets the pool poll for the reply of what has arrived: its slot, or none that there is.
    fn follow(&self, pool: &Pool<R, L>, arrived: Option<Arrived<L>>) -> u64 {
        let slot = slot_of(&arrived);
        match self.waiting(arrived) {
            Some(waiting) => {
                if self.spawn(pool, waiting) {
                    slot
                } else {
                    NO_SLOT
                }
            }
            None => NO_SLOT,
        }
    }

    /// A request comes, and its reply is waited for: its slot.
    pub fn ask(&self, pool: &Pool<R, L>, call: Call, number: u64) -> u64 {
        self.follow(pool, self.arrive(call, number))
    }

    /// An invoke comes, and its reply is waited for: its slot.
    pub fn invoke(&self, pool: &Pool<R, L>, n: u64) -> u64 {
        self.follow(pool, self.arrive_invoke(n))
    }

    // A request comes at the rig's own desk: its ticket and its slot.
    fn arrive_here(&mut self) -> Option<(Ticket, u64)> {
        let call = Call::Oldest(Side::Success);
        let office = self.port.office();
        let seen = office.arrive(&self.rt, &mut self.desk, call, NOW, [0, 0]);
        seen.answer.ok()
    }

    /// A ticket of all that was issued so far: that of a request whose reply is not wanted.
    pub fn ticket(&mut self) -> Option<Ticket> {
        let (ticket, slot) = self.arrive_here()?;
        self.port.office().forget(&self.rt, &mut self.desk, slot);
        Some(ticket)
    }

    /// What was told since the last time, once all that were woken have been polled.
    pub fn heard(&self, pool: &mut Pool<R, L>) -> Heard {
        pool.run_until_stalled(POLLS);
        let mut told = self.props.told.lock(&self.rt);
        let heard = *told;
        *told = NOTHING;
        heard
    }

    /// The command of the move that is made, 0 where there is none.
    pub fn tick(&self) -> u64 {
        match self.port.tick(&self.rt, NOW).answer {
            Ok(Some(issued)) => issued.number,
            _ => 0,
        }
    }

    // Commits: the number that is durable, and the hall where it is broken.
    fn try_commit(&mut self) -> (Result<u64, HallError>, Option<BrokenHall>) {
        let office = self.port.office();
        let mut committed = office.commit(&self.rt, &mut self.desk, &mut self.half);
        let broken = committed.broken.take();
        match committed.answer {
            Ok(durable) => {
                self.durable = durable;
                (Ok(durable.number()), broken)
            }
            Err(why) => (Err(why), broken),
        }
    }

    /// Commits: the number that is durable.
    pub fn commit(&mut self) -> Result<u64, HallError> {
        let (told, _broken) = self.try_commit();
        told
    }

    /// Shows on the board what is durable.
    pub fn raise(&mut self) {
        self.props.committer.raise(self.durable);
    }

    /// Wakes those that wait for what is durable.
    pub fn ring(&self) {
        self.port.bell().ring(&self.rt, self.durable);
    }

    /// Commits, raises the board and rings; after a fault it is said that the hall broke.
    pub fn commit_and_tell(&mut self) -> Result<u64, HallError> {
        let (told, broken) = self.try_commit();
        if told.is_ok() {
            self.raise();
            self.ring();
        } else if let Some(broken) = broken {
            self.port.bell().say_broken(broken);
            self.port.bell().ring_all(&self.rt);
        }
        told
    }

    /// A receipt where the board shows the number of this ticket.
    pub fn check(&mut self, ticket: Ticket) -> Result<Receipt, Ticket> {
        match self.props.looker.look(ticket) {
            Ok(shown) => Ok(shown.receipt()),
            Err(ticket) => Err(ticket),
        }
    }

    /// Whether the board shows the number of this ticket.
    pub fn shows(&mut self, ticket: Option<Ticket>) -> bool {
        match ticket {
            Some(ticket) => self.check(ticket).is_ok(),
            None => false,
        }
    }

    /// How many slots are open.
    pub fn open_slots(&self) -> usize {
        self.port.office().open_slots(&self.rt).answer
    }
}
