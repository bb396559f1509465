// An office over a hall, for what happens in it.
ghost use Rattle.std.specs.Prelude.{◌≡◌, []};
ghost use Rattle.broker_core.specs.Broker.{pending_of, settings_of};
ghost use Rattle.hall_core.specs.Fresh.{IsFresh};
ghost use Rattle.receipts.specs.Desks.{desk_count};

use crate::tests::disks::{DiskWatch, TestDisk, hall};
use crate::tests::polls::{Poll, poll_in};
use crate::tests::threads::{Plan, ask_in_threads};
use api_core::Call;
use broker_core::{Broker, DiskHalf, Durable};
use hall_core::Hall;
use invoke_records::Bytes;
use receipts::{Desk, Mark, Office, desks};
use sector_disk::Disk;
use std::alloc::{AllocError, AllocGlobal, Global};
use std::marker::Brand;
use std::process::Abort;
use std::random::RandomSource;
use std::sync::ledger::{Blank, Ledger};
use std::sync::{Arc, Wait};
use std::test::Fail;
use std::thread::Threads;

/// When all is asked, in milliseconds since 1970.
pub const NOW: u64 = 1573755365568;

/// An invoke of `{}`.
pub fn invoke(alloc: Global) -> Result<Call, AllocError> {
    let payload = Bytes::from_slice(alloc, b"{}")?;
    Ok(Call::Invoke { payload })
}

/// Ends the test where this does not hold. A call of it costs a proof less than an assertion in its place.
pub fn expect<R: Abort>(rt: &R, holds: bool, what: &str) {
    assert!(rt; holds, "it does not hold that {what}");
}

/// The desks of an office, three of them by name.
#[derive(Drop)]
pub struct Desks<L: Ledger> {
    pub one: Desk<L>,
    pub two: Desk<L>,
    pub three: Desk<L>,
    pub others: Vec<Desk<L>>,
}

/// An office with its desks, the half of its broker over the disk, and what is durable.
#[derive(Drop)]
pub struct House<L: Ledger, D: Disk> {
    pub office: Office<L>,
    pub desks: Desks<L>,
    pub half: DiskHalf<D>,
    pub durable: Durable,
}

/// What happens in a house.
#[derive(Clone, Copy)]
pub enum Story {
    /// Threads ask.
    Threads(Plan),
    /// Replies are polled.
    Polls(Poll),
}

// The last three of some desks. None where there are fewer.
fn pop_three<L: Ledger>(desks: &mut Vec<Desk<L>>) -> Option<(Desk<L>, Desk<L>, Desk<L>)> {
    let one = desks.pop()?;
    let two = desks.pop()?;
    let three = desks.pop()?;
    Some((one, two, three))
}

// Names three of an office's desks. None where there are fewer.
fn named<L: Ledger>(desks: Vec<Desk<L>>) -> Option<Desks<L>> {
    let mut others = desks;
    match pop_three(&mut others) {
        Some((one, two, three)) => Some(Desks {
            one,
            two,
            three,
            others,
        }),
        None => None,
    }
}

// A house of an office. None where it has too few desks.
fn house_of<L: Ledger, D: Disk + Drop>(
    office: Office<L>,
    desks: Vec<Desk<L>>,
    half: DiskHalf<D>,
    durable: Durable,
) -> Option<House<L, D>> {
    match named(desks) {
        Some(desks) => Some(House {
            office,
            desks,
            half,
            durable,
        }),
        None => None,
    }
}

// A house over a hall. None where there is no memory for it.
fn house_over<L: Ledger, D: Disk + Drop>(
    alloc: Global,
    hall: Hall<Broker<D>>,
    blank: Blank,
) -> Option<House<L, D>>
    requires nothing { pending_of hall.issuer ≡ [] }
    requires fresh { IsFresh (settings_of hall.issuer) hall }
    requires name { blank.name ≡ L.name }
    requires parts { blank.parts ≡ L.parts }
    requires count { L.parts ≡ desk_count (settings_of hall.issuer) }
{
    let durable = hall.durable();
    match Office::<L, Mark>::new(alloc, hall, blank) {
        Ok((office, desks, half)) => house_of(office, desks, half, durable),
        Err(_) => None,
    }
}

// Opens a house over a hall, for a story to happen in it: whether it did.
fn tell_in<L, R, D>(
    rt: R,
    hall: Hall<Broker<D>>,
    blank: Blank,
    watch: &DiskWatch,
    story: Story,
) -> bool
where
    L: Ledger + Send + Sync,
    R: Abort + Threads + Wait + RandomSource + AllocGlobal + Copy + Drop + Send + Sync,
    D: Disk + Drop + Send,
    requires nothing { pending_of hall.issuer ≡ [] }
    requires fresh { IsFresh (settings_of hall.issuer) hall }
    requires name { blank.name ≡ L.name }
    requires parts { blank.parts ≡ L.parts }
    requires count { L.parts ≡ desk_count (settings_of hall.issuer) }
{
    match house_over::<L, D>(rt.alloc(), hall, blank) {
        Some(house) => match story {
            Story::Threads(plan) => ask_in_threads(rt, house, watch, plan),
            Story::Polls(which) => poll_in(rt, house, which),
        },
        None => false,
    }
}

/// Lets a story happen over a new disk that is watched.
pub fn tell<R>(rt: R, watch: &Arc<DiskWatch>, story: Story) -> Result<(), Fail>
where
    R: Abort + Threads + Wait + RandomSource + AllocGlobal + Copy + Drop + Send + Sync,
{
    let hall: Hall<Broker<TestDisk>> = hall(rt.alloc(), watch)?;
    let blank = Blank::new(desks(hall.table().settings()));
    if tell_in::<Brand, R, TestDisk>(rt, hall, blank, watch, story) {
        Ok(())
    } else {
        Err(Fail::new("the house was not opened, or its story not ended"))
    }
}
