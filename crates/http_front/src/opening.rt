// Opening a front over a hall.
ghost use Rattle.std.specs.Prelude.{◌≡◌, ◌≤◌, [], vec_len, IsErrOf, IfOk, IsSome};
ghost use Rattle.broker_core.specs.Broker.{pending_of, settings_of};
ghost use Rattle.broker_core.specs.Splitting.{broker_of};
ghost use Rattle.hall_core.specs.Fresh.{IsFresh};
ghost use Rattle.front_board.specs.Seated.{AreAtOneBoard};
ghost use Rattle.receipts.specs.Desks.{desk_count};

use crate::committing::Committer;
use crate::discarding::Discard;
use crate::error::ServeError;
use crate::front_state::FrontState;
use api_core::Dialect;
use broker_core::{Broker, DiskHalf, Durable};
use front_board::Seated;
use hall_core::Hall;
use long_poll::{AdminReader, Bell, Port};
use port_meters::Premises;
use receipts::{Desk, Office, Trace};
use retry_rules::Settings;
use sector_disk::Disk;
use std::alloc::{AllocError, Global};
use std::sync::Arc;
use std::sync::ledger::{Blank, Ledger};

/// A front that no thread serves yet: its ports, and what the committer and the ticker work with.
#[derive(Drop)]
pub(crate) struct OpenedFront<L: Ledger, T: Trace, D: Disk> {
    pub(crate) front: Arc<FrontState<L, T>>,
    pub(crate) ports: Vec<Arc<Port<L, T>>>,
    pub(crate) committer: Committer<L, T, D>,
    pub(crate) ticker: Desk<L, T>,
    /// Where what is served beside it looks.
    pub(crate) reader: AdminReader<L, T>,
    /// From which the board is seen by whoever collects the records that are discarded.
    pub(crate) collector_seat: Seated,
}

// One more share of the office, and of the bell.
fn shares<L: Ledger, T: Trace>(
    front: &FrontState<L, T>,
) -> Result<(Arc<Office<L, T>>, Arc<Bell>), AllocError> {
    let bell = Arc::try_clone(&front.bell)?;
    let office = Arc::try_clone(&front.office)?;
    Ok((office, bell))
}

// An operator's reader with this seat.
fn reader<L: Ledger, T: Trace>(
    front: &FrontState<L, T>,
    seated: Seated,
) -> Result<AdminReader<L, T>, AllocError> {
    let (office, bell) = shares(front)?;
    Ok(AdminReader::new(office, bell, seated))
}

// A port with this desk and seat.
fn port<L: Ledger, T: Trace>(
    front: &FrontState<L, T>,
    desk: Desk<L, T>,
    seated: Seated,
) -> Result<Port<L, T>, AllocError> {
    let (office, bell) = shares(front)?;
    Ok(Port::new(office, bell, desk, seated))
}

// A port for each desk, as far as there are seats.
fn ports<L: Ledger, T: Trace>(
    alloc: Global,
    front: &FrontState<L, T>,
    desks: Vec<Desk<L, T>>,
    seats: Vec<Seated>,
) -> Result<Vec<Arc<Port<L, T>>>, AllocError> {
    let mut ports = Vec::with_capacity(alloc, desks.len())?;
    let mut seats = seats.into_iter();
    for desk in desks {
        let Some(seated) = seats.next() else {
            break;
        };
        ports.push(Arc::new(alloc, port(front, desk, seated)?)?)?;
    }
    Ok(ports)
}

// A front over an office, to be shared.
fn shared<L: Ledger, T: Trace>(
    alloc: Global,
    office: Office<L, T>,
    dialect: Dialect,
    durable: Durable,
    settings: Settings,
    discard: Discard,
    premises: Arc<Premises>,
) -> Result<Arc<FrontState<L, T>>, AllocError>
    ensures dialect { IfOk result (λ front. front.value.dialect ≡ dialect) }
    ensures settings { IfOk result (λ front. front.value.settings ≡ settings) }
    ensures discards { IfOk result (λ front. front.value.discarding.discard ≡ discard) }
{
    let office = Arc::new(alloc, office)?;
    let front = FrontState::new(alloc, office, dialect, durable, settings, discard, premises)?;
    Ok(Arc::new(alloc, front)?)
}

// The last two of a list that has two.
fn pop_two<A: Drop>(list: &mut Vec<A>) -> Option<(A, A)>
    ensures { 2 ≤ vec_len list.old → IsSome result }
{
    let last = list.pop()?;
    let before = list.pop()?;
    Some((last, before))
}

// Where requests come to a front, and where it is looked at: a reader with this seat, and a port for each desk, as far as there are seats.
fn places<L: Ledger, T: Trace>(
    alloc: Global,
    front: &FrontState<L, T>,
    seat: Seated,
    desks: Vec<Desk<L, T>>,
    seats: Vec<Seated>,
) -> Result<(AdminReader<L, T>, Vec<Arc<Port<L, T>>>), AllocError> {
    let reader = reader(front, seat)?;
    let ports = ports(alloc, front, desks, seats)?;
    Ok((reader, ports))
}

// A front with these desks and seats.
fn furnish<L: Ledger, T: Trace, D: Disk + Drop>(
    alloc: Global,
    front: Arc<FrontState<L, T>>,
    desks: Vec<Desk<L, T>>,
    seats: Vec<Seated>,
    half: DiskHalf<D>,
) -> Result<OpenedFront<L, T, D>, ServeError>
    requires desks { 2 ≤ vec_len desks }
    requires seats { 3 ≤ vec_len seats }
    requires one_board { AreAtOneBoard seats.items }
    ensures ports { IsErrOf result ServeError.TooManyPorts → ⊥ }
    ensures half { IfOk result (λ opened. opened.committer.half ≡ half) }
    ensures front { IfOk result (λ opened. opened.front ≡ front) }
{
    let mut desks = desks;
    let mut seats = seats;
    let Some((desk, ticker)) = pop_two(&mut desks) else {
        unreachable!();
    };
    let Some(collector_seat) = seats.pop() else {
        unreachable!();
    };
    let Some((seated, seat)) = pop_two(&mut seats) else {
        unreachable!();
    };
    let (reader, ports) = places(alloc, &front, seat, desks, seats)?;
    Ok(OpenedFront {
        front,
        ports,
        committer: Committer::new(desk, half, seated),
        ticker,
        reader,
        collector_seat,
    })
}

// A front over an office, with its desks and as many seats, one more for a reader and one for the collector.
fn seat_all<L: Ledger, T: Trace, D: Disk + Drop>(
    alloc: Global,
    office: Office<L, T>,
    desks: Vec<Desk<L, T>>,
    half: DiskHalf<D>,
    dialect: Dialect,
    settings: Settings,
    discard: Discard,
    premises: Arc<Premises>,
) -> Result<OpenedFront<L, T, D>, ServeError>
    requires desks { 2 ≤ vec_len desks }
    ensures ports { IsErrOf result ServeError.TooManyPorts → ⊥ }
    ensures half { IfOk result (λ opened. opened.committer.half ≡ half) }
    ensures dialect { IfOk result (λ opened. opened.front.value.dialect ≡ dialect) }
    ensures settings { IfOk result (λ opened. opened.front.value.settings ≡ settings) }
    ensures discards { IfOk result (λ opened. opened.front.value.discarding.discard ≡ discard) }
{
    let durable = half.durable();
    let seats = Seated::open(alloc, durable, desks.len() + 2)?;
    let front = shared(alloc, office, dialect, durable, settings, discard, premises)?;
    furnish(alloc, front, desks, seats, half)
}

/// Opens a front over a hall: its office, its board, and the ports. The committer has the half of the hall's broker. Requests
/// are read in the dialect in which the hall tells its replies, and by its settings.
pub(crate) fn open<L: Ledger, T: Trace, D: Disk + Drop>(
    alloc: Global,
    hall: Hall<Broker<D>>,
    blank: Blank,
    discard: Discard,
    premises: Arc<Premises>,
) -> Result<OpenedFront<L, T, D>, ServeError>
    requires nothing { pending_of hall.issuer ≡ [] }
    requires fresh { IsFresh (settings_of hall.issuer) hall }
    requires name { blank.name ≡ L.name }
    requires parts { blank.parts ≡ L.parts }
    requires count { L.parts ≡ desk_count (settings_of hall.issuer) }
    ensures ports { IsErrOf result ServeError.TooManyPorts → ⊥ }
    ensures half { IfOk result (λ opened. broker_of opened.committer.half ≡ hall.issuer) }
    ensures dialect { IfOk result (λ opened. opened.front.value.dialect ≡ hall.dialect) }
    ensures settings { IfOk result (λ opened. opened.front.value.settings ≡ settings_of hall.issuer) }
    // claim: An opened front discards the records of just the sides that it is asked to. [: discards; FrontState::new: discards]
    ensures discards { IfOk result (λ opened. opened.front.value.discarding.discard ≡ discard) }
{
    let dialect = hall.dialect();
    let settings = hall.table().settings().copy()?;
    match Office::<L, T>::new(alloc, hall, blank) {
        Ok((office, desks, half)) => seat_all(
            alloc, office, desks, half, dialect, settings, discard, premises,
        ),
        Err(failure) => Err(ServeError::Office(failure.cause)),
    }
}
