// Listening on the ports of a broker.
use crate::error::OpeningError;
use crate::notes::note_port;
use crate::own_stamp::own_version;
use admin_port::Admin;
use broker_commands::Address;
use http_port::{BodyRoom, Listening};
use port_meters::{Lines, Opening, PortMeter, PortMeters, Premises};
use retry_rules::Settings;
use sector_disk::Written;
use std::alloc::{AllocError, AllocGlobal, Global};
use std::fs::File;
use std::io;
use std::io::Eprint;
use std::net::{IpAddr, Ipv4Addr, Net, SocketAddr, TcpListener, TcpStream};
use std::rt::Files;
use std::sync::Arc;

// Listens on a port.
fn bind<R>(
    rt: &R,
    lines: &Lines,
    address: SocketAddr,
    host: Option<&str>,
    meter: Arc<PortMeter>,
    room: BodyRoom,
) -> Result<Listening, OpeningError>
where
    R: Eprint + Net<Listener = TcpListener, Stream = TcpStream> + AllocGlobal,
{
    match Listening::bind(rt, address, host, meter, room) {
        Ok(listening) => Ok(listening),
        Err(why) if why.kind() == io::ErrorKind::OutOfMemory => {
            Err(OpeningError::OutOfMemory(AllocError))
        }
        Err(why) => {
            note_port(rt, lines, address, &why);
            Err(OpeningError::Port)
        }
    }
}

// Where the connections of this port are counted.
fn meter_at(meters: &PortMeters, number: u16) -> Result<Arc<PortMeter>, AllocError> {
    if number == 0 {
        Arc::try_clone(&meters.callers)
    } else {
        Arc::try_clone(&meters.environments)
    }
}

/// How many bytes a MiB has.
const MIB: u64 = 1 << 20;

/// How many MiB of bodies the operator's port has under way at most.
const OPERATORS_MIB: u64 = 16;

/// How many bytes a body takes beyond what an answer may have.
const BESIDE: u64 = 8192;

/// What room the bodies have that come to the ports.
#[derive(Drop)]
struct Rooms {
    callers: BodyRoom,
    /// Of all environments.
    environments: BodyRoom,
    operator: BodyRoom,
}

impl Rooms {
    // Callers have what is asked for. Environments have no less, and as much as each wants for its answer.
    fn new(alloc: Global, at: &Address<'_>, settings: &Settings) -> Result<Rooms, AllocError> {
        let callers = u64::from(at.body_memory).saturating_mul(MIB);
        let answer = u64::from(settings.payload.max(settings.response)).saturating_add(BESIDE);
        let answers = answer.saturating_mul(u64::from(settings.environments));
        Ok(Rooms {
            callers: BodyRoom::new(alloc, callers)?,
            environments: BodyRoom::new(alloc, answers.max(callers))?,
            operator: BodyRoom::new(alloc, OPERATORS_MIB * MIB)?,
        })
    }

    // That of the port of this number.
    fn at(&self, number: u16) -> Result<BodyRoom, AllocError> {
        if number == 0 {
            self.callers.another()
        } else {
            self.environments.another()
        }
    }
}

// Listens on the port of the callers and on one for each environment behind it.
fn listen<R>(
    rt: &R,
    at: &Address<'_>,
    environments: u8,
    meters: &PortMeters,
    rooms: &Rooms,
    lines: &Lines,
) -> Result<Vec<Listening>, OpeningError>
where
    R: Eprint + Net<Listener = TcpListener, Stream = TcpStream> + AllocGlobal,
{
    let mut listeners = Vec::with_capacity(rt.alloc(), usize::from(environments) + 1)?;
    for number in 0..=u16::from(environments) {
        let address = SocketAddr::new(at.reach, at.port.saturating_add(number));
        let (meter, room) = (meter_at(meters, number)?, rooms.at(number)?);
        let listening = bind(rt, lines, address, at.host, meter, room)?;
        if listeners.push(listening).is_err() {
            return Err(OpeningError::OutOfMemory(AllocError));
        }
    }
    Ok(listeners)
}

/// Where Linux tells how many pages this process has.
const MEMORY: &str = "/proc/self/statm";

// Listens on the operator's port, if there is to be one: on the loopback address, wherever the others are.
fn listen_admin<R>(
    rt: &R,
    at: &Address<'_>,
    written: Written,
    meters: PortMeters,
    room: BodyRoom,
    premises: &Arc<Premises>,
) -> Result<Option<Admin>, OpeningError>
where
    R: Files<File = File> + Eprint + Net<Listener = TcpListener, Stream = TcpStream> + AllocGlobal,
{
    let Some(port) = at.admin else {
        return Ok(None);
    };
    let address = SocketAddr::from((Ipv4Addr::LOCALHOST, port));
    let meter = Arc::try_clone(&meters.operator)?;
    Ok(Some(Admin {
        listening: bind(rt, premises.lines(), address, at.host, meter, room)?,
        written,
        memory: File::open(rt, MEMORY).ok(),
        ports: meters,
        acts: at.acts,
        premises: Arc::try_clone(premises)?,
        version: own_version(rt)?,
    }))
}

/// What a front listens on.
#[derive(Drop)]
pub(crate) struct Ports {
    /// The callers' port, and one for each environment behind it.
    pub(crate) listeners: Vec<Listening>,
    /// The operator's port.
    pub(crate) admin: Option<Admin>,
    /// What the opening did, as far as it has.
    pub(crate) opening: Opening,
}

/// Listens on all ports. It is refused `Port` where one cannot be used, which is told, and for want of memory.
pub(crate) fn listen_on_all<R>(
    rt: &R,
    at: &Address<'_>,
    settings: &Settings,
    written: Written,
    premises: &Arc<Premises>,
) -> Result<Ports, OpeningError>
where
    R: Files<File = File> + Eprint + Net<Listener = TcpListener, Stream = TcpStream> + AllocGlobal,
{
    let meters = PortMeters::new(rt.alloc())?;
    let rooms = Rooms::new(rt.alloc(), at, settings)?;
    let lines = premises.lines();
    let listeners = listen(rt, at, settings.environments, &meters, &rooms, lines)?;
    let admin = listen_admin(rt, at, written, meters, rooms.operator, premises)?;
    let opening = Opening::new();
    Ok(Ports {
        listeners,
        admin,
        opening,
    })
}
