// Opening what is on a disk, to be served.
ghost use Rattle.std.specs.Prelude.{◌≡◌, [], IfOk, IfSome, IsTrue, is_some};
ghost use Rattle.broker_core.specs.Broker.{pending_of, settings_of};
ghost use Rattle.broker_core.specs.IssuerBroker.{issuer_of};
ghost use Rattle.broker_core.specs.Promises.{ForEachHistoryOn};
ghost use Rattle.hall_core.specs.Fresh.{IsFresh};
ghost use Rattle.hall_core.specs.Hall.{view_of};
ghost use Rattle.broker_opening.specs.Opening.{RecoversAtRest, SwitchesRecovered};

use crate::error::OpeningError;
use crate::listening::{Ports, listen_on_all};
use crate::naming::check_name;
use crate::resting::hall_at_rest;
use crate::thread_room::caller_threads;
use admin_port::{Admin, AdminPort};
use broker_commands::{Address, open};
use broker_core::Broker;
use hall_core::Hall;
use http_port::Listening;
use port_meters::{Opening, Premises};
use sector_disk::{Disk, Written};
use std::alloc::{AllocError, AllocGlobal};
use std::fs::File;
use std::io;
use std::io::{Eprint, Write};
use std::net::{Net, SocketAddr, TcpListener, TcpStream};
use std::rt::Files;
use std::sync::{Arc, Wait};
use std::thread::Threads;
use std::time::{Clock, Instant};

/// A disk that is open to be served: the hall over it, in which nothing has come yet and nothing runs, and what is listened on.
#[derive(Drop)]
pub struct OpenedDisk<H> {
    pub hall: H,
    /// The callers' port, and one for each environment behind it.
    pub listeners: Vec<Listening>,
    /// How many threads serve the callers.
    pub callers: u8,
    /// The operator's port over the hall.
    pub admin: Option<AdminPort>,
}

// Prints the line from which on callers are served, and one of the operator's port.
fn announce<W: Write>(at: &Address<'_>, out: &mut W) -> io::Result<()> {
    let address = SocketAddr::new(at.reach, at.port);
    writeln!(out, "serving on {address}")?;
    if let Some(admin) = at.admin {
        writeln!(out, "showing on 127.0.0.1:{admin}")?;
    }
    out.flush()
}

// The operator's port over a hall, where there is one.
fn admin_over<D: Disk>(
    hall: &Hall<Broker<D>>,
    admin: Option<Admin>,
    opening: Opening,
) -> Result<Option<AdminPort>, AllocError>
    ensures same { IfOk result (λ port. is_some port ≡ is_some admin) }
    ensures settings { IfOk result (λ port. IfSome port (λ port. port.baseline.settings ≡ settings_of hall.now.issuer)) }
{
    match admin {
        Some(admin) => Ok(Some(admin.over(hall.table(), opening)?)),
        None => Ok(None),
    }
}

// What is listened on for a hall, once the line of it is printed.
fn announced<D: Disk, W: Write>(
    hall: &Hall<Broker<D>>,
    ports: Ports,
    at: &Address<'_>,
    out: &mut W,
) -> Result<(Vec<Listening>, Option<AdminPort>), OpeningError>
    ensures settings { IfOk result (λ r. IfSome r.1 (λ port. port.baseline.settings ≡ settings_of hall.now.issuer)) }
{
    let Ports {
        listeners,
        admin,
        opening,
    } = ports;
    let admin = admin_over(hall, admin, opening)?;
    announce(at, out)?;
    Ok((listeners, admin))
}

/// Opens what is on a disk, listens on the ports, and then interrupts the attempts that the last stop cut off. The line from which on
/// callers are served is printed. Where the disk was taken over from a broker that may still write to it, the live segment is switched
/// before.
///
/// It is refused where the disk, a port, the clock, memory, a thread or the output is. An attempt is then interrupted, or runs as before.
pub fn open_to_serve<R, D, W>(
    rt: &R,
    disk: D,
    written: Written,
    is_takeover: bool,
    at: &Address<'_>,
    start: &io::Result<Instant>,
    premises: &Arc<Premises>,
    out: &mut W,
) -> Result<OpenedDisk<Hall<Broker<D>>>, OpeningError>
where
    R: Files<File = File>
        + Clock
        + Wait
        + Eprint
        + Threads
        + Net<Listener = TcpListener, Stream = TcpStream>
        + AllocGlobal
        + Copy
        + Drop
        + Send
        + 'static,
    D: Disk + Drop,
    W: Write,
    ensures nothing { IfOk result (λ opened. pending_of opened.hall.issuer ≡ []) }
    ensures fresh { IfOk result (λ opened. IsFresh (settings_of opened.hall.issuer) opened.hall) }
    ensures settings { IfOk result (λ opened.
        IfSome opened.admin (λ port. port.baseline.settings ≡ settings_of opened.hall.issuer)) }
    // claim: An Ok hall over an honest disk stands for what recovery gives of each history there, with Interrupts alone behind
    // it, in the dialect and for the extensions asked for.
    ensures dialect { IfOk result (λ opened. (view_of (issuer_of D.view) opened.hall).dialect ≡ at.now.dialect) }
    ensures rest { (D.view disk).honest → ForEachHistoryOn (D.view disk) (λ s history durable. IfOk result (λ opened.
        RecoversAtRest D.view at.now.extensions history durable opened.hall.issuer (view_of (issuer_of D.view) opened.hall))) }
    // claim: Where the disk was taken over, what recovery gave was switched once: what is written next lies where the other broker does
    // not append. [: switches]
    ensures switches { IsTrue is_takeover → (D.view disk).honest → IfOk result (λ opened. SwitchesRecovered D.view disk opened.hall.issuer) }
{
    let broker = open(rt.alloc(), disk)?;
    check_name(rt.alloc(), &broker.table().settings().name, at.name)?;
    let environments = broker.table().settings().environments;
    let mut ports = listen_on_all(rt, at, broker.table().settings(), written, premises)?;
    let hall = hall_at_rest(
        rt,
        broker,
        is_takeover,
        at,
        start,
        premises.lines(),
        &mut ports.opening,
    )?;
    let callers = caller_threads(*rt, at, environments)?;
    let (listeners, admin) = announced(&hall, ports, at, out)?;
    Ok(OpenedDisk {
        hall,
        listeners,
        callers,
        admin,
    })
}
