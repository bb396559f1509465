// Serving until what was told is saved, or is to be lost.
use crate::held::Held;
use api_core::Dialect;
use http_port::{BodyRoom, HttpLimits, Listening};
use port_meters::{Machine, PortMeter};
use std::net::{Ipv4Addr, SocketAddr};
use std::sync::Arc;
use std::time::Duration;
use std::{io, thread};
use tokio_util::sync::CancellationToken;

/// How often it is tried to listen on a port that the front has just left.
const MOST_TRIES: u32 = 100;

/// How long is waited between two tries, in milliseconds.
const PAUSE: u64 = 50;

/// Where a broker served whose disk is gone, and what is told there.
#[derive(Drop)]
pub struct Saving<'a> {
    /// The callers' port.
    pub callers: SocketAddr,
    /// The operator's port, on the loopback address.
    pub admin: Option<u16>,
    /// A host name under which the ports are asked.
    pub host: Option<&'a str>,
    pub dialect: Dialect,
    /// What an operator is told.
    pub words: Arc<String>,
}

// Listens on a port, which reads no bodies.
fn bind<R: Machine>(rt: &R, address: SocketAddr, host: Option<&str>) -> io::Result<Listening> {
    let meter = PortMeter::new(rt.alloc(), false)?;
    Listening::bind(rt, address, host, meter, BodyRoom::new(rt.alloc(), 0)?)
}

// Listens on a port again that was listened on.
fn bind_again<R: Machine>(
    rt: &R,
    address: SocketAddr,
    host: Option<&str>,
) -> io::Result<Listening> {
    for _ in 0..MOST_TRIES {
        if let Ok(listening) = bind(rt, address, host) {
            return Ok(listening);
        }
        thread::sleep(rt, Duration::from_millis(PAUSE));
    }
    bind(rt, address, host)
}

// Serves a port until all end.
fn serve_port<R: Machine>(
    rt: R,
    address: SocketAddr,
    host: Option<&str>,
    held: Held,
    ending: &CancellationToken,
) -> io::Result<()> {
    let listening = bind_again(&rt, address, host)?;
    http_port::serve(rt, held, listening, HttpLimits::default(), ending)
}

impl Saving<'_> {
    // What a port serves.
    fn held<R: Machine>(
        &self,
        rt: &R,
        is_operators: bool,
        ending: &CancellationToken,
    ) -> io::Result<Held> {
        Ok(Held {
            alloc: rt.alloc(),
            is_operators,
            dialect: self.dialect,
            words: Arc::try_clone(&self.words)?,
            ending: ending.clone()?,
        })
    }
}

/// Serves the ports of a broker whose disk is gone, until a caller asks to end though what was told is lost then: each other request is
/// refused. Refused where the system gives no port and no thread, or for want of memory.
pub fn wait_to_lose<R: Machine>(rt: R, saving: &Saving<'_>) -> io::Result<()> {
    let ending = CancellationToken::new(rt.alloc())?;
    let held = saving.held(&rt, false, &ending)?;
    let Some(admin) = saving.admin else {
        return serve_port(rt, saving.callers, saving.host, held, &ending);
    };
    let (theirs, shown) = (ending.clone()?, saving.held(&rt, true, &ending)?);
    let address = SocketAddr::from((Ipv4Addr::LOCALHOST, admin));
    let thread = thread::spawn(&rt, move || serve_port(rt, address, None, shown, &theirs))?;
    let served = serve_port(rt, saving.callers, saving.host, held, &ending);
    ending.cancel();
    thread.join(&rt)?;
    served
}
