// Ending a broker from outside, in order.
use crate::asking::{PATIENCE, ReplyFront, SHORT_PATIENCE, STOP, ask, connect, reply_front};
use crate::losing::{GONE, Seen, look, lose};
use broker_commands::Stopping;
use std::alloc::{AllocError, Global};
use std::fs::File;
use std::net::{IpAddr, Net, SocketAddr, TcpListener, TcpStream};
use std::rt::Files;
use std::time::{Clock, Duration};
use std::{fs, io, thread};
use thiserror::Error;

/// How many milliseconds it is waited before the port is looked at again.
pub(crate) const PAUSE: u64 = 50;
/// How often the port is looked at: for a minute.
pub(crate) const MOST_LOOKS: u32 = 1200;
/// How many looks there are in a second.
const LOOKS_A_SECOND: u32 = 20;
/// For how many looks it is seen whether a broker comes back that has left its port: one whose disk is gone does.
const LOOKS_BACK: u32 = 10;
/// Where Linux shows the sockets of this machine, those of IPv4 and those of IPv6.
const SOCKETS: &str = "/proc/net/tcp";

const SOCKETS_OF_SIX: &str = "/proc/net/tcp6";
/// The state of one that listens, there.
const LISTENS: &str = "0A";
/// How a reply begins that refuses a request whose path is right, and one whose path is not.
const BAD: &ReplyFront = b"HTTP/1.1 400";

const MISSING: &ReplyFront = b"HTTP/1.1 404";

/// Why a broker was not stopped, or not seen to end.
#[derive(Debug, Drop, Error)]
pub enum StoppingError {
    #[error("out of memory")]
    OutOfMemory(#[from] AllocError),
    /// Nobody listens there.
    #[error("no broker on {at}")]
    Nobody { at: SocketAddr },
    /// Somebody listens there, though not for this user.
    #[error("no broker on {at} that this user reaches: a wall may keep it out")]
    Unreachable { at: SocketAddr },
    /// What listens there serves another function.
    #[error("{at} does not serve the function {name}")]
    AnotherFunction { at: SocketAddr, name: String },
    /// What listens there does not take the request: it is broken, or no broker.
    #[error("{at} does not take it")]
    NotTaken { at: SocketAddr },
    /// Each request is answered 503 there, as by a broker whose disk is gone: that has the last copy.
    #[error("{at} refuses all, as where a disk is gone: its line on standard error says how to save it")]
    RefusesAll { at: SocketAddr },
    /// It takes the request, and listens still a minute later.
    #[error("{at} is still open")]
    StillOpen { at: SocketAddr },
    #[error("{0}")]
    System(#[from] io::Error),
}

// How the system's table of sockets shows an address of IPv4: its last part first.
fn place_of(alloc: Global, at: SocketAddr) -> Result<Option<String>, AllocError> {
    let IpAddr::V4(ip) = at.ip() else {
        return Ok(None);
    };
    let [first, second, third, fourth] = ip.octets();
    let port = at.port();
    let place = format!(in alloc; "{fourth:02X}{third:02X}{second:02X}{first:02X}:{port:04X}")?;
    Ok(Some(place))
}

// Whether an address of that table is each address of this machine, and this port.
fn is_everywhere(own: &str, port: &str) -> bool {
    match own.strip_suffix(port) {
        Some(ip) => ip.bytes().all(|digit| digit == b'0'),
        None => false,
    }
}

// Whether a line of that table is of one that listens at this place, or everywhere at this port.
fn is_listener(line: &str, place: &Option<String>, port: &str) -> bool {
    let mut fields = line.split_whitespace();
    let Some(own) = fields.nth(1) else {
        return false;
    };
    if fields.nth(1) != Some(LISTENS) {
        return false;
    }
    matches!(place, Some(place) if place.as_str() == own) || is_everywhere(own, port)
}

// Whether somebody listens at an address of this machine, as one of the system's tables of sockets shows.
fn listens<N>(rt: &N, table: &str, at: SocketAddr) -> Result<bool, AllocError>
where
    N: Files<File = File> + AllocGlobal,
{
    let number = at.port();
    let port = format!(in rt.alloc(); ":{number:04X}")?;
    let place = place_of(rt.alloc(), at)?;
    match fs::read_to_string(rt, table) {
        Ok(lines) => Ok(
            lines
                .lines()
                .any(|line| is_listener(line, &place, port.as_str())),
        ),
        Err(_) => Ok(false),
    }
}

/// Why nobody takes a connection there.
pub(crate) fn nobody<N: Files<File = File> + AllocGlobal>(rt: &N, at: SocketAddr) -> StoppingError {
    for table in [SOCKETS, SOCKETS_OF_SIX] {
        match listens(rt, table, at) {
            Ok(true) => return StoppingError::Unreachable { at },
            Ok(false) => {}
            Err(why) => return StoppingError::OutOfMemory(why),
        }
    }
    StoppingError::Nobody { at }
}

// An invocation of no known type. Where its path is that of the function it is refused as such, and as none that is there else: nothing
// is invoked.
fn invocation_of(alloc: Global, at: SocketAddr, name: &str) -> Result<String, AllocError> {
    let path = format!(in alloc; "/2015-03-31/functions/{name}/invocations")?;
    format!(in alloc;
        "POST {path} HTTP/1.1\r\nhost: {at}\r\nx-amz-invocation-type: none\r\ncontent-length: 0\r\nconnection: close\r\n\r\n"
    )
}

// Sees that the function of this name is served there.
fn expect_function<N>(rt: &N, at: SocketAddr, name: &str) -> Result<(), StoppingError>
where
    N: Files<File = File> + AllocGlobal + Net<Listener = TcpListener, Stream = TcpStream>,
{
    let Some(mut socket) = connect(rt, at, PATIENCE)? else {
        return Err(nobody(rt, at));
    };
    let front = reply_front(
        &mut socket,
        invocation_of(rt.alloc(), at, name)?.as_str(),
        PATIENCE,
    )?;
    if front == *BAD {
        return Ok(());
    }
    if front == *GONE {
        return Err(StoppingError::RefusesAll { at });
    }
    if front != *MISSING {
        return Err(StoppingError::NotTaken { at });
    }
    let name = String::from_str(rt.alloc(), name)?;
    Err(StoppingError::AnotherFunction { at, name })
}

// What is at a port: who is there is looked at each second, since a broker whose disk is gone leaves its port for a moment alone.
fn look_again<N>(rt: &N, at: SocketAddr, number: u32) -> io::Result<Seen>
where
    N: AllocGlobal + Net<Listener = TcpListener, Stream = TcpStream>,
{
    if number % LOOKS_A_SECOND == 0 {
        return look(rt, at, SHORT_PATIENCE);
    }
    match connect(rt, at, PATIENCE)? {
        Some(_) => Ok(Seen::Other),
        None => Ok(Seen::Nobody),
    }
}

// Waits until nobody listens on a port, or a broker whose disk is gone: which of both came, or neither.
fn wait_for_end<N>(rt: &N, at: SocketAddr) -> io::Result<Seen>
where
    N: AllocGlobal + Clock + Net<Listener = TcpListener, Stream = TcpStream>,
{
    for number in 0..MOST_LOOKS {
        match look_again(rt, at, number)? {
            Seen::Other => thread::sleep(rt, Duration::from_millis(PAUSE)),
            seen => return Ok(seen),
        }
    }
    Ok(Seen::Other)
}

// Whether a broker comes back that took the request: its disk is gone, which it saw at its end.
fn comes_back<N>(rt: &N, at: SocketAddr) -> io::Result<bool>
where
    N: AllocGlobal + Clock + Net<Listener = TcpListener, Stream = TcpStream>,
{
    for _ in 0..LOOKS_BACK {
        match look(rt, at, PATIENCE)? {
            Seen::Nobody => thread::sleep(rt, Duration::from_millis(PAUSE)),
            Seen::Gone => return Ok(true),
            Seen::Other => return Ok(false),
        }
    }
    Ok(false)
}

// Why the request is not taken there. One whose disk is gone may close a connection without a reply, and leave its port for a moment.
fn not_taken<N>(rt: &N, at: SocketAddr) -> io::Result<StoppingError>
where
    N: AllocGlobal + Clock + Net<Listener = TcpListener, Stream = TcpStream>,
{
    for _ in 0..LOOKS_BACK {
        match look(rt, at, PATIENCE)? {
            Seen::Gone => return Ok(StoppingError::RefusesAll { at }),
            Seen::Nobody | Seen::Other => thread::sleep(rt, Duration::from_millis(PAUSE)),
        }
    }
    Ok(StoppingError::NotTaken { at })
}

/// Asks the broker whose callers' port is there to stop, and waits until it listens no more, a minute at most. If it is to lose what it
/// told, one whose disk is gone ends too: it is asked for as long as it is there. Where it is named what is to be served there, it is
/// asked for that before.
///
/// It is refused by `Nobody`, `Unreachable`, `AnotherFunction`, `NotTaken`, `RefusesAll` and `StillOpen`, and where the system's calls or
/// memory fail.
pub fn stop_broker<N>(rt: &N, stopping: &Stopping<'_>) -> Result<(), StoppingError>
where
    N: Files<File = File> + AllocGlobal + Clock + Net<Listener = TcpListener, Stream = TcpStream>,
{
    let at = stopping.at;
    if let Some(name) = stopping.name {
        expect_function(rt, at, name)?;
    }
    if stopping.loses {
        return lose(rt, at);
    }
    let Some(mut socket) = connect(rt, at, PATIENCE)? else {
        return Err(nobody(rt, at));
    };
    if !ask(rt, &mut socket, at, STOP, PATIENCE)? {
        return Err(not_taken(rt, at)?);
    }
    drop(socket);
    let refuses_all = match wait_for_end(rt, at)? {
        Seen::Nobody => comes_back(rt, at)?,
        Seen::Gone => true,
        Seen::Other => return Err(StoppingError::StillOpen { at }),
    };
    if refuses_all {
        return Err(StoppingError::RefusesAll { at });
    }
    Ok(())
}
