// Asking what listens on a port.
use std::io;
use std::io::{ErrorKind, Read, Write};
use std::net::{Net, SocketAddr, TcpListener, TcpStream};
use std::time::Duration;

/// How many seconds a connection is waited for, and a reply.
pub(crate) const PATIENCE: u64 = 60;
/// How many seconds each is waited for where the end is not.
pub(crate) const SHORT_PATIENCE: u64 = 1;
/// What asks a broker to stop.
pub(crate) const STOP: &str = "/broker/stop";
/// How a reply begins that takes what was asked.
const TAKEN: &[u8; 10] = b"HTTP/1.1 2";
/// What stands for no reply.
const NO_REPLY: ReplyFront = [0; 12];

/// How a reply begins: with its version and status.
pub(crate) type ReplyFront = [u8; 12];

// Whether nobody listens there, or whoever did closes at this moment.
fn is_closed(why: &io::Error) -> bool {
    matches!(
        why.kind(),
        ErrorKind::ConnectionRefused | ErrorKind::ConnectionReset
    )
}

// Whether a connection was closed before its reply, or no reply came in time.
fn is_without_reply(why: &io::Error) -> bool {
    matches!(
        why.kind(),
        ErrorKind::UnexpectedEof
            | ErrorKind::ConnectionReset
            | ErrorKind::WouldBlock
            | ErrorKind::TimedOut
    )
}

/// A connection to a port, for which so many seconds are waited: none where nobody listens there. Refused where the system's calls fail.
pub(crate) fn connect<N>(rt: &N, at: SocketAddr, patience: u64) -> io::Result<Option<TcpStream>>
where
    N: Net<Listener = TcpListener, Stream = TcpStream>,
{
    match TcpStream::connect_timeout(rt, &at, Duration::from_secs(patience)) {
        Ok(socket) => Ok(Some(socket)),
        Err(why) if is_closed(&why) => Ok(None),
        Err(why) => Err(why),
    }
}

// Sends a request, whose reply is waited for so many seconds.
fn send(socket: &mut TcpStream, request: &str, patience: u64) -> io::Result<()> {
    socket.set_read_timeout(Some(Duration::from_secs(patience)))?;
    socket.write_all(request.as_bytes())
}

// Sends a request, and reads how its reply begins.
fn read_front(socket: &mut TcpStream, request: &str, patience: u64) -> io::Result<ReplyFront> {
    send(socket, request, patience)?;
    let mut front = NO_REPLY;
    socket.read_exact(&mut front)?;
    Ok(front)
}

/// How the reply begins to a request, which is waited for so many seconds at most: zeros where there is none. Refused where the system's
/// calls fail.
pub(crate) fn reply_front(
    socket: &mut TcpStream,
    request: &str,
    patience: u64,
) -> io::Result<ReplyFront> {
    match read_front(socket, request, patience) {
        Err(why) if is_without_reply(&why) => Ok(NO_REPLY),
        read => read,
    }
}

/// Asks for the end over a connection: whether that is taken within so many seconds. One that ends without a reply takes nothing. Refused
/// where the system's calls or memory fail.
pub(crate) fn ask<N: AllocGlobal>(
    rt: &N,
    socket: &mut TcpStream,
    at: SocketAddr,
    target: &str,
    patience: u64,
) -> io::Result<bool> {
    let request = format!(in rt.alloc();
        "POST {target} HTTP/1.1\r\nhost: {at}\r\ncontent-length: 0\r\nconnection: close\r\n\r\n"
    )?;
    send(socket, request.as_str(), patience)?;
    let mut front = [0; TAKEN.len()];
    match socket.read_exact(&mut front) {
        Ok(()) => Ok(front == *TAKEN),
        Err(why) if why.kind() == ErrorKind::UnexpectedEof => Ok(false),
        // It may end so fast that its reply is lost: whether it ends is seen by its port.
        Err(why) if why.kind() == ErrorKind::ConnectionReset => Ok(true),
        Err(why) => Err(why),
    }
}

/// Asks the broker whose callers' port is there to stop, and waits a second at most for a connection, another one for the reply, and
/// not for its end: whether that was taken. It is not where nobody listens. Refused where the system's calls or memory fail, or what is
/// waited for does not come in time.
pub fn ask_to_stop<N>(rt: &N, at: SocketAddr) -> io::Result<bool>
where
    N: AllocGlobal + Net<Listener = TcpListener, Stream = TcpStream>,
{
    match connect(rt, at, SHORT_PATIENCE)? {
        Some(mut socket) => ask(rt, &mut socket, at, STOP, SHORT_PATIENCE),
        None => Ok(false),
    }
}
