// Ending a broker whatever is lost, also one whose disk is gone.
use crate::asking::{PATIENCE, ReplyFront, ask, connect, reply_front};
use crate::stopping::{MOST_LOOKS, PAUSE, StoppingError, nobody};
use std::fs::File;
use std::net::{Net, SocketAddr, TcpListener, TcpStream};
use std::rt::Files;
use std::time::{Clock, Duration};
use std::{io, thread};

/// What asks a broker to end whose disk is gone. Any other stops as before: a query is not read.
const LOSE: &str = "/broker/stop?lose";
/// For how many looks in a row nobody listens where it has ended, and for how many it may not take what is asked: a second. One whose
/// disk is gone leaves its port for a moment, and listens there again.
const MOST_TRIES: u32 = 20;
/// How each reply begins of a broker whose disk is gone, but to what ends it.
pub(crate) const GONE: &ReplyFront = b"HTTP/1.1 503";

/// What is at a port.
#[derive(Clone, Copy)]
pub(crate) enum Seen {
    Nobody,
    /// A broker whose disk is gone.
    Gone,
    /// Another one, or what is none.
    Other,
}

/// Looks at what is at a port, where so many seconds are waited for its answer. Refused where the system's calls or memory fail.
pub(crate) fn look<N>(rt: &N, at: SocketAddr, patience: u64) -> io::Result<Seen>
where
    N: AllocGlobal + Net<Listener = TcpListener, Stream = TcpStream>,
{
    let Some(mut socket) = connect(rt, at, patience)? else {
        return Ok(Seen::Nobody);
    };
    let request = format!(in rt.alloc();
        "GET / HTTP/1.1\r\nhost: {at}\r\nconnection: close\r\n\r\n"
    )?;
    match reply_front(&mut socket, request.as_str(), patience)? {
        front if front == *GONE => Ok(Seen::Gone),
        _ => Ok(Seen::Other),
    }
}

// How far the end has come of a broker that is to lose what it told.
#[derive(Drop)]
struct Losing {
    is_taken: bool,
    // For how many looks in a row nobody listened.
    quiet: u32,
    // How often it was asked, and did not take it.
    refused: u32,
}

impl Losing {
    // Goes on by what is at the port: whether that is the end. What is there again behind a pause and serves is another broker.
    fn go_on<N>(&mut self, rt: &N, at: SocketAddr, seen: Seen) -> Result<bool, StoppingError>
    where
        N: Files<File = File> + AllocGlobal + Net<Listener = TcpListener, Stream = TcpStream>,
    {
        match seen {
            Seen::Nobody => {
                self.quiet = self.quiet.saturating_add(1);
                if self.quiet >= MOST_TRIES && !self.is_taken {
                    return Err(nobody(rt, at));
                }
                Ok(self.quiet >= MOST_TRIES)
            }
            Seen::Other if self.is_taken => Ok(self.quiet > 0),
            Seen::Gone | Seen::Other => {
                self.quiet = 0;
                self.ask(rt, at)?;
                Ok(false)
            }
        }
    }

    // Asks it once more. It may close a connection without a reply as it leaves its port.
    fn ask<N>(&mut self, rt: &N, at: SocketAddr) -> Result<(), StoppingError>
    where
        N: AllocGlobal + Net<Listener = TcpListener, Stream = TcpStream>,
    {
        let Some(mut socket) = connect(rt, at, PATIENCE)? else {
            return Ok(());
        };
        if ask(rt, &mut socket, at, LOSE, PATIENCE)? {
            self.is_taken = true;
            return Ok(());
        }
        self.refused = self.refused.saturating_add(1);
        if self.refused >= MOST_TRIES {
            return Err(StoppingError::NotTaken { at });
        }
        Ok(())
    }
}

/// Ends the broker whose callers' port is there, whatever is lost, and waits for that, a minute at most. It is refused by `Nobody`,
/// `Unreachable`, `NotTaken` and `StillOpen`, and where the system's calls or memory fail.
pub(crate) fn lose<N>(rt: &N, at: SocketAddr) -> Result<(), StoppingError>
where
    N: Files<File = File> + AllocGlobal + Clock + Net<Listener = TcpListener, Stream = TcpStream>,
{
    let mut losing = Losing {
        is_taken: false,
        quiet: 0,
        refused: 0,
    };
    for _ in 0..MOST_LOOKS {
        let seen = look(rt, at, PATIENCE)?;
        if losing.go_on(rt, at, seen)? {
            return Ok(());
        }
        thread::sleep(rt, Duration::from_millis(PAUSE));
    }
    Err(StoppingError::StillOpen { at })
}
