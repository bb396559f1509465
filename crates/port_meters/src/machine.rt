// What the ports of a broker ask of the machine.
use std::alloc::AllocGlobal;
use std::io::Eprint;
use std::net::{Net, TcpListener, TcpStream};
use std::random::RandomSource;
use std::sync::Wait;
use std::thread::Threads;
use std::time::Clock;

/// What the ports of a broker ask of the machine: threads, which may wait, sockets, a clock, random words, memory, and a place
/// for what is told to whoever keeps a log. Whatever gives all that is one.
pub trait Machine: Threads
    + Wait
    + Clock
    + Net<Listener = TcpListener, Stream = TcpStream>
    + RandomSource
    + AllocGlobal
    + Eprint
    + Copy
    + Drop
    + Send
    + 'static {}

impl<R> Machine for R
where
    R: Threads
        + Wait
        + Clock
        + Net<Listener = TcpListener, Stream = TcpStream>
        + RandomSource
        + AllocGlobal
        + Eprint
        + Copy
        + Drop
        + Send
        + 'static,
{}
