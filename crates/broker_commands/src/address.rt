// Where a disk is served, and which broker is to be stopped.
use api_core::Dialect;
use std::net::{IpAddr, SocketAddr};

/// A disk that is to be served, where, in which words requests are answered, and for how many extensions an environment waits, 10
/// at most.
#[derive(Clone, Copy)]
pub struct Address<'a> {
    /// A file or a block device.
    pub path: &'a str,
    /// The function whose disk it has to be, where that is said.
    pub name: Option<&'a str>,
    /// Where the callers' port and those of the environments are.
    pub reach: IpAddr,
    /// The port of the callers.
    pub port: u16,
    /// A host name under which the ports are asked, beside `localhost` and addresses.
    pub host: Option<&'a str>,
    /// The operator's port, which is on the loopback address, and whether he may act.
    pub admin: Option<u16>,
    pub acts: bool,
    pub dialect: Dialect,
    pub extensions: u8,
    /// How many threads serve the callers, 1 to 32; None where nobody said.
    pub threads: Option<u8>,
    /// How many MiB of callers' bodies are under way at most.
    pub body_memory: u16,
    /// For how many seconds the clock is not believed after it was set ahead by more than an hour.
    pub clock_grace: u32,
    /// Whether it waits for a disk that another program has open.
    pub is_standby: bool,
    /// Whether it claims the disk, and notices who takes it over.
    pub is_watched: bool,
    /// Whether a claim that stands there is taken away first, where it does not claim the disk itself.
    pub is_unclaimed: bool,
    /// Whether the records of events that succeeded are collected at once, and those of the others.
    pub discards_success: bool,
    pub discards_failure: bool,
}

/// A broker that is to be stopped.
#[derive(Clone, Copy)]
pub struct Stopping<'a> {
    /// Its callers' port.
    pub at: SocketAddr,
    /// The function that it serves, where that is looked at before.
    pub name: Option<&'a str>,
    /// Whether it is to end though its disk is gone, by which what it told is lost.
    pub loses: bool,
}
