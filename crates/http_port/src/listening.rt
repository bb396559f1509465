// Where the requests of a port come.
ghost use Rattle.std.specs.Prelude.{◌≡◌, IfOk};

use crate::body_room::BodyRoom;
use crate::hosts::Hosts;
use port_meters::PortMeter;
use std::alloc::{AllocError, AllocGlobal, Global};
use std::io;
use std::net::{Net, SocketAddr, TcpListener, TcpStream};
use std::sync::Arc;

/// Where the requests of a port come, which hosts it answers to, where its connections are counted, and what room their bodies have.
#[derive(Drop)]
pub struct Listening {
    pub listener: TcpListener,
    pub hosts: Arc<Hosts>,
    pub meter: Arc<PortMeter>,
    pub room: BodyRoom,
}

impl Listening {
    /// What this listener gives is answered, for these hosts. Only want of memory is refused.
    pub fn new(
        alloc: Global,
        listener: TcpListener,
        hosts: Hosts,
        meter: Arc<PortMeter>,
        room: BodyRoom,
    ) -> Result<Listening, AllocError>
        ensures listener { IfOk result (λ listening. listening.listener ≡ listener) }
        ensures hosts { IfOk result (λ listening. listening.hosts.value ≡ hosts) }
    {
        let hosts = Arc::new(alloc, hosts)?;
        Ok(Listening {
            listener,
            hosts,
            meter,
            room,
        })
    }

    /// Listens on an address of this machine, and answers to the hosts of a port there that is asked under this name, too, where
    /// one is given.
    pub fn bind<R>(
        rt: &R,
        address: SocketAddr,
        name: Option<&str>,
        meter: Arc<PortMeter>,
        room: BodyRoom,
    ) -> io::Result<Listening>
    where
        R: Net<Listener = TcpListener, Stream = TcpStream> + AllocGlobal,
    {
        let listener = TcpListener::bind(rt, address)?;
        let reach = address.ip().to_canonical();
        let hosts = Hosts::of(rt.alloc(), reach, name)?;
        Ok(Listening::new(rt.alloc(), listener, hosts, meter, room)?)
    }
}
