// How long a port waits for its clients.
ghost use Rattle.std.specs.Prelude.{◌≡◌, ◌*◌};
ghost use Rattle.std.specs.Duration.{as_nanos};

use std::time::Duration;

/// From the first byte of a head until it is whole, and from there until its body is, in seconds. The first head of a
/// connection counts from its beginning.
const REQUEST_SECONDS: u64 = 30;

/// How long a connection may be idle, in seconds. Clients give up a connection sooner, so that none is closed under a
/// request that is on its way.
const IDLE_SECONDS: u64 = 120;

/// How many connections a port has open at once.
const MOST_CONNECTIONS: usize = 1100;

/// How long a port waits for its clients, and how many connections it has open at once. A request that was read waits for
/// its reply without a limit.
#[derive(Clone, Copy)]
pub struct HttpLimits {
    /// From the first byte of a head until it is whole; from the connection, where it is the first.
    pub head: Duration,
    /// From the end of a head until its body is whole.
    pub body: Duration,
    /// From a reply until the next byte.
    pub idle: Duration,
    /// How many connections are open at once.
    pub connections: usize,
}

impl HttpLimits {
    // The least of the times.
    pub(crate) fn least(&self) -> Duration {
        self.head.min(self.body).min(self.idle)
    }
}

impl Default for HttpLimits {
    fn default() -> HttpLimits
        ensures head { as_nanos result.head ≡ 30 * 1000000000 }
        ensures body { as_nanos result.body ≡ 30 * 1000000000 }
        ensures idle { as_nanos result.idle ≡ 120 * 1000000000 }
        ensures connections { result.connections ≡ 1100 }
    {
        HttpLimits {
            head: Duration::from_secs(REQUEST_SECONDS),
            body: Duration::from_secs(REQUEST_SECONDS),
            idle: Duration::from_secs(IDLE_SECONDS),
            connections: MOST_CONNECTIONS,
        }
    }
}
