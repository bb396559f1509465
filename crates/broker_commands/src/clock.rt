// The moment now.
ghost use Rattle.std.specs.Prelude.{◌≤◌, IfOk};

use port_meters::Moment;
use std::io;
use std::time::Clock;

/// The moment now, in milliseconds since 1970.
pub fn now<C: Clock>(rt: &C) -> io::Result<u64>
    ensures { IfOk result (λ now. now ≤ 253402300799999) }
{
    Ok(Moment::now(rt)?.millis())
}
