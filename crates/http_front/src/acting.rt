// How an operator's calls come to a front.
ghost use Rattle.std.specs.Prelude.{◌≡◌, IfOk, is_some};
ghost use Rattle.long_poll.specs.Port.{IsDoneFor};
ghost use Rattle.receipts.specs.Locked.{hall_in};

use crate::arriving::{Handed, arrive};
use crate::error::ArrivalError;
use crate::front_state::FrontState;
use crate::wake::Called;
use api_core::Call;
use long_poll::{Acting, Port, Waiting};
use receipts::Trace;
use std::alloc::AllocError;
use std::io::Eprint;
use std::random::RandomSource;
use std::sync::ledger::Ledger;
use std::sync::{Arc, Wait};
use std::time::Clock;

/// By what an operator's calls come to a front: its first port, that of the callers, whose desk asks the office.
#[derive(Drop)]
pub struct CallersPort<L: Ledger, T: Trace> {
    front: Arc<FrontState<L, T>>,
    /// None where the front has no port.
    port: Option<Arc<Port<L, T>>>,
}

impl<L: Ledger, T: Trace> CallersPort<L, T> {
    /// That of this front, if this is its first port.
    pub(crate) fn new(
        front: &Arc<FrontState<L, T>>,
        port: Option<&Arc<Port<L, T>>>,
    ) -> Result<CallersPort<L, T>, AllocError>
        ensures front { IfOk result (λ callers. callers.front.value ≡ front.now.value) }
        ensures port { IfOk result (λ callers. is_some callers.port ≡ is_some port.entry) }
    {
        let port = match port {
            Some(port) => Some(Arc::try_clone(port)?),
            None => None,
        };
        Ok(CallersPort {
            front: Arc::try_clone(front)?,
            port,
        })
    }
}

// A call comes to a port of a front now, as from a caller.
fn ask<R, L, T>(
    rt: R,
    front: &FrontState<L, T>,
    port: &Arc<Port<L, T>>,
    call: Call,
) -> Result<Waiting<R, L, T>, ArrivalError>
where
    R: Wait + Clock + RandomSource + Eprint + Drop + Copy,
    L: Ledger,
    T: Trace,
    ensures { IfOk result (λ waiting. IsDoneFor call (hall_in waiting.seen.before.value.hall)
        (hall_in waiting.seen.after.value.hall) waiting.slot) }
{
    let theirs = Arc::try_clone(port)?;
    let Handed {
        arrived,
        is_move_near,
        ..
    } = arrive(&rt, port, &front.premises, call)?;
    if is_move_near {
        front.ticker_wake.call(&rt);
    }
    Ok(Waiting::new(rt, theirs, arrived))
}

impl<R, L, T> Acting<R, L, T> for CallersPort<L, T>
where
    R: Wait + Clock + RandomSource + Eprint + Drop + Copy,
    L: Ledger,
    T: Trace,
{
    type Called = Called;

    ghost calls = { λ callers called. called.at.value ≡ callers.front.value.wake.source };

    fn act(&self, rt: R, call: Call) -> Option<Waiting<R, L, T>> {
        match ask(rt, &self.front, self.port.as_ref()?, call) {
            Ok(waiting) => Some(waiting),
            Err(_) => None,
        }
    }

    fn commit(&self, rt: R) -> Called {
        self.front.wake.call(&rt)
    }
}
