// What the threads of a front share.
ghost use Rattle.std.specs.Prelude.{◌≡◌, ◌+◌, IfOk, IfErr, max};
ghost use Rattle.long_poll.specs.Port.{IsSlot, IsDoneFor};
ghost use Rattle.receipts.specs.Locked.{hall_in};
ghost use Rattle.http_front.specs.Calling.{stops, CallsFor};
ghost use Rattle.http_front.specs.Refusals.{IsArrivalError};

use crate::arriving::{Handed, arrive};
use crate::discarding::{Discard, Discarding};
use crate::error::ArrivalError;
use crate::wake::{Called, Wake};
use api_core::{Call, Dialect};
use broker_core::Durable;
use long_poll::{Arrived, Bell, Port};
use port_meters::{Meters, Premises};
use receipts::{Office, Trace};
use retry_rules::Settings;
use std::alloc::{AllocError, Global};
use std::io::Eprint;
use std::random::RandomSource;
use std::sync::ledger::Ledger;
use std::sync::{Arc, Wait};
use std::time::Clock;
use tokio_util::sync::CancellationToken;

/// The greatest body of a request that carries no payload, response or error.
const MOST_OTHER: u32 = 4096;

// How much of a body is read: a byte more than the greatest that any call may have.
fn most_read(settings: &Settings) -> usize
    ensures { result ≡ max (max settings.now.payload settings.now.response) 4096 + 1 }
{
    settings.payload.max(settings.response).max(MOST_OTHER) as usize + 1
}

// What the threads of a new front tell each other by.
#[derive(Drop)]
struct Signals {
    bell: Arc<Bell>,
    ending: CancellationToken,
    meters: Arc<Meters>,
}

impl Signals {
    // So much is durable, and nothing was told.
    fn new(alloc: Global, durable: Durable) -> Result<Signals, AllocError> {
        let meters = Arc::new(alloc, Meters::new())?;
        let ending = CancellationToken::new(alloc)?;
        let bell = Arc::new(alloc, Bell::new(alloc, durable))?;
        Ok(Signals {
            bell,
            ending,
            meters,
        })
    }
}

/// What the threads of a front share: the office and the bell, what the committer and the ticker sleep on, and whether the front
/// ends.
#[derive(Drop)]
pub struct FrontState<L: Ledger, T: Trace> {
    pub(crate) alloc: Global,
    pub(crate) office: Arc<Office<L, T>>,
    pub(crate) bell: Arc<Bell>,
    /// What the committer sleeps on.
    pub(crate) wake: Wake,
    /// What the ticker sleeps on.
    pub(crate) ticker_wake: Wake,
    pub(crate) ending: CancellationToken,
    /// What is counted for an operator.
    pub(crate) meters: Arc<Meters>,
    /// What is noticed beside the requests, and where lines are told.
    pub(crate) premises: Arc<Premises>,
    /// The settings of the broker.
    pub(crate) settings: Settings,
    /// In which words requests are read and refused.
    pub(crate) dialect: Dialect,
    /// How many bytes of a body are read.
    pub(crate) most: usize,
    /// Which records are collected without being told to anybody.
    pub(crate) discarding: Discarding,
}

/// A call that came to a port of a front, and whom it called.
#[derive(Drop)]
pub(crate) struct Came<L: Ledger, T: Trace> {
    pub(crate) arrived: Arrived<L, T>,
    commits: Option<Called>,
    moves: Option<Called>,
}

// Whether the call is to stop the broker.
fn is_stop(call: &Call) -> bool
    ensures { result ≡ stops call.now }
{
    matches!(call, Call::StopBroker)
}

impl<L: Ledger, T: Trace> FrontState<L, T> {
    /// A front over an office of a broker with these settings, of which so much is durable, which no thread serves yet. It reads
    /// requests in this dialect, and collects the records that are discarded. What it tells on standard error goes by its premises.
    pub fn new(
        alloc: Global,
        office: Arc<Office<L, T>>,
        dialect: Dialect,
        durable: Durable,
        settings: Settings,
        discard: Discard,
        premises: Arc<Premises>,
    ) -> Result<FrontState<L, T>, AllocError>
        ensures office { IfOk result (λ front. front.office ≡ office) }
        ensures settings { IfOk result (λ front. front.settings ≡ settings) }
        ensures dialect { IfOk result (λ front. front.dialect ≡ dialect) }
        ensures discards { IfOk result (λ front. front.discarding.discard ≡ discard) }
    {
        let Signals {
            bell,
            ending,
            meters,
        } = Signals::new(alloc, durable)?;
        let most = most_read(&settings);
        Ok(FrontState {
            alloc,
            office,
            bell,
            wake: Wake::new(),
            ticker_wake: Wake::new(),
            ending,
            meters,
            premises,
            settings,
            dialect,
            most,
            discarding: Discarding::new(discard),
        })
    }

    /// A call comes to a port. Where there is something to commit, or the broker is to stop, the committer is called; where a move
    /// may be due sooner than the ticker knows, the ticker.
    ///
    /// It is refused: `System` (the clock or the source of random words failed), and as `Port::arrive` refuses it.
    pub(crate) fn arrive<R: Wait + Clock + RandomSource + Eprint>(
        &self,
        rt: &R,
        port: &Port<L, T>,
        call: Call,
    ) -> Result<Came<L, T>, ArrivalError>
        // claim: A request gets a slot of some desk, and is refused as an office refuses one, or since clock or random
        // source failed.
        ensures slot { IfOk result (λ came. IsSlot came.arrived.slot) }
        ensures refused { IfErr result IsArrivalError }

        ensures done { IfOk result (λ came.
            IsDoneFor call (hall_in came.arrived.seen.before.value.hall) (hall_in came.arrived.seen.after.value.hall) came.arrived.slot) }
        // claim: It calls the committer where it issued a command or stops the broker, and the ticker where an event was put off.
        ensures calls { IfOk result (λ came. CallsFor self.now.wake.source self.now.ticker_wake.source
            call came.arrived.issued came.commits came.moves) }
    {
        let stops = is_stop(&call);
        let Handed {
            arrived,
            has_command,
            is_move_near,
        } = arrive(rt, port, &self.premises, call)?;
        Ok(Came {
            arrived,
            commits: self.wake.call_if(rt, stops || has_command),
            moves: self.ticker_wake.call_if(rt, is_move_near),
        })
    }
}
