// A request comes to the hall.
ghost use Rattle.std.specs.Prelude.{◌≡◌, ◌≤◌, IfOk, IfErr};
ghost use Rattle.invoke_records.specs.Spelling.{greatest_moment};
ghost use Rattle.long_poll.specs.Port.{IsSlot, IsDoneFor, IsRequestRefusal};
ghost use Rattle.receipts.specs.Locked.{hall_in};
ghost use Rattle.http_front.specs.Refusals.{IsArrivalError};
ghost use Rattle.http_front.specs.Calling.{puts_off, puts_one_off, CallFor};

use crate::drawing::words;
use crate::error::ArrivalError;
use crate::resets::{ResetReport, note_timeout};
use api_core::Call;
use hall_core::{HallError, Issued};
use invoke_records::Kind;
use long_poll::{Arrived, Port};
use port_meters::{Lines, Premises};
use receipts::Trace;
use std::io;
use std::io::Eprint;
use std::random::RandomSource;
use std::sync::Wait;
use std::sync::ledger::Ledger;
use std::time::Clock;

// Whether a new id is drawn for this call.
fn draws(call: &Call) -> bool {
    matches!(
        call,
        Call::Invoke { .. } | Call::InvokeAsync { .. } | Call::Register { .. }
    )
}

// Whether a move may be possible after this call that was not before it. Nothing is started, throttled or expired sooner for
// the function that is described, a record that is read or collected, an extension that registers, or an attempt that
// succeeded: its environment can be given nothing before it asks again.
fn may_move(call: &Call) -> bool {
    !matches!(
        call,
        Call::Describe(_)
            | Call::Oldest(_)
            | Call::Delete(_)
            | Call::Register { .. }
            | Call::Response { .. }
    )
}

// Two random words where the call needs them.
fn words_for<R: RandomSource>(rt: &R, call: &Call) -> io::Result<[u64; 2]> {
    if draws(call) { words(rt) } else { Ok([0, 0]) }
}

/// A call that came to a port.
#[derive(Drop)]
pub(crate) struct Handed<L: Ledger, T: Trace> {
    pub(crate) arrived: Arrived<L, T>,
    /// Whether there is something to commit.
    pub(crate) has_command: bool,
    /// Whether a move may be due sooner than the ticker knows.
    pub(crate) is_move_near: bool,
}

// What came of the moves behind a call.
#[derive(Clone, Copy)]
struct Moves {
    /// Whether there was one.
    any: bool,
    /// Whether one more may be due sooner than was known: one was refused, or put its event off.
    is_one_near: bool,
}

impl Moves {
    const NONE: Moves = Moves {
        any: false,
        is_one_near: false,
    };
}

// Whether an event waits since this was issued. It may grow too old before all else that is due.
fn puts_off(issued: Issued) -> bool
    ensures { result ≡ puts_off issued }
{
    matches!(issued.kind, Kind::Fail(_) | Kind::Throttle)
}

// Whether an event waits since this was issued, if something was.
fn puts_one_off(issued: Option<Issued>) -> bool
    ensures { result ≡ puts_one_off issued }
{
    match issued {
        Some(issued) => puts_off(issued),
        None => false,
    }
}

// Makes one move that is due: whether it made one.
fn make_move<R: Wait + Eprint, L: Ledger, T: Trace>(
    rt: &R,
    port: &Port<L, T>,
    lines: &Lines,
    now: u64,
    moves: &mut Moves,
) -> bool
    requires { now ≤ greatest_moment }
{
    match port.tick(rt, now).answer {
        Ok(Some(issued)) => {
            note_timeout(rt, lines, Some(issued));
            moves.any = true;
            moves.is_one_near |= puts_off(issued);
            true
        }
        Ok(None) => false,
        Err(_) => {
            moves.is_one_near = true;
            false
        }
    }
}

// Makes the moves that are due.
fn make_moves<R: Wait + Eprint, L: Ledger, T: Trace>(
    rt: &R,
    port: &Port<L, T>,
    lines: &Lines,
    now: u64,
) -> Moves
    requires { now ≤ greatest_moment }
{
    let mut moves = Moves::NONE;
    for _ in rt.forever() {
        if !make_move(rt, port, lines, now, &mut moves) {
            break;
        }
    }
    moves
}

// Makes the moves behind a call, where one may be possible.
fn follow<R: Wait + Eprint, L: Ledger, T: Trace>(
    rt: &R,
    port: &Port<L, T>,
    lines: &Lines,
    now: u64,
    can_move: bool,
) -> Moves
    requires { now ≤ greatest_moment }
{
    if can_move {
        make_moves(rt, port, lines, now)
    } else {
        Moves::NONE
    }
}

/// A call comes to the port's office, as `Port::arrive` says.
pub(crate) fn hand_over<R: Wait, L: Ledger, T: Trace>(
    rt: &R,
    port: &Port<L, T>,
    call: Call,
    now: u64,
    words: [u64; 2],
) -> Result<Arrived<L, T>, HallError>
    ensures slot { IfOk result (λ arrived. IsSlot arrived.slot) }
    ensures done { IfOk result (λ arrived.
        IsDoneFor call (hall_in arrived.seen.before.value.hall) (hall_in arrived.seen.after.value.hall) arrived.slot) }
    ensures refused { IfErr result IsRequestRefusal }
{
    match port.arrive(rt, call, now, words) {
        Ok(arrived) => Ok(arrived),
        Err(refused) => {
            let (why, _) = refused.split();
            Err(why)
        }
    }
}

/// A call comes to a port now, by the clock of the premises, with two random words, and then the moves that are due are made. By their
/// lines it is told which environment they reset.
///
/// It is refused: `System` (the clock or the source of random words failed), and as the port refuses it.
pub(crate) fn arrive<R: Wait + Clock + RandomSource + Eprint, L: Ledger, T: Trace>(
    rt: &R,
    port: &Port<L, T>,
    premises: &Premises,
    call: Call,
) -> Result<Handed<L, T>, ArrivalError>
    ensures slot { IfOk result (λ handed. IsSlot handed.arrived.slot) }
    ensures done { IfOk result (λ handed. IsDoneFor call (hall_in handed.arrived.seen.before.value.hall)
        (hall_in handed.arrived.seen.after.value.hall) handed.arrived.slot) }
    ensures refused { IfErr result IsArrivalError }
    ensures calls { IfOk result (λ handed. CallFor handed.arrived.issued handed.has_command handed.is_move_near) }
{
    let can_move = may_move(&call);
    let words = words_for(rt, &call)?;
    let now = premises.moment(rt)?.millis();
    let reports = ResetReport::of(&call).is_some();
    let arrived = hand_over(rt, port, call, now, words)?;
    let lines: &Lines = premises.lines();
    if !reports {
        note_timeout(rt, lines, arrived.issued());
    }
    let moves = follow(rt, port, lines, now, can_move);
    let issued = arrived.issued();
    Ok(Handed {
        arrived,
        has_command: moves.any || issued.is_some(),
        is_move_near: moves.is_one_near || puts_one_off(issued),
    })
}
