// The row that goes first.
ghost use Rattle.std.specs.Prelude.{◌≡◌, min, is_some};
ghost use Rattle.std.specs.Option.{option_copied};
ghost use Rattle.async_core.specs.Choice as meant;

use crate::situation::expiry_of;
use crate::standings::is_running;
use invoke_records::{Cause, EventRow, Kind, Outcome, Standing};

/// How an event ended, as its record is sent to one destination or the other.
#[derive(Clone, Copy)]
pub enum Side {
    Success,
    /// Its retries were exhausted, or it was too old.
    Failure,
}

/// What the table would do next: a command but for its moment, without bytes.
#[derive(Clone, Copy)]
pub struct Move {
    pub kind: Kind,
    pub id: [u8; 16],
    /// The environment of a Start, else 0.
    pub environment: u16,
}

/// By what the rows are ordered.
#[derive(Clone, Copy)]
pub enum Order {
    /// Those that ended on this side, by the number of the command that ended them.
    Ended(Side),
    /// Those that ended on this side by a later command than this one, by the number of that command.
    EndedBehind(Side, u64),
    /// Those that run and were accepted by a later command than this one, by the number of that command.
    Running(u64),
    /// Those that have a move at this moment, by the moment from which they have something to do, and then by
    /// acceptance: whether an environment is ready, and whether as many attempts run as may.
    Moving(u64, bool, bool),
}

fn start_or_throttle(is_full: bool, has_ready: bool) -> Option<Kind>
    ensures { result ≡ meant.start_or_throttle is_full has_ready }
{
    if is_full {
        return Some(Kind::Throttle);
    }
    if has_ready {
        return Some(Kind::Start);
    }
    None
}

fn move_when_due(is_full: bool, has_ready: bool, too_old: u128, now: u64, due: u64) -> Option<Kind>
    ensures { result ≡ meant.move_when_due is_full has_ready too_old now due }
{
    if too_old <= u128::from(now) {
        return Some(Kind::Expire);
    }
    if due <= now {
        return start_or_throttle(is_full, has_ready);
    }
    None
}

/// What an event would do now.
pub fn move_by(
    is_full: bool,
    has_ready: bool,
    too_old: u128,
    now: u64,
    standing: Standing,
) -> Option<Kind>
    ensures { result ≡ meant.move_by is_full has_ready too_old now standing }
{
    match standing {
        Standing::Unknown => None,
        Standing::Waiting { due } => move_when_due(is_full, has_ready, too_old, now, due),
        Standing::DueAgain { due } => move_when_due(is_full, has_ready, too_old, now, due),
        Standing::Running { deadline, .. } => {
            if deadline <= now {
                return Some(Kind::Fail(Cause::Timeout));
            }
            None
        }
        Standing::Ended { .. } => None,
    }
}

pub(crate) fn lesser(a: u64, b: u128) -> u128
    ensures { result ≡ min a b }
{
    let a = u128::from(a);
    if a < b { a } else { b }
}

pub(crate) fn ripe_by(too_old: u128, standing: Standing) -> u128
    ensures { result ≡ meant.ripe_by too_old standing }
{
    match standing {
        Standing::Waiting { due } => lesser(due, too_old),
        Standing::DueAgain { due } => lesser(due, too_old),
        Standing::Running { deadline, .. } => u128::from(deadline),
        Standing::Ended { at, .. } => u128::from(at),
        Standing::Unknown => 0,
    }
}

pub(crate) fn is_on(side: Side, outcome: Outcome) -> bool
    ensures { result ≡ meant.is_on side outcome }
{
    match side {
        Side::Success => match outcome {
            Outcome::Success => true,
            _ => false,
        },
        Side::Failure => match outcome {
            Outcome::Success => false,
            _ => true,
        },
    }
}

pub(crate) fn ended_on(side: Side, standing: Standing) -> bool
    ensures { result ≡ meant.ended_on side standing }
{
    match standing {
        Standing::Ended { outcome, .. } => is_on(side, outcome),
        _ => false,
    }
}

fn ended_rank(side: Side, row: &EventRow) -> Option<(u128, u64)>
    ensures { result ≡ meant.rank (Order.Ended side) row.now }
{
    if ended_on(side, row.standing) {
        return Some((u128::from(row.last_number), 0));
    }
    None
}

fn ended_rank_behind(side: Side, behind: u64, row: &EventRow) -> Option<(u128, u64)>
    ensures { result ≡ meant.rank (Order.EndedBehind side behind) row.now }
{
    if ended_on(side, row.standing) && behind < row.last_number {
        return Some((u128::from(row.last_number), 0));
    }
    None
}

fn running_rank(above: u64, row: &EventRow) -> Option<(u128, u64)>
    ensures { result ≡ meant.rank (Order.Running above) row.now }
{
    if is_running(row.standing) && above < row.number {
        return Some((u128::from(row.number), 0));
    }
    None
}

fn moving_rank(now: u64, has_ready: bool, is_full: bool, row: &EventRow) -> Option<(u128, u64)>
    ensures { result ≡ meant.rank (Order.Moving now has_ready is_full) row.now }
{
    let too_old = expiry_of(row);
    match move_by(is_full, has_ready, too_old, now, row.standing) {
        Some(_) => Some((ripe_by(too_old, row.standing), row.number)),
        None => None,
    }
}

/// The rank of a row, if it has one.
fn rank(order: Order, row: &EventRow) -> Option<(u128, u64)>
    ensures { result ≡ meant.rank order row.now }
{
    match order {
        Order::Ended(side) => ended_rank(side, row),
        Order::EndedBehind(side, behind) => ended_rank_behind(side, behind, row),
        Order::Running(above) => running_rank(above, row),
        Order::Moving(now, has_ready, is_full) => moving_rank(now, has_ready, is_full, row),
    }
}

/// Whether a row has a rank in this order.
pub(crate) fn is_ranked(order: Order, row: &EventRow) -> bool
    ensures { result ≡ is_some (meant.rank order row.now) }
{
    rank(order, row).is_some()
}

fn goes_before(a: (u128, u64), b: (u128, u64)) -> bool
    ensures { result ≡ meant.goes_before a b }
{
    a.0 < b.0 || (a.0 == b.0 && a.1 < b.1)
}

/// The first of some rows, or the one that comes to them.
pub(crate) fn better<'a>(
    order: Order,
    best: Option<&'a EventRow>,
    row: &'a EventRow,
) -> Option<&'a EventRow>
    ensures { meant.ChoosesAgain order (option_copied best.entry) row.now (option_copied result) }
{
    let Some(at) = rank(order, row) else {
        return best;
    };
    let Some(first) = best else {
        return Some(row);
    };
    let Some(least) = rank(order, first) else {
        return Some(row);
    };
    if goes_before(at, least) {
        Some(row)
    } else {
        Some(first)
    }
}
