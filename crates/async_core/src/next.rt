// Which event goes next. No reader takes memory.
ghost use Rattle.std.specs.Prelude.{◌≡◌, false};
ghost use Rattle.std.specs.Option.{option_copied};
ghost use Rattle.async_core.specs.Kept.{NoneExpired};
ghost use Rattle.invoke_records.specs.declared.row.EventRow.{EventRow};
ghost use Rattle.async_core.specs.Choice.{IsChosen, IsChosenAs, IsNextAt, IsNextMove, IsLegalIfFree, IsFirstRunning, IsOldestEnded, IsNextEnded, environment_for, row_move};
ghost use Rattle.async_core.specs.Histories.{ForEachHistory};
ghost use Rattle.async_core.specs.Tallies.{ended_at, ended_count};

use crate::Table;
use crate::choice::{Move, Order, Side, is_ranked, move_by};
use crate::held::Held;
use crate::keys::Index;
use crate::situation::expiry_of;
use invoke_records::{EventRow, Kind};
use retry_rules::Settings;

fn environment_for(ready_env: Option<u16>, kind: Kind) -> u16
    ensures { result ≡ environment_for ready_env kind }
{
    match kind {
        Kind::Start => match ready_env {
            Some(environment) => environment,
            None => 0,
        },
        _ => 0,
    }
}

fn move_of_row(row: &EventRow, is_full: bool, now: u64, ready_env: Option<u16>) -> Option<Move>
    ensures { result ≡ row_move is_full now ready_env row.now }
{
    let too_old = expiry_of(row);
    match move_by(is_full, ready_env.is_some(), too_old, now, row.standing) {
        Some(kind) => Some(Move {
            kind,
            id: row.id,
            environment: environment_for(ready_env, kind),
        }),
        None => None,
    }
}

/// Whether an event that waits for an attempt is too old.
fn has_expired(held: &Held, now: u64) -> bool
    ensures { result ≡ false → NoneExpired now held.now }
{
    match held.first_in(Index::Idle, 0, None) {
        Some(row) => expiry_of(row) <= u128::from(now),
        None => false,
    }
}

/// The row that moves first where no environment is ready and fewer run than may: the first that is ripe, if it has a
/// move, and else the first of those whose deadline has passed and of those that are too old. Behind the first it looks
/// at no event that waits for an environment.
fn first_expiring(held: &Held, now: u64) -> Option<&EventRow>
    ensures { IsChosen (Order.Moving now false false) held.now (option_copied result) }
{
    let order = Order::Moving(now, false, false);
    let Some(ripe) = held.first_in(Index::Ripe, 0, Some(now)) else {
        return None;
    };
    if is_ranked(order, ripe) {
        return Some(ripe);
    }
    let late = held.first_in(Index::Deadline, 0, Some(now));
    held.first_up_to(order, Index::Idle, now, late)
}

/// The row that makes the next move, found by the indexes.
fn first_moving(held: &Held, now: u64, has_ready: bool, is_full: bool) -> Option<&EventRow>
    ensures { IsChosen (Order.Moving now has_ready is_full) held.now (option_copied result) }
{
    if is_full || has_ready {
        return held.first_in(Index::Ripe, 0, Some(now));
    }
    if has_expired(held, now) {
        return first_expiring(held, now);
    }
    held.first_in(Index::Deadline, 0, Some(now))
}

fn next_move_in(held: &Held, settings: &Settings, now: u64, ready_env: Option<u16>) -> Option<Move>
    ensures { IsNextAt settings.now held.now now ready_env result }
{
    let is_full = settings.concurrency as usize <= held.running();
    match first_moving(held, now, ready_env.is_some(), is_full) {
        Some(row) => move_of_row(row, is_full, now, ready_env),
        None => None,
    }
}

fn running_after(held: &Held, after: u64) -> Option<&EventRow>
    ensures { IsChosen (Order.Running after) held.now (option_copied result) }
{
    held.first_in(Index::Running, u128::from(after) + 1, None)
}

fn ended_first(held: &Held, side: Side) -> Option<&EventRow>
    ensures { IsChosen (Order.Ended side) held.now (option_copied result) }
{
    match side {
        Side::Success => held.first_in(Index::Success, 0, None),
        Side::Failure => held.first_in(Index::Failure, 0, None),
    }
}

fn ended_behind(held: &Held, side: Side, behind: u64) -> Option<&EventRow>
    ensures { IsChosen (Order.EndedBehind side behind) held.now (option_copied result) }
{
    let low = u128::from(behind) + 1;
    match side {
        Side::Success => held.first_in(Index::Success, low, None),
        Side::Failure => held.first_in(Index::Failure, low, None),
    }
}

fn first_running(held: &Held, after: u64) -> Option<(u64, [u8; 16])>
    ensures { IsChosenAs (Order.Running after) held.now (λ (r : EventRow). (r.number, r.id)) result }
{
    match running_after(held, after) {
        Some(row) => Some((row.number, row.id)),
        None => None,
    }
}

fn first_ended(held: &Held, side: Side) -> Option<[u8; 16]>
    ensures { IsChosenAs (Order.Ended side) held.now (λ (r : EventRow). r.id) result }
{
    match ended_first(held, side) {
        Some(row) => Some(row.id),
        None => None,
    }
}

impl Table {
    /// The running event that was accepted first after this command number: the number of the command that accepted
    /// it, and its id.
    pub fn next_running(&self, after: u64) -> Option<(u64, [u8; 16])>
        // claim: The running event accepted first, and the event that ended first on a side, are those of the history.
        // [Table::oldest_ended]
        ensures by_row { IsChosenAs (Order.Running after) self.now.table.rows (λ (r : EventRow). (r.number, r.id)) result }
        ensures by_history { ForEachHistory self.now (λ s history. IsFirstRunning s history after result) }
    {
        first_running(&self.held, after)
    }

    /// The event that ended first of those held that ended on this side.
    pub fn oldest_ended(&self, side: Side) -> Option<[u8; 16]>
        ensures by_row { IsChosenAs (Order.Ended side) self.now.table.rows (λ (r : EventRow). r.id) result }
        ensures by_history { ForEachHistory self.now (λ s history. IsOldestEnded s history side result) }
    {
        first_ended(&self.held, side)
    }

    /// The row of the event that ended first of those held that ended on this side by a later command than this one.
    pub fn next_ended(&self, side: Side, behind: u64) -> Option<&EventRow>
        // claim: The event that ended next on a side, behind a command, is that of the history, with its row.
        ensures by_row { IsChosen (Order.EndedBehind side behind) self.now.table.rows (option_copied result) }
        ensures by_history { ForEachHistory self.now (λ s history. IsNextEnded s history side behind (option_copied result)) }
    {
        ended_behind(&self.held, side, behind)
    }

    /// How many of the events that are held have ended on this side: records that wait to be collected.
    pub fn ended_count(&self, side: Side) -> usize
        // claim: A table counts the events that have ended on a side as the history has them.
        ensures by_row { result ≡ ended_at side self.now.table.rows }
        ensures by_history { ForEachHistory self.now (λ s history. result ≡ ended_count s history side) }
    {
        self.held.ended(side)
    }

    /// What is to be done next at this moment, where this environment is ready or none is: the move of the event that
    /// has something to do since the earliest moment, and of those the one that was accepted first.
    pub fn next_move(&self, now: u64, ready_env: Option<u16>) -> Option<Move>
        // claim: The next move is that of the history. It is legal no earlier than the last command, in a free environment.
        ensures by_row { IsNextAt self.now.settings self.now.table.rows now ready_env result }
        ensures by_history { ForEachHistory self.now (λ s history. IsNextMove s history now ready_env result) }
        ensures legal { ForEachHistory self.now (λ s history. IsLegalIfFree s history now ready_env result) }
    {
        next_move_in(&self.held, &self.settings, now, ready_env)
    }
}
