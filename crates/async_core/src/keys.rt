// Indexes of the rows: one ordered set of keys, each with the place of its row. So one loop adds and drops an event's keys, and one
// takes them back where memory is refused. New keys come before the old ones go.
ghost use Rattle.std.specs.Prelude.{◌≡◌, OnOk, OnErr, Some, None, if◌then◌else◌, ◌==◌, [], ◌∷◌};
ghost use Rattle.std.specs.BTreeSet as sorted;
ghost use Rattle.async_core.specs.Keys as meant;

use crate::choice::{Side, is_on, lesser};
use crate::situation::too_old_from;
use invoke_records::{EventRow, Standing};
use std::alloc::AllocError;
use std::collections::BTreeSet;

/// An order in which some of the rows stand.
#[derive(Clone, Copy)]
pub enum Index {
    /// Those that have not ended, by the moment from which they have something to do, and then by acceptance.
    Ripe,
    /// Those that run, by their deadline, and then by acceptance.
    Deadline,
    /// Those that run, by acceptance.
    Running,
    /// Those that run, by their environment.
    Environment,
    /// Those that wait for an attempt, by the moment from which they are too old.
    Idle,
    /// Those that ended with a success, by the command that ended them.
    Success,
    /// Those that ended with a failure, by the command that ended them.
    Failure,
}

/// The rank of an index, two numbers by which it is ordered, and the place of a row.
pub type Key = (u8, u128, u64, u64);

/// Where an index stands among the others in the set.
pub fn rank(index: Index) -> u8
    ensures { result ≡ meant.index_rank index }
{
    match index {
        Index::Ripe => 0,
        Index::Deadline => 1,
        Index::Running => 2,
        Index::Environment => 3,
        Index::Idle => 4,
        Index::Success => 5,
        Index::Failure => 6,
    }
}

/// What the keys of an event depend on.
#[derive(Clone, Copy)]
pub struct Facts {
    pub accepted: u64,
    /// From which age on the event is too old, in seconds.
    pub age: u32,
    pub number: u64,
    pub last_number: u64,
    pub standing: Standing,
}

/// The facts of a row.
pub fn facts_of(row: &EventRow) -> Facts
    ensures { result ≡ meant.facts_of row.now }
{
    Facts {
        accepted: row.accepted,
        age: row.policy.age,
        number: row.number,
        last_number: row.last_number,
        standing: row.standing,
    }
}

/// The moment from which the event is too old.
fn expiry(facts: Facts) -> u128
    ensures { result ≡ meant.expiry facts }
{
    too_old_from(facts.accepted, facts.age)
}

fn ripe_key(facts: Facts) -> Option<(u128, u64)>
    ensures { result ≡ meant.ripe_key facts facts.standing }
{
    let too_old = expiry(facts);
    match facts.standing {
        Standing::Waiting { due } => Some((lesser(due, too_old), facts.number)),
        Standing::DueAgain { due } => Some((lesser(due, too_old), facts.number)),
        Standing::Running { deadline, .. } => Some((u128::from(deadline), facts.number)),
        _ => None,
    }
}

fn deadline_key(facts: Facts) -> Option<(u128, u64)>
    ensures { result ≡ meant.deadline_key facts facts.standing }
{
    match facts.standing {
        Standing::Running { deadline, .. } => Some((u128::from(deadline), facts.number)),
        _ => None,
    }
}

fn running_key(facts: Facts) -> Option<(u128, u64)>
    ensures { result ≡ meant.running_key facts facts.standing }
{
    match facts.standing {
        Standing::Running { .. } => Some((u128::from(facts.number), 0)),
        _ => None,
    }
}

fn environment_key(facts: Facts) -> Option<(u128, u64)>
    ensures { result ≡ meant.environment_key facts facts.standing }
{
    match facts.standing {
        Standing::Running { environment, .. } => Some((u128::from(environment), 0)),
        _ => None,
    }
}

fn idle_key(facts: Facts) -> Option<(u128, u64)>
    ensures { result ≡ meant.idle_key facts facts.standing }
{
    match facts.standing {
        Standing::Waiting { .. } => Some((expiry(facts), 0)),
        Standing::DueAgain { .. } => Some((expiry(facts), 0)),
        _ => None,
    }
}

fn ended_key(side: Side, facts: Facts) -> Option<(u128, u64)>
    ensures { result ≡ meant.ended_key side facts facts.standing }
{
    match facts.standing {
        Standing::Ended { outcome, .. } => {
            if is_on(side, outcome) {
                return Some((u128::from(facts.last_number), 0));
            }
            None
        }
        _ => None,
    }
}

/// Where an event stands in an index, if it stands there.
fn key_in(facts: Facts, index: Index) -> Option<(u128, u64)>
    ensures { result ≡ meant.key_in facts index }
{
    match index {
        Index::Ripe => ripe_key(facts),
        Index::Deadline => deadline_key(facts),
        Index::Running => running_key(facts),
        Index::Environment => environment_key(facts),
        Index::Idle => idle_key(facts),
        Index::Success => ended_key(Side::Success, facts),
        Index::Failure => ended_key(Side::Failure, facts),
    }
}

fn add_key(
    keys: &mut BTreeSet<Key>,
    place: u64,
    facts: Facts,
    index: Index,
) -> Result<(), AllocError>
    ensures ok { OnOk result (meant.AddsKeys place (Some facts) (index ∷ []) keys.old keys.new) }
    ensures err { OnErr result (sorted.IsUnchanged keys.old keys.new) }
{
    if let Some(at) = key_in(facts, index) {
        keys.insert((rank(index), at.0, at.1, place))?;
    }
    Ok(())
}

/// Whether an event with these facts, if there is one, stands there in an index.
fn has_key(facts: Option<Facts>, index: Index, at: (u128, u64)) -> bool
    ensures { result ≡ meant.has_key facts index at.0 at.1 }
{
    match facts {
        Some(facts) => match key_in(facts, index) {
            Some(key) => key.0 == at.0 && key.1 == at.1,
            None => false,
        },
        None => false,
    }
}

fn drop_key(keys: &mut BTreeSet<Key>, place: u64, gone: Facts, kept: Option<Facts>, index: Index)
    ensures { meant.DropsKeys place (Some gone) kept (index ∷ []) keys.old keys.new }
{
    let Some(at) = key_in(gone, index) else {
        return;
    };
    if has_key(kept, index, at) {
        return;
    }
    let _ = keys.remove(&(rank(index), at.0, at.1, place));
}

/// Adds the keys of an event in these indexes.
fn add_keys(
    keys: &mut BTreeSet<Key>,
    place: u64,
    facts: Facts,
    indexes: &[Index],
) -> Result<(), AllocError>
    ensures ok { OnOk result (meant.AddsKeys place (Some facts) indexes.now keys.old keys.new) }
    ensures err { OnErr result (meant.AddsSome place (Some facts) keys.old keys.new) }
{
    for index in indexes {
        add_key(keys, place, facts, *index)?;
    }
    Ok(())
}

/// Drops the keys of an event in these indexes, save those that it keeps.
fn drop_keys(
    keys: &mut BTreeSet<Key>,
    place: u64,
    gone: Facts,
    kept: Option<Facts>,
    indexes: &[Index],
)
    ensures { meant.DropsKeys place (Some gone) kept indexes.now keys.old keys.new }
{
    for index in indexes {
        drop_key(keys, place, gone, kept, *index);
    }
}

/// Changes the keys of the event at a place. A refusal, for want of memory, leaves those that there were.
pub fn switch_keys(
    keys: &mut BTreeSet<Key>,
    place: u64,
    old: Facts,
    new: Facts,
) -> Result<(), AllocError>
    ensures ok { OnOk result (meant.Switches place (Some old) (Some new) keys.old keys.new) }
    ensures err { OnErr result (meant.StaysAt place (Some old) keys.old keys.new) }
{
    let indexes = [
        Index::Ripe,
        Index::Deadline,
        Index::Running,
        Index::Environment,
        Index::Idle,
        Index::Success,
        Index::Failure,
    ];
    if let Err(error) = add_keys(keys, place, new, &indexes) {
        drop_keys(keys, place, new, Some(old), &indexes);
        return Err(error);
    }
    drop_keys(keys, place, old, Some(new), &indexes);
    Ok(())
}

/// Adds the keys of an event at a place that had none. A refusal, for want of memory, leaves those that there were.
pub fn insert_keys(keys: &mut BTreeSet<Key>, place: u64, new: Facts) -> Result<(), AllocError>
    ensures ok { OnOk result (meant.Switches place None (Some new) keys.old keys.new) }
    ensures err { OnErr result (meant.StaysAt place None keys.old keys.new) }
{
    let indexes = [
        Index::Ripe,
        Index::Deadline,
        Index::Running,
        Index::Environment,
        Index::Idle,
        Index::Success,
        Index::Failure,
    ];
    if let Err(error) = add_keys(keys, place, new, &indexes) {
        drop_keys(keys, place, new, None, &indexes);
        return Err(error);
    }
    Ok(())
}

/// Drops the keys of the event at a place. It takes no memory.
pub fn remove_keys(keys: &mut BTreeSet<Key>, place: u64, old: Facts)
    ensures { meant.Switches place (Some old) None keys.old keys.new }
{
    let indexes = [
        Index::Ripe,
        Index::Deadline,
        Index::Running,
        Index::Environment,
        Index::Idle,
        Index::Success,
        Index::Failure,
    ];
    drop_keys(keys, place, old, None, &indexes);
}

/// The first key in an index from these two numbers on, and the place of its row.
pub fn first_key(keys: &BTreeSet<Key>, index: Index, low: (u128, u64)) -> Option<(u128, u64, u64)>
    ensures { meant.IsFirstKey keys.now index low result }
{
    let rank = rank(index);
    let Some(first) = keys.range((rank, low.0, low.1, 0)..).next() else {
        return None;
    };
    if first.0 == rank {
        return Some((first.1, first.2, first.3));
    }
    None
}
