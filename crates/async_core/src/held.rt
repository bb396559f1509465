// The events that are held: their rows in the order of acceptance, found by id and by the indexes.
ghost use Rattle.std.specs.Prelude.{◌≡◌, ◌++◌, ◌∷◌, [], ◌<◌, ◌^◌, length, find, option_map, OnOk, OnErr, IfOk};
ghost use Rattle.std.specs.Option.{option_copied};
ghost use Rattle.std.specs.BTreeMap as tree;
ghost use Rattle.std.specs.Map.{values_of};
ghost use Rattle.std.specs.Cmp.Lexicographic.{pointwise};
ghost use Rattle.async_core.specs.Equality as meant;
ghost use Rattle.async_core.specs.Rules.{has_id, remove_row, running_at};
ghost use Rattle.async_core.specs.Tallies.{ended_at};
ghost use Rattle.async_core.specs.Steps as step;
ghost use Rattle.async_core.specs.Ids.{PutsRow, TakesRow, SetsRow, ForRowAt};
ghost use Rattle.async_core.specs.Kept.{Enters, StaysOut, ChoosesByKeys, ChoosesUpTo};
ghost use Rattle.async_core.specs.Keys as keyed;
ghost use Rattle.async_core.specs.Keys.{within, row_key, IsFirstBy};

use crate::changes::{standing_after, update};
use crate::choice::{Order, Side, better};
use crate::copies::copy_row;
use crate::equality::same_row;
use crate::ids::first_place;
use crate::keys::{
    Facts, Index, Key, facts_of, first_key, insert_keys, rank, remove_keys, switch_keys,
};
use crate::tally::Tally;
use invoke_records::{Answer, Command, EventRow, Standing};
use retry_rules::Settings;
use std::alloc::{AllocError, Global};
use std::collections::btree_map::Values;
use std::collections::{BTreeMap, BTreeSet};
use std::marker::Model;

/// The rows of the events that are held. Each has a place, and places ascend in the order of acceptance. It is not the number of
/// the acceptance, since a table that was read may have rows out of order, or with equal numbers or ids.
#[derive(Drop)]
pub(crate) struct Held {
    rows: BTreeMap<u64, EventRow>,
    /// Each row's id with its place.
    ids: BTreeSet<([u8; 16], u64)>,
    keys: BTreeSet<Key>,
    tally: Tally,
    /// The place of the row that comes next.
    next: u64,
}

impl Model for Held {
    ghost use Rattle.std.specs.Map.{values_of};
    ghost use Rattle.std.specs.Prelude.{List};
    ghost use Rattle.invoke_records.specs.declared.row.EventRow.{EventRow};
    ghost use Rattle.async_core.specs.Kept.{IsIndexed};

    ghost Value = { List EventRow };

    ghost view = { λ h. values_of h.rows.entries };

    ghost invariant = { λ h. IsIndexed h.rows h.ids h.keys h.tally h.next };
}

fn put_row(rows: &mut BTreeMap<u64, EventRow>, place: u64, row: EventRow) -> Result<(), AllocError>
    ensures ok { OnOk result (PutsRow rows.old place row rows.new) }
    ensures err { OnErr result (tree.IsUnchanged rows.old rows.new) }
{
    rows.insert(place, row)?;
    Ok(())
}

fn take_row(rows: &mut BTreeMap<u64, EventRow>, place: u64)
    ensures { TakesRow rows.old place rows.new }
{
    let _row = rows.remove(&place);
}

/// Changes the row at a place.
fn change_row(
    rows: &mut BTreeMap<u64, EventRow>,
    place: u64,
    settings: &Settings,
    number: u64,
    command: &Command,
    answer: Option<Answer>,
)
    requires time { command.now.time < 2 ^ 63 }
    requires answer { step.Brings command.now answer }
    ensures { ForRowAt rows.old place (λ r. SetsRow rows.old place (step.row_with settings.now number command.now r) rows.new) }
{
    if let Some(row) = rows.get_mut(&place) {
        update(row, settings, number, command, answer);
    }
}

/// Enters an id and its keys at a place. A refusal, for want of memory, leaves all as it was.
fn enter(
    ids: &mut BTreeSet<([u8; 16], u64)>,
    keys: &mut BTreeSet<Key>,
    place: u64,
    id: [u8; 16],
    facts: Facts,
) -> Result<(), AllocError>
    ensures ok { OnOk result (Enters place id facts ids.old ids.new keys.old keys.new) }
    ensures err { OnErr result (StaysOut place ids.old ids.new keys.old keys.new) }
{
    ids.insert((id, place))?;
    if let Err(error) = insert_keys(keys, place, facts) {
        let _ = ids.remove(&(id, place));
        return Err(error);
    }
    Ok(())
}

/// The row that goes first in this order: of some rows where this one goes first, if there is one, and of those whose
/// keys in an index are up to this number.
fn first_by_keys<'a>(
    rows: &'a BTreeMap<u64, EventRow>,
    keys: &BTreeSet<Key>,
    order: Order,
    index: Index,
    last: u64,
    first: Option<&'a EventRow>,
) -> Option<&'a EventRow>
    ensures { ChoosesByKeys order rows.now keys.now index last (option_copied first.entry) (option_copied result) }
{
    let rank = rank(index);
    let mut best = first;
    for key in keys.range((rank, 0, 0, 0)..(rank, u128::from(last) + 1, 0, 0)) {
        if let Some(row) = rows.get(&key.3) {
            best = better(order, best, row);
        }
    }
    best
}

fn copies_of(rows: &BTreeMap<u64, EventRow>, alloc: Global) -> Result<Vec<EventRow>, AllocError>
    ensures { IfOk result (λ copies. copies.items ≡ values_of rows.now.entries) }
{
    let mut copies = Vec::with_capacity(alloc, rows.len())?;
    for row in rows.values() {
        let copy = copy_row(row)?;
        copies.push(copy)?;
    }
    Ok(copies)
}

fn have_same_rows(a: &BTreeMap<u64, EventRow>, b: &BTreeMap<u64, EventRow>) -> bool
    ensures { result ≡ pointwise meant.same_row (values_of a.now.entries) (values_of b.now.entries) }
{
    let mut others = b.values();
    for row in a.values() {
        let Some(other) = others.next() else {
            return false;
        };
        if !same_row(row, other) {
            return false;
        }
    }
    others.next().is_none()
}

fn is_within(low: u128, last: Option<u64>, at: (u128, u64)) -> bool
    ensures { result ≡ within low last at }
{
    match last {
        Some(last) => low <= at.0 && at.0 <= u128::from(last),
        None => low <= at.0,
    }
}

impl Held {
    /// None. It takes no memory.
    pub(crate) fn new(alloc: Global) -> Held
        ensures { result ≡ [] }
    {
        Held {
            rows: BTreeMap::new(alloc),
            ids: BTreeSet::new(alloc),
            keys: BTreeSet::new(alloc),
            tally: Tally::empty(),
            next: 0,
        }
    }

    /// How many there are.
    pub(crate) fn len(&self) -> usize
        ensures { result ≡ length self.now }
    {
        self.rows.len()
    }

    /// How many of them run.
    pub(crate) fn running(&self) -> usize
        ensures { result ≡ running_at self.now }
    {
        self.tally.running
    }

    /// How many of them have ended on this side.
    pub(crate) fn ended(&self, side: Side) -> usize
        ensures { result ≡ ended_at side self.now }
    {
        self.tally.ended(side)
    }

    /// The first row of this id.
    pub(crate) fn find(&self, id: &[u8; 16]) -> Option<&EventRow>
        ensures { option_map (λ r. r.now) result ≡ find (has_id id.now) self.now }
    {
        match first_place(&self.ids, id) {
            Some(place) => self.rows.get(&place),
            None => None,
        }
    }

    /// The first row in an index whose first number is at least this one, and at most that one if one is given.
    pub(crate) fn first_in(&self, index: Index, low: u128, last: Option<u64>) -> Option<&EventRow>
        ensures { IsFirstBy (row_key index low last) self.now (option_copied result) }
    {
        let Some(first) = first_key(&self.keys, index, (low, 0)) else {
            return None;
        };
        if !is_within(low, last, (first.0, first.1)) {
            return None;
        }
        self.rows.get(&first.2)
    }

    /// The row that goes first in this order: of some rows where this one goes first, if there is one, and of those
    /// that stand in an index up to this number. It looks at no other row.
    pub(crate) fn first_up_to<'a>(
        &'a self,
        order: Order,
        index: Index,
        last: u64,
        first: Option<&'a EventRow>,
    ) -> Option<&'a EventRow>
        ensures { ChoosesUpTo order self.now index last (option_copied first.entry) (option_copied result) }
    {
        first_by_keys(&self.rows, &self.keys, order, index, last, first)
    }

    /// The rows, by reference.
    pub(crate) fn rows(&self) -> Values<'_, u64, EventRow>
        ensures rows { result ≡ self.now }
        ensures fits { length result < 2 ^ 63 }
    {
        self.rows.values()
    }

    /// Equal rows in memory of their own.
    pub(crate) fn copies(&self, alloc: Global) -> Result<Vec<EventRow>, AllocError>
        ensures { IfOk result (λ copies. copies.items ≡ self.now) }
    {
        copies_of(&self.rows, alloc)
    }

    /// Whether both have the same rows.
    pub(crate) fn has_same_rows(&self, other: &Held) -> bool
        ensures { result ≡ pointwise meant.same_row self.now other.now }
    {
        have_same_rows(&self.rows, &other.rows)
    }

    /// Adds a row behind the others. A refusal, for want of memory, changes nothing.
    pub(crate) fn push(&mut self, row: EventRow) -> Result<(), AllocError>
        ensures ok { OnOk result (self.new ≡ (self.old ++ row ∷ [])) }
        ensures err { OnErr result (self.new ≡ self.old) }
    {
        let place = self.next;
        let facts = facts_of(&row);
        let _held = self.rows.len();
        let tally = self.tally.with(Standing::Unknown, row.standing);
        let id = row.id;
        let Some(next) = place.checked_add(1) else {
            return Err(AllocError);
        };
        enter(&mut self.ids, &mut self.keys, place, id, facts)?;
        if let Err(error) = put_row(&mut self.rows, place, row) {
            remove_keys(&mut self.keys, place, facts);
            let _ = self.ids.remove(&(id, place));
            return Err(error);
        }
        self.tally = tally;
        self.next = next;
        Ok(())
    }

    /// Takes the first row of this id away. It takes no memory.
    pub(crate) fn remove(&mut self, id: &[u8; 16])
        ensures { self.new ≡ (remove_row id.now self.old) }
    {
        if let Some(place) = first_place(&self.ids, id) {
            if let Some(row) = self.rows.get(&place) {
                let _held = self.rows.len();
                let facts = facts_of(row);
                let tally = self.tally.with(facts.standing, Standing::Unknown);
                remove_keys(&mut self.keys, place, facts);
                let id = *id;
                let _ = self.ids.remove(&(id, place));
                take_row(&mut self.rows, place);
                self.tally = tally;
            }
        }
    }

    /// Changes the first row of the command's event. A refusal, for want of memory, changes nothing.
    pub(crate) fn change(
        &mut self,
        settings: &Settings,
        number: u64,
        command: &Command,
        answer: Option<Answer>,
    ) -> Result<(), AllocError>
        requires time { command.now.time < 2 ^ 63 }
        requires answer { step.Brings command.now answer }
        ensures ok { OnOk result (self.new ≡ (step.rows_changed settings.now number command.now self.old)) }
        ensures err { OnErr result (self.new ≡ self.old) }
    {
        let Some(place) = first_place(&self.ids, &command.id) else {
            return Ok(());
        };
        let Some(row) = self.rows.get(&place) else {
            return Ok(());
        };
        let _held = self.rows.len();
        let old = facts_of(row);
        let new = changed_facts(row, settings, number, command);
        let tally = self.tally.with(old.standing, new.standing);
        switch_keys(&mut self.keys, place, old, new)?;
        self.tally = tally;
        change_row(&mut self.rows, place, settings, number, command, answer);
        Ok(())
    }
}

/// The facts of a row after the command.
fn changed_facts(row: &EventRow, settings: &Settings, number: u64, command: &Command) -> Facts
    requires { command.now.time < 2 ^ 63 }
    ensures { result ≡ keyed.facts_of (step.row_with settings.now number command.now row.now) }
{
    Facts {
        accepted: row.accepted,
        age: row.policy.age,
        number: row.number,
        last_number: number,
        standing: standing_after(settings, row.policy, command, row.failures, row.push_backs),
    }
}
