// What a table says of one event. No reader takes memory.
ghost use Rattle.std.specs.Prelude.{◌≡◌, Some, IfOk, find, option_map};
ghost use Rattle.std.specs.Option.{option_copied};
ghost use Rattle.async_core.specs.Readers.{told, outcome_by, accepted_at, accepted_after, payload_at, payload_after, counts_at, counts_after, judge_at, judge_after, ending_at, ending_after};
ghost use Rattle.async_core.specs.Rules.{has_id, row_at, standing_at};
ghost use Rattle.async_core.specs.History.{standing_in, in_force};
ghost use Rattle.async_core.specs.Policies.{pair_of};
ghost use Rattle.async_core.specs.Histories.{ForEachLegalHistory};

use crate::Table;
use crate::copies::copy_row;
use crate::held::Held;
use invoke_records::{Answer, EventRow, Outcome, Standing};
use std::alloc::AllocError;

/// An event that has ended, as its destination record tells it.
#[derive(Clone, Copy)]
pub struct Ended<'a> {
    pub id: &'a [u8; 16],
    pub payload: &'a [u8],
    /// What a runtime answered last.
    pub answer: &'a Answer,
    pub outcome: Outcome,
    /// When it ended, in milliseconds since 1970.
    pub at: u64,
    /// How many attempts were started.
    pub starts: u32,
}

fn row_in(held: &Held, id: &[u8; 16]) -> Result<Option<EventRow>, AllocError>
    ensures { IfOk result (λ row. row ≡ find (has_id id.now) held.now) }
{
    match held.find(id) {
        Some(row) => Ok(Some(copy_row(row)?)),
        None => Ok(None),
    }
}

fn accepted_in(held: &Held, id: &[u8; 16]) -> Option<u64>
    ensures { result ≡ accepted_at (find (has_id id.now) held.now) }
{
    match held.find(id) {
        Some(row) => Some(row.accepted),
        None => None,
    }
}

fn payload_in<'a>(held: &'a Held, id: &[u8; 16]) -> Option<&'a [u8]>
    ensures { option_copied result ≡ payload_at (find (has_id id.now) held.now) }
{
    match held.find(id) {
        Some(row) => Some(row.payload.as_slice()),
        None => None,
    }
}

fn counts_in_rows(held: &Held, id: &[u8; 16]) -> Option<(u32, u32, u32)>
    ensures { result ≡ counts_at (find (has_id id.now) held.now) }
{
    match held.find(id) {
        Some(row) => Some((row.starts, row.failures, row.push_backs)),
        None => None,
    }
}

fn judge_in(held: &Held, id: &[u8; 16]) -> Option<(u8, u32)>
    ensures { result ≡ judge_at (find (has_id id.now) held.now) }
{
    match held.find(id) {
        Some(row) => Some((row.policy.retries, row.policy.age)),
        None => None,
    }
}

fn ending_of(row: &EventRow) -> Option<Ended<'_>>
    ensures { option_map told result ≡ ending_at (Some row.now) }
{
    match row.standing {
        Standing::Ended { outcome, at } => Some(Ended {
            id: &row.id,
            payload: row.payload.as_slice(),
            answer: &row.answer,
            outcome,
            at,
            starts: row.starts,
        }),
        _ => None,
    }
}

fn ended_in<'a>(held: &'a Held, id: &[u8; 16]) -> Option<Ended<'a>>
    ensures { option_map told result ≡ ending_at (find (has_id id.now) held.now) }
{
    match held.find(id) {
        Some(row) => ending_of(row),
        None => None,
    }
}

impl Table {
    /// The retries and the age, in seconds, that are in force for the events that are accepted next: those of the last
    /// Configure, or of the settings where there was none. It takes no memory.
    pub fn in_force(&self) -> (u8, u32)
        // claim: What is in force is that of the last Configure in the history, or of the settings.
        ensures by_table { result ≡ pair_of self.now.table.policy }
        ensures by_history { ForEachLegalHistory self.now (λ s history. result ≡ pair_of (in_force s history)) }
    {
        let policy = self.policy();
        (policy.retries, policy.age)
    }

    /// The row of an event, if it is held, in memory of its own.
    pub fn row(&self, id: &[u8; 16]) -> Result<Option<EventRow>, AllocError>
        // claim: A table copies the row of one event.
        ensures { IfOk result (λ row. row ≡ row_at self.now.table id.now) }
    {
        row_in(&self.held, id)
    }

    /// How an event ended, if it is held and has ended.
    pub fn outcome(&self, id: &[u8; 16]) -> Option<Outcome>
        ensures by_row { result ≡ outcome_by (standing_at self.now.table id.now) }
        ensures by_history { ForEachLegalHistory self.now (λ s history. result ≡ outcome_by (standing_in s history id.now)) }
    {
        match self.standing(id) {
            Standing::Ended { outcome, .. } => Some(outcome),
            _ => None,
        }
    }

    /// When an event was accepted, in milliseconds since 1970.
    pub fn accepted(&self, id: &[u8; 16]) -> Option<u64>
        ensures by_row { result ≡ accepted_at (row_at self.now.table id.now) }
        ensures by_history { ForEachLegalHistory self.now (λ s history. result ≡ accepted_after id.now history) }
    {
        accepted_in(&self.held, id)
    }

    /// The payload of an event.
    pub fn payload<'a>(&'a self, id: &[u8; 16]) -> Option<&'a [u8]>
        ensures by_row { option_copied result ≡ payload_at (row_at self.now.table id.now) }
        ensures by_history { ForEachLegalHistory self.now (λ s history. option_copied result ≡ payload_after id.now history) }
    {
        payload_in(&self.held, id)
    }

    /// How often an event was started, has failed, and was pushed back since it last failed.
    pub fn counts(&self, id: &[u8; 16]) -> Option<(u32, u32, u32)>
        ensures by_row { result ≡ counts_at (row_at self.now.table id.now) }
        ensures by_history { ForEachLegalHistory self.now (λ s history. result ≡ counts_after id.now history) }
    {
        counts_in_rows(&self.held, id)
    }

    /// The retries and the age, in seconds, by which an event is judged: what was in force just before it was accepted.
    pub fn judged_by(&self, id: &[u8; 16]) -> Option<(u8, u32)>
        // claim: What an event is judged by is what was in force at its acceptance.
        ensures by_row { result ≡ judge_at (row_at self.now.table id.now) }
        ensures by_history { ForEachLegalHistory self.now (λ s history. result ≡ judge_after s id.now history) }
    {
        judge_in(&self.held, id)
    }

    /// What an event that has ended leaves, if it is held and has ended.
    pub fn ended<'a>(&'a self, id: &[u8; 16]) -> Option<Ended<'a>>
        ensures by_row { option_map told result ≡ ending_at (row_at self.now.table id.now) }
        ensures by_history { ForEachLegalHistory self.now (λ s history. option_map told result ≡ ending_after s id.now history) }
    {
        ended_in(&self.held, id)
    }
}
