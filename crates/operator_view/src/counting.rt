// The numbers of a table's events.
ghost use Rattle.std.specs.Prelude.{◌≡◌, ◌<◌, ◌+◌, ◌^◌, ◌++◌, ◌∷◌, [], ℕ, List, length, if◌then◌else◌};
ghost use Rattle.invoke_records.specs.declared.row.EventRow.{EventRow};
ghost use Rattle.operator_view.specs.Census.{IsCensus, oldest_waiting, least};
ghost use Rattle.operator_view.specs.Tally.{IsTally};

use crate::moments::{deadline_of, due_of, end_of, expires_soon, is_due};
use crate::numbers::{Census, Tally};
use crate::standings::{ended_with, is_due_again, is_running, is_waiting, waits};
use async_core::Table;
use invoke_records::{EventRow, Outcome};

// One more, where there is one.
fn counted(count: usize, is_one: bool) -> usize
    ensures { count < 2 ^ 63 → result ≡ count + (if is_one then 1 else 0) }
{
    if is_one {
        count.saturating_add(1)
    } else {
        count
    }
}

// The earlier of two moments, as far as there are any.
fn earlier(one: Option<u64>, other: Option<u64>) -> Option<u64>
    ensures { (all more : List ℕ) → one ≡ least all → other ≡ least more → result ≡ least (all ++ more) }
{
    match (one, other) {
        (Some(one), Some(other)) => Some(one.min(other)),
        (Some(one), None) => Some(one),
        (None, other) => other,
    }
}

// When it was accepted, if it waits and none before it does.
fn first_waiting(before: Option<u64>, row: &EventRow) -> Option<u64>
    ensures { (rows : List EventRow) → before ≡ oldest_waiting rows → result ≡ oldest_waiting (rows ++ row.now ∷ []) }
{
    match before {
        Some(before) => Some(before),
        None if waits(row.standing) => Some(row.accepted),
        None => None,
    }
}

// A census with one event more.
fn census_with(census: &Census, row: &EventRow) -> Census
    ensures { (rows : List EventRow) → length rows < 2 ^ 63 → IsCensus rows census.now → IsCensus (rows ++ row.now ∷ []) result }
{
    let standing = row.standing;
    Census {
        held: counted(census.held, true),
        waiting: counted(census.waiting, is_waiting(standing)),
        due_again: counted(census.due_again, is_due_again(standing)),
        running: counted(census.running, is_running(standing)),
        success: counted(census.success, ended_with(standing, Outcome::Success)),
        retries_exhausted: counted(
            census.retries_exhausted,
            ended_with(standing, Outcome::RetriesExhausted),
        ),
        event_age_exceeded: counted(
            census.event_age_exceeded,
            ended_with(standing, Outcome::EventAgeExceeded),
        ),
    }
}

// A tally with one event more.
fn tally_with(tally: &Tally, row: &EventRow, at: u64) -> Tally
    ensures last_moment { result.last_moment ≡ tally.now.last_moment }
    ensures counts { (rows : List EventRow) → length rows < 2 ^ 63 → IsTally rows at tally.now → IsTally (rows ++ row.now ∷ []) at result }
{
    Tally {
        census: census_with(&tally.census, row),
        oldest_waiting: first_waiting(tally.oldest_waiting, row),
        oldest_record: earlier(tally.oldest_record, end_of(row.standing)),
        first_due: earlier(tally.first_due, due_of(row.standing)),
        due: counted(tally.due, is_due(at, row)),
        expiring: counted(tally.expiring, expires_soon(at, row)),
        first_deadline: earlier(tally.first_deadline, deadline_of(row.standing)),
        last_moment: tally.last_moment,
    }
}

/// The numbers of no event, where the last command was of this moment. They take no look at a table.
pub fn no_tally(last_moment: u64) -> Tally
    ensures last_moment { result.last_moment ≡ last_moment }
    ensures counts { (at : ℕ) → IsTally [] at result }
{
    Tally {
        census: Census {
            held: 0,
            waiting: 0,
            due_again: 0,
            running: 0,
            success: 0,
            retries_exhausted: 0,
            event_age_exceeded: 0,
        },
        oldest_waiting: None,
        oldest_record: None,
        first_due: None,
        due: 0,
        expiring: 0,
        first_deadline: None,
        last_moment,
    }
}

/// The numbers of a table's events at this moment, in milliseconds since 1970. It copies no row and takes no memory.
pub fn tally(table: &Table, at: u64) -> Tally
    // claim: A tally counts a table's rows by where they stand and by what is due at a moment, and has the acceptance of the
    // first that waits, the first of the moments at which one ended, is due or is to be done, and the last command's.
    ensures last_moment { result.last_moment ≡ table.now.table.last_moment }
    ensures counts { IsTally table.now.table.rows at result }
{
    let mut tally = no_tally(table.last_moment());
    for row in table.rows() {
        tally = tally_with(&tally, row, at);
    }
    tally
}
