// How many events stand where.
ghost use Rattle.std.specs.Prelude.{◌≡◌, length, IfOk};
ghost use Rattle.std.specs.Prelude.{count_by};
ghost use Rattle.async_core.specs.Standings.{is_running};
ghost use Rattle.audit_report.specs.Counts.{is_waiting, is_success, is_failure, stands, AreCounts};

use async_core::Table;
use invoke_records::{EventRow, Outcome, Standing};
use std::alloc::AllocError;

// The numbers of a table's events.
#[derive(Clone, Copy)]
pub(crate) struct Counts {
    pub(crate) held: usize,
    pub(crate) waiting: usize,
    pub(crate) running: usize,
    pub(crate) success: usize,
    pub(crate) failure: usize,
}

fn is_waiting(standing: Standing) -> bool
    ensures { result ≡ is_waiting standing }
{
    matches!(
        standing,
        Standing::Waiting { .. } | Standing::DueAgain { .. }
    )
}

fn is_running(standing: Standing) -> bool
    ensures { result ≡ is_running standing }
{
    matches!(standing, Standing::Running { .. })
}

fn is_success(standing: Standing) -> bool
    ensures { result ≡ is_success standing }
{
    matches!(
        standing,
        Standing::Ended {
            outcome: Outcome::Success,
            ..
        }
    )
}

fn is_failure(standing: Standing) -> bool
    ensures { result ≡ is_failure standing }
{
    match standing {
        Standing::Ended { outcome, .. } => outcome != Outcome::Success,
        _ => false,
    }
}

fn count_waiting(rows: &[EventRow]) -> usize
    ensures { result ≡ count_by (stands is_waiting) rows.now }
{
    rows.iter().filter(|row| is_waiting(row.standing)).count()
}

fn count_running(rows: &[EventRow]) -> usize
    ensures { result ≡ count_by (stands is_running) rows.now }
{
    rows.iter().filter(|row| is_running(row.standing)).count()
}

fn count_success(rows: &[EventRow]) -> usize
    ensures { result ≡ count_by (stands is_success) rows.now }
{
    rows.iter().filter(|row| is_success(row.standing)).count()
}

fn count_failure(rows: &[EventRow]) -> usize
    ensures { result ≡ count_by (stands is_failure) rows.now }
{
    rows.iter().filter(|row| is_failure(row.standing)).count()
}

// The counts of a table, in memory for its rows.
pub(crate) fn counts_of(table: &Table) -> Result<Counts, AllocError>
    ensures { IfOk result (AreCounts table.now.table.rows) }
{
    let snapshot = table.snapshot()?;
    let rows = snapshot.rows.as_slice();
    Ok(Counts {
        held: rows.len(),
        waiting: count_waiting(rows),
        running: count_running(rows),
        success: count_success(rows),
        failure: count_failure(rows),
    })
}
