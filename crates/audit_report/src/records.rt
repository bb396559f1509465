// The destination records of all events that ended.
ghost use Rattle.std.specs.Prelude.{IfOk};
ghost use Rattle.audit_report.specs.Records.{AreRecords};

use async_core::Table;
use operator_view::{record_lines, records_page};
use std::alloc::{AllocError, Global};

/// The destination records of a table's events that ended, with success or without, each on a line, in the order in which the
/// events ended. Only want of memory is refused, and lines that are more bytes than an address counts.
pub fn all_records(alloc: Global, table: &Table) -> Result<Vec<u8>, AllocError>
    // claim: Each ended event's record is told once, on a line, in the order of ending.
    ensures { IfOk result (λ text. AreRecords table.now.settings table.now.table.rows text.items) }
{
    let snapshot = table.snapshot()?;
    let rows = snapshot.rows.as_slice();
    let Ok(page) = records_page(alloc, rows, None, None, usize::MAX) else {
        return Err(AllocError);
    };
    let (text, next) = record_lines(alloc, rows, &page, table.settings(), usize::MAX)?;
    match next {
        None => Ok(text),
        Some(_) => Err(AllocError),
    }
}
