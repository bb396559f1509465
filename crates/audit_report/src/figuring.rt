// The numbers of a disk at rest.
ghost use Rattle.audit_report.specs.Figures.{AreFigures};

use crate::numbers::Figures;
use crate::report::Report;
use async_core::Table;
use operator_view::tally;

/// The numbers of a table's events, with what a report tells of its disk: of the two that `inspect` answers, those of the
/// disk. It takes no memory.
pub fn figures(table: &Table, report: &Report) -> Figures
    // claim: The figures are a census of the events, the moments when the first that waits was accepted and the first ended,
    // and for the rest the report's. [json_line]
    ensures { AreFigures table.now.table.rows report.now result }
{
    // (none of these numbers hangs on the moment)
    let tally = tally(table, 0);
    Figures {
        generation: report.generation,
        number: report.number,
        census: tally.census,
        oldest_waiting: tally.oldest_waiting,
        oldest_record: tally.oldest_record,
        older: report.older,
        retries: report.retries,
        age: report.age,
    }
}
