// One event in one line.
ghost use Rattle.std.specs.Prelude.{◌≡◌, ◌++◌, IfOk, OnOk, string_bytes};
ghost use Rattle.async_core.specs.Rules.{row_at, standing_at};
ghost use Rattle.async_core.specs.Readers.{accepted_at, accepted_after, counts_at, counts_after};
ghost use Rattle.async_core.specs.History.{standing_in};
ghost use Rattle.async_core.specs.Histories.{ForEachLegalHistory};
ghost use Rattle.audit_report.specs.Explanation.{event_text, counts_text, life_text, explanation};

use async_core::Table;
use destination_json::id_text;
use invoke_records::Standing;
use operator_view::{moment_of, standing_text};
use std::alloc::{AllocError, Global};

fn put_event(out: &mut String, standing: Standing, accepted: u64) -> Result<(), AllocError>
    ensures { OnOk result (string_bytes out.new ≡ string_bytes out.old ++ event_text standing accepted) }
{
    let text = standing_text(standing);
    let moment = moment_of(standing);
    write!(out, " {text} accepted {accepted} moment {moment}")
}

fn put_counts(out: &mut String, counts: (u32, u32, u32)) -> Result<(), AllocError>
    ensures { OnOk result (string_bytes out.new ≡ string_bytes out.old ++ counts_text counts) }
{
    let (starts, failures, push_backs) = counts;
    write!(
        out,
        " starts {starts} failures {failures} pushbacks {push_backs}"
    )
}

// Puts what is known of an event behind its id.
fn put_life(
    out: &mut String,
    standing: Standing,
    accepted: Option<u64>,
    counts: Option<(u32, u32, u32)>,
) -> Result<(), AllocError>
    ensures { OnOk result (string_bytes out.new ≡ string_bytes out.old ++ life_text standing accepted counts) }
{
    match (accepted, counts) {
        (Some(accepted), Some(counts)) => {
            put_event(out, standing, accepted)?;
            put_counts(out, counts)
        }
        _ => out.push_str(" unknown"),
    }
}

/// Where an event stands and what its life counts, in one line without an end: `ID STANDING accepted MS moment MS starts N
/// failures N pushbacks N`, or `ID unknown` where it is not held. The moment is when it is due, times out, or ended.
pub fn explain(alloc: Global, table: &Table, id: &[u8; 16]) -> Result<String, AllocError>
    // claim: An event's line is the definition's, by its history; that of what is in force, by the report. [: by_row,
    // by_history; in_force_line]
    ensures by_row { IfOk result (λ text. string_bytes text ≡ explanation id.now (standing_at table.now.table id.now)
        (accepted_at (row_at table.now.table id.now)) (counts_at (row_at table.now.table id.now))) }
    ensures by_history { ForEachLegalHistory table.now (λ s history. IfOk result (λ text. string_bytes text
        ≡ explanation id.now (standing_in s history id.now) (accepted_after id.now history) (counts_after id.now history))) }
{
    let mut text = id_text(alloc, id)?;
    put_life(
        &mut text,
        table.standing(id),
        table.accepted(id),
        table.counts(id),
    )?;
    Ok(text)
}
