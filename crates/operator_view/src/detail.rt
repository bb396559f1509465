// One event as JSON, with its payload, its last error and its record.
ghost use Rattle.std.specs.Prelude.{◌≡◌, ◌≤◌, ◌++◌, IfOk, OnOk, IfSome, option_map, codes};
ghost use Rattle.invoke_records.specs.Spelling.{greatest_moment};
ghost use Rattle.async_core.specs.Readers.{told};
ghost use Rattle.operator_view.specs.EventText.{members_text, error_json, error_member, ending_of, record_json, detail_text};

use crate::members::put_members;
use crate::payload::add_beginning;
use async_core::Ended;
use destination_json::record;
use invoke_records::{Answer, EventRow, GREATEST_MOMENT, Standing};
use retry_rules::Settings;
use std::alloc::{AllocError, Global};

/// What is told of an event that has ended, if it has, and not behind the year 9999.
pub(crate) fn ending_of(row: &EventRow) -> Option<Ended<'_>>
    ensures is { option_map told result ≡ ending_of row.now }
    ensures in_time { IfSome result (λ ended. ended.at ≤ greatest_moment) }
{
    match row.standing {
        Standing::Ended { outcome, at } if at <= GREATEST_MOMENT => Some(Ended {
            id: &row.id,
            payload: row.payload.as_slice(),
            answer: &row.answer,
            outcome,
            at,
            starts: row.starts,
        }),
        _ => None,
    }
}

fn add_record(
    alloc: Global,
    out: &mut Vec<u8>,
    row: &EventRow,
    settings: &Settings,
) -> Result<(), AllocError>
    ensures { OnOk result (out.new.items ≡ out.old.items ++ record_json settings.now row.now) }
{
    match ending_of(row) {
        Some(ended) => {
            let text = record(alloc, &ended, settings)?;
            out.extend_from_slice(text.as_slice())
        }
        None => out.extend_from_slice(b"null"),
    }
}

fn add_error(alloc: Global, out: &mut Vec<u8>, answer: &Answer) -> Result<(), AllocError>
    ensures { OnOk result (out.new.items ≡ out.old.items ++ error_json answer.now) }
{
    match answer {
        Answer::Error(bytes) => add_beginning(alloc, out, bytes.as_slice()),
        _ => out.extend_from_slice(b"null"),
    }
}

// The member of the last error, and the name of the one behind it.
fn add_error_member(alloc: Global, out: &mut Vec<u8>, answer: &Answer) -> Result<(), AllocError>
    ensures { OnOk result (out.new.items ≡ out.old.items ++ error_member answer.now) }
{
    out.extend_from_slice(b",\"lastError\":")?;
    add_error(alloc, out, answer)?;
    out.extend_from_slice(b",\"record\":")
}

fn opened(alloc: Global, row: &EventRow) -> Result<Vec<u8>, AllocError>
    ensures { IfOk result (λ text. text.items ≡ codes "{" ++ members_text row.now) }
{
    let mut out = String::from_str(alloc, "{")?;
    put_members(alloc, &mut out, row)?;
    Ok(out.into_bytes())
}

/// One event as JSON: as it stands in a list, with the beginnings of its payload and of the error that was reported last as
/// strings, and its destination record where it has ended. Only want of memory is refused.
#[tactic(auto, unfolding(crate::specs::EventText::detail_text))]
pub fn event_json(alloc: Global, row: &EventRow, settings: &Settings) -> Result<Vec<u8>, AllocError>
    // claim: The texts of a page and of one event are, byte for byte, those of the definitions. [events_json]
    ensures { IfOk result (λ json. json.items ≡ detail_text settings.now row.now) }
{
    let mut out = opened(alloc, row)?;
    out.extend_from_slice(b",\"payload\":")?;
    add_beginning(alloc, &mut out, row.payload.as_slice())?;
    add_error_member(alloc, &mut out, &row.answer)?;
    add_record(alloc, &mut out, row, settings)?;
    out.extend_from_slice(b"}")?;
    Ok(out)
}
