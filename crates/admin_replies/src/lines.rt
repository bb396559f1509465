// Numbers as lines of text.
ghost use Rattle.std.specs.Prelude.{◌≡◌, ◌++◌, OnOk, map, decimal};
ghost use Rattle.std.specs.List.{flat_map};
ghost use Rattle.admin_replies.specs.Lines.{last_digits, seconds_text, value_text, line_of, line_text};
ghost use Rattle.admin_replies.specs.MetricsText.{section_text};

use crate::metrics::Metrics;
use crate::table::{Row, Section};
use crate::value::{Value, value_of};
use std::alloc::{AllocError, Global};

/// Puts a number behind a text.
pub(crate) fn put_number(alloc: Global, out: &mut Vec<u8>, number: u64) -> Result<(), AllocError>
    ensures { OnOk result (out.new.items ≡ out.old.items ++ decimal number) }
{
    let text = number.to_string(alloc)?;
    out.extend_from_slice(text.as_bytes())
}

// Puts the last so many digits of a number behind a text.
fn put_last_digits(
    alloc: Global,
    out: &mut Vec<u8>,
    count: u8,
    number: u64,
) -> Result<(), AllocError>
    ensures { OnOk result (out.new.items ≡ out.old.items ++ last_digits count number) }
{
    if count == 0 {
        return Ok(());
    }
    put_last_digits(alloc, out, count - 1, number / 10)?;
    put_number(alloc, out, number % 10)
}

/// Puts so many milliseconds behind a text, in seconds.
pub(crate) fn put_seconds(alloc: Global, out: &mut Vec<u8>, time: u64) -> Result<(), AllocError>
    ensures { OnOk result (out.new.items ≡ out.old.items ++ seconds_text time) }
{
    put_number(alloc, out, time / 1000)?;
    out.extend_from_slice(b".")?;
    put_last_digits(alloc, out, 3, time)
}

fn put_value(alloc: Global, out: &mut Vec<u8>, value: Value) -> Result<(), AllocError>
    ensures { OnOk result (out.new.items ≡ out.old.items ++ value_text value) }
{
    match value {
        Value::Whole(number) => put_number(alloc, out, number),
        Value::Milliseconds(time) => put_seconds(alloc, out, time),
        Value::Signed(is_below, time) => {
            if is_below {
                out.extend_from_slice(b"-")?;
            }
            put_seconds(alloc, out, time)
        }
        Value::Microseconds(time) => {
            put_number(alloc, out, time / 1000000)?;
            out.extend_from_slice(b".")?;
            put_last_digits(alloc, out, 6, time)
        }
    }
}

#[tactic(auto, unfolding(crate::specs::Lines::line_text))]
fn put_row(alloc: Global, out: &mut Vec<u8>, row: &Row, metrics: &Metrics) -> Result<(), AllocError>
    ensures { OnOk result (out.new.items ≡ out.old.items ++ line_text metrics.now (line_of row.now)) }
{
    out.extend_from_slice(row.head.as_bytes())?;
    out.extend_from_slice(row.name.as_bytes())?;
    out.extend_from_slice(b" ")?;
    put_value(alloc, out, value_of(metrics, row.metric))?;
    out.extend_from_slice(b"\n")
}

fn put_rows(
    alloc: Global,
    out: &mut Vec<u8>,
    rows: &[Row],
    metrics: &Metrics,
) -> Result<(), AllocError>
    ensures { OnOk result (out.new.items ≡ out.old.items ++ flat_map (line_text metrics.now) (map line_of rows.now)) }
{
    for row in rows {
        put_row(alloc, out, row, metrics)?;
    }
    Ok(())
}

/// Puts the lines of these parts of the table behind a text.
#[tactic(auto, unfolding(crate::specs::MetricsText::section_text))]
pub(crate) fn put_sections(
    alloc: Global,
    out: &mut Vec<u8>,
    sections: &[Section],
    metrics: &Metrics,
) -> Result<(), AllocError>
    ensures { OnOk result (out.new.items ≡ out.old.items ++ flat_map (section_text metrics.now) sections.now) }
{
    for section in sections {
        put_rows(alloc, out, section.rows(), metrics)?;
    }
    Ok(())
}
