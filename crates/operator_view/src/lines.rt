// The destination records of a page, one a line.
ghost use Rattle.std.specs.Prelude.{◌≡◌, ◌≤◌, ◌<◌, ◌+◌, IfOk, map};
ghost use Rattle.std.specs.Bool.{OnTrue, OnFalse};
ghost use Rattle.operator_view.specs.Lines.{flat, line_at, Tells};

use crate::detail::ending_of;
use crate::page::{Page, last_id};
use destination_json::record;
use invoke_records::EventRow;
use retry_rules::Settings;
use std::alloc::{AllocError, Global};

// A line break becomes a space.
fn flat(byte: u8) -> u8
    ensures { result ≡ flat byte }
{
    match byte {
        b'\n' | b'\r' => b' ',
        other => other,
    }
}

// A text in one line.
fn flatten(text: &mut [u8])
    ensures { text.new ≡ map flat text.old }
{
    for place in 0..text.len() {
        let byte = text[place];
        text[place] = flat(byte);
    }
}

// The line of the row at a place, or nothing where it has no record.
fn line_at(
    alloc: Global,
    rows: &[EventRow],
    settings: &Settings,
    place: usize,
) -> Result<Vec<u8>, AllocError>
    ensures { IfOk result (λ line. line.items ≡ line_at settings.now rows.now place) }
{
    let Some(row) = rows.get(place) else {
        return Ok(Vec::new(alloc));
    };
    let Some(ended) = ending_of(row) else {
        return Ok(Vec::new(alloc));
    };
    let mut line = record(alloc, &ended, settings)?;
    flatten(&mut line);
    line.push(b'\n')?;
    Ok(line)
}

// Whether a line is told behind so many lines of so many bytes.
fn has_room(count: usize, told: usize, line: usize, most: usize) -> bool
    ensures yes { OnTrue result (0 < count → told + line ≤ most) }
    ensures no { OnFalse result ((0 < count) × (most < told + line)) }
{
    count == 0 || (told <= most && line <= most - told)
}

/// The destination records of a page's events, each on a line, as many whole ones as fit into so many bytes, and at least one;
/// and the id of the last one that is told, where more come behind it. Only want of memory is refused.
pub fn record_lines(
    alloc: Global,
    rows: &[EventRow],
    page: &Page,
    settings: &Settings,
    most: usize,
) -> Result<(Vec<u8>, Option<[u8; 16]>), AllocError>
    // claim: Of a page as many records are told as fit, at least the first, a line each, with spaces for line breaks.
    // Where more come, the last is named.
    ensures { IfOk result (λ told. Tells settings.now rows.now page.now most told.0.items told.1) }
{
    let places = page.places.as_slice();
    let mut text = Vec::new(alloc);
    for (index, place) in places.iter().enumerate() {
        let line = line_at(alloc, rows, settings, *place)?;
        if !has_room(index, text.len(), line.len(), most) {
            return Ok((text, last_id(rows, &places[..index])));
        }
        text.extend_from_slice(line.as_slice())?;
    }
    Ok((text, page.next))
}
