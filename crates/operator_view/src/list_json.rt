// A page of events as JSON.
ghost use Rattle.std.specs.Prelude.{◌≡◌, ◌++◌, IfOk, OnOk, string_bytes};
ghost use Rattle.std.specs.Option.{option_copied};
ghost use Rattle.operator_view.specs.ListText.{text_at, separator, events_text, next_text, list_text};

use crate::members::put_members;
use crate::page::Page;
use destination_json::id_text;
use invoke_records::EventRow;
use std::alloc::{AllocError, Global};

// Puts the event at a place behind a text.
fn put_event(
    alloc: Global,
    out: &mut String,
    rows: &[EventRow],
    place: usize,
) -> Result<(), AllocError>
    ensures { OnOk result (string_bytes out.new ≡ string_bytes out.old ++ text_at rows.now place) }
{
    match rows.get(place) {
        Some(row) => {
            out.push_str("{")?;
            put_members(alloc, out, row)?;
            out.push_str("}")
        }
        None => out.push_str("null"),
    }
}

fn put_separator(out: &mut String, index: usize) -> Result<(), AllocError>
    ensures { OnOk result (string_bytes out.new ≡ string_bytes out.old ++ separator index) }
{
    if index == 0 {
        return Ok(());
    }
    out.push_str(",")
}

fn events_text(alloc: Global, rows: &[EventRow], places: &[usize]) -> Result<String, AllocError>
    ensures { IfOk result (λ text. string_bytes text ≡ events_text rows.now places.now) }
{
    let mut out = String::new(alloc);
    for (index, place) in places.iter().enumerate() {
        put_separator(&mut out, index)?;
        put_event(alloc, &mut out, rows, *place)?;
    }
    Ok(out)
}

fn put_next(alloc: Global, out: &mut String, next: Option<&[u8; 16]>) -> Result<(), AllocError>
    ensures { OnOk result (string_bytes out.new ≡ string_bytes out.old ++ next_text (option_copied next.entry)) }
{
    match next {
        None => out.push_str("null"),
        Some(id) => {
            let id = id_text(alloc, id)?;
            write!(out, "\"{id}\"")
        }
    }
}

/// A page of events as JSON: `{"events":[..],"next":"ID"}`, or `null` for the id. Only want of memory is refused.
pub fn events_json(alloc: Global, rows: &[EventRow], page: &Page) -> Result<Vec<u8>, AllocError>
    ensures { IfOk result (λ json. json.items ≡ list_text rows.now page.now.places.items page.now.next) }
{
    let events = events_text(alloc, rows, page.places.as_slice())?;
    let mut out = String::from_str(alloc, "{\"events\":[")?;
    out.push_str(events.as_str())?;
    out.push_str("],\"next\":")?;
    put_next(alloc, &mut out, page.next.as_ref())?;
    out.push_str("}")?;
    Ok(out.into_bytes())
}
