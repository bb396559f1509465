// The text of a moment.
ghost use Rattle.std.specs.Prelude.{◌≡◌, ◌≤◌, ◌<◌, ◌++◌, codes, IfOk, OnOk, string_bytes};
ghost use Rattle.invoke_records.specs.Spelling.{greatest_moment};
ghost use Rattle.destination_json.specs.Stamp.{stamp_text, date_text, time_text};

use crate::date::date_of;
use std::alloc::{AllocError, Global};

const DAY: u64 = 86400000;

fn put_date(out: &mut String, year: u16, month: u8, day: u8) -> Result<(), AllocError>
    requires year { year < 10000 }
    requires month { month < 100 }
    requires day { day < 100 }
    ensures { OnOk result (string_bytes out.new ≡ string_bytes out.old ++ date_text year month day) }
{
    write!(out, "{year:04}-{month:02}-{day:02}")
}

fn put_time(out: &mut String, ms: u32) -> Result<(), AllocError>
    requires { ms < 86400000 }
    ensures { OnOk result (string_bytes out.new ≡ string_bytes out.old ++ (codes "T" ++ (time_text ms ++ codes "Z"))) }
{
    let hours = ms / 3600000;
    let minutes = ms / 60000 % 60;
    let seconds = ms / 1000 % 60;
    let rest = ms % 1000;
    write!(out, "T{hours:02}:{minutes:02}:{seconds:02}.{rest:03}Z")
}

/// The text of a moment, in milliseconds since 1970, up to the end of the year 9999: `YYYY-MM-DDTHH:MM:SS.mmmZ`, the
/// date and time in UTC. Only want of memory is refused.
#[tactic(auto, unfolding(crate::specs::Stamp::stamp_text))]
pub fn stamp(alloc: Global, ms: u64) -> Result<String, AllocError>
    requires { ms ≤ greatest_moment }
    // claim: The text of a moment up to the year 9999 is that of the definitions.
    ensures { IfOk result (λ text. string_bytes text ≡ stamp_text ms) }
{
    let (year, month, day) = date_of((ms / DAY) as u32);
    let mut text = String::new(alloc);
    put_date(&mut text, year, month, day)?;
    put_time(&mut text, (ms % DAY) as u32)?;
    Ok(text)
}
