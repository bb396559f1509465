// The numbers of a disk as one line of JSON, piece by piece.
ghost use Rattle.std.specs.Prelude.{◌≡◌, ◌++◌, IfOk, OnOk, string_bytes};
ghost use Rattle.audit_report.specs.Figures.{number_members, standing_members, ended_members, moment_text, moment_members, older_word, older_member, policy_members, figures_text};

use crate::numbers::Figures;
use crate::report::Older;
use operator_view::Census;
use std::alloc::{AllocError, Global};

fn put_numbers(out: &mut String, generation: u64, number: u64) -> Result<(), AllocError>
    ensures { OnOk result (string_bytes out.new ≡ string_bytes out.old ++ number_members generation number) }
{
    write!(out, "\"generation\":{generation},\"number\":{number}")
}

fn put_standings(out: &mut String, census: &Census) -> Result<(), AllocError>
    ensures { OnOk result (string_bytes out.new ≡ string_bytes out.old ++ standing_members census.now) }
{
    let held = census.held;
    let waiting = census.waiting;
    let due_again = census.due_again;
    let running = census.running;
    write!(
        out,
        ",\"held\":{held},\"waiting\":{waiting},\"due_again\":{due_again},\"running\":{running}"
    )
}

fn put_ended(out: &mut String, census: &Census) -> Result<(), AllocError>
    ensures { OnOk result (string_bytes out.new ≡ string_bytes out.old ++ ended_members census.now) }
{
    let success = census.success;
    let exhausted = census.retries_exhausted;
    let exceeded = census.event_age_exceeded;
    write!(
        out,
        ",\"success\":{success},\"retries_exhausted\":{exhausted},\"event_age_exceeded\":{exceeded}"
    )
}

fn put_moment(out: &mut String, moment: Option<u64>) -> Result<(), AllocError>
    ensures { OnOk result (string_bytes out.new ≡ string_bytes out.old ++ moment_text moment) }
{
    match moment {
        None => out.push_str("null"),
        Some(moment) => write!(out, "{moment}"),
    }
}

fn put_moments(out: &mut String, waiting: Option<u64>, ended: Option<u64>) -> Result<(), AllocError>
    ensures { OnOk result (string_bytes out.new ≡ string_bytes out.old ++ moment_members waiting ended) }
{
    out.push_str(",\"oldest_waiting\":")?;
    put_moment(out, waiting)?;
    out.push_str(",\"oldest_record\":")?;
    put_moment(out, ended)
}

fn put_older_word(out: &mut String, told: Older) -> Result<(), AllocError>
    ensures { OnOk result (string_bytes out.new ≡ string_bytes out.old ++ older_word told) }
{
    match told {
        Older::None => out.push_str("none"),
        Older::Agrees => out.push_str("agrees"),
        Older::Ahead(more) => write!(out, "ahead {more}"),
        Older::Differs => out.push_str("differs"),
    }
}

fn put_older(out: &mut String, told: Older) -> Result<(), AllocError>
    ensures { OnOk result (string_bytes out.new ≡ string_bytes out.old ++ older_member told) }
{
    out.push_str(",\"older\":\"")?;
    put_older_word(out, told)?;
    out.push_str("\"")
}

fn put_policy(out: &mut String, retries: u8, age: u32) -> Result<(), AllocError>
    ensures { OnOk result (string_bytes out.new ≡ string_bytes out.old ++ policy_members retries age) }
{
    write!(out, ",\"retries\":{retries},\"age\":{age}")
}

/// The numbers of a disk as one line of JSON, without an end. Only want of memory is refused.
#[tactic(auto, unfolding(crate::specs::Figures::figures_text))]
pub fn json_line(alloc: Global, figures: &Figures) -> Result<String, AllocError>
    ensures { IfOk result (λ text. string_bytes text ≡ figures_text figures.now) }
{
    let mut out = String::from_str(alloc, "{")?;
    put_numbers(&mut out, figures.generation, figures.number)?;
    put_standings(&mut out, &figures.census)?;
    put_ended(&mut out, &figures.census)?;
    put_moments(&mut out, figures.oldest_waiting, figures.oldest_record)?;
    put_older(&mut out, figures.older)?;
    put_policy(&mut out, figures.retries, figures.age)?;
    out.push_str("}")?;
    Ok(out)
}
