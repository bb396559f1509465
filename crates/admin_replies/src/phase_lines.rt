// The phases of environments as lines of text.
ghost use Rattle.std.specs.Prelude.{◌≡◌, ◌++◌, OnOk};
ghost use Rattle.admin_replies.specs.Phases.{phase_word, line_begin, time_begin, phase_line, phase_time, phase_lines, phase_times, phases_begin, times_begin, phases_text};

use crate::lines::{put_number, put_seconds};
use crate::phase_memory::SeenPhase;
use env_phase::Phase;
use std::alloc::{AllocError, Global};

const PHASES: &[u8] =
    b"# HELP lambda_broker_environment_phase 1 for the phase in which an environment was found.\n# TYPE lambda_broker_environment_phase gauge\n";

const TIMES: &[u8] =
    b"# HELP lambda_broker_environment_phase_seconds Time since a look found it there, and each one since.\n# TYPE lambda_broker_environment_phase_seconds gauge\n";

const LINE: &[u8] = b"lambda_broker_environment_phase{environment=\"";

const TIME: &[u8] = b"lambda_broker_environment_phase_seconds{environment=\"";

#[tactic(auto, unfolding(crate::specs::Phases::phases_begin))]
fn phases_begin() -> &'static [u8]
    ensures { result.now ≡ phases_begin }
{
    PHASES
}

#[tactic(auto, unfolding(crate::specs::Phases::times_begin))]
fn times_begin() -> &'static [u8]
    ensures { result.now ≡ times_begin }
{
    TIMES
}

fn phase_word(phase: Phase) -> &'static str
    ensures { result.now ≡ phase_word phase }
{
    match phase {
        Phase::Init => "init",
        Phase::Ready => "ready",
        Phase::Busy => "busy",
        Phase::Closing => "closing",
    }
}

#[tactic(auto, unfolding(crate::specs::Phases::line_begin))]
fn line_begin() -> &'static [u8]
    ensures { result.now ≡ line_begin }
{
    LINE
}

#[tactic(auto, unfolding(crate::specs::Phases::time_begin))]
fn time_begin() -> &'static [u8]
    ensures { result.now ≡ time_begin }
{
    TIME
}

#[tactic(auto, unfolding(crate::specs::Phases::phase_line))]
fn put_line(
    alloc: Global,
    out: &mut Vec<u8>,
    number: u64,
    seen: SeenPhase,
) -> Result<(), AllocError>
    ensures { OnOk result (out.new.items ≡ out.old.items ++ phase_line number seen) }
{
    out.extend_from_slice(line_begin())?;
    put_number(alloc, out, number)?;
    out.extend_from_slice(b"\",phase=\"")?;
    out.extend_from_slice(phase_word(seen.phase).as_bytes())?;
    out.extend_from_slice(b"\"} 1\n")
}

#[tactic(auto, unfolding(crate::specs::Phases::phase_time))]
fn put_time(
    alloc: Global,
    out: &mut Vec<u8>,
    number: u64,
    seen: SeenPhase,
    now: u64,
) -> Result<(), AllocError>
    ensures { OnOk result (out.new.items ≡ out.old.items ++ phase_time now number seen) }
{
    out.extend_from_slice(time_begin())?;
    put_number(alloc, out, number)?;
    out.extend_from_slice(b"\"} ")?;
    put_seconds(alloc, out, now.saturating_sub(seen.since))?;
    out.extend_from_slice(b"\n")
}

// A line for each environment, from this number on.
fn put_lines(
    alloc: Global,
    out: &mut Vec<u8>,
    seen: &[SeenPhase],
    number: u64,
) -> Result<(), AllocError>
    ensures { OnOk result (out.new.items ≡ out.old.items ++ phase_lines seen.now number) }
{
    match seen {
        [] => Ok(()),
        [first, more @ ..] => {
            put_line(alloc, out, number, *first)?;
            put_lines(alloc, out, more, number.saturating_add(1))
        }
    }
}

fn put_times(
    alloc: Global,
    out: &mut Vec<u8>,
    seen: &[SeenPhase],
    number: u64,
    now: u64,
) -> Result<(), AllocError>
    ensures { OnOk result (out.new.items ≡ out.old.items ++ phase_times now seen.now number) }
{
    match seen {
        [] => Ok(()),
        [first, more @ ..] => {
            put_time(alloc, out, number, *first, now)?;
            put_times(alloc, out, more, number.saturating_add(1), now)
        }
    }
}

/// Puts the phases that were seen up to now behind a text.
#[tactic(auto, unfolding(crate::specs::Phases::phases_text))]
pub(crate) fn put_phases(
    alloc: Global,
    out: &mut Vec<u8>,
    seen: &[SeenPhase],
    now: u64,
) -> Result<(), AllocError>
    ensures { OnOk result (out.new.items ≡ out.old.items ++ phases_text seen.now now) }
{
    out.extend_from_slice(phases_begin())?;
    put_lines(alloc, out, seen, 1)?;
    out.extend_from_slice(times_begin())?;
    put_times(alloc, out, seen, 1, now)
}
