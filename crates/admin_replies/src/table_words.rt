// What is wrong with what a table holds, in words, and what that follows from.
use crate::spans::span;
use std::alloc::AllocError;

// What something follows from, if that is known.
fn put_cause(out: &mut String, cause: Option<&'static str>) -> Result<(), AllocError> {
    match cause {
        Some(cause) => write!(out, ", because {cause}"),
        None => Ok(()),
    }
}

/// That the table is full, or nearly.
pub(crate) fn put_table(
    out: &mut String,
    name: &str,
    (held, most, ended): (u64, u64, u64),
    cause: Option<&'static str>,
) -> Result<(), AllocError> {
    write!(out, "{name}: {held} of at most {most} events are held")?;
    put_cause(out, cause)?;
    if held < most {
        write!(out, "; when it is full, callers are told 429.")?;
    } else {
        write!(out, "; callers are told 429.")?;
    }
    if 0 < ended {
        write!(
            out,
            " {ended} have ended: collect their records, as examples/forward.py does."
        )?;
    }
    if cause.is_none() && ended < held {
        let others = held - ended;
        write!(out, " {others} have not ended: see why they wait.")?;
    }
    write!(out, "\n")
}

/// That callers are refused.
pub(crate) fn put_refused(
    out: &mut String,
    full: u64,
    busy: u64,
    seconds: u64,
    cause: Option<&'static str>,
) -> Result<(), AllocError> {
    let (time, unit) = span(seconds);
    write!(out, "bad callers_are_refused: In the last {time} {unit}")?;
    if 0 < full {
        write!(
            out,
            " {full} × 429: the table was full; collect records, and see why the others wait."
        )?;
    }
    if 0 < busy {
        write!(out, " {busy} × 503: too much was under way")?;
        put_cause(out, cause)?;
        write!(out, "; look at commits and open requests.")?;
    }
    write!(out, "\n")
}

/// That events are given up, or soon will be.
pub(crate) fn put_expire(
    out: &mut String,
    expiring: u64,
    expired: u64,
    seconds: u64,
    cause: Option<&'static str>,
) -> Result<(), AllocError> {
    write!(out, "bad events_expire:")?;
    if 0 < expiring {
        write!(
            out,
            " {expiring} events that wait have reached five sixths of their age"
        )?;
        put_cause(out, cause)?;
        write!(out, ".")?;
    }
    if 0 < expired {
        let (time, unit) = span(seconds);
        write!(
            out,
            " {expired} were given up in the last {time} {unit}: their records are at /records/failure."
        )?;
    }
    write!(
        out,
        " Bring up runtimes that take them; a changed --age is for later events alone.\n"
    )
}

/// That more events come than end.
pub(crate) fn put_backlog(
    out: &mut String,
    accepted: u64,
    ended: u64,
    waited: u64,
    seconds: u64,
    cause: Option<&'static str>,
) -> Result<(), AllocError> {
    let (time, unit) = span(seconds);
    let (first, of) = span(waited);
    write!(
        out,
        "look backlog_grows: In the last {time} {unit} {accepted} events came and {ended} ended"
    )?;
    put_cause(out, cause)?;
    write!(
        out,
        "; the first that is due has waited for {first} {of}. What waits longer than --age is given up.\n"
    )
}

/// That records are not collected.
pub(crate) fn put_records(out: &mut String, records: u64, seconds: u64) -> Result<(), AllocError> {
    let (time, unit) = span(seconds);
    write!(
        out,
        "look records_not_collected: {records} records are held, the oldest for {time} {unit}. Does examples/forward.py run, or what else collects them, for success and for failure? Does its URL take them?\n"
    )
}
