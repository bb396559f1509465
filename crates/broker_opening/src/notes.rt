// What is told on standard error of a broker that is served. Where that takes nothing at once, it is left out.
use async_core::Table;
use broker_commands::{Address, now, prospects_of};
use port_meters::{Lines, Version};
use std::alloc::AllocError;
use std::io;
use std::io::Eprint;
use std::net::SocketAddr;
use std::time::{Clock, Instant};

// How many milliseconds have gone since then. None where the clock does not tell.
fn since<C: Clock>(rt: &C, start: &io::Result<Instant>) -> Option<u128> {
    match start {
        Ok(start) => Some(start.elapsed(rt).ok()?.as_millis()),
        Err(_) => None,
    }
}

/// Says that a disk was opened, how many events it holds, how many attempts the last stop had cut off, and how long that took.
pub fn note_opening<R: Eprint + Clock>(
    rt: &R,
    lines: &Lines,
    at: &Address<'_>,
    held: usize,
    interrupted: u64,
    start: &io::Result<Instant>,
) {
    let path = at.path;
    let took = since(rt, start).unwrap_or(0);
    let line = format!(in lines.alloc();
        "opened {path}: held {held}, interrupted {interrupted}, in {took} ms"
    );
    lines.tell_made(rt, line);
}

// Tells a line, where there is one.
fn tell<R: Eprint>(rt: &R, lines: &Lines, line: Result<Option<String>, AllocError>) {
    match line {
        Ok(Some(line)) => lines.tell(rt, line.as_str()),
        Ok(None) => {}
        Err(_) => lines.drop_line(),
    }
}

/// Says what becomes of the events that a table holds, where the clock gives them up or is behind them.
pub fn note_prospects<R: Eprint + Clock>(rt: &R, lines: &Lines, at: &Address<'_>, table: &Table) {
    let Ok(now) = now(rt) else {
        return;
    };
    let prospects = prospects_of(table, now);
    tell(rt, lines, prospects.age_line(lines.alloc(), at.path));
    tell(rt, lines, prospects.clock_line(lines.alloc(), at.path));
}

/// Says that it ended since it was asked to.
pub fn note_stop<R: Eprint>(rt: &R, lines: &Lines, at: &Address<'_>) {
    let path = at.path;
    let line = format!(in lines.alloc(); "stopped {path}: asked by POST /broker/stop");
    lines.tell_made(rt, line);
}

/// Says why a port is not listened on.
pub fn note_port<R: Eprint>(rt: &R, lines: &Lines, address: SocketAddr, why: &io::Error) {
    let line = format!(in lines.alloc(); "cannot listen on {address}: {why}");
    lines.tell_made(rt, line);
}

/// Says what an address that others reach opens to whom.
pub fn warn<R: Eprint>(rt: &R, lines: &Lines, at: &Address<'_>) {
    if at.reach.is_loopback() {
        return;
    }
    let reach = at.reach;
    let line = format!(in lines.alloc();
        "warning: whoever reaches {reach} can invoke the function, answer for it, read its payloads and records, and stop the broker"
    );
    lines.tell_made(rt, line);
}

/// Says so where the program is not proved.
pub fn warn_of_unproved<R: Eprint>(rt: &R, lines: &Lines, version: &Version) {
    if !version.is_proved {
        lines.tell(rt, "warning: this program is not proved");
    }
}

/// Says that a disk lies in layers, as those of a container are: they may go with it, and who is outside sees no lock there.
pub fn warn_of_layers<R: Eprint>(rt: &R, lines: &Lines, path: &str) {
    let line = format!(in lines.alloc();
        "warning: {path} lies in an overlay, as the layers of a container are: it may go with the container, and no lock of it is seen outside"
    );
    lines.tell_made(rt, line);
}
