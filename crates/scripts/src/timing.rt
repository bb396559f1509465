// How long calls of the table take while so many events are held: `times EVENTS ROUNDS`. `bench/table` says what the lines mean.
// Without numbers 16 events are held for 100 rounds, and what is told is only how many of the calls did what they are timed for,
// which no machine changes.
use async_core::Table;
use case_runner::{T, id_of, usual_settings};
use invoke_records::{Bytes, Cause, Command, GREATEST_NUMBER, Kind, Standing};
use retry_rules::Settings;
use std::alloc::{AllocError, Global};
use std::time::{Clock, Duration, Instant};
use std::{env, io};

// The usual settings for so many events, which are too old after a minute.
fn settings_for(alloc: Global, events: u64) -> Result<Settings, AllocError> {
    let Some(mut settings) = usual_settings(alloc) else {
        return Err(AllocError);
    };
    settings.age = 60;
    settings.events = u16::try_from(events).unwrap_or(1024);
    Ok(settings)
}

// A command for an event at this moment: `{}` is its payload or answer.
fn command(alloc: Global, kind: Kind, event: u64, time: u64) -> Result<Command, AllocError> {
    let (environment, text): (u16, &[u8]) = match kind {
        Kind::Start => (1, b""),
        Kind::Accept | Kind::Succeed | Kind::Fail(Cause::Reported) => (0, b"{}"),
        _ => (0, b""),
    };
    Ok(Command {
        kind,
        id: id_of(event),
        environment,
        time,
        bytes: Bytes::from_slice(alloc, text)?,
    })
}

// How long so many calls took, and how many of them did what they are timed for.
#[derive(Clone, Copy)]
struct Times {
    name: &'static str,
    calls: u64,
    meant: u64,
    took: Duration,
}

fn apply(table: &mut Table, command: &Command) -> bool {
    table.number() < GREATEST_NUMBER && table.apply(command).is_ok()
}

// Applies these commands to one event: how many of them were legal.
fn apply_all(
    alloc: Global,
    table: &mut Table,
    event: u64,
    now: u64,
    kinds: &[Kind],
) -> Result<u64, AllocError> {
    let mut legal: u64 = 0;
    for &kind in kinds {
        let next = command(alloc, kind, event, now)?;
        if apply(table, &next) {
            legal = legal.saturating_add(1);
        }
    }
    Ok(legal)
}

// Accepts so many events.
fn accept_all(alloc: Global, table: &mut Table, events: u64) -> Result<(), AllocError> {
    for event in 0..events {
        let _ = apply_all(alloc, table, event, T, &[Kind::Accept])?;
    }
    Ok(())
}

// Lets all events but one fail, and accepts that one half a minute later: a minute later the others are too old, while that
// one waits and is due before them.
fn fail_all(alloc: Global, table: &mut Table, events: u64) -> Result<(), AllocError> {
    for event in 1..events {
        let failed = [Kind::Accept, Kind::Start, Kind::Fail(Cause::Reported)];
        let _ = apply_all(alloc, table, event, T, &failed)?;
    }
    let _ = apply_all(alloc, table, 0, T + 30_000, &[Kind::Accept])?;
    Ok(())
}

// Lives of one event of those held after another, from the start to the next acceptance: how many commands were legal.
fn live_all(alloc: Global, table: &mut Table, events: u64, rounds: u64) -> Result<u64, AllocError> {
    let life = [Kind::Start, Kind::Succeed, Kind::Collect, Kind::Accept];
    let mut meant: u64 = 0;
    for n in 0..rounds {
        let event = if events == 0 { 0 } else { n % events };
        meant = meant.saturating_add(apply_all(alloc, table, event, T, &life)?);
    }
    Ok(meant)
}

// Moves at one moment: how many of them were of this kind.
fn move_all(table: &Table, ready: Option<u16>, now: u64, kind: Kind, rounds: u64) -> u64 {
    let mut meant: u64 = 0;
    for _n in 0..rounds {
        if let Some(next) = table.next_move(now, ready) {
            if next.kind == kind {
                meant = meant.saturating_add(1);
            }
        }
    }
    meant
}

// The standing of each event in turn: how many were held.
fn find_all(table: &Table, events: u64, rounds: u64) -> u64 {
    let mut meant: u64 = 0;
    for n in 0..rounds {
        let id = id_of(if events == 0 { 0 } else { n % events });
        if table.standing(&id) != Standing::Unknown {
            meant = meant.saturating_add(1);
        }
    }
    meant
}

// What is timed.
#[derive(Clone, Copy)]
enum Timed {
    // Lives of events: four commands each.
    Lives,
    // The next move, an environment being ready: a Start.
    Moves,
    // The next move a minute later, without an environment that is ready: all events are too old.
    Expiries,
    // The same where an event that waits for an environment is due before all that are too old.
    LateExpiries,
    // Where an event stands.
    Standings,
}

const ALL: [Timed; 5] = [
    Timed::Lives,
    Timed::Moves,
    Timed::Expiries,
    Timed::LateExpiries,
    Timed::Standings,
];

impl Timed {
    fn name(self) -> &'static str {
        match self {
            Timed::Lives => "apply",
            Timed::Moves => "next_move",
            Timed::Expiries => "next_move, all too old",
            Timed::LateExpiries => "next_move, behind one that waits",
            Timed::Standings => "standing",
        }
    }

    fn calls(self, rounds: u64) -> u64 {
        match self {
            Timed::Lives => rounds.saturating_mul(4),
            _ => rounds,
        }
    }
}

// Holds what is to be timed.
fn prepare(alloc: Global, table: &mut Table, timed: Timed, events: u64) -> Result<(), AllocError> {
    match timed {
        Timed::LateExpiries => fail_all(alloc, table, events),
        _ => accept_all(alloc, table, events),
    }
}

// Makes the calls: how many did what they are timed for.
fn call(
    alloc: Global,
    table: &mut Table,
    timed: Timed,
    events: u64,
    rounds: u64,
) -> Result<u64, AllocError> {
    match timed {
        Timed::Lives => live_all(alloc, table, events, rounds),
        Timed::Moves => Ok(move_all(table, Some(1), T, Kind::Start, rounds)),
        Timed::Standings => Ok(find_all(table, events, rounds)),
        _ => Ok(move_all(table, None, T + 60_000, Kind::Expire, rounds)),
    }
}

// The same over a table that is there, with the time that it took.
fn time_over<C: Clock>(
    clock: &C,
    alloc: Global,
    table: &mut Table,
    timed: Timed,
    events: u64,
    rounds: u64,
) -> io::Result<Times> {
    prepare(alloc, table, timed, events)?;
    let start = Instant::now(clock)?;
    let meant = call(alloc, table, timed, events, rounds)?;
    Ok(Times {
        name: timed.name(),
        calls: timed.calls(rounds),
        meant,
        took: start.elapsed(clock)?,
    })
}

// How long so many rounds of calls take of a table that holds so many events.
fn time(rt: &HostRuntime, timed: Timed, events: u64, rounds: u64) -> io::Result<Times> {
    let mut table = Table::new(rt.alloc(), settings_for(rt.alloc(), events)?);
    time_over(rt, rt.alloc(), &mut table, timed, events, rounds)
}

// Prints a line of what was timed.
fn print_times(rt: &HostRuntime, times: Times, is_timed: bool) -> io::Result<()> {
    let (name, calls, meant) = (times.name, times.calls, times.meant);
    if is_timed {
        let nanos = times.took.as_nanos();
        println!(rt; "{name}: {calls} calls in {nanos} ns")
    } else {
        println!(rt; "{name}: {calls} calls, {meant} as meant")
    }
}

fn number_of(words: &[String], place: usize, usual: u64) -> u64 {
    match words.get(place) {
        Some(word) => word.as_str().parse::<u64>().unwrap_or(usual),
        None => usual,
    }
}

/// The words behind `times`, if the command line begins with it.
pub fn words_of_times(rt: &HostRuntime) -> io::Result<Option<Vec<String>>> {
    let mut words = Vec::new(rt.alloc());
    for word in env::args(rt)? {
        words.push(word)?;
    }
    let is_asked = matches!(words.get(1), Some(word) if word.as_str() == "times");
    Ok(if is_asked { Some(words) } else { None })
}

/// Prints how long each of the calls takes that are timed.
pub fn print_all_times(rt: &HostRuntime, words: &[String]) -> io::Result<()> {
    let events = number_of(words, 2, 16).clamp(1, 1024);
    let rounds = number_of(words, 3, 100);
    for timed in ALL {
        let times = time(rt, timed, events, rounds)?;
        print_times(rt, times, words.len() > 2)?;
    }
    Ok(())
}
