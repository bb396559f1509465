// What is wrong, in words that say what to do: `LEVEL REASON: WORDS` on a line.
use crate::causes::{cause_of_refusals, cause_of_table, cause_of_waits};
use crate::spans::span;
use crate::table_words::{put_backlog, put_expire, put_records, put_refused, put_table};
use operator_view::{PROBLEMS, Problem};
use std::alloc::{AllocError, Global};

fn put_hangs(out: &mut String, seconds: u64) -> Result<(), AllocError> {
    let (time, unit) = span(seconds);
    write!(
        out,
        "bad disk_hangs: A flush of the disk has been under way for {time} {unit}: nobody is answered what waits for it. What was answered 202 is safe. Look at the device, and at the system's log.\n"
    )
}

fn put_behind(out: &mut String, seconds: u64) -> Result<(), AllocError> {
    let (time, unit) = span(seconds);
    write!(
        out,
        "bad clock_is_behind: The system's clock is {time} {unit} behind the last command on the disk: until it has caught up, no retry is due, and nothing times out or grows older; new events run. Set the clock right. If it is right, see 'The system's clock' in docs/operating/watching.md.\n"
    )
}

fn put_held_back(out: &mut String, ahead: u64, left: u64) -> Result<(), AllocError> {
    let (by, of) = span(ahead);
    let (time, unit) = span(left);
    write!(
        out,
        "look clock_is_held_back: The system's clock was set ahead by {by} {of}: for {time} {unit} yet what waits, runs and grows old goes on as if it had not been, and then by it. If it is wrong, set it right by then. If it is right, a restart believes it at once.\n"
    )
}

fn put_jump(
    out: &mut String,
    expired: u64,
    steps: u64,
    ahead: u64,
    seconds: u64,
) -> Result<(), AllocError> {
    let (time, unit) = span(seconds);
    write!(
        out,
        "bad events_expired_by_a_jump: In the last {time} {unit} {expired} events were given up for their age, and the clock was set {steps} times"
    )?;
    if 0 < ahead {
        let (by, of) = span(ahead);
        write!(out, ", last by {by} {of} ahead")?;
    }
    write!(
        out,
        ": perhaps they were too old by a wrong clock alone. What is not discarded of them is at /records/failure, and can be tried again with --acts; look at the clock.\n"
    )
}

fn put_nobody_polls(
    out: &mut String,
    without_poll: u64,
    environments: u64,
    due: u64,
) -> Result<(), AllocError> {
    let level = if 0 < due { "bad" } else { "look" };
    write!(
        out,
        "{level} nobody_polls: A poll is missing in {without_poll} of {environments} environments"
    )?;
    if 0 < due {
        write!(out, ", and {due} events are due")?;
    }
    write!(
        out,
        ". Start the runtime, or the extension that --extensions waits for; its log says why it ended.\n"
    )
}

fn put_environment(
    out: &mut String,
    environment: u64,
    unpolled: u64,
    running: u64,
) -> Result<(), AllocError> {
    write!(out, "look environment_hangs:")?;
    if 0 < unpolled {
        let (time, unit) = span(unpolled);
        write!(
            out,
            " Environment {environment} has lacked a poll for {time} {unit}, and others do not."
        )?;
    }
    if 0 < running {
        let (time, unit) = span(running);
        write!(
            out,
            " An attempt has run for {time} {unit}, and others took less than 30 s: 'Running' on the page says where."
        )?;
    }
    write!(
        out,
        " Is that environment's runtime there, and does it go on? Its log says; start it anew.\n"
    )
}

fn put_nothing_ends(
    out: &mut String,
    seconds: u64,
    due: u64,
    timeout: u16,
    started: u64,
) -> Result<(), AllocError> {
    let (time, unit) = span(seconds);
    write!(
        out,
        "bad nothing_ends: Nothing has ended for {time} {unit}, while {due} events are due; the timeout is {timeout} s. "
    )?;
    if 0 < started {
        write!(
            out,
            "{started} attempts were begun lately: they fail, or hang. Read the runtimes' logs.\n"
        )
    } else {
        write!(
            out,
            "No attempt was begun lately: start the runtimes anew.\n"
        )
    }
}

fn put_fail(out: &mut String, failed: u64, succeeded: u64, seconds: u64) -> Result<(), AllocError> {
    let (time, unit) = span(seconds);
    write!(
        out,
        "bad most_attempts_fail: In the last {time} {unit} {failed} attempts failed, and {succeeded} succeeded. Read the last failures on the page, or lastError in /events/ID, and the function's log.\n"
    )
}

fn put_slow(
    out: &mut String,
    commits: u64,
    microseconds: u64,
    late: u64,
    seconds: u64,
) -> Result<(), AllocError> {
    let (time, unit) = span(seconds);
    let mean = microseconds.checked_div(commits).unwrap_or(0) / 1000;
    write!(
        out,
        "look commits_are_slow: {commits} commits in the last {time} {unit} took {mean} ms on average"
    )?;
    if 0 < late {
        write!(out, ", {late} of them more than 500 ms")?;
    }
    write!(
        out,
        ". Nothing is lost: look at the device, and at who else writes to it.\n"
    )
}

fn put_busy(
    out: &mut String,
    environments: u64,
    running: u64,
    due: u64,
    waited: u64,
) -> Result<(), AllocError> {
    let (time, unit) = span(waited);
    write!(
        out,
        "look all_busy: All environments ({environments}) are busy while {due} events are due, the first for {time} {unit}."
    )?;
    if running < environments {
        let others = environments - running;
        write!(
            out,
            " In {others} of them no attempt runs: their runtimes have answered, and do not poll. Start them anew."
        )?;
    }
    if 0 < running {
        write!(
            out,
            " Serve with more --environments and runtimes, or make the function faster; 'Running' on the page shows what they do."
        )?;
    }
    write!(out, "\n")
}

// What is wrong with the machine or an environment.
fn put_cause_found(out: &mut String, problem: Problem) -> Result<(), AllocError> {
    match problem {
        Problem::DiskHangs { seconds } => put_hangs(out, seconds),
        Problem::ClockIsBehind { seconds } => put_behind(out, seconds),
        Problem::ClockIsHeldBack { ahead, left } => put_held_back(out, ahead, left),
        Problem::EventsExpiredByAJump {
            expired,
            steps,
            ahead,
            seconds,
        } => put_jump(out, expired, steps, ahead, seconds),
        Problem::NobodyPolls {
            without_poll,
            environments,
            due,
        } => put_nobody_polls(out, without_poll, environments, due),
        Problem::EnvironmentHangs {
            environment,
            unpolled,
            running,
        } => put_environment(out, environment, unpolled, running),
        Problem::NothingEnds {
            seconds,
            due,
            timeout,
            started,
        } => put_nothing_ends(out, seconds, due, timeout, started),
        _ => Ok(()),
    }
}

// How attempts, commits and records go on.
fn put_course(out: &mut String, problem: Problem) -> Result<(), AllocError> {
    match problem {
        Problem::MostAttemptsFail {
            failed,
            succeeded,
            seconds,
        } => put_fail(out, failed, succeeded, seconds),
        Problem::CommitsAreSlow {
            commits,
            microseconds,
            late,
            seconds,
        } => put_slow(out, commits, microseconds, late, seconds),
        Problem::AllBusy {
            environments,
            running,
            due,
            waited,
        } => put_busy(out, environments, running, due, waited),
        Problem::RecordsNotCollected { records, seconds } => put_records(out, records, seconds),
        other => put_cause_found(out, other),
    }
}

// What follows from others among these problems, or any.
fn put_problem(
    out: &mut String,
    problems: &[Option<Problem>; PROBLEMS],
    problem: Problem,
) -> Result<(), AllocError> {
    match problem {
        Problem::BacklogGrows {
            accepted,
            ended,
            waited,
            seconds,
        } => put_backlog(
            out,
            accepted,
            ended,
            waited,
            seconds,
            cause_of_waits(problems),
        ),
        Problem::TableFull { held, most, ended } => {
            let cause = cause_of_table(problems, held, ended);
            put_table(out, "bad table_full", (held, most, ended), cause)
        }
        Problem::TableNearlyFull { held, most, ended } => {
            let cause = cause_of_table(problems, held, ended);
            put_table(out, "look table_nearly_full", (held, most, ended), cause)
        }
        Problem::CallersAreRefused {
            full,
            busy,
            seconds,
        } => put_refused(out, full, busy, seconds, cause_of_refusals(problems)),
        Problem::EventsExpire {
            expiring,
            expired,
            seconds,
        } => put_expire(out, expiring, expired, seconds, cause_of_waits(problems)),
        other => put_course(out, other),
    }
}

/// What is wrong, each problem on a line. Only want of memory is refused.
pub(crate) fn problems_text(
    alloc: Global,
    problems: &[Option<Problem>; PROBLEMS],
) -> Result<Vec<u8>, AllocError> {
    let mut out = String::new(alloc);
    for problem in problems {
        if let Some(problem) = problem {
            put_problem(&mut out, problems, *problem)?;
        }
    }
    Ok(out.into_bytes())
}
