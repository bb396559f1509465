// What is wrong with a broker, by what its operator's port sees.
ghost use Rattle.std.specs.Prelude.{◌≡◌};
ghost use Rattle.operator_view.specs.Verdict.{disk_hangs, ahead_of_clock, clock_is_behind, clock_is_held_back, has_jumped, events_expired_by_a_jump, nobody_polls, unpolled_seconds, tried, are_quick, running_seconds, environment_hangs, quiet_for, nothing_ends, table_nearly_full, table_full, events_expire, most_attempts_fail, is_slow, commits_are_slow, all_busy, backlog_grows, callers_are_refused, records_not_collected, problems};

use crate::memory::Growth;
use crate::problem::{PROBLEMS, Problem};
use crate::sight::Sight;

/// By how many milliseconds the last command may be ahead of now.
const AHEAD: u64 = 5_000;

/// For how many milliseconds an environment may lack a poll, or run one attempt, where the others work.
const HANGS: u64 = 60_000;

/// Attempts are quick that take fewer seconds on average.
const QUICK: u64 = 30;

/// How many seconds longer than an attempt may run nothing ends, before that is wrong.
const SLACK: u64 = 6;

/// For how many milliseconds an event may be due while all environments are busy.
const BUSY: u64 = 10_000;

/// For how many milliseconds an event may be due while more come than end.
const BACKLOG: u64 = 120_000;

/// From how many on failures, or commits, say something.
const MANY: u64 = 5;

/// From how many microseconds on a commit is slow.
const SLOW: u128 = 100_000;

/// One commit in so many is late where commits are slow.
const RARE: u128 = 20;

/// For how many milliseconds a record may wait to be collected.
const UNCOLLECTED: u64 = 900_000;

fn disk_hangs(sight: &Sight) -> Option<Problem>
    ensures { result ≡ disk_hangs sight.now }
{
    (0 < sight.flush_seconds).then_some(Problem::DiskHangs {
        seconds: sight.flush_seconds,
    })
}

// By how many milliseconds the last command's moment is ahead of the system's clock, which may be held back.
fn ahead_of_clock(sight: &Sight) -> u64
    ensures { result ≡ ahead_of_clock sight.now }
{
    sight
        .last_moment
        .saturating_sub(sight.at)
        .saturating_sub(sight.held_ahead)
}

fn clock_is_behind(sight: &Sight) -> Option<Problem>
    ensures { result ≡ clock_is_behind sight.now }
{
    let ahead = ahead_of_clock(sight);
    (AHEAD < ahead).then_some(Problem::ClockIsBehind {
        seconds: ahead / 1000,
    })
}

fn clock_is_held_back(sight: &Sight) -> Option<Problem>
    ensures { result ≡ clock_is_held_back sight.now }
{
    (0 < sight.held_ahead).then_some(Problem::ClockIsHeldBack {
        ahead: sight.held_ahead / 1000,
        left: sight.held_left / 1000,
    })
}

// Whether the clock was set ahead lately: the last time that it was set, or before that.
fn has_jumped(sight: &Sight) -> bool
    ensures { result ≡ has_jumped sight.now }
{
    (0 < sight.lately.clock_steps && 0 < sight.set_ahead) || 2 <= sight.lately.clock_steps
}

fn events_expired_by_a_jump(sight: &Sight) -> Option<Problem>
    ensures { result ≡ events_expired_by_a_jump sight.now }
{
    let lately = sight.lately;
    (0 < lately.expired && has_jumped(sight)).then_some(Problem::EventsExpiredByAJump {
        expired: lately.expired,
        steps: lately.clock_steps,
        ahead: sight.set_ahead / 1000,
        seconds: lately.seconds,
    })
}

fn nobody_polls(sight: &Sight) -> Option<Problem>
    ensures { result ≡ nobody_polls sight.now }
{
    (0 < sight.without_poll).then_some(Problem::NobodyPolls {
        without_poll: sight.without_poll,
        environments: sight.environments,
        due: sight.due,
    })
}

// For how many seconds an environment has lacked a poll, where that is long and another one has its poll; else 0.
fn unpolled_seconds(sight: &Sight) -> u64
    ensures { result ≡ unpolled_seconds sight.now }
{
    if HANGS < sight.unpolled_for && sight.without_poll < sight.environments {
        sight.unpolled_for / 1000
    } else {
        0
    }
}

// How many attempts ended.
fn tried(lately: &Growth) -> u128
    ensures { result ≡ tried lately.now }
{
    u128::from(lately.succeeded) + u128::from(lately.failed)
}

// Whether attempts took less than half a minute on average lately: so many environments had no more time for so many.
fn are_quick(sight: &Sight) -> bool
    ensures { result ≡ are_quick sight.now }
{
    let lately = sight.lately;
    0 < sight.environments
        && u128::from(lately.seconds / QUICK) < tried(&lately) / u128::from(sight.environments)
}

// For how many seconds an attempt has run, where that is long and others were quick; else 0.
fn running_seconds(sight: &Sight) -> u64
    ensures { result ≡ running_seconds sight.now }
{
    if HANGS < sight.running_for && are_quick(sight) {
        sight.running_for / 1000
    } else {
        0
    }
}

fn environment_hangs(sight: &Sight) -> Option<Problem>
    ensures { result ≡ environment_hangs sight.now }
{
    let unpolled = unpolled_seconds(sight);
    let running = running_seconds(sight);
    (0 < unpolled || 0 < running).then_some(Problem::EnvironmentHangs {
        environment: sight.unpolled,
        unpolled,
        running,
    })
}

fn quiet_for(sight: &Sight, due: u64) -> u64
    ensures { result ≡ quiet_for sight.now due }
{
    sight.at.saturating_sub(due).min(sight.quiet)
}

fn nothing_ends(sight: &Sight) -> Option<Problem>
    ensures { result ≡ nothing_ends sight.now }
{
    let Some(due) = sight.first_due else {
        return None;
    };
    let quiet = quiet_for(sight, due);
    (1000 * (sight.timeout as u64 + SLACK) < quiet).then_some(Problem::NothingEnds {
        seconds: quiet / 1000,
        due: sight.due,
        timeout: sight.timeout,
        started: sight.lately.started,
    })
}

fn most_attempts_fail(sight: &Sight) -> Option<Problem>
    ensures { result ≡ most_attempts_fail sight.now }
{
    let lately = sight.lately;
    (MANY <= lately.failed && lately.succeeded < lately.failed).then_some(
        Problem::MostAttemptsFail {
            failed: lately.failed,
            succeeded: lately.succeeded,
            seconds: lately.seconds,
        },
    )
}

fn is_slow(lately: &Growth) -> bool
    ensures { result ≡ is_slow lately.now }
{
    let late = lately.commits.saturating_sub(lately.quick_commits);
    SLOW * u128::from(lately.commits) <= u128::from(lately.commit_microseconds)
        || u128::from(lately.commits) <= RARE * u128::from(late)
}

fn commits_are_slow(sight: &Sight) -> Option<Problem>
    ensures { result ≡ commits_are_slow sight.now }
{
    let lately = sight.lately;
    (MANY <= lately.commits && is_slow(&lately)).then_some(Problem::CommitsAreSlow {
        commits: lately.commits,
        microseconds: lately.commit_microseconds,
        late: lately.commits.saturating_sub(lately.quick_commits),
        seconds: lately.seconds,
    })
}

fn all_busy(sight: &Sight) -> Option<Problem>
    ensures { result ≡ all_busy sight.now }
{
    let Some(due) = sight.first_due else {
        return None;
    };
    let waited = sight.at.saturating_sub(due);
    let are_busy = 0 < sight.environments && sight.environments <= sight.busy;
    (are_busy && BUSY < waited).then_some(Problem::AllBusy {
        environments: sight.environments,
        running: sight.running,
        due: sight.due,
        waited: waited / 1000,
    })
}

fn backlog_grows(sight: &Sight) -> Option<Problem>
    ensures { result ≡ backlog_grows sight.now }
{
    let Some(due) = sight.first_due else {
        return None;
    };
    let lately = sight.lately;
    let waited = sight.at.saturating_sub(due);
    (lately.ended < lately.accepted && BACKLOG < waited).then_some(Problem::BacklogGrows {
        accepted: lately.accepted,
        ended: lately.ended,
        waited: waited / 1000,
        seconds: lately.seconds,
    })
}

fn records_not_collected(sight: &Sight) -> Option<Problem>
    ensures { result ≡ records_not_collected sight.now }
{
    let Some(age) = sight.oldest_record_age else {
        return None;
    };
    (UNCOLLECTED < age).then_some(Problem::RecordsNotCollected {
        records: sight.ended,
        seconds: age / 1000,
    })
}

fn table_full(sight: &Sight) -> Option<Problem>
    ensures { result ≡ table_full sight.now }
{
    (sight.most_events <= sight.held).then_some(Problem::TableFull {
        held: sight.held,
        most: sight.most_events,
        ended: sight.ended,
    })
}

fn table_nearly_full(sight: &Sight) -> Option<Problem>
    ensures { result ≡ table_nearly_full sight.now }
{
    let fills = 4 * u128::from(sight.most_events) <= 5 * u128::from(sight.held);
    (fills && sight.held < sight.most_events).then_some(Problem::TableNearlyFull {
        held: sight.held,
        most: sight.most_events,
        ended: sight.ended,
    })
}

fn callers_are_refused(sight: &Sight) -> Option<Problem>
    ensures { result ≡ callers_are_refused sight.now }
{
    let lately = sight.lately;
    (0 < lately.refused_full || 0 < lately.refused_busy).then_some(Problem::CallersAreRefused {
        full: lately.refused_full,
        busy: lately.refused_busy,
        seconds: lately.seconds,
    })
}

fn events_expire(sight: &Sight) -> Option<Problem>
    ensures { result ≡ events_expire sight.now }
{
    let lately = sight.lately;
    (0 < sight.expiring || 0 < lately.expired).then_some(Problem::EventsExpire {
        expiring: sight.expiring,
        expired: lately.expired,
        seconds: lately.seconds,
    })
}

/// What is wrong with a broker that is seen so, in the order in which it is told. It takes no memory.
#[tactic(auto, unfolding(crate::specs::Verdict::problems))]
pub fn problems(sight: &Sight) -> [Option<Problem>; PROBLEMS]
    // claim: What is told to be wrong is just what the definitions find in what was seen.
    ensures { result ≡ problems sight.now }
{
    [
        disk_hangs(sight),
        clock_is_behind(sight),
        clock_is_held_back(sight),
        events_expired_by_a_jump(sight),
        nobody_polls(sight),
        environment_hangs(sight),
        nothing_ends(sight),
        most_attempts_fail(sight),
        commits_are_slow(sight),
        all_busy(sight),
        backlog_grows(sight),
        records_not_collected(sight),
        table_full(sight),
        table_nearly_full(sight),
        callers_are_refused(sight),
        events_expire(sight),
    ]
}
