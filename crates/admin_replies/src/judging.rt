// What an operator's port sees by which a verdict is found.
ghost use Rattle.std.specs.Prelude.{◌≡◌, ◌^◌, ◌-◌, min};
ghost use Rattle.admin_replies.specs.Numbers.{ended_in, counts_told, set_ahead, running_for, IsSight, AreProblems};

use crate::measuring::{ClockSet, Measures, age_of, count_in_phase, ended_in};
use crate::metrics::EventCounters;
use crate::phase_memory::{SeenPhase, unpolled_from};
use env_phase::Phase;
use operator_view::{Counts, PROBLEMS, Problem, Sight, problems};
use port_meters::Counters;
use receipts::View;
use retry_rules::Settings;

/// What was counted up to now, when so long was looked and the clock was set so often.
pub(crate) fn counts_told(
    elapsed: u64,
    steps: u64,
    events: &EventCounters,
    counters: &Counters,
) -> Counts
    ensures { result ≡ counts_told elapsed steps events.now counters.now }
{
    Counts {
        at: elapsed,
        accepted: events.accepted,
        started: events.started,
        succeeded: events.success,
        failed: events.failed,
        ended: events
            .success
            .saturating_add(events.retries_exhausted)
            .saturating_add(events.event_age_exceeded),
        expired: events.event_age_exceeded,
        commits: counters.commits,
        commit_microseconds: counters.commit_microseconds,
        quick_commits: counters.buckets[6],
        refused_full: counters.refused.too_many,
        refused_busy: counters.refused.unavailable,
        clock_steps: steps,
    }
}

// By how many milliseconds the clock was set ahead last; 0 where it was set back.
fn set_ahead(clock: ClockSet) -> u64
    ensures { result ≡ set_ahead clock }
{
    if clock.is_back { 0 } else { clock.millis }
}

// For how long the attempt runs that is to be done first; 0 where none runs.
fn running_for(now: u64, timeout: u16, first_deadline: Option<u64>) -> u64
    ensures { result ≡ running_for now timeout first_deadline }
{
    match first_deadline {
        None => 0,
        Some(deadline) => now.saturating_sub(deadline.saturating_sub(1000 * timeout as u64)),
    }
}

fn sight_of(
    settings: &Settings,
    view: &View,
    seen: &[SeenPhase],
    measures: &Measures,
    now: u64,
    counts: &Counts,
) -> Sight
    ensures { IsSight settings.now view.now seen.now measures.now now counts.now result }
{
    let tally = &view.hall.tally;
    let environments = view.hall.environments.as_slice();
    let unpolled = unpolled_from(seen, 1, measures.elapsed);
    Sight {
        at: now,
        flush_seconds: measures.flush_seconds,
        last_moment: tally.last_moment,
        set_ahead: set_ahead(measures.clock),
        held_ahead: measures.held_back.ahead,
        held_left: measures.held_back.left,
        environments: environments.len() as u64,
        without_poll: count_in_phase(environments, Phase::Init),
        busy: count_in_phase(environments, Phase::Busy),
        running: tally.census.running as u64,
        unpolled: unpolled.environment,
        unpolled_for: unpolled.time,
        running_for: running_for(now, settings.timeout, tally.first_deadline),
        held: tally.census.held as u64,
        most_events: settings.events as u64,
        ended: ended_in(&tally.census),
        timeout: settings.timeout,
        due: tally.due as u64,
        first_due: tally.first_due,
        quiet: measures.elapsed.saturating_sub(measures.memory.quiet_since),
        expiring: tally.expiring as u64,
        oldest_record_age: age_of(now, tally.oldest_record),
        lately: measures.memory.lately(counts),
    }
}

/// What is wrong with a broker that was seen so, after so much was counted and measured.
pub(crate) fn problems_of(
    settings: &Settings,
    view: &View,
    seen: &[SeenPhase],
    measures: &Measures,
    now: u64,
    counts: &Counts,
) -> [Option<Problem>; PROBLEMS]
    ensures { AreProblems settings.now view.now seen.now measures.now now counts.now result }
{
    let sight = sight_of(settings, view, seen, measures, now, counts);
    problems(&sight)
}
