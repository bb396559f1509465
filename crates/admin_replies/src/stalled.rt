// The numbers that are known while a flush hangs.
ghost use Rattle.std.specs.Prelude.{◌≡◌};
ghost use Rattle.admin_replies.specs.Stalled.{no_census, no_events, no_lives, no_limits, no_phases, stalled_problems, stalled_metrics};

use crate::measuring::{Measures, noticed_by, process_told};
use crate::metrics::{EventCounters, Limits, Metrics, Phases};
use operator_view::{Census, PROBLEMS, Problem};
use receipts::Lives;

fn no_census() -> Census
    ensures { result ≡ no_census }
{
    Census {
        held: 0,
        waiting: 0,
        due_again: 0,
        running: 0,
        success: 0,
        retries_exhausted: 0,
        event_age_exceeded: 0,
    }
}

fn no_events() -> EventCounters
    ensures { result ≡ no_events }
{
    EventCounters {
        accepted: 0,
        success: 0,
        retries_exhausted: 0,
        event_age_exceeded: 0,
        collected: 0,
        started: 0,
        failed: 0,
        throttled: 0,
        interrupted: 0,
    }
}

fn no_lives() -> Lives
    ensures { result ≡ no_lives }
{
    Lives {
        buckets: [0, 0, 0, 0, 0, 0, 0, 0],
        all: 0,
        milliseconds: 0,
    }
}

fn no_phases() -> Phases
    ensures { result ≡ no_phases }
{
    Phases {
        init: 0,
        ready: 0,
        busy: 0,
        closing: 0,
    }
}

fn no_limits() -> Limits
    ensures { result ≡ no_limits }
{
    Limits {
        retries: 0,
        age: 0,
        timeout: 0,
        concurrency: 0,
        events: 0,
        payload: 0,
        response: 0,
    }
}

/// That a flush has been under way for so long, and nothing else.
pub(crate) fn stalled_problems(seconds: u64) -> [Option<Problem>; PROBLEMS]
    ensures { result ≡ stalled_problems seconds }
{
    let mut problems = [None; PROBLEMS];
    problems[0] = Some(Problem::DiskHangs { seconds });
    problems
}

/// What is known without a look at the table; the numbers of the table are 0 here, and are not told.
pub(crate) fn stalled_metrics(measures: &Measures) -> Metrics
    ensures { result ≡ stalled_metrics measures.now }
{
    Metrics {
        census: no_census(),
        oldest_wait_age: None,
        oldest_record_age: None,
        issued: 0,
        durable: 0,
        pending: 0,
        open_slots: 0,
        parked_polls: 0,
        environments: no_phases(),
        events: no_events(),
        lives: no_lives(),
        process: process_told(measures, false),
        ports: measures.ports,
        limits: no_limits(),
        noticed: noticed_by(measures),
        problems: stalled_problems(measures.flush_seconds),
    }
}
