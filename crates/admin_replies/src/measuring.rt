// The numbers of a broker.
ghost use Rattle.std.specs.Prelude.{◌≡◌, ◌^◌, ◌-◌, min, count_by};
ghost use Rattle.admin_replies.specs.Numbers.{age_of, is_in_phase, phases_of, parked_in, ended_in, event_counters, events_since, in_bytes, process_told, noticed_by, AreMetrics, limits_of};

use crate::judging::{counts_told, problems_of};
use crate::metrics::{EventCounters, Limits, Metrics, Phases, Premise, Process};
use crate::phase_memory::SeenPhase;
use crate::telling::Baseline;
use env_phase::Phase;
use hall_core::EnvironmentStatus;
use operator_view::{Census, Memory};
use port_meters::{Counters, HeldBack, Ports};
use receipts::View;
use retry_rules::{RetryPolicy, Settings};

/// What was counted and measured of a process.
#[derive(Clone, Copy)]
pub struct Measures {
    /// For how many milliseconds it has been looked at, by a clock that nobody sets.
    pub elapsed: u64,
    /// With the opening's commit.
    pub counters: Counters,
    pub ports: Ports,
    /// How many bytes were written to the disk.
    pub written_bytes: u64,
    /// How many bytes of memory the process has.
    pub resident_bytes: u64,
    /// When it was started to serve, in milliseconds since 1970.
    pub started_at: u64,
    /// What is remembered of the looks up to this one.
    pub memory: Memory,
    /// The device failed.
    pub has_fault: bool,
    /// For how many seconds a flush has been under way, once these are five; else 0.
    pub flush_seconds: u64,
    pub clock: ClockSet,
    /// How the system's clock was held back at the last look at it.
    pub held_back: HeldBack,
    /// How many lines standard error did not take.
    pub lines_dropped: u64,
}

/// How often the system's clock was set, and by how much it was last, in milliseconds.
#[derive(Clone, Copy)]
pub struct ClockSet {
    pub steps: u64,
    /// It was set back.
    pub is_back: bool,
    pub millis: u64,
}

/// How long ago that was, in milliseconds: 0 where it will be.
pub(crate) fn age_of(now: u64, moment: Option<u64>) -> Option<u64>
    ensures { result ≡ age_of now moment }
{
    match moment {
        Some(moment) => Some(now.saturating_sub(moment)),
        None => None,
    }
}

/// How many environments are in this phase.
pub(crate) fn count_in_phase(environments: &[EnvironmentStatus], phase: Phase) -> u64
    ensures { result ≡ count_by (is_in_phase phase) environments.now }
{
    environments
        .iter()
        .filter(|status| status.phase == phase)
        .count() as u64
}

fn phases_of(environments: &[EnvironmentStatus]) -> Phases
    ensures { result ≡ phases_of environments.now }
{
    Phases {
        init: count_in_phase(environments, Phase::Init),
        ready: count_in_phase(environments, Phase::Ready),
        busy: count_in_phase(environments, Phase::Busy),
        closing: count_in_phase(environments, Phase::Closing),
    }
}

// How many polls are parked, up to the greatest number.
fn parked_in(environments: &[EnvironmentStatus]) -> u64
    ensures { result ≡ min (parked_in environments.now) (2 ^ 64 - 1) }
{
    match environments {
        [] => 0,
        [status, more @ ..] => (status.parked as u64).saturating_add(parked_in(more)),
    }
}

/// How many events have ended and are held.
pub(crate) fn ended_in(census: &Census) -> u64
    ensures { result ≡ min (ended_in census.now) (2 ^ 64 - 1) }
{
    let failures = (census.retries_exhausted as u64).saturating_add(
        census.event_age_exceeded as u64,
    );
    (census.success as u64).saturating_add(failures)
}

// What became of events since the opening, when so many had ended, and which interrupted so many attempts. An event that ended
// and is not held was collected; one that ended neither with success nor by its age had no retries left.
fn event_counters(
    before: u64,
    interrupted: u64,
    ended: u64,
    counted: &receipts::CommandCounters,
) -> EventCounters
    ensures { result ≡ event_counters before interrupted ended counted.now }
{
    let all = ended
        .saturating_add(counted.collected)
        .saturating_sub(before);
    let others = all.saturating_sub(counted.succeeded);
    EventCounters {
        accepted: counted.accepted,
        success: counted.succeeded,
        retries_exhausted: others.saturating_sub(counted.expired),
        event_age_exceeded: counted.expired,
        collected: counted.collected,
        started: counted.started,
        failed: counted.failed,
        throttled: counted.throttled,
        interrupted: counted.interrupted.saturating_add(interrupted),
    }
}

/// What became of events since an opening, by the census of those that are held and by what was counted.
pub(crate) fn events_since(
    baseline: &Baseline,
    census: &Census,
    counted: &receipts::CommandCounters,
) -> EventCounters
    ensures { result ≡ events_since baseline.now census.now counted.now }
{
    let interrupted = baseline.opening.interrupted;
    event_counters(
        baseline.ended_before,
        interrupted,
        ended_in(census),
        counted,
    )
}

// A sector has 512 bytes.
fn in_bytes(sectors: u64) -> u64
    ensures { result ≡ in_bytes sectors }
{
    sectors.saturating_mul(512)
}

/// What the process does with its disk and its ports.
pub(crate) fn process_told(measures: &Measures, is_stopping: bool) -> Process
    ensures { result ≡ process_told measures.now is_stopping }
{
    let counters = measures.counters;
    Process {
        commits: counters.commits,
        switches: counters.switches(),
        written_bytes: measures.written_bytes,
        commit_microseconds: counters.commit_microseconds,
        buckets: counters.buckets,
        generation: counters.generation,
        bytes: in_bytes(counters.sectors),
        free_bytes: in_bytes(counters.free_sectors),
        resident_bytes: measures.resident_bytes,
        started_at: measures.started_at,
        is_stopping,
        has_fault: measures.has_fault,
        refused: counters.refused,
    }
}

fn limits_of(policy: &RetryPolicy, settings: &Settings) -> Limits
    ensures { result ≡ limits_of policy.now settings.now }
{
    Limits {
        retries: policy.retries as u64,
        age: policy.age as u64,
        timeout: settings.timeout as u64,
        concurrency: settings.concurrency as u64,
        events: settings.events as u64,
        payload: settings.payload as u64,
        response: settings.response as u64,
    }
}

/// What was noticed of the premises.
pub(crate) fn noticed_by(measures: &Measures) -> Premise
    ensures { result ≡ noticed_by measures.now }
{
    Premise {
        flush_seconds: measures.flush_seconds,
        clock: measures.clock,
        lines_dropped: measures.lines_dropped,
    }
}

/// The numbers of a broker that was seen so, of whose phases that is remembered, and of which so much was counted and measured,
/// now, in milliseconds since 1970.
pub(crate) fn metrics_of(
    baseline: &Baseline,
    view: &View,
    seen: &[SeenPhase],
    measures: &Measures,
    now: u64,
) -> Metrics
    // claim: Each number, and the verdict, is the definition's, of what was seen, counted and measured.
    ensures { AreMetrics baseline.now view.now seen.now measures.now now result }
{
    let hall = &view.hall;
    let census = hall.tally.census;
    let events = events_since(baseline, &census, &view.counters);
    let clock = measures.clock;
    let counts = counts_told(measures.elapsed, clock.steps, &events, &measures.counters);
    Metrics {
        census,
        oldest_wait_age: age_of(now, hall.tally.oldest_waiting),
        oldest_record_age: age_of(now, hall.tally.oldest_record),
        issued: hall.issued,
        durable: hall.durable,
        pending: hall.issued.saturating_sub(hall.durable),
        open_slots: hall.open_slots as u64,
        parked_polls: parked_in(&hall.environments),
        environments: phases_of(&hall.environments),
        events,
        lives: view.lives,
        process: process_told(measures, hall.is_stopping),
        ports: measures.ports,
        limits: limits_of(&hall.policy, &baseline.settings),
        noticed: noticed_by(measures),
        problems: problems_of(&baseline.settings, view, seen, measures, now, &counts),
    }
}
