// The number that a metric names.
ghost use Rattle.std.specs.Prelude.{◌≡◌, slice_index};
ghost use Rattle.admin_replies.specs.Values.{or_zero, indicator, held_value, wait_value, phase_value, life_value, refusal_value, unread_value, open_value, spread_in, time_value, event_value, commit_value, state_value, notice_value, limit_value, problem_value, value_of};

use crate::metric::{
    HeldMetric, LifeMetric, LimitMetric, Metric, NoticeMetric, OpenMetric, PhaseMetric,
    RefusalMetric, ReplyMetric, StateMetric, TimeMetric, UnreadMetric, WaitMetric,
};
use crate::metrics::{Limits, Metrics, Phases, Premise, Process};
use operator_view::{Census, PROBLEMS, Problem};
use port_meters::{Ports, Refusals, Spread, UnreadCounts};
use receipts::Lives;

/// A number, and how it is told.
#[derive(Clone, Copy)]
pub(crate) enum Value {
    /// As it is.
    Whole(u64),
    /// In seconds.
    Milliseconds(u64),
    /// In seconds.
    Microseconds(u64),
    /// So many milliseconds, in seconds, and whether they are below 0.
    Signed(bool, u64),
}

fn or_zero(age: Option<u64>) -> u64
    ensures { result ≡ or_zero age }
{
    match age {
        Some(age) => age,
        None => 0,
    }
}

fn indicator(holds: bool) -> u64
    ensures { result ≡ indicator holds }
{
    if holds { 1 } else { 0 }
}

fn held_value(census: &Census, held: HeldMetric) -> u64
    ensures { result ≡ held_value census.now held }
{
    let number = match held {
        HeldMetric::Waiting => census.waiting,
        HeldMetric::DueAgain => census.due_again,
        HeldMetric::Running => census.running,
        HeldMetric::Success => census.success,
        HeldMetric::RetriesExhausted => census.retries_exhausted,
        HeldMetric::EventAgeExceeded => census.event_age_exceeded,
    };
    number as u64
}

fn wait_value(metrics: &Metrics, wait: WaitMetric) -> Value
    ensures { result ≡ wait_value metrics.now wait }
{
    match wait {
        WaitMetric::OldestWait => Value::Milliseconds(or_zero(metrics.oldest_wait_age)),
        WaitMetric::OldestRecord => Value::Milliseconds(or_zero(metrics.oldest_record_age)),
        WaitMetric::Pending => Value::Whole(metrics.pending),
        WaitMetric::OpenSlots => Value::Whole(metrics.open_slots),
        WaitMetric::ParkedPolls => Value::Whole(metrics.parked_polls),
    }
}

fn phase_value(phases: &Phases, phase: PhaseMetric) -> u64
    ensures { result ≡ phase_value phases.now phase }
{
    match phase {
        PhaseMetric::Init => phases.init,
        PhaseMetric::Ready => phases.ready,
        PhaseMetric::Busy => phases.busy,
        PhaseMetric::Closing => phases.closing,
    }
}

fn life_value(metrics: &Metrics, life: LifeMetric) -> u64
    ensures { result ≡ life_value metrics.now life }
{
    match life {
        LifeMetric::Issued => metrics.issued,
        LifeMetric::Durable => metrics.durable,
        LifeMetric::Accepted => metrics.events.accepted,
        LifeMetric::Success => metrics.events.success,
        LifeMetric::RetriesExhausted => metrics.events.retries_exhausted,
        LifeMetric::EventAgeExceeded => metrics.events.event_age_exceeded,
        LifeMetric::Collected => metrics.events.collected,
        LifeMetric::Started => metrics.events.started,
        LifeMetric::Failed => metrics.events.failed,
        LifeMetric::Throttled => metrics.events.throttled,
        LifeMetric::Interrupted => metrics.events.interrupted,
    }
}

fn refusal_value(refused: &Refusals, refusal: RefusalMetric) -> u64
    ensures { result ≡ refusal_value refused.now refusal }
{
    match refusal {
        RefusalMetric::BadRequest => refused.bad_request,
        RefusalMetric::NotFound => refused.not_found,
        RefusalMetric::Conflict => refused.conflict,
        RefusalMetric::TooLarge => refused.too_large,
        RefusalMetric::TooMany => refused.too_many,
        RefusalMetric::Unavailable => refused.unavailable,
        RefusalMetric::Other => refused.other,
    }
}

fn in_bucket(buckets: &[u64; 8], index: u8) -> u64
    ensures { result ≡ slice_index buckets.now index }
{
    match buckets.get(index as usize) {
        Some(number) => *number,
        None => 0,
    }
}

fn time_value(spread: &Spread, time: TimeMetric) -> Value
    ensures { result ≡ time_value spread.now time }
{
    match time {
        TimeMetric::Within(index) => Value::Whole(in_bucket(&spread.buckets, index)),
        TimeMetric::All => Value::Whole(spread.all),
        TimeMetric::Time => Value::Microseconds(spread.microseconds),
    }
}

fn commit_value(process: &Process, commit: TimeMetric) -> Value
    ensures { result ≡ commit_value process.now commit }
{
    let spread = Spread {
        buckets: process.buckets,
        all: process.commits,
        microseconds: process.commit_microseconds,
    };
    time_value(&spread, commit)
}

fn event_value(lives: &Lives, time: TimeMetric) -> Value
    ensures { result ≡ event_value lives.now time }
{
    match time {
        TimeMetric::Within(index) => Value::Whole(in_bucket(&lives.buckets, index)),
        TimeMetric::All => Value::Whole(lives.all),
        TimeMetric::Time => Value::Milliseconds(lives.milliseconds),
    }
}

fn unread_value(counts: &UnreadCounts, unread: UnreadMetric) -> u64
    ensures { result ≡ unread_value counts.now unread }
{
    match unread {
        UnreadMetric::BadHead => counts.bad_head,
        UnreadMetric::HeadTooLarge => counts.head_too_large,
        UnreadMetric::HeadCutOff => counts.head_cut_off,
        UnreadMetric::HeadLate => counts.head_late,
        UnreadMetric::BodyCutOff => counts.body_cut_off,
        UnreadMetric::BodyLate => counts.body_late,
        UnreadMetric::Forbidden => counts.forbidden,
    }
}

fn open_value(ports: &Ports, of: OpenMetric) -> u64
    ensures { result ≡ open_value ports.now of }
{
    match of {
        OpenMetric::Callers => ports.callers,
        OpenMetric::Environments => ports.environments,
        OpenMetric::Operator => ports.operator,
    }
}

fn spread_in(ports: &Ports, reply: ReplyMetric) -> Spread
    ensures { result ≡ spread_in ports.now reply }
{
    match reply {
        ReplyMetric::Call => ports.calls,
        ReplyMetric::Report => ports.reports,
        ReplyMetric::Poll => ports.polls,
    }
}

fn state_value(process: &Process, state: StateMetric) -> Value
    ensures { result ≡ state_value process.now state }
{
    match state {
        StateMetric::Switches => Value::Whole(process.switches),
        StateMetric::WrittenBytes => Value::Whole(process.written_bytes),
        StateMetric::Generation => Value::Whole(process.generation),
        StateMetric::Bytes => Value::Whole(process.bytes),
        StateMetric::FreeBytes => Value::Whole(process.free_bytes),
        StateMetric::ResidentBytes => Value::Whole(process.resident_bytes),
        StateMetric::StartedAt => Value::Milliseconds(process.started_at),
        StateMetric::Stopping => Value::Whole(indicator(process.is_stopping)),
        StateMetric::Fault => Value::Whole(indicator(process.has_fault)),
    }
}

fn notice_value(noticed: &Premise, notice: NoticeMetric) -> Value
    ensures { result ≡ notice_value noticed.now notice }
{
    match notice {
        NoticeMetric::Flush => Value::Whole(noticed.flush_seconds),
        NoticeMetric::ClockStep => Value::Signed(noticed.clock.is_back, noticed.clock.millis),
        NoticeMetric::ClockSteps => Value::Whole(noticed.clock.steps),
        NoticeMetric::LinesDropped => Value::Whole(noticed.lines_dropped),
    }
}

fn limit_value(limits: &Limits, limit: LimitMetric) -> u64
    ensures { result ≡ limit_value limits.now limit }
{
    match limit {
        LimitMetric::Events => limits.events,
        LimitMetric::Concurrency => limits.concurrency,
        LimitMetric::Timeout => limits.timeout,
        LimitMetric::Retries => limits.retries,
        LimitMetric::Age => limits.age,
        LimitMetric::Payload => limits.payload,
        LimitMetric::Response => limits.response,
    }
}

// 1 where there is a problem at this place, else 0.
fn problem_value(problems: &[Option<Problem>; PROBLEMS], place: u8) -> u64
    ensures { result ≡ problem_value problems.now place }
{
    match problems.get(place as usize) {
        Some(problem) => indicator(problem.is_some()),
        None => 0,
    }
}

/// The number that a metric names.
pub(crate) fn value_of(metrics: &Metrics, metric: Metric) -> Value
    ensures { result ≡ value_of metrics.now metric }
{
    match metric {
        Metric::Held(held) => Value::Whole(held_value(&metrics.census, held)),
        Metric::Wait(wait) => wait_value(metrics, wait),
        Metric::Phase(phase) => Value::Whole(phase_value(&metrics.environments, phase)),
        Metric::Life(life) => Value::Whole(life_value(metrics, life)),
        Metric::Refusal(refusal) => Value::Whole(refusal_value(&metrics.process.refused, refusal)),
        Metric::Unread(unread) => Value::Whole(unread_value(&metrics.ports.unread, unread)),
        Metric::Open(of) => Value::Whole(open_value(&metrics.ports, of)),
        Metric::Reply(reply, time) => time_value(&spread_in(&metrics.ports, reply), time),
        Metric::Commit(commit) => commit_value(&metrics.process, commit),
        Metric::Event(time) => event_value(&metrics.lives, time),
        Metric::State(state) => state_value(&metrics.process, state),
        Metric::Notice(notice) => notice_value(&metrics.noticed, notice),
        Metric::Limit(limit) => Value::Whole(limit_value(&metrics.limits, limit)),
        Metric::Problem(place) => Value::Whole(problem_value(&metrics.problems, place)),
    }
}
