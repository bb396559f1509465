// What is told of what was seen.
ghost use Rattle.std.specs.Prelude.{◌≡◌, IfOk, IfSome, true, is_some, option_map, string_bytes};
ghost use Rattle.std.specs.List.{list_any};
ghost use Rattle.admin_replies.specs.Telling.{TellsOf, TellsAtOnce, TellsStalled, TellsHealth, TellsNumbers, TellsStalledNumbers, TellsHistory, CountsEnded, IsSameVersion, health_status};

use crate::admin_reply::{AdminReply, Media};
use crate::admin_request::AdminRequest;
use crate::history::History;
use crate::kept::Kept;
use crate::lists::{event_reply, events_reply, records_reply};
use crate::measuring::{Measures, ended_in, metrics_of};
use crate::metrics_text::{metrics_text, stalled_text};
use crate::page::PAGE;
use crate::stalled::{stalled_metrics, stalled_problems};
use crate::words::problems_text;
use async_core::Table;
use operator_view::{Problem, tally};
use port_meters::{Opening, Version};
use receipts::View;
use retry_rules::Settings;
use std::alloc::{AllocError, Global};

/// What is known of a broker from its opening on.
#[derive(Drop)]
pub struct Baseline {
    pub settings: Settings,
    /// How many events had ended and were held.
    pub ended_before: u64,
    /// What the opening did.
    pub opening: Opening,
    /// Which program serves.
    pub version: Version,
}

// The same once more.
fn copied_kit(kit: &Option<String>) -> Result<Option<String>, AllocError>
    ensures { IfOk result (λ copy. option_map string_bytes copy ≡ option_map string_bytes kit.now) }
{
    match kit {
        Some(kit) => Ok(Some(kit.clone()?)),
        None => Ok(None),
    }
}

// The same once more.
fn copied(version: &Version) -> Result<Version, AllocError>
    ensures { IfOk result (IsSameVersion version.now) }
{
    Ok(Version {
        text: version.text.clone()?,
        kit: copied_kit(&version.kit)?,
        is_proved: version.is_proved,
    })
}

impl Baseline {
    /// Of a broker that is opened with this table by this program, by an opening that did this.
    pub fn of(table: &Table, opening: Opening, version: &Version) -> Result<Baseline, AllocError>
        ensures settings { IfOk result (λ baseline. baseline.settings ≡ table.now.settings) }
        ensures ended { IfOk result (λ baseline. CountsEnded table.now.table.rows baseline.ended_before) }
        ensures opening { IfOk result (λ baseline. baseline.opening ≡ opening) }
        ensures version { IfOk result (λ baseline. IsSameVersion version.now baseline.version) }
    {
        let settings = table.settings().copy()?;
        let version = copied(version)?;
        // (what has ended by now does not hang on the moment)
        let tally = tally(table, 0);
        Ok(Baseline {
            settings,
            ended_before: ended_in(&tally.census),
            opening,
            version,
        })
    }
}

// Whether the broker serves.
fn health_reply(alloc: Global, has_fault: bool, is_stopping: bool) -> Result<AdminReply, AllocError>
    ensures { IfOk result (λ reply. reply.status ≡ health_status has_fault is_stopping) }
{
    if has_fault {
        AdminReply::line(alloc, 503, "device fault")
    } else if is_stopping {
        AdminReply::line(alloc, 503, "stopping")
    } else {
        AdminReply::line(alloc, 200, "ok")
    }
}

fn is_any(problems: &[Option<Problem>]) -> bool
    ensures { result ≡ list_any is_some problems.now }
{
    problems.iter().any(|problem| problem.is_some())
}

// Whether the broker serves, and whether nothing is wrong with it.
fn deep_reply(
    alloc: Global,
    baseline: &Baseline,
    view: &View,
    kept: &Kept,
    measures: &Measures,
    now: u64,
) -> Result<AdminReply, AllocError>
    ensures { IfOk result (TellsHealth baseline.now view.now kept.now measures.now now true) }
{
    let metrics = metrics_of(baseline, view, kept.phases(), measures, now);
    if is_any(&metrics.problems) {
        let body = problems_text(alloc, &metrics.problems)?;
        return Ok(AdminReply::of(503, body));
    }
    health_reply(alloc, measures.has_fault, view.hall.is_stopping)
}

// All numbers, as text.
fn metrics_reply(
    alloc: Global,
    baseline: &Baseline,
    view: &View,
    kept: &Kept,
    measures: &Measures,
    now: u64,
) -> Result<AdminReply, AllocError>
    ensures { IfOk result (TellsNumbers baseline.now view.now kept.now measures.now now) }
{
    let seen = kept.phases();
    let metrics = metrics_of(baseline, view, seen, measures, now);
    let text = metrics_text(
        alloc,
        &metrics,
        seen,
        measures.elapsed,
        &baseline.version,
        &baseline.settings,
    )?;
    Ok(AdminReply::shown(Media::Metrics, text))
}

// The numbers that are known while a flush hangs, as text.
fn stalled_reply(
    alloc: Global,
    baseline: &Baseline,
    measures: &Measures,
) -> Result<AdminReply, AllocError>
    ensures { IfOk result (TellsStalledNumbers baseline.now measures.now) }
{
    let metrics = stalled_metrics(measures);
    let text = stalled_text(alloc, &metrics, &baseline.version, &baseline.settings)?;
    Ok(AdminReply::shown(Media::Metrics, text))
}

// That a flush hangs, as a verdict.
fn stalled_health(alloc: Global, measures: &Measures) -> Result<AdminReply, AllocError>
    ensures { IfOk result (λ reply. reply.status ≡ 503) }
{
    let body = problems_text(alloc, &stalled_problems(measures.flush_seconds))?;
    Ok(AdminReply::of(503, body))
}

// That a flush hangs, as a line.
fn stalled_line(alloc: Global, measures: &Measures) -> Result<AdminReply, AllocError>
    ensures { IfOk result (λ reply. reply.status ≡ 503) }
{
    let seconds = measures.flush_seconds;
    let words = format!(in alloc; "disk hangs: a flush has been under way for {seconds} s")?;
    AdminReply::line(alloc, 503, words.as_str())
}

// The samples that are kept, as text.
fn history_reply(alloc: Global, history: &History) -> Result<AdminReply, AllocError>
    ensures { IfOk result (TellsHistory history.now) }
{
    let text = history.text(alloc)?;
    Ok(AdminReply::shown(Media::Text, text))
}

fn page_reply(alloc: Global) -> Result<AdminReply, AllocError>
    ensures { IfOk result (λ reply. reply.status ≡ 200) }
{
    let body = Vec::from_slice(alloc, PAGE.as_bytes())?;
    Ok(AdminReply::shown(Media::Html, body))
}

// What is told while a flush hangs, without a look at the table: nothing of it is known to be durable.
fn tell_stalled(
    alloc: Global,
    baseline: &Baseline,
    request: &AdminRequest,
    measures: &Measures,
    kept: &Kept,
) -> Result<AdminReply, AllocError>
    ensures { IfOk result (TellsStalled baseline.now measures.now kept.now request.now) }
{
    match request {
        AdminRequest::Metrics => stalled_reply(alloc, baseline, measures),
        AdminRequest::History => history_reply(alloc, &kept.history),
        AdminRequest::Health { is_deep: true } => stalled_health(alloc, measures),
        _ => stalled_line(alloc, measures),
    }
}

/// What is told at once to an operator who asked so, without a look at the table: the page, whether the broker serves, by whether it
/// is asked to stop, and anything while a flush hangs. None where he is told once what is looked at is durable. Only want of memory
/// is refused.
pub fn tell_at_once(
    alloc: Global,
    baseline: &Baseline,
    request: &AdminRequest,
    measures: &Measures,
    kept: &Kept,
    is_stopping: bool,
) -> Option<Result<AdminReply, AllocError>>
    // claim: Page and health are told at once, and all else while a flush hangs: what needs no look at the table, else 503.
    ensures { IfSome result (λ told. IfOk told (TellsAtOnce baseline.now measures.now kept.now is_stopping request.now)) }
{
    match request {
        AdminRequest::Page => Some(page_reply(alloc)),
        AdminRequest::Health { is_deep: false } => {
            Some(health_reply(alloc, measures.has_fault, is_stopping))
        }
        _ => {
            if measures.flush_seconds == 0 {
                None
            } else {
                Some(tell_stalled(alloc, baseline, request, measures, kept))
            }
        }
    }
}

/// What is told to an operator who asked so, of what was seen of a broker and what is kept of its numbers, now, in milliseconds
/// since 1970. Only want of memory is refused.
pub fn tell(
    alloc: Global,
    baseline: &Baseline,
    request: &AdminRequest,
    view: &View,
    measures: &Measures,
    kept: &Kept,
    now: u64,
) -> Result<AdminReply, AllocError>
    // claim: Status and body are the definition's, of page and health only the status. Where the event named is not held, or
    // not among the records asked for, it is 404. [events_reply; event_reply; records_reply]
    ensures { IfOk result (TellsOf baseline.now view.now measures.now kept.now now request.now) }
{
    let rows = view.hall.rows.as_slice();
    let settings = &baseline.settings;
    match request {
        AdminRequest::Page => page_reply(alloc),
        AdminRequest::Metrics => metrics_reply(alloc, baseline, view, kept, measures, now),
        AdminRequest::History => history_reply(alloc, &kept.history),
        AdminRequest::Health { is_deep: false } => {
            health_reply(alloc, measures.has_fault, view.hall.is_stopping)
        }
        AdminRequest::Health { is_deep: true } => {
            deep_reply(alloc, baseline, view, kept, measures, now)
        }
        AdminRequest::Events {
            which,
            after,
            limit,
        } => events_reply(alloc, rows, *which, after.as_ref(), *limit),
        AdminRequest::Event(id) => event_reply(alloc, rows, settings, id),
        AdminRequest::Records { side, after, limit } => {
            records_reply(alloc, rows, settings, *side, after.as_ref(), *limit)
        }
    }
}
