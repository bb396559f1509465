// The text that a monitor collects.
ghost use Rattle.std.specs.Prelude.{◌≡◌, IfOk};
ghost use Rattle.admin_replies.specs.MetricsText.{metrics_text, stalled_text};
ghost use Rattle.admin_replies.specs.Table.{sections, stalled_sections};

use crate::lines::put_sections;
use crate::metrics::Metrics;
use crate::phase_lines::put_phases;
use crate::phase_memory::SeenPhase;
use crate::settings::put_info;
use crate::table::Section;
use port_meters::Version;
use retry_rules::Settings;
use std::alloc::{AllocError, Global};

const SECTIONS: [Section; 13] = [
    Section::Problems,
    Section::Held,
    Section::Waits,
    Section::Environments,
    Section::Lives,
    Section::Durations,
    Section::Refusals,
    Section::Ports,
    Section::Commits,
    Section::Disk,
    Section::Stopping,
    Section::Premises,
    Section::Limits,
];

const STALLED: [Section; 6] = [
    Section::Stalled,
    Section::Refusals,
    Section::Ports,
    Section::Commits,
    Section::Disk,
    Section::Premises,
];

fn sections() -> &'static [Section]
    ensures { result.now ≡ sections }
{
    &SECTIONS
}

fn stalled_sections() -> &'static [Section]
    ensures { result.now ≡ stalled_sections }
{
    &STALLED
}

/// The text that a monitor collects, in Prometheus' text form, version 0.0.4, with the phases that were seen up to then, by a clock
/// that nobody sets. Only want of memory is refused.
pub(crate) fn metrics_text(
    alloc: Global,
    metrics: &Metrics,
    seen: &[SeenPhase],
    elapsed: u64,
    version: &Version,
    settings: &Settings,
) -> Result<Vec<u8>, AllocError>
    ensures { IfOk result (λ text. text.items ≡ metrics_text metrics.now seen.now elapsed version.now settings.now) }
{
    let mut out = Vec::new(alloc);
    put_sections(alloc, &mut out, sections(), metrics)?;
    put_phases(alloc, &mut out, seen, elapsed)?;
    put_info(&mut out, version, settings)?;
    Ok(out)
}

/// The text that a monitor collects while a flush hangs: what needs no look at the table. Only want of memory is refused.
pub(crate) fn stalled_text(
    alloc: Global,
    metrics: &Metrics,
    version: &Version,
    settings: &Settings,
) -> Result<Vec<u8>, AllocError>
    ensures { IfOk result (λ text. text.items ≡ stalled_text metrics.now version.now settings.now) }
{
    let mut out = Vec::new(alloc);
    put_sections(alloc, &mut out, stalled_sections(), metrics)?;
    put_info(&mut out, version, settings)?;
    Ok(out)
}
