// What is kept of a broker's numbers at one moment.
ghost use Rattle.std.specs.Prelude.{◌≡◌};
ghost use Rattle.admin_replies.specs.History.{sample_told, numbers_in};

use crate::judging::counts_told;
use crate::measuring::events_since;
use crate::telling::Baseline;
use operator_view::Counts;
use port_meters::Counters;
use receipts::View;

/// What is kept of a broker's numbers at one moment. But for those that wait, each was counted since the broker was opened.
#[derive(Clone, Copy)]
pub struct Sample {
    /// The moment, in milliseconds since 1970.
    pub at: u64,
    /// What a verdict is found by.
    pub counts: Counts,
    pub collected: u64,
    /// How many events wait, for any attempt.
    pub waiting: u64,
    pub written_bytes: u64,
}

/// What is kept of a broker that is seen so, when so much was counted and so many bytes were written, at this moment, after it was
/// looked at for so long and the clock was set so often.
pub fn sample_of(
    baseline: &Baseline,
    view: &View,
    counters: &Counters,
    written_bytes: u64,
    at: u64,
    elapsed: u64,
    steps: u64,
) -> Sample
    // claim: A sample is the definition's, of what was seen and counted then.
    ensures { result ≡ sample_told baseline.now view.now counters.now written_bytes at elapsed steps }
{
    let census = &view.hall.tally.census;
    let events = events_since(baseline, census, &view.counters);
    Sample {
        at,
        counts: counts_told(elapsed, steps, &events, counters),
        collected: view.counters.collected,
        waiting: (census.waiting as u64).saturating_add(census.due_again as u64),
        written_bytes,
    }
}

/// The numbers behind the moment, as they are told.
#[tactic(auto, unfolding(crate::specs::History::numbers_in))]
pub(crate) fn numbers_in(sample: &Sample) -> [u64; 12]
    ensures { result ≡ numbers_in sample.now }
{
    let counts = sample.counts;
    [
        counts.accepted,
        counts.started,
        counts.succeeded,
        counts.failed,
        counts.ended,
        sample.collected,
        sample.waiting,
        counts.refused_full,
        counts.refused_busy,
        counts.commits,
        counts.commit_microseconds,
        sample.written_bytes,
    ]
}
