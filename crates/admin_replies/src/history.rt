// What is kept of a broker's numbers, and its text.
ghost use Rattle.std.specs.Prelude.{◌≡◌, ◌++◌, [], IfOk, OnOk};
ghost use Rattle.std.specs.List.{flat_map};
ghost use Rattle.std.specs.Option.{option_copied};
ghost use Rattle.admin_replies.specs.History.{is_recent, noted, number_text, sample_text, history_begin, history_text};

use crate::lines::put_number;
use crate::sample::{Sample, numbers_in};
use circular_buffer::HeapCircularBuffer;
use std::alloc::{AllocError, Global};

/// How many samples are kept.
const MOST: usize = 60;

/// How long it takes at least from one to the next, in milliseconds.
const GAP: u64 = 5_000;

const BEGIN: &[u8] =
    b"at,accepted,started,succeeded,failed,ended,collected,waiting,refused_full,refused_busy,commits,commit_microseconds,written_bytes\n";

/// The last sixty samples of a broker's numbers, five seconds apart or more.
#[derive(Drop)]
pub struct History {
    samples: HeapCircularBuffer<Sample>,
    ghost sized: { samples.capacity ≡ 60 },
}

impl History {
    /// One that has none yet. All its memory is asked for here.
    pub fn new(alloc: Global) -> Result<History, AllocError>
        ensures { IfOk result (λ history. history.samples.items ≡ []) }
    {
        let samples = HeapCircularBuffer::with_capacity(alloc, MOST)?;
        Ok(History { samples })
    }

    /// Keeps one more, unless the last one is of less than five seconds before. Where there are sixty, the first is kept no
    /// longer. It takes no memory.
    pub fn note(&mut self, sample: Sample)
        // claim: The last sixty samples are kept as they came, none from the five seconds behind the one before. Their text is
        // the definition's. [History::text]
        ensures { self.new.samples.items ≡ noted self.old.samples.items sample }
    {
        if !is_recent(self.samples.back(), sample.counts.at) {
            self.samples.push_back(sample);
        }
    }

    /// All of them as text: the names, and a line for each, with commas between. Only want of memory is refused.
    pub(crate) fn text(&self, alloc: Global) -> Result<Vec<u8>, AllocError>
        ensures { IfOk result (λ text. text.items ≡ history_text self.now.samples.items) }
    {
        let samples = self.samples.to_vec(alloc)?;
        let mut out = Vec::from_slice(alloc, begin())?;
        put_samples(alloc, &mut out, samples.as_slice())?;
        Ok(out)
    }
}

// Whether that was kept less than five seconds before.
fn is_recent(last: Option<&Sample>, at: u64) -> bool
    ensures { result ≡ is_recent (option_copied last.entry) at }
{
    match last {
        Some(last) => last.counts.at <= at && at - last.counts.at < GAP,
        None => false,
    }
}

#[tactic(auto, unfolding(crate::specs::History::history_begin))]
fn begin() -> &'static [u8]
    ensures { result.now ≡ history_begin }
{
    BEGIN
}

fn put_number_behind(alloc: Global, out: &mut Vec<u8>, number: u64) -> Result<(), AllocError>
    ensures { OnOk result (out.new.items ≡ out.old.items ++ number_text number) }
{
    out.extend_from_slice(b",")?;
    put_number(alloc, out, number)
}

fn put_numbers(alloc: Global, out: &mut Vec<u8>, numbers: &[u64]) -> Result<(), AllocError>
    ensures { OnOk result (out.new.items ≡ out.old.items ++ flat_map number_text numbers.now) }
{
    for number in numbers {
        put_number_behind(alloc, out, *number)?;
    }
    Ok(())
}

#[tactic(auto, unfolding(crate::specs::History::sample_text))]
fn put_sample(alloc: Global, out: &mut Vec<u8>, sample: &Sample) -> Result<(), AllocError>
    ensures { OnOk result (out.new.items ≡ out.old.items ++ sample_text sample.now) }
{
    let numbers = numbers_in(sample);
    put_number(alloc, out, sample.at)?;
    put_numbers(alloc, out, &numbers)?;
    out.extend_from_slice(b"\n")
}

fn put_samples(alloc: Global, out: &mut Vec<u8>, samples: &[Sample]) -> Result<(), AllocError>
    ensures { OnOk result (out.new.items ≡ out.old.items ++ flat_map sample_text samples.now) }
{
    for sample in samples {
        put_sample(alloc, out, sample)?;
    }
    Ok(())
}
