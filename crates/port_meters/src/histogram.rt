// How long something took, each time.
ghost use Rattle.std.specs.Prelude.{◌≡◌, ◌≤◌};
ghost use Rattle.port_meters.specs.Spreading.{bucket_of, spread_of};

use std::sync::atomic::{AtomicU64, Ordering};

/// How often something took how long.
#[derive(Clone, Copy)]
pub struct Spread {
    /// How often it took at most 1, 2.5, 5, 10, 25, 100, 500 and 2500 milliseconds.
    pub buckets: [u64; 8],
    pub all: u64,
    /// How long it took in all, in microseconds.
    pub microseconds: u64,
}

/// What is counted of how long something took, by numbers that threads share. It never grows.
#[derive(Drop)]
pub struct Histogram {
    // How often in each bucket, and not in the one before it; the last has no bound.
    counts: [AtomicU64; 9],
    microseconds: AtomicU64,
}

// The bucket of what took so many microseconds.
fn bucket_of(took: u64) -> usize
    // claim: A time is counted in the least bucket that holds it. [: bucket; spread_of]
    ensures bucket { result ≡ bucket_of took }
    ensures within { result ≤ 8 }
{
    match took {
        0..=1_000 => 0,
        1_001..=2_500 => 1,
        2_501..=5_000 => 2,
        5_001..=10_000 => 3,
        10_001..=25_000 => 4,
        25_001..=100_000 => 5,
        100_001..=500_000 => 6,
        500_001..=2_500_000 => 7,
        _ => 8,
    }
}

// How often it took at most so long, from how often in each bucket.
fn spread_of(counts: [u64; 9], microseconds: u64) -> Spread
    ensures { result ≡ spread_of counts microseconds }
{
    let one = counts[0];
    let two = one.saturating_add(counts[1]);
    let three = two.saturating_add(counts[2]);
    let four = three.saturating_add(counts[3]);
    let five = four.saturating_add(counts[4]);
    let six = five.saturating_add(counts[5]);
    let seven = six.saturating_add(counts[6]);
    let eight = seven.saturating_add(counts[7]);
    Spread {
        buckets: [one, two, three, four, five, six, seven, eight],
        all: eight.saturating_add(counts[8]),
        microseconds,
    }
}

impl Histogram {
    /// Nothing was counted.
    pub fn new() -> Histogram {
        Histogram {
            counts: [
                AtomicU64::new(0),
                AtomicU64::new(0),
                AtomicU64::new(0),
                AtomicU64::new(0),
                AtomicU64::new(0),
                AtomicU64::new(0),
                AtomicU64::new(0),
                AtomicU64::new(0),
                AtomicU64::new(0),
            ],
            microseconds: AtomicU64::new(0),
        }
    }

    /// It took so many microseconds, once more.
    pub fn note(&self, took: u64) {
        self.counts[bucket_of(took)].fetch_add(1, Ordering::SeqCst);
        self.microseconds.fetch_add(took, Ordering::SeqCst);
    }

    /// How often it took how long.
    pub fn read(&self) -> Spread {
        let mut counts = [0; 9];
        for (count, shown) in counts.iter_mut().zip(&self.counts) {
            *count = shown.load(Ordering::SeqCst);
        }
        spread_of(counts, self.microseconds.load(Ordering::SeqCst))
    }
}
