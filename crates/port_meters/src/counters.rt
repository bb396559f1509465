// What the threads of a broker count for its operator.
ghost use Rattle.std.specs.Prelude.{◌≡◌, ◌-◌};
ghost use Rattle.port_meters.specs.Counting.{sum_up_to, raised, raised_buckets, refused_more, HasSameDisk, HasSameCounts};

/// How many requests were refused, by their status.
#[derive(Clone, Copy)]
pub struct Refusals {
    /// 400.
    pub bad_request: u64,
    /// 404.
    pub not_found: u64,
    /// 409.
    pub conflict: u64,
    /// 413.
    pub too_large: u64,
    /// 429.
    pub too_many: u64,
    /// 503.
    pub unavailable: u64,
    pub other: u64,
}

/// What the threads of a broker count for its operator since it was opened. Each number stays at its greatest once it is there.
#[derive(Clone, Copy)]
pub struct Counters {
    pub commits: u64,
    /// How long all commits took together, in microseconds.
    pub commit_microseconds: u64,
    /// How many of them took at most 1, 2.5, 5, 10, 25, 100, 500 and 2500 milliseconds.
    pub buckets: [u64; 8],
    /// The generation of the live segment at the opening.
    pub first_generation: u64,
    pub generation: u64,
    /// How many sectors the disk has.
    pub sectors: u64,
    /// How many sectors the live segment has left.
    pub free_sectors: u64,
    pub refused: Refusals,
}

// One more in a bucket of this bound, where it took no longer.
fn raised(took: u64, bound: u64, bucket: u64) -> u64
    ensures { result ≡ raised took bound bucket }
{
    if took <= bound {
        bucket.saturating_add(1)
    } else {
        bucket
    }
}

fn raised_buckets(took: u64, buckets: [u64; 8]) -> [u64; 8]
    ensures { result ≡ raised_buckets took buckets }
{
    [
        raised(took, 1_000, buckets[0]),
        raised(took, 2_500, buckets[1]),
        raised(took, 5_000, buckets[2]),
        raised(took, 10_000, buckets[3]),
        raised(took, 25_000, buckets[4]),
        raised(took, 100_000, buckets[5]),
        raised(took, 500_000, buckets[6]),
        raised(took, 2_500_000, buckets[7]),
    ]
}

// One more that was refused with this status.
fn refused_more(refused: Refusals, status: u16) -> Refusals
    ensures { result ≡ refused_more refused status }
{
    let mut more = refused;
    match status {
        400 => more.bad_request = more.bad_request.saturating_add(1),
        404 => more.not_found = more.not_found.saturating_add(1),
        409 => more.conflict = more.conflict.saturating_add(1),
        413 => more.too_large = more.too_large.saturating_add(1),
        429 => more.too_many = more.too_many.saturating_add(1),
        503 => more.unavailable = more.unavailable.saturating_add(1),
        _ => more.other = more.other.saturating_add(1),
    }
    more
}

impl Counters {
    /// Nothing was counted.
    pub fn new() -> Counters
        ensures { result.commits ≡ 0 }
    {
        Counters {
            commits: 0,
            commit_microseconds: 0,
            buckets: [0; 8],
            first_generation: 0,
            generation: 0,
            sectors: 0,
            free_sectors: 0,
            refused: Refusals {
                bad_request: 0,
                not_found: 0,
                conflict: 0,
                too_large: 0,
                too_many: 0,
                unavailable: 0,
                other: 0,
            },
        }
    }

    /// A commit took so many microseconds.
    pub fn note_commit(&mut self, took: u64)
        // claim: A commit is counted, also in each bucket of no smaller bound, and its time added; a refusal is counted
        // by its status, or among all others; each number stops at 2^64 - 1. [: commits, time, buckets;
        // Counters::note_refusal: refused]
        ensures commits { self.new.commits ≡ sum_up_to self.old.commits 1 }
        ensures time { self.new.commit_microseconds ≡ sum_up_to self.old.commit_microseconds took }
        ensures buckets { self.new.buckets ≡ raised_buckets took self.old.buckets }
        ensures disk { HasSameDisk self.old self.new }
        ensures refused { self.new.refused ≡ self.old.refused }
    {
        self.commits = self.commits.saturating_add(1);
        self.commit_microseconds = self.commit_microseconds.saturating_add(took);
        self.buckets = raised_buckets(took, self.buckets);
    }

    /// The live segment has this generation, the disk so many sectors, and the segment so many left.
    pub fn note_disk(&mut self, generation: u64, sectors: u64, free_sectors: u64)
        ensures disk { (self.new.generation ≡ generation) × (self.new.sectors ≡ sectors) × (self.new.free_sectors ≡ free_sectors) }
        ensures first { self.new.first_generation ≡ self.old.first_generation }
        ensures counts { HasSameCounts self.old self.new }
    {
        self.generation = generation;
        self.sectors = sectors;
        self.free_sectors = free_sectors;
    }

    /// The same of a disk that is opened.
    pub fn note_opening(&mut self, generation: u64, sectors: u64, free_sectors: u64)
        ensures disk { (self.new.generation ≡ generation) × (self.new.sectors ≡ sectors) × (self.new.free_sectors ≡ free_sectors) }
        ensures first { self.new.first_generation ≡ generation }
        ensures counts { HasSameCounts self.old self.new }
    {
        self.first_generation = generation;
        self.note_disk(generation, sectors, free_sectors);
    }

    /// A request was refused with this status.
    pub fn note_refusal(&mut self, status: u16)
        ensures refused { self.new.refused ≡ refused_more self.old.refused status }
        ensures disk { HasSameDisk self.old self.new }
        ensures commits { (self.new.commits ≡ self.old.commits) × (self.new.buckets ≡ self.old.buckets) }
        ensures time { self.new.commit_microseconds ≡ self.old.commit_microseconds }
    {
        self.refused = refused_more(self.refused, status);
    }

    /// How often the live segment was switched since the opening.
    pub fn switches(&self) -> u64
        ensures { result ≡ self.now.generation - self.now.first_generation }
    {
        self.generation.saturating_sub(self.first_generation)
    }
}
