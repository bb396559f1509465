// How many threads serve the callers: as many as were asked for, and else as many as the machine gives.
use crate::error::OpeningError;
use broker_commands::Address;
use std::alloc::{AllocError, AllocGlobal, Global};
use std::sync::{Arc, Condvar, Mutex, Wait};
use std::thread;
use std::thread::{JoinHandle, Threads};

/// How many threads serve the callers at most where nobody says how many.
const MOST_THREADS: usize = 8;

/// How many threads there are whatever is served: the ticker, and the one that looks at what the disk rests on.
const OTHERS: usize = 2;

/// For how many more there is room left where nobody says how many: what threads work with takes room, too.
const SPARE: usize = 2;

/// That threads may end, which they sleep for.
#[derive(Drop)]
struct End {
    came: Mutex<bool>,
    comes: Condvar,
}

impl End {
    fn new(alloc: Global) -> Result<Arc<End>, AllocError> {
        let end = End {
            came: Mutex::new(false),
            comes: Condvar::new(),
        };
        Ok(Arc::new(alloc, end)?)
    }

    fn come<R: Wait>(&self, rt: &R) {
        *self.came.lock(rt) = true;
        self.comes.notify_all();
    }

    fn wait<R: Wait>(&self, rt: &R) {
        let _came = self.comes.wait_while(rt, self.came.lock(rt), |came| !*came);
    }
}

// Starts a thread that sleeps until then.
fn start_sleeper<R>(rt: R, end: &Arc<End>) -> Option<JoinHandle<()>>
where
    R: Threads + Wait + Copy + Drop + Send + 'static,
{
    let theirs = Arc::try_clone(end).ok()?;
    thread::spawn(&rt, move || theirs.wait(&rt)).ok()
}

// How many threads of so many the machine gives at once.
fn threads_given<R>(rt: R, most: usize) -> Result<usize, AllocError>
where
    R: Threads + Wait + AllocGlobal + Copy + Drop + Send + 'static,
{
    let end = End::new(rt.alloc())?;
    let mut sleepers = Vec::with_capacity(rt.alloc(), most)?;
    for _ in 0..most {
        let Some(sleeper) = start_sleeper(rt, &end) else {
            break;
        };
        if sleepers.push(sleeper).is_err() {
            break;
        }
    }
    end.come(&rt);
    let given = sleepers.len();
    for sleeper in sleepers {
        sleeper.join(&rt);
    }
    Ok(given)
}

// How many threads serve the callers where nobody says how many: one for each processor, up to eight.
fn usual_threads<R: Threads>(rt: &R) -> u8 {
    match thread::available_parallelism(rt) {
        Ok(found) => found.get().min(MOST_THREADS) as u8,
        Err(_) => 1,
    }
}

// How many threads a broker has beside those that serve its callers: one for each environment, for the operator's port, and for the
// records that are discarded.
fn other_threads(at: &Address<'_>, environments: u8) -> usize {
    let discards = at.discards_success || at.discards_failure;
    usize::from(environments) + usize::from(at.admin.is_some()) + usize::from(discards) + OTHERS
}

/// How many threads serve the callers of a broker with so many environments: as many as were asked for; where nobody asked, one for
/// each processor, up to eight, or as many as the machine gives, at least one. It is refused `Threads` where it does not give that many.
pub(crate) fn caller_threads<R>(
    rt: R,
    at: &Address<'_>,
    environments: u8,
) -> Result<u8, OpeningError>
where
    R: Threads + Wait + AllocGlobal + Copy + Drop + Send + 'static,
{
    let wanted = at.threads.unwrap_or(usual_threads(&rt));
    let least = at.threads.unwrap_or(1);
    let others = other_threads(at, environments);
    let beside = others.saturating_add(SPARE);
    let given = threads_given(rt, usize::from(wanted).saturating_add(beside))?;
    if given < usize::from(least).saturating_add(others) {
        return Err(OpeningError::Threads { threads: least });
    }
    let room = given.saturating_sub(beside);
    Ok(room.max(usize::from(least)).min(usize::from(wanted)) as u8)
}
