// Lines on standard error, for which nobody waits.
use libc::net::{POLLOUT, poll};
use libc::types::pollfd;
use libc::{STDERR_FILENO, STDOUT_FILENO};
use std::alloc::{AllocError, Global};
use std::io::Eprint;
use std::sync::Arc;
use std::sync::atomic::{AtomicBool, AtomicU64, Ordering};

/// How many bytes a line has at most, with its end: for so many a pipe has room that is said to take something.
const MOST_BYTES: usize = 1 << 12;

/// How often it is asked whether another thread has told its line.
const MOST_TRIES: u32 = 100_000;

/// Standard error, as all who tell something there share it. Nobody waits for who reads it: a line for which there is no room is left
/// out, and counted.
#[derive(Drop)]
pub struct Lines {
    alloc: Global,
    is_telling: AtomicBool,
    dropped: AtomicU64,
}

/// A standard stream to which is written.
#[derive(Clone, Copy)]
pub enum Stream {
    Output,
    Error,
}

/// Whether a standard stream takes a line at once.
pub fn takes_a_line(stream: Stream) -> bool {
    let number = match stream {
        Stream::Output => STDOUT_FILENO,
        Stream::Error => STDERR_FILENO,
    };
    let mut asked = [pollfd {
        fd: number,
        events: POLLOUT,
        revents: 0,
    }];
    poll(&mut asked, 0);
    let [told] = asked;
    told.revents == POLLOUT
}

impl Lines {
    /// Nothing was told.
    pub fn new(alloc: Global) -> Result<Arc<Lines>, AllocError> {
        let lines = Lines {
            alloc,
            is_telling: AtomicBool::new(false),
            dropped: AtomicU64::new(0),
        };
        Ok(Arc::new(alloc, lines)?)
    }

    // Takes the turn to tell a line: whether it was taken. Who has it gives it back within microseconds.
    fn take_turn(&self) -> bool {
        for _ in 0..MOST_TRIES {
            if self
                .is_telling
                .compare_exchange(false, true, Ordering::SeqCst, Ordering::SeqCst)
                .is_ok()
            {
                return true;
            }
        }
        false
    }

    /// Tells a line, which has no line break, where standard error takes it at once. Else it is left out.
    pub fn tell<R: Eprint>(&self, rt: &R, line: &str) {
        if line.len() >= MOST_BYTES || !self.take_turn() {
            self.drop_line();
            return;
        }
        if takes_a_line(Stream::Error) {
            let _ = eprintln!(rt; "{line}");
        } else {
            self.drop_line();
        }
        self.is_telling.store(false, Ordering::SeqCst);
    }

    /// The same of a line that was to be made, where there was memory for it.
    pub fn tell_made<R: Eprint>(&self, rt: &R, line: Result<String, AllocError>) {
        match line {
            Ok(line) => self.tell(rt, line.as_str()),
            Err(_) => self.drop_line(),
        }
    }

    /// Where a line is made.
    pub fn alloc(&self) -> Global {
        self.alloc
    }

    /// A line was left out, since memory for it was wanting, say.
    pub fn drop_line(&self) {
        self.dropped.fetch_add(1, Ordering::SeqCst);
    }

    /// How many lines were left out.
    pub fn dropped(&self) -> u64 {
        self.dropped.load(Ordering::SeqCst)
    }
}
