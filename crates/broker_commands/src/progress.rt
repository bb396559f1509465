// Telling on standard error how far the long work of a command is.
ghost use Rattle.std.specs.Prelude.{◌≡◌};

use disk_progress::{Pace, ProgressLog, pace_of_standard_error};
use port_meters::{Lines, Stream, takes_a_line};
use std::alloc::AllocError;
use std::io::Eprint;
use std::path::Path;
use std::sync::Arc;
use std::sync::atomic::{AtomicU64, Ordering};
use std::time::{Clock, Instant};

/// The bytes of a MiB, in which work is told.
const MIB: u64 = 1 << 20;

/// Tells how far the long work of a command is: on a terminal by one line, written over, and else by a line after each ten seconds. All
/// disks that the command works on share it. A line that standard error does not take at once is left out.
#[derive(Drop)]
pub struct Progress<R: Drop> {
    rt: R,
    lines: Arc<Lines>,
    pace: Pace,
    // When the command began, where the clock told.
    begun: Option<Instant>,
    // When the last line was told, in milliseconds since then.
    told: AtomicU64,
    // How many bytes the line has that is written over next.
    width: AtomicU64,
}

impl<R: Clock + AllocGlobal + Copy + Drop> Progress<R> {
    /// The work of a command begins.
    pub(crate) fn new(rt: &R) -> Result<Arc<Progress<R>>, AllocError> {
        let progress = Progress {
            rt: *rt,
            lines: Lines::new(rt.alloc())?,
            pace: pace_of_standard_error(),
            begun: Instant::now(rt).ok(),
            told: AtomicU64::new(0),
            width: AtomicU64::new(0),
        };
        Ok(Arc::new(rt.alloc(), progress)?)
    }

    // How many milliseconds have gone since it began, where the clock tells.
    fn millis(&self) -> Option<u64> {
        let begun = self.begun?;
        let gone = begun.elapsed(&self.rt).ok()?;
        u64::try_from(gone.as_millis()).ok()
    }

    // Whether a line is to be told now. From then on it counts as told.
    fn is_due(&self) -> bool {
        let Some(now) = self.millis() else {
            return false;
        };
        if !self.pace.is_due(self.told.load(Ordering::SeqCst), now) {
            return false;
        }
        self.told.store(now, Ordering::SeqCst);
        true
    }
}

impl<R: Eprint + Clock + AllocGlobal + Copy + Drop> Progress<R> {
    // Writes a text over the line that stands there. Behind it the cursor is at its begin, so that what else is told stands there.
    fn write_over(&self, text: &str) -> Result<(), AllocError> {
        let before = self.width.swap(text.len() as u64, Ordering::SeqCst);
        let mut line = String::from_str(self.rt.alloc(), text)?;
        for _ in text.len() as u64..before {
            line.push_str(" ")?;
        }
        if takes_a_line(Stream::Error) {
            let _ = eprint!(self.rt; "{line}\r");
        }
        Ok(())
    }

    // Tells a line that is due.
    fn tell(&self, path: &str, all: u64, read: u64, written: u64) -> Result<(), AllocError> {
        let shown = match self.pace {
            Pace::WrittenOver => Path::new(path).file_name().unwrap_or(path),
            Pace::LineByLine => path,
        };
        let (all, read, written) = (all / MIB, read / MIB, written / MIB);
        let line = format!(in self.rt.alloc();
            "progress: {shown} ({all} MiB): {read} MiB read, {written} MiB written"
        )?;
        match self.pace {
            Pace::WrittenOver => self.write_over(line.as_str()),
            Pace::LineByLine => {
                self.lines.tell(&self.rt, line.as_str());
                Ok(())
            }
        }
    }

    // So many bytes of a disk were read and written until now.
    fn note(&self, path: &str, all: u64, read: u64, written: u64) {
        if self.is_due() && self.tell(path, all, read, written).is_err() {
            self.lines.drop_line();
        }
    }

    /// The work is at its end: on a terminal the line goes.
    pub(crate) fn end(&self) {
        if self.width.load(Ordering::SeqCst) > 0 && self.write_over("").is_err() {
            self.lines.drop_line();
        }
    }
}

/// Tells how far the work on one disk is.
#[derive(Drop)]
pub struct DiskProgress<R: Drop> {
    progress: Arc<Progress<R>>,
    path: String,
    // How many bytes the disk has.
    all: u64,
}

/// One for the disk of so many bytes that this path names. It is refused where memory is.
pub(crate) fn progress_of<R>(
    progress: &Arc<Progress<R>>,
    path: &str,
    all: u64,
) -> Result<DiskProgress<R>, AllocError>
where
    R: AllocGlobal + Copy + Drop,
{
    Ok(DiskProgress {
        progress: Arc::try_clone(progress)?,
        path: String::from_str(progress.rt.alloc(), path)?,
        all,
    })
}

impl<R: Eprint + Clock + AllocGlobal + Copy + Drop> ProgressLog for DiskProgress<R> {
    fn note(&self, read: u64, written: u64) {
        self.progress
            .note(self.path.as_str(), self.all, read, written);
    }
}

/// What came of a command, whose work is at its end.
pub(crate) fn ended<R, T>(progress: &Progress<R>, outcome: T) -> T
where
    R: Eprint + Clock + AllocGlobal + Copy + Drop,
    ensures { result ≡ outcome }
{
    progress.end();
    outcome
}
