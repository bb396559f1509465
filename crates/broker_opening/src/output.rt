// The output of the program, and the numbers of its streams.
ghost use Rattle.std.specs.Prelude.{◌≡◌};

use port_meters::{Stream, takes_a_line};
use std::fs::{File, OpenOptions};
use std::io;
use std::io::{ErrorKind, Write};
use std::os::fd::AsRawFd;
use std::rt::Files;

/// The greatest number of a standard stream.
const STANDARD_ERROR: i32 = 2;

/// An output that may take nothing more, which ends no command: what it does not take is left out from then on.
#[derive(Drop)]
pub struct Output<W: Drop> {
    out: W,
    refusal: Option<ErrorKind>,
    is_waited_for: bool,
}

impl<W: Write + Drop> Output<W> {
    /// Standard output, which has taken all so far. Where it is not waited for, a line that it does not take at once is left out, as
    /// all behind it.
    pub fn new(out: W, is_waited_for: bool) -> Output<W> {
        Output {
            out,
            refusal: None,
            is_waited_for,
        }
    }

    /// Whether something was left out, though somebody reads it: a file has no room, say.
    pub fn is_cut(&self) -> bool {
        match self.refusal {
            Some(kind) => !matches!(kind, ErrorKind::BrokenPipe | ErrorKind::WouldBlock),
            None => false,
        }
    }

    // Leaves all out from now on, where it is not waited for and takes nothing at once.
    fn wait_no_longer(&mut self) {
        if self.refusal.is_none() && !self.is_waited_for && !takes_a_line(Stream::Output) {
            self.refusal = Some(ErrorKind::WouldBlock);
        }
    }
}

impl<W: Write + Drop> Write for Output<W> {
    fn write(&mut self, buf: &[u8]) -> io::Result<usize> {
        self.wait_no_longer();
        if self.refusal.is_some() {
            return Ok(buf.len());
        }
        match self.out.write(buf) {
            Err(why) if why.kind() != ErrorKind::Interrupted => {
                self.refusal = Some(why.kind());
                Ok(buf.len())
            }
            answered => answered,
        }
    }

    fn flush(&mut self) -> io::Result<()> {
        self.wait_no_longer();
        if self.refusal.is_none() {
            if let Err(why) = self.out.flush() {
                self.refusal = Some(why.kind());
            }
        }
        Ok(())
    }
}

// A file that takes the number of a standard stream that is closed, if one is.
fn take_number<R: Files<File = File>>(rt: &R) -> Option<File> {
    let mut options = OpenOptions::new();
    let null = options.read(true).write(true).open(rt, "/dev/null").ok()?;
    if null.as_raw_fd() <= STANDARD_ERROR {
        Some(null)
    } else {
        None
    }
}

/// What keeps the numbers of standard streams that are closed, as long as it lives. A file that is opened has the least number
/// that is free: a disk would have the number of such a stream, and what is printed would be written to it.
pub fn keep_numbers<R: Files<File = File>>(rt: &R) -> [Option<File>; 3] {
    [take_number(rt), take_number(rt), take_number(rt)]
}
