// What an audit tells, and its lines.
ghost use Rattle.std.specs.Prelude.{◌≡◌, IfOk, string_bytes};
ghost use Rattle.audit_report.specs.Report.{in_force_text};

use std::alloc::{AllocError, Global};
use std::fmt;

/// What the older segment tells beside the live one, once its commands are applied to its snapshot.
#[derive(Clone, Copy)]
pub enum Older {
    /// One segment is open.
    None,
    /// It ends at the live snapshot.
    Agrees,
    /// The live snapshot is so many commands further, 1 to 256, which it carried and no frame holds.
    Ahead(u64),
    /// It ends elsewhere: the two segments do not tell one story.
    Differs,
}

/// What a disk holds.
#[derive(Clone, Copy)]
pub struct Report {
    /// The generation of the live segment.
    pub generation: u64,
    /// How many commands it recovers to.
    pub number: u64,
    /// How many events are held.
    pub held: usize,
    /// How many of them wait, for a first attempt or another.
    pub waiting: usize,
    /// How many are attempted.
    pub running: usize,
    /// How many ended with success.
    pub success: usize,
    /// How many ended without.
    pub failure: usize,
    pub older: Older,
    /// How often an event that is accepted next is tried again after a function error.
    pub retries: u8,
    /// Its greatest age, in seconds.
    pub age: u32,
}

impl fmt::Display for Older {
    ghost use Rattle.std.specs.Prelude.{Some};
    ghost use Rattle.audit_report.specs.Report.{older_text};

    ghost output = { λ told. Some (older_text told) };

    fn fmt<W: fmt::Write>(&self, f: &mut fmt::Formatter<W>) -> fmt::Result {
        match self {
            Older::None => write!(f, "older none"),
            Older::Agrees => write!(f, "older agrees"),
            Older::Ahead(more) => write!(f, "older ahead {more}"),
            Older::Differs => write!(f, "older differs"),
        }
    }
}

impl fmt::Display for Report {
    ghost use Rattle.std.specs.Prelude.{Some};
    ghost use Rattle.audit_report.specs.Report.{report_text};

    ghost output = { λ report. Some (report_text report) };

    /// Three lines, of which the last has no end.
    fn fmt<W: fmt::Write>(&self, f: &mut fmt::Formatter<W>) -> fmt::Result {
        let generation = self.generation;
        let number = self.number;
        writeln!(f, "generation {generation} number {number}")?;
        let held = self.held;
        let waiting = self.waiting;
        let running = self.running;
        write!(f, "held {held} waiting {waiting} running {running}")?;
        let success = self.success;
        let failure = self.failure;
        writeln!(f, " success {success} failure {failure}")?;
        let older = self.older;
        write!(f, "{older}")
    }
}

/// What is in force on a disk for the events that are accepted next, in one line without an end: `in force retries R age A`.
/// Only want of memory is refused.
pub fn in_force_line(alloc: Global, report: &Report) -> Result<String, AllocError>
    ensures { IfOk result (λ text. string_bytes text ≡ in_force_text report.now) }
{
    let retries = report.retries;
    let age = report.age;
    format!(in alloc; "in force retries {retries} age {age}")
}
