// What goes between the two halves of a broker: plain values, whose numbers are those of commands.
ghost use Rattle.std.specs.Prelude.{◌≡◌, ◌+◌, ◌≤◌, ◌^◌, length};

use crate::WriteError;
use invoke_records::Command;

/// Commands that an issue half lent, in order. The first has the number `first`, the last the number `last`. Where there are none,
/// `first` is the number behind `last`.
#[derive(Drop)]
pub struct Batch {
    pub(crate) first: u64,
    pub(crate) last: u64,
    pub(crate) commands: Vec<Command>,
    ghost counted: { last + 1 ≡ first + length commands.items },
    ghost from_one: { 1 ≤ first },
    ghost below: { last ≤ 2 ^ 62 },
}

impl Batch {
    ghost use Rattle.broker_core.specs.Batch.{first_of, last_of};

    /// The number of its first command, or that behind `last` where it has none.
    pub fn first(&self) -> u64
        ensures { result ≡ first_of self.now }
    {
        self.first
    }

    /// The number of its last command, or of the one before where it has none.
    pub fn last(&self) -> u64
        ensures { result ≡ last_of self.now }
    {
        self.last
    }
}

/// That commands were written: each up to the last of them is durable on the disk. Only a `DiskHalf::write` or `advance` that
/// answers Ok makes one.
#[derive(Clone, Copy)]
pub struct Written {
    first: u64,
    last: u64,
}

impl Written {
    ghost use Rattle.broker_core.specs.Batch.{first_written, last_written};

    pub(crate) fn new(first: u64, last: u64) -> Written
        ensures first { first_written result ≡ first }
        ensures last { last_written result ≡ last }
    {
        Written { first, last }
    }

    /// The number of the batch's first command.
    pub fn first(&self) -> u64
        ensures { result ≡ first_written self.now }
    {
        self.first
    }

    /// The number of the batch's last command.
    pub fn last(&self) -> u64
        ensures { result ≡ last_written self.now }
    {
        self.last
    }
}

/// That commands were not written, and why. Only a `DiskHalf::write` or `advance` that is refused makes one.
#[derive(Clone, Copy)]
pub struct Failed {
    first: u64,
    last: u64,
    cause: WriteError,
}

impl Failed {
    ghost use Rattle.broker_core.specs.Batch.{first_failed, last_failed, cause_of};

    pub(crate) fn new(first: u64, last: u64, cause: WriteError) -> Failed
        ensures first { first_failed result ≡ first }
        ensures last { last_failed result ≡ last }
        ensures cause { cause_of result ≡ cause }
    {
        Failed { first, last, cause }
    }

    /// The number of the batch's first command.
    pub fn first(&self) -> u64
        ensures { result ≡ first_failed self.now }
    {
        self.first
    }

    /// The number of the batch's last command.
    pub fn last(&self) -> u64
        ensures { result ≡ last_failed self.now }
    {
        self.last
    }

    /// Why it was not written.
    pub fn cause(&self) -> WriteError
        ensures { result ≡ cause_of self.now }
    {
        self.cause
    }
}
