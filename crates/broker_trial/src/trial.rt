// One event accepted, committed and recovered, on a disk in memory.
ghost use Rattle.std.specs.Prelude.{◌≡◌, [], ◌∷◌, List, IfOk};
ghost use Rattle.sector_disk.specs.Memory.{memory_view};
ghost use Rattle.invoke_records.specs.declared.command.Command.{Command};
ghost use Rattle.invoke_records.specs.declared.row.Standing.TheVariants as standing;
ghost use Rattle.broker_trial.specs.Trial.{trial_settings, trial_acceptance, Holds, IsOpened, IsAccepted, is_device_fault};

use broker_core::{Broker, CommitError, FormatError, IssueError, OpenError, format, without_disk};
use invoke_records::{Bytes, Command, Kind, Standing};
use retry_rules::{Settings, Text};
use sector_disk::MemDisk;
use std::alloc::{AllocError, Global};
use thiserror::Error;

/// The event's id.
const ID: [u8; 16] = [0, 0, 0, 0, 0, 0, 64, 0, 128, 0, 0, 0, 0, 0, 0, 1];

/// When it is accepted, in milliseconds since 1970.
const ACCEPTED_AT: u64 = 1573755365568;

/// How many sectors the disk has.
const SECTORS: u64 = 64;

/// What became of the event.
#[derive(Clone, Copy)]
pub struct Trial {
    pub id: [u8; 16],
    /// The number of the command that accepted it.
    pub accepted: u64,
    /// How many commands were durable after the commit.
    pub durable: u64,
    /// Where it stood after the disk was opened again.
    pub standing: Standing,
}

/// Why the trial was not carried out.
#[derive(Clone, Copy, Debug, Error)]
pub enum TrialError {
    #[error("out of memory")]
    OutOfMemory(#[from] AllocError),
    #[error("{0}")]
    Format(#[from] FormatError),
    #[error("{0}")]
    Open(#[from] OpenError),
    #[error("{0}")]
    Issue(#[from] IssueError),
    #[error("{0}")]
    Commit(#[from] CommitError),
}

impl TrialError {
    /// Whether the device failed.
    pub fn is_device_fault(&self) -> bool
        ensures { result ≡ is_device_fault self.now }
    {
        matches!(
            self,
            TrialError::Format(FormatError::Fault)
                | TrialError::Open(OpenError::Fault)
                | TrialError::Commit(CommitError::Fault)
        )
    }
}

// A text of these bytes.
fn text(alloc: Global, bytes: &[u8]) -> Result<Text, AllocError>
    ensures { IfOk result (λ text. text ≡ bytes.now) }
{
    Ok(Text::from_vec(Vec::from_slice(alloc, bytes)?))
}

// The settings of the trial's function.
fn settings(alloc: Global) -> Result<Settings, AllocError>
    ensures { IfOk result (λ s. s ≡ trial_settings) }
{
    Ok(Settings {
        retries: 2,
        age: 21600,
        timeout: 3,
        concurrency: 10,
        environments: 1,
        events: 4,
        payload: 1024,
        response: 1024,
        name: text(alloc, b"my-function")?,
        handler: text(alloc, b"app.main")?,
        arn: text(
            alloc,
            b"arn:aws:lambda:us-east-2:123456789012:function:my-function",
        )?,
    })
}

// The command that accepts the trial's event, with the payload `{}`.
fn acceptance(alloc: Global) -> Result<Command, AllocError>
    ensures { IfOk result (λ c. c ≡ trial_acceptance) }
{
    Ok(Command {
        kind: Kind::Accept,
        id: ID,
        environment: 0,
        time: ACCEPTED_AT,
        bytes: Bytes::from_slice(alloc, b"{}")?,
    })
}

// A disk with the settings of the trial's function, on which nothing was issued.
fn formatted(alloc: Global) -> Result<MemDisk, TrialError>
    ensures { IfOk result (λ disk. Holds (memory_view disk) []) }
{
    let mut disk = MemDisk::new(alloc, SECTORS)?;
    let settings = settings(alloc)?;
    format(alloc, &mut disk, &settings)?;
    Ok(disk)
}

// Opens the disk; where that fails, the disk is given up.
fn open(alloc: Global, disk: MemDisk) -> Result<Broker<MemDisk>, OpenError>
    ensures { (history : List Command) → Holds (memory_view disk) history → IfOk result (IsOpened history) }
{
    without_disk(Broker::open(alloc, disk))
}

// A disk on which the event is durable.
#[derive(Drop)]
struct Accepted {
    disk: MemDisk,
    // The number of the command that accepted the event.
    number: u64,
    // How many commands are durable.
    durable: u64,
}

// Accepts the event and commits it: the number of the command, and how many are durable.
fn issue(alloc: Global, broker: &mut Broker<MemDisk>) -> Result<(u64, u64), TrialError>
    ensures { IsOpened [] broker.old → IfOk result (λ n. (n.0 ≡ 1) × (n.1 ≡ 1) × IsOpened (trial_acceptance ∷ []) broker.new) }
{
    let number = broker.issue(acceptance(alloc)?)?.number();
    let durable = broker.commit()?.number();
    Ok((number, durable))
}

// Accepts the event where nothing was issued, commits it and closes the disk.
fn accept(alloc: Global, broker: Broker<MemDisk>) -> Result<Accepted, TrialError>
    ensures { IsOpened [] broker → IfOk result IsAccepted }
{
    let mut broker = broker;
    let (number, durable) = issue(alloc, &mut broker)?;
    Ok(Accepted {
        disk: broker.close(),
        number,
        durable,
    })
}

// Opens the disk again: where the event stands.
fn recovered(alloc: Global, disk: MemDisk) -> Result<Standing, OpenError>
    ensures { Holds (memory_view disk) (trial_acceptance ∷ []) → IfOk result (λ it. it ≡ standing.Waiting 1573755365568) }
{
    Ok(open(alloc, disk)?.table().standing(&ID))
}

/// Accepts one event, commits it, closes the disk and opens it again: it is the first command, which is durable after the
/// commit, and it waits from its acceptance on.
pub fn run_trial(alloc: Global) -> Result<Trial, TrialError>
    // claim: After Ok a trial tells that command 1 accepted the event and is durable, and that the event waits.
    ensures { IfOk result (λ t. (t.accepted ≡ 1) × (t.durable ≡ 1) × (t.standing ≡ standing.Waiting 1573755365568)) }
{
    let disk = formatted(alloc)?;
    let done = accept(alloc, open(alloc, disk)?)?;
    let accepted = done.number;
    let durable = done.durable;
    Ok(Trial {
        id: ID,
        accepted,
        durable,
        standing: recovered(alloc, done.disk)?,
    })
}
