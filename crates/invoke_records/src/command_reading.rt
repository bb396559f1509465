// Reading a command.
ghost use Rattle.std.specs.List.{list_all};
ghost use Rattle.std.specs.Prelude.{◌≡◌, ◌++◌, ◌≤◌, None, Some, IfOk, MatchResult, drop, length, List, ℕ, Ok};
ghost use Rattle.invoke_records.specs.declared.command.Command.{Command};
ghost use Rattle.invoke_records.specs.Spelling.{command_text, is_bad_environment, is_zero, is_bad_id, IsCommand};
ghost use Rattle.invoke_records.specs.Reading.{IsRead, Decodes, fields_at, head_fault, failure_at, configured_at, body_at, command_at, least_length, most_length};
ghost use Rattle.invoke_records.specs.Steps.{Reads, with_rest, refused_by, kind_behind, command_of};
ghost use Rattle.invoke_records.specs.Records.{Finds};

use crate::command::GREATEST_MOMENT;
use crate::head::Head;
use crate::reader::Reader;
use crate::record_bytes::{MOST_BYTES, MOST_PAYLOAD};
use crate::{Bytes, Cause, Command, Kind, RecordError};
use retry_rules::RetryPolicy;
use std::alloc::Global;

#[tactic(auto, using(crate::proofs::Steps::stop))]
fn kind_of(byte: u8, reader: &mut Reader) -> Kind
    ensures { Reads (kind_behind byte) reader.old result reader.new }
{
    match byte {
        1 => Kind::Accept,
        2 => Kind::Start,
        3 => Kind::Succeed,
        4 => Kind::Fail(Cause::Reported),
        5 => Kind::Throttle,
        6 => Kind::Interrupt,
        7 => Kind::Expire,
        8 => Kind::Collect,
        9 => Kind::Configure(RetryPolicy { retries: 0, age: 0 }),
        _ => {
            reader.refuse(true, RecordError::BadKind);
            Kind::Collect
        }
    }
}

fn read_head(reader: &mut Reader) -> Head
    ensures { Reads fields_at reader.old result reader.new }
{
    let byte = reader.byte();
    let id = reader.array();
    let environment = reader.u16();
    let time = reader.u64();
    let size = reader.u32();
    let kind = kind_of(byte, reader);
    Head {
        kind,
        id,
        environment,
        time,
        size,
    }
}

fn failure_of(byte: u8, error: &[u8]) -> Result<(Kind, &[u8]), RecordError>
    ensures { IsRead (λ x. (x.0, x.1.now)) result (failure_at byte error.now) }
{
    let cause = match byte {
        1 => return Ok((Kind::Fail(Cause::Reported), error)),
        2 => Cause::Timeout,
        3 => Cause::Exited,
        _ => return Err(RecordError::BadKind),
    };
    if !error.is_empty() {
        return Err(RecordError::TooLong);
    }
    Ok((Kind::Fail(cause), error))
}

fn configured(bytes: &[u8]) -> Result<(Kind, &[u8]), RecordError>
    ensures { IsRead (λ x. (x.0, x.1.now)) result (configured_at bytes.now) }
{
    let mut reader = Reader::new(bytes);
    let policy = reader.policy();
    let rest = reader.end()?;
    Ok((Kind::Configure(policy), rest))
}

#[tactic(auto, unfolding(crate::specs::Reading::body_at))]
fn body_of(kind: Kind, bytes: &[u8]) -> Result<(Kind, &[u8]), RecordError>
    ensures { IsRead (λ x. (x.0, x.1.now)) result (body_at kind bytes.now) }
{
    match (kind, bytes) {
        (Kind::Fail(_), []) => Err(RecordError::BadKind),
        (Kind::Fail(_), [byte, error @ ..]) => failure_of(*byte, error),
        (Kind::Configure(_), _) => configured(bytes),
        _ => Ok((kind, bytes)),
    }
}

/// Whether the environment is none that a command of the kind may have.
pub fn has_bad_environment(kind: Kind, environment: u16) -> bool
    ensures { result ≡ is_bad_environment kind environment }
{
    match kind {
        Kind::Start => environment < 1 || 16 < environment,
        _ => 0 < environment,
    }
}

fn is_zero(byte: u8) -> bool
    ensures { result ≡ is_zero byte }
{
    byte == 0
}

fn are_zeros(bytes: &[u8]) -> bool
    ensures { result ≡ list_all is_zero bytes.now }
{
    bytes.iter().all(|byte| is_zero(*byte))
}

/// Whether the id is none that a command of the kind may have.
pub fn has_bad_id(kind: Kind, id: &[u8; 16]) -> bool
    ensures { result ≡ is_bad_id kind id.now }
{
    match kind {
        Kind::Configure(_) => !are_zeros(id),
        _ => false,
    }
}

fn least_length_of(kind: Kind) -> u32
    ensures { result ≡ least_length kind }
{
    match kind {
        Kind::Accept | Kind::Fail(_) => 1,
        Kind::Configure(_) => 5,
        _ => 0,
    }
}

fn most_length_of(kind: Kind) -> u32
    ensures { result ≡ most_length kind }
{
    match kind {
        Kind::Accept => MOST_PAYLOAD,
        Kind::Succeed => MOST_BYTES,
        Kind::Fail(Cause::Reported) => MOST_BYTES + 1,
        Kind::Fail(_) => 1,
        Kind::Configure(_) => 5,
        _ => 0,
    }
}

fn check_head(head: &Head, reader: &mut Reader)
    ensures { reader.new ≡ refused_by (head_fault head.now) reader.old }
{
    let is_bad = has_bad_environment(head.kind, head.environment);
    reader.refuse(is_bad, RecordError::BadKind);
    let is_of_event = has_bad_id(head.kind, &head.id);
    reader.refuse(is_of_event, RecordError::BadKind);
    reader.refuse(head.time > GREATEST_MOMENT, RecordError::BadKind);
    reader.refuse(head.size > most_length_of(head.kind), RecordError::TooLong);
    reader.refuse(head.size < least_length_of(head.kind), RecordError::BadKind);
}

#[tactic(auto, unfolding(crate::specs::Steps::command_of))]
fn command_of<'a>(
    alloc: Global,
    head: Head,
    body: &[u8],
    rest: &'a [u8],
) -> Result<(Command, &'a [u8]), RecordError>
    ensures { Decodes (λ x. (x.0, x.1.now)) result (with_rest (command_of head body.now) rest.now) }
{
    let (kind, carried) = body_of(head.kind, body)?;
    let bytes = Bytes::from_slice(alloc, carried)?;
    let id = head.id;
    let command = Command {
        kind,
        id,
        environment: head.environment,
        time: head.time,
        bytes,
    };
    Ok((command, rest))
}

fn read_command(alloc: Global, bytes: &[u8]) -> Result<(Command, &[u8]), RecordError>
    ensures { Decodes (λ x. (x.0, x.1.now)) result (command_at bytes.now) }
{
    let mut reader = Reader::new(bytes);
    reader.refuse(bytes.len() < 31, RecordError::Truncated);
    let head = read_head(&mut reader);
    check_head(&head, &mut reader);
    let body = reader.slice(head.size as usize);
    let rest = reader.end()?;
    command_of(alloc, head, body, rest)
}

impl Command {
    /// The command at the front of the bytes, and how many bytes it takes. Bytes after it are left.
    ///
    /// The refusals come in this order: fewer than 31 bytes are `Truncated`; a bad kind, environment or moment, or a
    /// Configure's id that is not all zeros, is `BadKind`; a length above what the kind allows is `TooLong`, below it
    /// `BadKind`; missing bytes are `Truncated`; a bad cause or a Configure's bad retry policy is `BadKind`; bytes after
    /// the causes Timeout and Exited are `TooLong`; then `OutOfMemory`.
    pub fn decode(alloc: Global, bytes: &[u8]) -> Result<(Command, usize), RecordError>
        // claim: A record is read only where the bytes begin with a spelling, and refused there for want of memory alone.
        // Of others the first fault is told; of a snapshot's bytes it may be want of memory. [EventRow::decode, Snapshot::decode;
        // SettingsRecord::decode: exact, size, found, good, only]
        ensures exact { Decodes (λ x. (x.0, drop x.1 bytes.now)) result (command_at bytes.now) }
        ensures spelled { IfOk result (λ x. IsCommand x.0) }
        ensures size { IfOk result (λ x. x.1 ≡ length (command_text x.0)) }
        ensures found { IfOk result (λ x. bytes.now ≡ command_text x.0 ++ drop x.1 bytes.now) }
        ensures only { Finds (λ c. c) IsCommand command_text bytes.now result }
    {
        let (command, rest) = read_command(alloc, bytes)?;
        let len = bytes.len() - rest.len();
        Ok((command, len))
    }
}
