// Writing a command.
ghost use Rattle.std.specs.Prelude.{◌≡◌, ◌+◌, ◌++◌, ◌∷◌, ◌≤◌, [], None, Some, IfOk, IfErr, OnOk, OnErr, length, Ok, vec_len, vec_capacity};
ghost use Rattle.std.specs.Int.{w16, w32, w64, to_be_bytes};
ghost use Rattle.invoke_records.specs.Spelling.{command_text, command_fault, kind_byte, policy_text, detail_text, body_text, most_bytes, least_bytes, is_bad_detail, IsCommand};
ghost use Rattle.invoke_records.specs.Reading.{sound, FailsBy};

use crate::command::GREATEST_MOMENT;
use crate::command_reading::{has_bad_environment, has_bad_id};
use crate::placing::put_at;
use crate::record_bytes::{MOST_BYTES, MOST_PAYLOAD};
use crate::widths::{are_bytes, id_has_16};
use crate::{Cause, Command, Kind, RecordError};
use retry_rules::RetryPolicy;
use std::alloc::Global;

fn byte_of(kind: Kind) -> u8
    ensures { result ≡ kind_byte kind }
{
    match kind {
        Kind::Accept => 1,
        Kind::Start => 2,
        Kind::Succeed => 3,
        Kind::Fail(_) => 4,
        Kind::Throttle => 5,
        Kind::Interrupt => 6,
        Kind::Expire => 7,
        Kind::Collect => 8,
        Kind::Configure(_) => 9,
    }
}

/// The bytes of a retry policy.
pub fn policy_bytes(policy: RetryPolicy) -> [u8; 5]
    ensures { result ≡ policy_text policy }
{
    let mut bytes = [0; 5];
    put_at(&mut bytes, 0, &[policy.retries]);
    put_at(&mut bytes, 1, &policy.age.to_be_bytes());
    bytes
}

// How many bytes a kind has beside its own.
fn detail_size(kind: Kind) -> usize
    ensures { result ≡ length (detail_text kind) }
{
    match kind {
        Kind::Fail(_) => 1,
        Kind::Configure(_) => 5,
        _ => 0,
    }
}

fn has_bad_detail(kind: Kind) -> bool
    ensures { result ≡ is_bad_detail kind }
{
    match kind {
        Kind::Configure(policy) => policy.is_bad(),
        _ => false,
    }
}

fn least_bytes_of(kind: Kind) -> usize
    ensures { result ≡ least_bytes kind }
{
    match kind {
        Kind::Accept => 1,
        _ => 0,
    }
}

fn most_bytes_of(kind: Kind) -> usize
    ensures { result ≡ most_bytes kind }
{
    match kind {
        Kind::Accept => MOST_PAYLOAD as usize,
        Kind::Succeed | Kind::Fail(Cause::Reported) => MOST_BYTES as usize,
        _ => 0,
    }
}

fn check(command: &Command) -> Result<(), RecordError>
    ensures { result ≡ sound (command_fault command.now) tt }
{
    let size = command.bytes.len();
    if has_bad_environment(command.kind, command.environment)
        || (has_bad_id(command.kind, &command.id) || command.time > GREATEST_MOMENT)
    {
        return Err(RecordError::BadKind);
    }
    if size > most_bytes_of(command.kind) {
        return Err(RecordError::TooLong);
    }
    if size < least_bytes_of(command.kind) {
        return Err(RecordError::BadKind);
    }
    if has_bad_detail(command.kind) {
        return Err(RecordError::BadKind);
    }
    Ok(())
}

// Appends bytes for which there is room.
fn put(out: &mut Vec<u8>, bytes: &[u8])
    requires { vec_len out.old + length bytes.now ≤ vec_capacity out.old }
    ensures items { out.new.items ≡ out.old.items ++ bytes.now }
    ensures len { vec_len out.new ≡ vec_len out.old + length bytes.now }
    ensures room { vec_capacity out.old ≤ vec_capacity out.new }
{
    out.extend_from_slice(bytes).unwrap();
}

// Appends what a kind says beside its byte, where there is room.
fn put_detail(out: &mut Vec<u8>, kind: Kind)
    requires { vec_len out.old + length (detail_text kind) ≤ vec_capacity out.old }
    ensures items { out.new.items ≡ out.old.items ++ detail_text kind }
    ensures len { vec_len out.new ≡ vec_len out.old + length (detail_text kind) }
    ensures room { vec_capacity out.old ≤ vec_capacity out.new }
{
    match kind {
        Kind::Fail(Cause::Reported) => put(out, &[1]),
        Kind::Fail(Cause::Timeout) => put(out, &[2]),
        Kind::Fail(Cause::Exited) => put(out, &[3]),
        Kind::Configure(policy) => put(out, &policy_bytes(policy)),
        _ => {}
    }
}

// Appends a command that has a spelling, where there is room.
#[tactic(auto, unfolding(crate::specs::Spelling::command_text))]
fn put_command(out: &mut Vec<u8>, command: &Command, size: u32)
    requires room { vec_len out.old + (31 + size) ≤ vec_capacity out.old }
    requires size { size ≡ length (body_text command.now) }
    ensures { out.new.items ≡ out.old.items ++ command_text command.now }
{
    put(out, &[byte_of(command.kind)]);
    put(out, &command.id);
    put(out, &command.environment.to_be_bytes());
    put(out, &command.time.to_be_bytes());
    put(out, &size.to_be_bytes());
    put_detail(out, command.kind);
    put(out, command.bytes.as_slice());
}

impl Command {
    /// Appends the one spelling of the command. On an error nothing is appended.
    ///
    /// A command has none where a Start's environment is not 1 to 16 or another's not 0, where its moment is past the
    /// greatest, where an Accept is empty, where a Configure's id is not all zeros or its retry policy bad (`BadKind`),
    /// and where it carries more bytes than its kind allows (`TooLong`). Memory is asked for after that.
    pub fn encode_into(&self, out: &mut Vec<u8>) -> Result<(), RecordError>
        ensures ok { OnOk result (out.new.items ≡ out.old.items ++ command_text self.now) }
        ensures spelled { OnOk result (IsCommand self.now) }
        ensures refused { IfErr result (FailsBy (command_fault self.now)) }
        ensures err { OnErr result (out.new.items ≡ out.old.items) }
    {
        check(self)?;
        let bytes = self.bytes.as_slice();
        id_has_16(&self.id);
        are_bytes(bytes);
        let size = (detail_size(self.kind) + bytes.len()) as u32;
        out.reserve(31 + size as usize)?;
        put_command(out, self, size);
        Ok(())
    }

    /// The one spelling of the command, refused as by `encode_into`.
    pub fn encode(&self, alloc: Global) -> Result<Vec<u8>, RecordError>
        // claim: What has a spelling is encoded as that, memory aside. Of all else the first thing wrong is told.
        // [EventRow::encode, Snapshot::encode; SettingsRecord::encode: ok, good, refused]
        ensures ok { IfOk result (λ text. text.items ≡ command_text self.now) }
        ensures spelled { OnOk result (IsCommand self.now) }
        ensures refused { IfErr result (FailsBy (command_fault self.now)) }
    {
        let mut out = Vec::new(alloc);
        self.encode_into(&mut out)?;
        Ok(out)
    }
}
