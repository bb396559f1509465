// Reading settings.
ghost use Rattle.std.specs.Prelude.{◌≡◌, ◌++◌, None, IfOk, MatchResult, drop, length, List, ℕ, Ok};
ghost use Rattle.retry_rules.specs.Settings.{is_name_byte, is_plain_byte, bad_field};
ghost use Rattle.retry_rules.specs.declared.settings.Settings.{Settings};
ghost use Rattle.invoke_records.specs.Spelling.{settings_text};
ghost use Rattle.invoke_records.specs.Reading.{Decodes, text_at, limits_at, with_texts, settings_at};
ghost use Rattle.invoke_records.specs.Steps.{Reads, with_rest};
ghost use Rattle.invoke_records.specs.Records.{AreSettings, Finds};
ghost use Rattle.invoke_records.specs.declared.error.RecordError.TheVariants.{OutOfMemory};

use crate::RecordError;
use crate::limits::Limits;
use crate::reader::Reader;
use retry_rules::{Settings, Text, has_name_bytes, has_plain_bytes};
use std::alloc::Global;

fn read_name<'a>(reader: &mut Reader<'a>) -> &'a [u8]
    ensures { Reads (text_at 64 is_name_byte) reader.old result.now reader.new }
{
    let size = reader.byte();
    reader.refuse(size > 64, RecordError::TooLong);
    reader.refuse(size < 1, RecordError::BadKind);
    let text = reader.slice(size as usize);
    reader.refuse(!has_name_bytes(text), RecordError::BadKind);
    text
}

fn read_plain<'a>(most: u8, reader: &mut Reader<'a>) -> &'a [u8]
    ensures { Reads (text_at most is_plain_byte) reader.old result.now reader.new }
{
    let size = reader.byte();
    reader.refuse(size > most, RecordError::TooLong);
    reader.refuse(size < 1, RecordError::BadKind);
    let text = reader.slice(size as usize);
    reader.refuse(!has_plain_bytes(text), RecordError::BadKind);
    text
}

fn read_limits(reader: &mut Reader) -> Limits
    ensures { Reads limits_at reader.old result reader.new }
{
    Limits {
        retries: reader.small(0, 2),
        age: reader.limit32(60, 21600),
        timeout: reader.limit16(1, 900),
        concurrency: reader.small(1, 64),
        environments: reader.small(1, 16),
        events: reader.limit16(1, 1024),
        payload: reader.limit32(2, 1048576),
        response: reader.limit32(2, 262144),
    }
}

fn text_of(alloc: Global, bytes: &[u8]) -> Result<Text, RecordError>
    ensures { MatchResult result (λ text. text ≡ bytes.now) (λ e. e ≡ OutOfMemory) }
{
    Ok(Text::from_vec(Vec::from_slice(alloc, bytes)?))
}

fn settings_of<'a>(
    alloc: Global,
    limits: Limits,
    name: &[u8],
    handler: &[u8],
    arn: &[u8],
    rest: &'a [u8],
) -> Result<(Settings, &'a [u8]), RecordError>
    ensures { Decodes (λ x. (x.0, x.1.now)) result (with_rest (Ok (with_texts limits name.now handler.now arn.now)) rest.now) }
{
    let name = text_of(alloc, name)?;
    let handler = text_of(alloc, handler)?;
    let arn = text_of(alloc, arn)?;
    let settings = Settings {
        retries: limits.retries,
        age: limits.age,
        timeout: limits.timeout,
        concurrency: limits.concurrency,
        environments: limits.environments,
        events: limits.events,
        payload: limits.payload,
        response: limits.response,
        name,
        handler,
        arn,
    };
    Ok((settings, rest))
}

fn read_settings(alloc: Global, bytes: &[u8]) -> Result<(Settings, &[u8]), RecordError>
    ensures { Decodes (λ x. (x.0, x.1.now)) result (settings_at bytes.now) }
{
    let mut reader = Reader::new(bytes);
    let limits = read_limits(&mut reader);
    let name = read_name(&mut reader);
    let handler = read_plain(128, &mut reader);
    let arn = read_plain(200, &mut reader);
    let rest = reader.end()?;
    settings_of(alloc, limits, name, handler, arn, rest)
}

/// The settings at the front of the bytes, and how many bytes they take.
pub fn decode_settings(alloc: Global, bytes: &[u8]) -> Result<(Settings, usize), RecordError>
    ensures exact { Decodes (λ x. (x.0, drop x.1 bytes.now)) result (settings_at bytes.now) }
    ensures size { IfOk result (λ x. x.1 ≡ length (settings_text x.0)) }
    ensures found { IfOk result (λ x. bytes.now ≡ settings_text x.0 ++ drop x.1 bytes.now) }
    ensures good { IfOk result (λ x. bad_field x.0 ≡ None) }
    ensures only { Finds (λ s. s) AreSettings settings_text bytes.now result }
{
    let (settings, rest) = read_settings(alloc, bytes)?;
    let len = bytes.len() - rest.len();
    Ok((settings, len))
}
