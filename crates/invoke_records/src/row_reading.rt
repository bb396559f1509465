// Reading a row.
ghost use Rattle.std.specs.Prelude.{◌≡◌, ◌++◌, ◌<◌, IfOk, MatchResult, drop, length, List, ℕ, Ok};
ghost use Rattle.invoke_records.specs.declared.row.EventRow.{EventRow};
ghost use Rattle.invoke_records.specs.Spelling.{row_text, IsRow};
ghost use Rattle.invoke_records.specs.Reading.{IsRead, Decodes, life_at, counts_at, outcome_at, standing_of, answer_of, row_at};
ghost use Rattle.invoke_records.specs.Steps.{Reads, with_rest, row_of};
ghost use Rattle.invoke_records.specs.declared.error.RecordError.TheVariants.{OutOfMemory};

use crate::command::GREATEST_MOMENT;
use crate::reader::Reader;
use crate::row_fields::{Counts, Life};
use crate::{Answer, Bytes, EventRow, MOST_BYTES, Outcome, RecordError, Standing, Version};
use std::alloc::Global;

fn read_life(reader: &mut Reader) -> Life
    ensures { Reads life_at reader.old result reader.new }
{
    Life {
        id: reader.array(),
        accepted: reader.limit64(0, GREATEST_MOMENT),
        number: reader.u64(),
        last_number: reader.u64(),
        standing: reader.small(1, 4),
        outcome: reader.small(0, 3),
        environment: reader.limit16(0, 16),
        moment: reader.u64(),
    }
}

fn read_counts(reader: &mut Reader, version: Version) -> Counts
    ensures { Reads (counts_at version) reader.old result reader.new }
{
    Counts {
        starts: reader.u32(),
        failures: reader.u32(),
        push_backs: reader.u32(),
        answer: reader.small(0, 2),
        policy: reader.policy_in(version),
        payload_size: reader.sized(1, version.most_payload()),
        answer_size: reader.sized(0, MOST_BYTES),
    }
}

fn read_outcome(byte: u8) -> Result<Outcome, RecordError>
    ensures { IsRead (λ outcome. outcome) result (outcome_at byte) }
{
    match byte {
        1 => Ok(Outcome::Success),
        2 => Ok(Outcome::RetriesExhausted),
        3 => Ok(Outcome::EventAgeExceeded),
        _ => Err(RecordError::BadKind),
    }
}

#[tactic(auto, unfolding(crate::specs::Reading::standing_of))]
fn read_standing(life: &Life) -> Result<Standing, RecordError>
    ensures { IsRead (λ standing. standing) result (standing_of life.now) }
{
    let environment = life.environment;
    if life.standing == 1 {
        if 0 < life.outcome || 0 < environment {
            return Err(RecordError::BadKind);
        }
        return Ok(Standing::Waiting { due: life.moment });
    }
    if life.standing == 2 {
        if 0 < life.outcome || 0 < environment {
            return Err(RecordError::BadKind);
        }
        return Ok(Standing::DueAgain { due: life.moment });
    }
    if life.standing == 3 {
        if 0 < life.outcome || environment < 1 {
            return Err(RecordError::BadKind);
        }
        let deadline = life.moment;
        return Ok(Standing::Running {
            environment,
            deadline,
        });
    }
    let outcome = read_outcome(life.outcome)?;
    if 0 < environment || GREATEST_MOMENT < life.moment {
        return Err(RecordError::BadKind);
    }
    let at = life.moment;
    Ok(Standing::Ended { outcome, at })
}

fn read_answer(alloc: Global, byte: u8, bytes: &[u8]) -> Result<Answer, RecordError>
    ensures { Decodes (λ answer. answer) result (answer_of byte bytes.now) }
{
    if byte == 0 {
        if !bytes.is_empty() {
            return Err(RecordError::BadKind);
        }
        return Ok(Answer::None);
    }
    let text = Bytes::from_slice(alloc, bytes)?;
    if byte == 1 {
        return Ok(Answer::Response(text));
    }
    Ok(Answer::Error(text))
}

#[tactic(auto, unfolding(crate::specs::Steps::row_of))]
fn row_of<'a>(
    alloc: Global,
    life: Life,
    counts: Counts,
    payload: &[u8],
    text: &[u8],
    rest: &'a [u8],
) -> Result<(EventRow, &'a [u8]), RecordError>
    ensures { Decodes (λ x. (x.0, x.1.now)) result (with_rest (row_of life counts payload.now text.now) rest.now) }
{
    let standing = read_standing(&life)?;
    let answer = read_answer(alloc, counts.answer, text)?;
    let payload = Bytes::from_slice(alloc, payload)?;
    let id = life.id;
    let row = EventRow {
        id,
        accepted: life.accepted,
        number: life.number,
        last_number: life.last_number,
        standing,
        starts: counts.starts,
        failures: counts.failures,
        push_backs: counts.push_backs,
        policy: counts.policy,
        payload,
        answer,
    };
    Ok((row, rest))
}

/// The row of this version at the front of the bytes, and the bytes behind it.
pub fn read_row(
    alloc: Global,
    version: Version,
    bytes: &[u8],
) -> Result<(EventRow, &[u8]), RecordError>
    ensures { Decodes (λ x. (x.0, x.1.now)) result (row_at version bytes.now) }
{
    let mut reader = Reader::new(bytes);
    let life = read_life(&mut reader);
    let counts = read_counts(&mut reader, version);
    let payload = reader.slice(counts.payload_size as usize);
    let text = reader.slice(counts.answer_size as usize);
    let rest = reader.end()?;
    row_of(alloc, life, counts, payload, text, rest)
}
