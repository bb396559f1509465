// Writing a row.
ghost use Rattle.std.specs.Prelude.{◌≡◌, ◌<◌, ◌≤◌, ◌^◌, ◌++◌, length};
ghost use Rattle.invoke_records.specs.Spelling.{life_text, counts_text, row_text, row_fault, standing_byte, ended_byte, environment_in, moment_in, answer_byte, answer_bytes, is_unknown, breaks_rule, IsBytes, IsWithinWidth};
ghost use Rattle.invoke_records.specs.Reading.{sound};
ghost use Rattle.invoke_records.specs.Steps.{Adds};

use crate::command::GREATEST_MOMENT;
use crate::command_writing::policy_bytes;
use crate::placing::put_at;
use crate::widths::{are_bytes, id_has_16};
use crate::writer::Writer;
use crate::{Answer, EventRow, MOST_BYTES, MOST_PAYLOAD, Outcome, RecordError, Standing};

fn standing_byte_of(standing: &Standing) -> u8
    ensures { result ≡ standing_byte standing.now }
{
    match standing {
        Standing::Unknown => 0,
        Standing::Waiting { .. } => 1,
        Standing::DueAgain { .. } => 2,
        Standing::Running { .. } => 3,
        Standing::Ended { .. } => 4,
    }
}

fn ended_byte_of(standing: &Standing) -> u8
    ensures { result ≡ ended_byte standing.now }
{
    match standing {
        Standing::Ended { outcome, .. } => match outcome {
            Outcome::Success => 1,
            Outcome::RetriesExhausted => 2,
            Outcome::EventAgeExceeded => 3,
        },
        _ => 0,
    }
}

fn environment_of(standing: &Standing) -> u16
    ensures { result ≡ environment_in standing.now }
{
    match standing {
        Standing::Running { environment, .. } => *environment,
        _ => 0,
    }
}

fn moment_of(standing: &Standing) -> u64
    ensures value { result ≡ moment_in standing.now }
    ensures fits { moment_in standing.now < 2 ^ 64 }
{
    match standing {
        Standing::Unknown => 0,
        Standing::Waiting { due } => *due,
        Standing::DueAgain { due } => *due,
        Standing::Running { deadline, .. } => *deadline,
        Standing::Ended { at, .. } => *at,
    }
}

fn is_broken(standing: &Standing) -> bool
    ensures { result ≡ breaks_rule standing.now }
{
    match standing {
        Standing::Running { environment, .. } => *environment < 1,
        Standing::Ended { at, .. } => GREATEST_MOMENT < *at,
        _ => false,
    }
}

fn answer_byte_of(answer: &Answer) -> u8
    ensures { result ≡ answer_byte answer.now }
{
    match answer {
        Answer::None => 0,
        Answer::Response(_) => 1,
        Answer::Error(_) => 2,
    }
}

/// The bytes of an answer.
pub fn answer_bytes_of(answer: &Answer) -> &[u8]
    ensures { result.now ≡ answer_bytes answer.now }
{
    match answer {
        Answer::None => &[],
        Answer::Response(bytes) => bytes.as_slice(),
        Answer::Error(bytes) => bytes.as_slice(),
    }
}

fn is_unknown_standing(standing: &Standing) -> bool
    ensures { result ≡ is_unknown standing.now }
{
    match standing {
        Standing::Unknown => true,
        _ => false,
    }
}

/// Why a row has no spelling, if it has none.
pub fn check_row(row: &EventRow) -> Result<(), RecordError>
    ensures { result ≡ sound (row_fault row.now) tt }
{
    let payload = row.payload.len();
    let answer = answer_bytes_of(&row.answer).len();
    if row.accepted > GREATEST_MOMENT
        || (is_unknown_standing(&row.standing)
            || (environment_of(&row.standing) > 16 || row.policy.is_bad()))
    {
        return Err(RecordError::BadKind);
    }
    if payload > MOST_PAYLOAD as usize {
        return Err(RecordError::TooLong);
    }
    if payload < 1 {
        return Err(RecordError::BadKind);
    }
    if answer > MOST_BYTES as usize {
        return Err(RecordError::TooLong);
    }
    if is_broken(&row.standing) {
        return Err(RecordError::BadKind);
    }
    Ok(())
}

/// How long the row's spelling is.
#[tactic(auto, using(crate::specs::laws::Rows::row_length))]
pub fn row_size(row: &EventRow) -> u64
    requires payload { length row.now.payload ≤ 1048576 }
    requires answer { length (answer_bytes row.now.answer) ≤ 262144 }
    ensures exact { result ≡ length (row_text row.now) }
    ensures bounded { result ≤ 1310798 }
{
    id_has_16(&row.id);
    78 + row.payload.len() as u64 + answer_bytes_of(&row.answer).len() as u64
}

// What the types say of a row's numbers and bytes.
pub fn row_is_within(row: &EventRow)
    ensures { IsWithinWidth row.now }
{
    let _number = row.number;
    let _last_number = row.last_number;
    let _moment = moment_of(&row.standing);
    let _starts = row.starts;
    let _failures = row.failures;
    let _push_backs = row.push_backs;
    id_has_16(&row.id);
    let payload = row.payload.as_slice();
    are_bytes(payload);
    let answer = answer_bytes_of(&row.answer);
    are_bytes(answer);
}

// What a row's spelling begins with: the fields of its life.
fn life_head(row: &EventRow) -> [u8; 52]
    ensures { result ≡ life_text row.now }
{
    id_has_16(&row.id);
    let bytes = [
        standing_byte_of(&row.standing),
        ended_byte_of(&row.standing),
    ];
    let mut head = [0; 52];
    put_at(&mut head, 0, &row.id);
    put_at(&mut head, 16, &row.accepted.to_be_bytes());
    put_at(&mut head, 24, &row.number.to_be_bytes());
    put_at(&mut head, 32, &row.last_number.to_be_bytes());
    put_at(&mut head, 40, &bytes);
    put_at(&mut head, 42, &environment_of(&row.standing).to_be_bytes());
    put_at(&mut head, 44, &moment_of(&row.standing).to_be_bytes());
    head
}

// What comes behind them: the counts and lengths.
fn counts_head(row: &EventRow) -> [u8; 26]
    requires payload { length row.now.payload ≤ 1048576 }
    requires answer { length (answer_bytes row.now.answer) ≤ 262144 }
    ensures { result ≡ counts_text row.now }
{
    let payload_size = row.payload.len() as u32;
    let answer_size = answer_bytes_of(&row.answer).len() as u32;
    let mut head = [0; 26];
    put_at(&mut head, 0, &row.starts.to_be_bytes());
    put_at(&mut head, 4, &row.failures.to_be_bytes());
    put_at(&mut head, 8, &row.push_backs.to_be_bytes());
    put_at(&mut head, 12, &[answer_byte_of(&row.answer)]);
    put_at(&mut head, 13, &policy_bytes(row.policy));
    put_at(&mut head, 18, &payload_size.to_be_bytes());
    put_at(&mut head, 22, &answer_size.to_be_bytes());
    head
}

/// All fields of a row in front of its payload.
pub fn row_head(row: &EventRow) -> [u8; 78]
    requires payload { length row.now.payload ≤ 1048576 }
    requires answer { length (answer_bytes row.now.answer) ≤ 262144 }
    ensures { result ≡ life_text row.now ++ counts_text row.now }
{
    let mut head = [0; 78];
    put_at(&mut head, 0, &life_head(row));
    put_at(&mut head, 52, &counts_head(row));
    head
}

/// Writes the one spelling of the row.
pub fn add_row(out: &mut Writer, row: &EventRow)
    requires payload { length row.now.payload ≤ 1048576 }
    requires answer { length (answer_bytes row.now.answer) ≤ 262144 }
    ensures { Adds (row_text row.now) out.old out.new }
{
    out.add(&row_head(row));
    out.add(row.payload.as_slice());
    out.add(answer_bytes_of(&row.answer));
}
