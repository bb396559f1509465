// Rows in memory of their own.
ghost use Rattle.std.specs.Prelude.{◌≡◌, IfOk};

use invoke_records::{Answer, EventRow};
use std::alloc::AllocError;

fn copy_answer(answer: &Answer) -> Result<Answer, AllocError>
    ensures { IfOk result (λ copy. copy ≡ answer.now) }
{
    match answer {
        Answer::None => Ok(Answer::None),
        Answer::Response(bytes) => {
            let bytes = bytes.copy()?;
            Ok(Answer::Response(bytes))
        }
        Answer::Error(bytes) => {
            let bytes = bytes.copy()?;
            Ok(Answer::Error(bytes))
        }
    }
}

/// An equal row in memory of its own.
pub fn copy_row(row: &EventRow) -> Result<EventRow, AllocError>
    ensures { IfOk result (λ copy. copy ≡ row.now) }
{
    let payload = row.payload.copy()?;
    let answer = copy_answer(&row.answer)?;
    Ok(EventRow {
        id: row.id,
        accepted: row.accepted,
        number: row.number,
        last_number: row.last_number,
        standing: row.standing,
        starts: row.starts,
        failures: row.failures,
        push_backs: row.push_backs,
        policy: row.policy,
        payload,
        answer,
    })
}
