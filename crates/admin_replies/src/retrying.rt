// Records that are to be tried again: which request names one, and which payload that has.
ghost use Rattle.std.specs.Prelude.{◌≡◌, ◌⊎◌, Ok, Err, IfOk, IfErr, option_map};
ghost use Rattle.std.specs.Option.{option_copied};
ghost use Rattle.admin_replies.specs.Requests.{id_of};
ghost use Rattle.admin_replies.specs.Retrying.{named_in, record_named, refusal_in, failed_payload};
ghost use Rattle.admin_replies.specs.declared.retry_refusal.RetryRefusal.TheVariants as refusal;

use crate::ids::read_id;
use crate::retry_refusal::RetryRefusal;
use invoke_records::{Bytes, EventRow, Outcome, Standing};
use operator_view::find;

// What stands in the place of the id in a path `/records/ID/retry`.
#[tactic(auto, unfolding(crate::specs::Retrying::named_in))]
fn named_in(path: &[u8]) -> Option<&[u8]>
    ensures { option_copied result ≡ named_in path.now }
{
    let rest = path.strip_prefix(b"/records/")?;
    rest.strip_suffix(b"/retry")
}

/// The id of the event whose record a request names to be tried again: POST `/records/ID/retry`. None in it where that is no id.
pub fn record_named(method: &str, target: &str) -> Option<Option<[u8; 16]>>
    ensures { result ≡ option_map id_of (record_named method.now target.now) }
{
    if method != "POST" {
        return None;
    }
    let name = named_in(target.as_bytes())?;
    Some(read_id(name))
}

// Why the record of an event that stands so is not tried again, if it is not.
fn refusal_in(standing: Standing) -> Option<RetryRefusal>
    ensures { result ≡ refusal_in standing }
{
    match standing {
        Standing::Ended {
            outcome: Outcome::Success,
            ..
        } => Some(RetryRefusal::Succeeded),
        Standing::Ended { .. } => None,
        _ => Some(RetryRefusal::NotEnded),
    }
}

/// The payload of the failed record of an event, shared and not copied.
///
/// It is refused: `Unknown`, `NotEnded`, `Succeeded`, and `OutOfMemory` where its copies are too many to count.
pub fn failed_payload(rows: &[EventRow], id: &[u8; 16]) -> Result<Bytes, RetryRefusal>
    ensures payload { IfOk result (λ payload. failed_payload id.now rows.now ≡ Ok payload) }
    ensures refused { IfErr result (λ why. (why ≡ refusal.OutOfMemory) ⊎ (failed_payload id.now rows.now ≡ Err why)) }
{
    let Some(row) = find(rows, id) else {
        return Err(RetryRefusal::Unknown);
    };
    if let Some(why) = refusal_in(row.standing) {
        return Err(why);
    }
    let payload = row.payload.copy()?;
    Ok(payload)
}
