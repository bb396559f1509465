// The snapshot of a segment, and whether it is within the settings' limits.
ghost use Rattle.std.specs.Prelude.{◌≡◌, ◌+◌, ◌*◌, ◌≤◌, ◌<◌, ◌^◌, length, true, IfOk, IfSome};
ghost use Rattle.std.specs.List.{list_all};
ghost use Rattle.gate_journal.specs.Frames.{sectors_for};
ghost use Rattle.invoke_records.specs.Spelling.{answer_bytes, environment_in, IsSnapshot};
ghost use Rattle.checkpoint.specs.Live.{may_stand};
ghost use Rattle.async_core.specs.Limits.{is_row_within, is_within};
ghost use Rattle.checkpoint.specs.Image.{snapshot_of};

use crate::header::Header;
use crate::reading::unread;
use invoke_records::{Answer, EventRow, Snapshot, Standing};
use retry_rules::Settings;
use std::alloc::{AllocError, Global};

fn answer_size(answer: &Answer) -> usize
    ensures { result ≡ length (answer_bytes answer.now) }
{
    match answer {
        Answer::None => 0,
        Answer::Response(bytes) => bytes.len(),
        Answer::Error(bytes) => bytes.len(),
    }
}

// The environment that an event runs in, 0 where it does not run.
fn environment_of(standing: Standing) -> u16
    ensures { result ≡ environment_in standing }
{
    match standing {
        Standing::Running { environment, .. } => environment,
        _ => 0,
    }
}

fn is_row_within(settings: &Settings, row: &EventRow) -> bool
    ensures { result ≡ is_row_within settings.now row.now }
{
    row.payload.len() <= settings.payload as usize
        && answer_size(&row.answer) <= settings.response as usize
        && environment_of(row.standing) <= settings.environments as u16
}

fn are_within(settings: &Settings, rows: &[EventRow]) -> bool
    ensures { result ≡ list_all (is_row_within settings.now) rows.now }
{
    rows.iter().all(|row| is_row_within(settings, row))
}

// There are no more rows than events, and each is within the limits.
fn is_within(settings: &Settings, snapshot: &Snapshot) -> bool
    ensures { result ≡ is_within settings.now snapshot.now }
{
    let rows = snapshot.rows.as_slice();
    rows.len() <= settings.events as usize && are_within(settings, rows)
}

// The snapshot has a spelling and is within the settings' limits.
pub(crate) fn may_stand(alloc: Global, settings: &Settings, snapshot: &Snapshot) -> bool
    ensures exact { result ≡ may_stand settings.now snapshot.now }
    ensures spelled { result ≡ true → IsSnapshot snapshot.now }
{
    snapshot.check(alloc).is_ok() && is_within(settings, snapshot)
}

// The snapshot that fills these sectors, of which the header speaks, if it is one.
#[tactic(auto, unfolding(crate::specs::Image::snapshot_of))]
pub(crate) fn read_snapshot(
    alloc: Global,
    header: &Header,
    bytes: &[u8],
) -> Result<Option<Snapshot>, AllocError>
    requires size { header.now.size < 2 ^ 50 }
    requires whole { length bytes.now ≡ 512 * sectors_for header.now.size }
    ensures exact { IfOk result (λ found. found ≡ snapshot_of header.now bytes.now) }
    ensures number { IfOk result (λ found. IfSome found (λ snapshot. snapshot.number ≤ 2 ^ 62)) }
{
    let (text, _) = bytes.split_at(header.size as usize);
    match Snapshot::decode_whole(alloc, header.version, text) {
        Ok(snapshot) => Ok(if is_within(&header.settings, &snapshot) {
            Some(snapshot)
        } else {
            None
        }),
        Err(why) => unread(why),
    }
}
