// The places of rows, by the ids of their events.
ghost use Rattle.async_core.specs.Ids.{IsFirstPlace};

use std::collections::BTreeSet;

/// The first place of an id.
pub(crate) fn first_place(ids: &BTreeSet<([u8; 16], u64)>, id: &[u8; 16]) -> Option<u64>
    ensures { IsFirstPlace ids.now id.now result }
{
    let id = *id;
    let Some(found) = ids.range((id, 0)..).next() else {
        return None;
    };
    if found.0 == id {
        return Some(found.1);
    }
    None
}
