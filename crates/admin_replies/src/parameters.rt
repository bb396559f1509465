// The values of a query.
ghost use Rattle.std.specs.Prelude.{◌≡◌};
ghost use Rattle.std.specs.Option.{option_copied};
ghost use Rattle.admin_replies.specs.Requests.{standing_of, after_of, limit_of};

use crate::admin_refusal::AdminRefusal;
use crate::ids::read_id;
use operator_view::{Which, read_limit as read_number};

/// Which events are asked for: all, where nothing is said.
pub(crate) fn read_standing(text: Option<&str>) -> Result<Which, AdminRefusal>
    ensures { result ≡ standing_of (option_copied text.entry) }
{
    match text {
        None => Ok(Which::All),
        Some("all") => Ok(Which::All),
        Some("waiting") => Ok(Which::Waiting),
        Some("running") => Ok(Which::Running),
        Some("success") => Ok(Which::Success),
        Some("failure") => Ok(Which::Failure),
        Some(_) => Err(AdminRefusal::Standing),
    }
}

/// The event behind which a list begins, where one is named.
pub(crate) fn read_after(text: Option<&str>) -> Result<Option<[u8; 16]>, AdminRefusal>
    ensures { result ≡ after_of (option_copied text.entry) }
{
    let Some(text) = text else { return Ok(None) };
    match read_id(text.as_bytes()) {
        Some(id) => Ok(Some(id)),
        None => Err(AdminRefusal::After),
    }
}

/// How many are asked for at most: a hundred, where nothing is said.
pub(crate) fn read_limit(text: Option<&str>) -> Result<usize, AdminRefusal>
    ensures { result ≡ limit_of (option_copied text.entry) }
{
    let Some(text) = text else { return Ok(100) };
    if text.is_empty() {
        return Err(AdminRefusal::Limit);
    }
    match read_number(text.as_bytes()) {
        Some(limit) if limit >= 1 => Ok(limit),
        _ => Err(AdminRefusal::Limit),
    }
}
