// Tests of where an event stands.
ghost use Rattle.std.specs.Prelude.{◌≡◌};
ghost use Rattle.async_core.specs.Standings as meant;

use invoke_records::Standing;

pub fn is_unknown(standing: Standing) -> bool
    ensures { result ≡ meant.is_unknown standing }
{
    match standing {
        Standing::Unknown => true,
        _ => false,
    }
}

pub fn is_ended(standing: Standing) -> bool
    ensures { result ≡ meant.is_ended standing }
{
    match standing {
        Standing::Ended { .. } => true,
        _ => false,
    }
}

pub fn is_running(standing: Standing) -> bool
    ensures { result ≡ meant.is_running standing }
{
    match standing {
        Standing::Running { .. } => true,
        _ => false,
    }
}

/// Waiting or due again, and due.
pub fn is_due(now: u64, standing: Standing) -> bool
    ensures { result ≡ meant.is_due now standing }
{
    match standing {
        Standing::Waiting { due } => due <= now,
        Standing::DueAgain { due } => due <= now,
        _ => false,
    }
}

pub fn is_past_deadline(now: u64, standing: Standing) -> bool
    ensures { result ≡ meant.is_past_deadline now standing }
{
    match standing {
        Standing::Running { deadline, .. } => deadline <= now,
        _ => false,
    }
}
