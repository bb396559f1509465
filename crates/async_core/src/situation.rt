// What a command meets in the table.
ghost use Rattle.std.specs.Prelude.{◌≡◌, ◌+◌, ◌*◌, find};
ghost use Rattle.async_core.specs.Rules as meant;
ghost use Rattle.async_core.specs.Rules.{has_id, standing_or_unknown, is_busy_at};

use crate::held::Held;
use crate::keys::Index;
use invoke_records::{EventRow, Standing};

/// What a command meets in the table.
#[derive(Clone, Copy)]
pub struct Situation {
    /// The moment of the last command.
    pub last_moment: u64,
    /// How many events are held.
    pub held: usize,
    /// How many of them run.
    pub running: usize,
    /// Whether an event runs in the command's environment.
    pub is_busy: bool,
    /// Where the command's event stands.
    pub standing: Standing,
    /// The moment from which the command's event is too old.
    pub too_old_from: u128,
}

/// Where an event stands.
pub(crate) fn standing_in(held: &Held, id: &[u8; 16]) -> Standing
    ensures { result ≡ standing_or_unknown (find (has_id id.now) held.now) }
{
    match held.find(id) {
        Some(row) => row.standing,
        None => Standing::Unknown,
    }
}

/// The moment from which an event of this age limit, in seconds, is too old.
pub fn too_old_from(accepted: u64, age: u32) -> u128
    ensures { result ≡ accepted + 1000 * age }
{
    u128::from(accepted) + 1000 * u128::from(age)
}

/// The moment from which an event is too old, by the age that it was accepted with.
pub(crate) fn expiry_of(row: &EventRow) -> u128
    ensures { result ≡ meant.too_old_at row.now }
{
    too_old_from(row.accepted, row.policy.age)
}

/// The moment from which an event is too old, or 0.
pub(crate) fn too_old_or_zero(held: &Held, id: &[u8; 16]) -> u128
    ensures { result ≡ meant.too_old_or_zero (find (has_id id.now) held.now) }
{
    match held.find(id) {
        Some(row) => expiry_of(row),
        None => 0,
    }
}

/// Whether an attempt runs in this environment.
pub(crate) fn is_busy(environment: u16, held: &Held) -> bool
    ensures { result ≡ is_busy_at environment held.now }
{
    let last = Some(u64::from(environment));
    held.first_in(Index::Environment, u128::from(environment), last)
        .is_some()
}
