// The ids of events and of extensions.
ghost use Rattle.std.specs.Prelude.{◌≡◌};
ghost use Rattle.hall_plans.specs.Plans.{drawn_by};

use uuid::Uuid;

/// The version 4 id of two random words, the high one first.
pub fn drawn_id(words: [u64; 2]) -> [u8; 16]
    ensures { result ≡ drawn_by words }
{
    let high = words[0] / 0x1_0000 * 0x1_0000 + 0x4000 + words[0] % 0x1000;
    let low = 0x8000_0000_0000_0000 + words[1] % 0x4000_0000_0000_0000;
    Uuid::from_u64_pair(high, low).into_bytes()
}
