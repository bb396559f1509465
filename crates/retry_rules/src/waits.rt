// The waits after a failure and after a push-back, and the age at which an event expires.
ghost use Rattle.std.specs.Prelude.{◌≡◌, ◌+◌, ◌-◌, ◌*◌, ◌^◌, ◌≤◌, ◌↔◌, IsTrue, min};

/// How many milliseconds an event waits after its n-th function error: a minute, and then two.
///
/// The settings allow at most two retries, so no event of theirs waits after a third one.
pub fn after_failure(n: u32) -> u64
    // claim: The wait after the n-th function error is n minutes.
    ensures { result ≡ 60000 * n }
{
    60000 * n as u64
}

/// How many milliseconds an event waits after its k-th push-back since its last function error: a second at first,
/// then twice as long each time, and never more than five minutes.
pub fn after_pushback(k: u32) -> u64
    requires { 1 ≤ k }
    // claim: The wait after the k-th push-back is a second, doubled each time, five minutes at most.
    ensures { result ≡ 1000 * min (2 ^ (k - 1)) 300 }
{
    if 9 < k {
        return 300000;
    }
    match k {
        1 => 1000,
        2 => 2000,
        3 => 4000,
        4 => 8000,
        5 => 16000,
        6 => 32000,
        7 => 64000,
        8 => 128000,
        _ => 256000,
    }
}

/// Whether an event that was accepted then has reached its greatest age.
///
/// The moments are milliseconds since 1970, the age is in seconds.
pub fn too_old(accepted: u64, age_seconds: u32, now: u64) -> bool
    // claim: It is too old once its greatest age has passed since its acceptance.
    ensures { IsTrue result ↔ (accepted + 1000 * age_seconds ≤ now) }
{
    now >= accepted && now - accepted >= 1000 * age_seconds as u64
}
