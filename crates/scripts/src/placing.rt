// A place in which something stands.

/// Takes this in place of what was there. No other function drops what was there, since that is dear to prove where it is known
/// what stands there.
pub fn set<P: Drop>(place: &mut P, now: P) {
    *place = now;
}
