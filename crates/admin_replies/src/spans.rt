// Times as a person reads them.

/// So many seconds, in the unit in which a person reads them.
pub(crate) fn span(seconds: u64) -> (u64, &'static str) {
    if seconds < 600 {
        (seconds, "s")
    } else if seconds < 36_000 {
        (seconds / 60, "min")
    } else {
        (seconds / 3600, "h")
    }
}
