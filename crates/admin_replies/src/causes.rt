// What a problem follows from, among others that were found.
use operator_view::{PROBLEMS, Problem};

// That an event is not taken, in a few words, where that is what is wrong.
fn stops_events(problem: Problem) -> Option<&'static str> {
    match problem {
        Problem::DiskHangs { .. } => Some("the disk hangs"),
        Problem::ClockIsBehind { .. } => Some("the clock is behind"),
        Problem::NobodyPolls {
            without_poll,
            environments,
            ..
        } if without_poll == environments => Some("nobody polls"),
        Problem::EnvironmentHangs { .. } => Some("an environment hangs"),
        Problem::NothingEnds { .. } => Some("nothing ends"),
        Problem::MostAttemptsFail { .. } => Some("most attempts fail"),
        Problem::AllBusy { .. } => Some("all environments are busy"),
        _ => None,
    }
}

// That commits take long, in a few words, where that is what is wrong.
fn slows_commits(problem: Problem) -> Option<&'static str> {
    match problem {
        Problem::DiskHangs { .. } => Some("the disk hangs"),
        Problem::CommitsAreSlow { .. } => Some("commits are slow"),
        _ => None,
    }
}

/// Why events wait: the first cause that was found.
pub(crate) fn cause_of_waits(problems: &[Option<Problem>; PROBLEMS]) -> Option<&'static str> {
    for problem in problems {
        if let Some(problem) = problem {
            if let Some(cause) = stops_events(*problem) {
                return Some(cause);
            }
        }
    }
    None
}

/// Why too much is under way: the first cause that was found.
pub(crate) fn cause_of_refusals(problems: &[Option<Problem>; PROBLEMS]) -> Option<&'static str> {
    for problem in problems {
        if let Some(problem) = problem {
            if let Some(cause) = slows_commits(*problem) {
                return Some(cause);
            }
        }
    }
    None
}

/// Why a table fills in which so many events are held, of which so many have ended.
pub(crate) fn cause_of_table(
    problems: &[Option<Problem>; PROBLEMS],
    held: u64,
    ended: u64,
) -> Option<&'static str> {
    if held / 2 < ended {
        Some("records are not collected")
    } else {
        cause_of_waits(problems)
    }
}
