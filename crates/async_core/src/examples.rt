// Worked examples of what is meant, computed by the check: a definition that changes one is refused.
ghost use Rattle.std.specs.Prelude.{◌≡◌, [], ◌∷◌, map, None, Some, true, false};
ghost use Rattle.async_core.specs.History.{standing_in, refusal_of, table_of, row_of, in_force};
ghost use Rattle.async_core.specs.Policies.{pair_of};
ghost use Rattle.async_core.specs.Choice.{move_of};
ghost use Rattle.async_core.specs.Examples.{usual, no_retries, for_one_minute, for_two_events, one_at_once, id, accept, start, does, accepted_late, failed_once, failed_twice, failed_thrice, accepted_early, started, cut_off_once, cut_off_twice, both_accepted, second_runs, first_collected, accepted_anew, configure, configured, first_failed_on, both_failed, third_accepted};

use crate::Illegal;
use invoke_records::{Cause, Kind, Outcome, Standing};

/// Where an event stands after attempts that fail, that are cut off, and too late.
#[tactic(auto, unfolding(crate::specs::History::standing_in, crate::specs::Lives::life, crate::specs::Policies::judged_by, crate::specs::Policies::in_force))]
pub fn standings()
    // claim: The prover computes worked lives, refusals, policies and moves. [: retried; refusals: full; policies:
    // by_the_last; tables: timed_out]
    ensures waits { standing_in usual accepted_late (id 1) ≡ Standing.Waiting 1000000 }
    ensures retried { standing_in usual failed_once (id 1) ≡ Standing.DueAgain 1060500 }
    ensures retried_again { standing_in usual failed_twice (id 1) ≡ Standing.DueAgain 1181000 }
    ensures exhausted { standing_in usual failed_thrice (id 1) ≡ Standing.Ended Outcome.RetriesExhausted 1181500 }
    ensures without_retries { standing_in no_retries failed_once (id 1) ≡ Standing.Ended Outcome.RetriesExhausted 1000500 }
    ensures cut_off { standing_in usual cut_off_once (id 1) ≡ Standing.DueAgain 6000 }
    ensures cut_off_again { standing_in usual cut_off_twice (id 1) ≡ Standing.DueAgain 9000 }
    ensures runs { standing_in usual started (id 1) ≡ Standing.Running 1 4000 }
    ensures unknown { standing_in usual accepted_early (id 2) ≡ Standing.Unknown }
{}

/// What is legal and what is refused at the bounds of age and of the table.
pub fn refusals()
    ensures young { refusal_of for_one_minute accepted_late (start 1 1059999) ≡ None }
    ensures old { refusal_of for_one_minute accepted_late (start 1 1060000) ≡ Some Illegal.TooOld }
    ensures not_expired { refusal_of for_one_minute accepted_late (does Kind.Expire 1 1059999) ≡ Some Illegal.NotDue }
    ensures expired { refusal_of for_one_minute accepted_late (does Kind.Expire 1 1060000) ≡ None }
    ensures room { refusal_of for_two_events accepted_early (accept 2 1000) ≡ None }
    ensures full { refusal_of for_two_events both_accepted (accept 3 1000) ≡ Some Illegal.Full }
    ensures anew { refusal_of for_two_events first_collected (accept 1 1000) ≡ None }
    ensures in_time { refusal_of usual started (does Kind.Succeed 1 3999) ≡ None }
    ensures late { refusal_of usual started (does Kind.Succeed 1 4000) ≡ Some Illegal.Late }
{}

/// What is in force, and by what each event is judged, where a Configure comes between two events.
pub fn policies()
    ensures by_the_settings { pair_of (in_force usual accepted_early) ≡ (2, 21600) }
    ensures by_the_last { pair_of (in_force usual third_accepted) ≡ (0, 60) }
    ensures legal { refusal_of usual accepted_early (configure 0 60 1000) ≡ None }
    ensures too_many_retries { refusal_of usual accepted_early (configure 3 60 1000) ≡ Some Illegal.BadKind }
    ensures too_short { refusal_of usual accepted_early (configure 0 59 1000) ≡ Some Illegal.BadKind }
    ensures clock_back { refusal_of usual accepted_early (configure 0 60 999) ≡ Some Illegal.ClockBack }
    ensures first_is_retried { standing_in usual first_failed_on (id 1) ≡ Standing.DueAgain 61500 }
    ensures second_is_not { standing_in usual both_failed (id 2) ≡ Standing.Ended Outcome.RetriesExhausted 2000 }
    ensures first_is_young { refusal_of usual third_accepted (does Kind.Expire 1 62000) ≡ Some Illegal.NotDue }
    ensures third_is_old { refusal_of usual third_accepted (start 3 62000) ≡ Some Illegal.TooOld }
{}

/// The rows of a table in which an event was accepted anew, and the moves of events.
pub fn tables()
    ensures anew { (table_of usual accepted_anew).rows ≡ map (row_of usual accepted_anew) ((2, id 2) ∷ (6, id 1) ∷ []) }
    ensures starts { move_of usual accepted_early 1000 true (id 1) ≡ Some Kind.Start }
    ensures none_ready { move_of usual accepted_early 1000 false (id 1) ≡ None }
    ensures throttled { move_of one_at_once second_runs 1000 false (id 1) ≡ Some Kind.Throttle }
    ensures timed_out { move_of usual started 4000 true (id 1) ≡ Some (Kind.Fail Cause.Timeout) }
{}
