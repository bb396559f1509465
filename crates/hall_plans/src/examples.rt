// Worked examples of what is meant, computed by the check: a definition that changes one is refused.
#![tactic(auto, unfolding(crate::specs::Past::calls_of, crate::specs::Firsts::first_unheld, crate::specs::Firsts::first_moving, crate::specs::Firsts::oldest_ended, crate::specs::Effects::effect_of, crate::specs::Run::past_after, crate::specs::Slots::since_asked, crate::specs::Slots::reply_of, crate::specs::Slots::open_slots, crate::specs::Slots::released, crate::specs::Refusals::why_refused, async_core::specs::Lives::life, async_core::specs::Policies::judged_by, async_core::specs::Policies::in_force, async_core::specs::History::standing_in, async_core::specs::History::held, async_core::specs::History::last_number, async_core::specs::History::refusal_of, async_core::specs::Checks::refusal_in, async_core::specs::Choice::move_of, async_core::specs::Choice::ripe_at, env_phase::specs::Environment::era, env_phase::specs::Environment::registered, env_phase::specs::Environment::slot_of, env_phase::specs::Environment::unanswered, env_phase::specs::Environment::is_met, env_phase::specs::Environment::phase_of, env_phase::specs::Polls::refusal_of, env_phase::specs::Polls::answered_by,))]

ghost use Rattle.std.specs.Prelude.{◌≡◌, ◌+◌, ◌-◌, [], ◌∷◌, ◌++◌, None, Some, true, false};
ghost use Rattle.async_core.specs.Lives.{life, starts};
ghost use Rattle.async_core.specs.History.{standing_in};
ghost use Rattle.async_core.specs.Examples.{usual, no_retries, for_one_minute, for_two_events, id, accept, start, does};
ghost use Rattle.async_core.specs.Examples.{started, cut_off_once};
ghost use Rattle.env_phase.specs.Environment.{init, phase_of};
ghost use Rattle.api_core.specs.declared.call.Call.TheVariants as calls;
ghost use Rattle.api_core.specs.Replies as reply;
ghost use Rattle.hall_plans.specs.Past.{tick, take_slot, forget_slot, opening, calls_of};
ghost use Rattle.hall_plans.specs.Effects.{id_of, command_of};
ghost use Rattle.hall_plans.specs.Run.{past_of, history_of, issued_by};
ghost use Rattle.hall_plans.specs.Slots.{reply_of, open_slots, released};
ghost use Rattle.hall_plans.specs.Refusals.{why_refused};
ghost use Rattle.hall_plans.specs.Agreement.{IsRun, is_sound};
ghost use Rattle.hall_plans.specs.Examples.{t, braces, longer, asks, invokes, runtime_asks, extension_asks, responds};
ghost use Rattle.hall_plans.specs.Examples.{responds_unreadably, reports, deletes, failure_asked, success_asked};
ghost use Rattle.hall_plans.specs.Examples.{registers, draws_21, init_fails, exits, stops};
ghost use Rattle.hall_plans.specs.Examples.{makes, done, reply_in, refused_at, caller_refused_at, taken_at, accepted_at, registered_at};
ghost use Rattle.hall_plans.specs.Examples.{ends_at, for_two, once_failed};
ghost use Rattle.hall_plans.specs.Examples.{tells, starts_at, timed_out, throttled_history, first_anew_history};
ghost use Rattle.hall_plans.specs.Examples.{second_is_start, first_failure};
ghost use Rattle.hall_plans.specs.Examples.{one_runs, one_answered, asked_and_ticked, comes_and_waits, three_come};
ghost use Rattle.hall_plans.specs.Examples.{first_is_answered, first_comes_again, anew_and_asked, one_fails};
ghost use Rattle.hall_plans.specs.Examples.{extensions_run, ten_register, eleven_register, stopped, poll_and_second};
ghost use Rattle.hall_plans.specs.Examples.{many};
ghost use Rattle.hall_plans.specs.Examples.{one_at_a_time, start_of_two, after_a_stop, throttled_run, due_before_first};
ghost use Rattle.hall_plans.specs.Examples.{second_answered};
ghost use Rattle.hall_plans.specs.Examples.{two_environments, second_then_first, short_answers};
ghost use Rattle.hall_plans.specs.Examples.{one_registers, one_has_asked, awaits};

use crate::HallError;
use api_core::{Refusal, ShutdownReason};
use invoke_records::{Cause, Kind, Standing};

/// Ids, commands and moments.
pub fn commands()
    // claim: The prover computes worked runs. [: cut_off; attempts: late; faults: broken; outbox: told;
    // extensions_that_are_waited_for: has_asked]
    ensures drawn { id_of (0, 1) ≡ id 1 }
    ensures accepted { makes (invokes 1 t 1 ∷ []) ≡ accept 1 t ∷ [] }
    ensures started { makes (one_runs t) ≡ starts_at t }
    ensures nobody_ready { makes (invokes 1 t 1 ∷ tick t ∷ []) ≡ accept 1 t ∷ [] }
    ensures not_earlier { makes (invokes 1 t 1 ∷ invokes 2 (t - 5) 2 ∷ []) ≡ accept 1 t ∷ accept 2 t ∷ [] }
    ensures drawn_again { reply_in (invokes 1 t 1 ∷ invokes 2 t 1 ∷ []) 2 ≡ caller_refused_at Refusal.IdInUse 1 }
    ensures cut_off { history_of usual 0 started asked_and_ticked ≡ cut_off_once }
    ensures only_once { history_of usual 0 started (asked_and_ticked ++ tick 5999 ∷ []) ≡ cut_off_once }
    ensures started_again { history_of usual 0 started (asked_and_ticked ++ tick 6000 ∷ []) ≡ cut_off_once ++ start 1 6000 ∷ [] }
    ensures cut_off_then_the_next { after_a_stop.history ≡ start_of_two ++ does Kind.Interrupt 2 t ∷ start 1 (t + 1) ∷ [] }
    ensures throttled { history_of one_at_a_time 0 [] throttled_run ≡ throttled_history }
    ensures earliest_due { command_of usual (done due_before_first) (tick (t + 60000)) ≡ Some (start 2 (t + 60000)) }
    ensures then_the_older { command_of usual (done second_answered) (tick (t + 60000)) ≡ Some (start 1 (t + 60000)) }
    ensures least_environment { command_of two_environments (past_of two_environments 0 [] second_then_first) (tick t) ≡ Some (start 1 t) }
    ensures expired { history_of for_one_minute 0 [] (comes_and_waits ++ tick 61000 ∷ []) ≡ accept 1 1000 ∷ does Kind.Expire 1 61000 ∷ [] }
{}

/// An environment that waits for an extension is given no event before that has asked.
pub fn extensions_that_are_waited_for()
    ensures for_none { command_of usual (done comes_and_waits) (tick 1000) ≡ Some (start 1 1000) }
    ensures closed { reply_in one_registers 3 ≡ refused_at Refusal.RegistrationClosed 1 }
    ensures not_yet { command_of usual (awaits comes_and_waits) (tick 1000) ≡ None }
    ensures open { reply_of (awaits one_registers) 3 ≡ registered_at 21 1 }
    ensures has_not_asked { command_of usual (awaits one_registers) (tick 1000) ≡ None }
    ensures has_asked { command_of usual (awaits one_has_asked) (tick 1000) ≡ Some (start 1 1000) }
    ensures sound { is_sound usual (awaits (one_has_asked ++ tick 1000 ∷ [])) ≡ true }
{}

/// Requests of extensions that are refused, and polls that are replaced while the environment is in init.
pub fn registrations()
    ensures tenth { reply_in ten_register 30 ≡ registered_at 30 0 }
    ensures eleventh { reply_in eleven_register 31 ≡ refused_at Refusal.TooManyExtensions 0 }
    ensures error { reply_in (eleven_register ++ init_fails 1 ∷ []) 1 ≡ taken_at 0 }
    ensures anew { reply_in (eleven_register ++ init_fails 1 ∷ take_slot 31 ∷ registers 31 ∷ []) 31 ≡ registered_at 31 0 }
    ensures older_poll { reply_in (registers 21 ∷ runtime_asks 1 t ∷ runtime_asks 2 t ∷ []) 1 ≡ refused_at Refusal.Replaced 0 }
    ensures newer_poll { reply_in (registers 21 ∷ runtime_asks 1 t ∷ runtime_asks 2 t ∷ []) 2 ≡ None }
    ensures never_given { reply_in (registers 21 ∷ extension_asks 1 22 ∷ []) 1 ≡ refused_at Refusal.UnknownExtension 0 }
    ensures closed { reply_in (runtime_asks 1 t ∷ registers 21 ∷ []) 21 ≡ refused_at Refusal.RegistrationClosed 0 }
{}

/// An attempt that is answered in time, one that is answered too late, and one that nobody answers.
pub fn attempts()
    ensures in_time { makes (one_runs 1000 ++ responds 3 3999 1 braces ∷ []) ≡ started ++ tells Kind.Succeed 1 3999 ∷ [] }
    ensures taken { reply_in (one_runs 1000 ++ responds 3 3999 1 braces ∷ []) 3 ≡ taken_at 3 }
    ensures late { makes (one_runs 1000 ++ responds 3 4000 1 braces ∷ []) ≡ timed_out 1000 4000 }
    ensures late_reply { reply_in (one_runs 1000 ++ responds 3 4000 1 braces ∷ []) 3 ≡ refused_at Refusal.InvalidRequestId 3 }
    ensures reset { phase_of 0 (calls_of (done (one_runs 1000 ++ responds 3 4000 1 braces ∷ [])) 1) ≡ init }
    ensures late_error { makes (one_runs 1000 ++ reports 3 4000 1 braces ∷ []) ≡ timed_out 1000 4000 }
    ensures not_over { makes (one_runs 1000 ++ tick 3999 ∷ []) ≡ started }
    ensures timed_out { makes (one_runs 1000 ++ tick 4000 ∷ []) ≡ timed_out 1000 4000 }
    ensures reset_by_tick { phase_of 0 (calls_of (done (one_runs 1000 ++ tick 4000 ∷ [])) 1) ≡ init }
    ensures too_late { reply_in (one_runs 1000 ++ tick 4000 ∷ responds 3 4000 1 braces ∷ []) 3 ≡ refused_at Refusal.InvalidRequestId 3 }
    ensures no_command_then { makes (one_runs 1000 ++ tick 4000 ∷ responds 3 4000 1 braces ∷ []) ≡ timed_out 1000 4000 }
{}

/// A full table, and an event that is accepted anew once it was collected.
pub fn anew()
    ensures full { reply_of (for_two three_come) 3 ≡ Some (reply.table_full 0 0, 2) }
    ensures full_of_a_record { reply_of (for_two first_is_answered) 7 ≡ Some (reply.table_full 1 0, 4) }
    ensures history { history_of for_two_events 0 [] first_comes_again ≡ first_anew_history }
    ensures accepted { reply_of (for_two first_comes_again) 7 ≡ accepted_at 1 6 }
    ensures waits { standing_in for_two_events (history_of for_two_events 0 [] first_comes_again) (id 1) ≡ Standing.Waiting t }
    ensures no_starts { starts (life (id 1) (history_of for_two_events 0 [] first_comes_again)) ≡ 0 }
    ensures second_goes_first { command_of for_two_events (for_two anew_and_asked) (tick t) ≡ Some (start 2 t) }
{}

/// What is told before and after a commit, and once the device has failed.
pub fn faults()
    ensures not_durable { released false 0 (done (invokes 1 t 1 ∷ [])) 1 ≡ None }
    ensures durable { released false 1 (done (invokes 1 t 1 ∷ [])) 1 ≡ accepted_at 1 1 }
    ensures once { released false 1 (done (invokes 1 t 1 ∷ take_slot 1 ∷ [])) 1 ≡ None }
    ensures parks { reply_in (invokes 1 t 1 ∷ take_slot 1 ∷ runtime_asks 2 t ∷ []) 2 ≡ None }
    ensures pending { released false 1 (done poll_and_second) 3 ≡ None }
    ensures open { open_slots true (done poll_and_second) ≡ 2 ∷ 3 ∷ [] }
    ensures poll { released true 1 (done poll_and_second) 2 ≡ caller_refused_at Refusal.Unavailable 1 }
    ensures second { released true 1 (done poll_and_second) 3 ≡ caller_refused_at Refusal.Unavailable 1 }
    ensures kept { released true 1 (done (invokes 1 t 1 ∷ runtime_asks 2 t ∷ invokes 3 t 2 ∷ [])) 1 ≡ accepted_at 1 1 }
    ensures unknown_slot { released true 1 (done (invokes 1 t 1 ∷ [])) 9 ≡ None }
    ensures broken { why_refused true 1 usual (done (invokes 1 t 1 ∷ [])) (invokes 4 t 3) ≡ Some HallError.Broken }
    ensures broken_tick { why_refused true 1 usual (done (invokes 1 t 1 ∷ [])) (tick t) ≡ Some HallError.Broken }
{}

/// The outbox of failures.
pub fn outbox()
    ensures failed { history_of no_retries 0 [] one_fails ≡ starts_at t ++ tells (Kind.Fail Cause.Reported) 1 t ∷ [] }
    ensures not_yet { released false 2 (once_failed (failure_asked 4 ∷ [])) 4 ≡ None }
    ensures told { released false 3 (once_failed (failure_asked 4 ∷ [])) 4 ≡ Some (first_failure, 3) }
    ensures told_again { released false 3 (once_failed (failure_asked 4 ∷ take_slot 4 ∷ failure_asked 5 ∷ [])) 5 ≡ Some (first_failure, 3) }
    ensures other_side { reply_of (once_failed (success_asked 4 ∷ [])) 4 ≡ Some (reply.no_record, 3) }
    ensures deleted { reply_of (once_failed (deletes 6 t 1 ∷ [])) 6 ≡ Some (reply.deleted (id 1), 4) }
    ensures deleted_later { released false 3 (once_failed (deletes 6 t 1 ∷ [])) 6 ≡ None }
    ensures deleted_durably { released false 4 (once_failed (deletes 6 t 1 ∷ [])) 6 ≡ Some (reply.deleted (id 1), 4) }
    ensures deleted_again { reply_of (once_failed (deletes 6 t 1 ∷ deletes 7 t 1 ∷ [])) 7 ≡ caller_refused_at Refusal.UnknownEvent 4 }
    ensures empty { reply_of (once_failed (deletes 6 t 1 ∷ deletes 7 t 1 ∷ failure_asked 8 ∷ [])) 8 ≡ Some (reply.no_record, 4) }
{}

/// The poll of a runtime, which is answered by a tick.
pub fn polls()
    ensures number { issued_by usual (done (invokes 1 t 1 ∷ runtime_asks 2 t ∷ [])) (tick t) ≡ Some second_is_start }
    ensures parked { released false 1 (done (invokes 1 t 1 ∷ runtime_asks 2 t ∷ [])) 2 ≡ None }
    ensures waits { released false 1 (done (one_runs t)) 2 ≡ None }
    ensures told { released false 2 (done (one_runs t)) 2 ≡ Some (reply.runtime_event (id 1) 1573755368568 braces, 2) }
    ensures second { reply_in (one_runs t ++ runtime_asks 3 t ∷ []) 3 ≡ refused_at Refusal.WrongPhase 2 }
    ensures replaced { reply_in (runtime_asks 1 t ∷ runtime_asks 2 t ∷ []) 1 ≡ refused_at Refusal.Replaced 0 }
    ensures newer_waits { reply_in (runtime_asks 1 t ∷ runtime_asks 2 t ∷ []) 2 ≡ None }
    ensures another { reply_in (one_runs t ++ responds 3 t 2 braces ∷ []) 3 ≡ refused_at Refusal.InvalidRequestId 2 }
    ensures no_command { makes (one_runs t ++ responds 3 t 2 braces ∷ []) ≡ starts_at t }
    ensures unreadable { reply_in (one_runs t ++ responds_unreadably 3 ∷ []) 3 ≡ refused_at Refusal.InvalidRequestId 2 }
    ensures answered_twice { reply_in (one_answered ++ responds 4 t 1 braces ∷ []) 4 ≡ refused_at Refusal.InvalidRequestId 3 }
    ensures delete_unreadable { reply_in (one_runs t ++ asks 3 t 0 (calls.Delete None) ∷ []) 3 ≡ caller_refused_at Refusal.UnknownEvent 2 }
    ensures delete_running { reply_in (one_runs t ++ deletes 3 t 1 ∷ []) 3 ≡ Some (reply.not_ended (id 1), 2) }
{}

/// Extensions, one of which exits while an event runs.
pub fn extensions()
    ensures registered { reply_in extensions_run 1 ≡ registered_at 21 0 }
    ensures given { reply_in extensions_run 3 ≡ Some (reply.invoke_event (id 1) 1573755368568, 2) }
    ensures to_the_runtime { reply_in extensions_run 5 ≡ Some (reply.runtime_event (id 1) 1573755368568 braces, 2) }
    ensures stays { reply_in extensions_run 4 ≡ None }
    ensures exit_is_taken { reply_in (extensions_run ++ exits 7 t ∷ []) 7 ≡ taken_at 3 }
    ensures exit_fails { makes (extensions_run ++ exits 7 t ∷ []) ≡ starts_at t ++ does (Kind.Fail Cause.Exited) 1 t ∷ [] }
    ensures due_again { standing_in usual (makes (extensions_run ++ exits 7 t ∷ [])) (id 1) ≡ Standing.DueAgain (t + 60000) }
    ensures in_init { phase_of 0 (calls_of (done (extensions_run ++ exits 7 t ∷ [])) 1) ≡ init }
    ensures told { reply_in (extensions_run ++ exits 7 t ∷ []) 4 ≡ ends_at ShutdownReason.Failure (t + 2000) 3 }
    ensures late_exit { makes (extensions_run ++ exits 7 (t + 3000) ∷ []) ≡ timed_out t (t + 3000) }
    ensures late_exit_is_a_failure { reply_in (extensions_run ++ exits 7 (t + 3000) ∷ []) 4 ≡ ends_at ShutdownReason.Failure (t + 5000) 3 }
    ensures timeout_told { reply_in (extensions_run ++ tick (t + 3000) ∷ []) 4 ≡ ends_at ShutdownReason.Timeout (t + 5000) 3 }
    ensures unknown { reply_in (extension_asks 1 21 ∷ []) 1 ≡ refused_at Refusal.UnknownExtension 0 }
    ensures drawn_twice { reply_in (draws_21 1 ∷ draws_21 2 ∷ []) 2 ≡ refused_at Refusal.IdInUse 0 }
    ensures init_error { reply_in (draws_21 1 ∷ runtime_asks 2 t ∷ init_fails 3 ∷ []) 2 ≡ refused_at Refusal.EnvironmentReset 0 }
{}

/// The stop: what polls are told, and what comes after it.
pub fn stop()
    ensures poll { released false 0 (done stopped) 1 ≡ refused_at Refusal.EnvironmentReset 0 }
    ensures taken { released false 0 (done stopped) 2 ≡ taken_at 0 }
    ensures no_more { why_refused false 0 usual (done stopped) (invokes 3 t 1) ≡ Some HallError.Stopping }
    ensures tick_is_not_refused { why_refused false 0 usual (done stopped) (tick t) ≡ None }
    ensures no_start { command_of usual (done (invokes 3 t 1 ∷ stopped)) (tick t) ≡ None }
    ensures no_expiry { command_of usual (done (invokes 3 t 1 ∷ stopped)) (tick (t + 21600000)) ≡ None }
    ensures no_timeout { command_of usual (done (extensions_run ++ stops 7 t ∷ [])) (tick (t + 3000)) ≡ None }
    ensures all_told { reply_in (extensions_run ++ stops 7 t ∷ []) 4 ≡ ends_at ShutdownReason.Spindown (t + 2000) 2 }
{}

/// Slots that are open, forgotten and used again.
pub fn slots()
    ensures asked { open_slots false (done (invokes 1 t 1 ∷ runtime_asks 2 t ∷ [])) ≡ 1 ∷ 2 ∷ [] }
    ensures taken { open_slots false (done (invokes 1 t 1 ∷ runtime_asks 2 t ∷ take_slot 1 ∷ [])) ≡ 2 ∷ [] }
    ensures forgotten { open_slots false (done (invokes 1 t 1 ∷ forget_slot 1 ∷ [])) ≡ [] }
    ensures forgotten_poll { open_slots false (done (runtime_asks 2 t ∷ forget_slot 2 ∷ [])) ≡ 2 ∷ [] }
    ensures closed_once_answered { open_slots false (done (runtime_asks 2 t ∷ forget_slot 2 ∷ runtime_asks 3 t ∷ [])) ≡ 3 ∷ [] }
    ensures stays_parked { makes (runtime_asks 2 t ∷ forget_slot 2 ∷ invokes 1 t 1 ∷ tick t ∷ []) ≡ starts_at t }
    ensures thrown_away { released false 2 (done (runtime_asks 2 t ∷ forget_slot 2 ∷ invokes 1 t 1 ∷ tick t ∷ [])) 2 ≡ None }
    ensures unknown_forgotten { open_slots false (done (forget_slot 1 ∷ invokes 1 t 1 ∷ [])) ≡ 1 ∷ [] }
    ensures used_again { released false 2 (done (invokes 1 t 1 ∷ take_slot 1 ∷ invokes 1 t 2 ∷ [])) 1 ≡ accepted_at 2 2 }
    ensures not_the_old_reply { released false 1 (done (invokes 1 t 1 ∷ take_slot 1 ∷ runtime_asks 1 t ∷ [])) 1 ≡ None }
    ensures pending_full { why_refused false 0 usual many (invokes 1 t 1) ≡ Some HallError.Backlog }
    ensures pending_full_without_a_command { why_refused false 0 usual many (runtime_asks 1 t) ≡ None }
    ensures one_is_durable { why_refused false 1 usual many (invokes 1 t 1) ≡ None }
{}

/// Each of these runs makes a legal history, and the environments agree with it.
pub fn soundness()
    ensures answered { is_sound usual (done (one_runs 1000 ++ responds 3 3999 1 braces ∷ [])) ≡ true }
    ensures late { is_sound usual (done (one_runs 1000 ++ responds 3 4000 1 braces ∷ [])) ≡ true }
    ensures late_running { is_sound usual (done (one_runs 1000 ++ tick 4000 ∷ [])) ≡ true }
    ensures again { is_sound for_two_events (for_two (anew_and_asked ++ tick t ∷ [])) ≡ true }
    ensures failed { is_sound no_retries (once_failed (failure_asked 4 ∷ deletes 6 t 1 ∷ deletes 7 t 1 ∷ [])) ≡ true }
    ensures throttled { is_sound one_at_a_time (past_of one_at_a_time 0 [] throttled_run) ≡ true }
    ensures cut_off { is_sound one_at_a_time after_a_stop ≡ true }
    ensures two { is_sound two_environments (past_of two_environments 0 [] (second_then_first ++ tick t ∷ [])) ≡ true }
    ensures exited { is_sound usual (done (extensions_run ++ exits 7 t ∷ [])) ≡ true }
    ensures exited_late { is_sound usual (done (extensions_run ++ exits 7 (t + 3000) ∷ [])) ≡ true }
    ensures stopped_while_running { is_sound usual (done (extensions_run ++ stops 7 t ∷ [])) ≡ true }
{}

/// What the two conditions of a call are for: a text that is too long for a record, and a moment that none can hold.
pub fn conditions()
    ensures longest { is_sound short_answers (past_of short_answers 0 [] (one_runs t ++ responds 3 t 1 braces ∷ [])) ≡ true }
    ensures too_long { is_sound short_answers (past_of short_answers 0 [] (one_runs t ++ responds 3 t 1 longer ∷ [])) ≡ false }
    ensures too_long_an_error { is_sound short_answers (past_of short_answers 0 [] (one_runs t ++ reports 3 t 1 longer ∷ [])) ≡ false }
    ensures last { is_sound usual (done (invokes 1 t 1 ∷ tick 253402300799999 ∷ [])) ≡ true }
    ensures too_late { is_sound usual (done (invokes 1 t 1 ∷ tick 253402300800000 ∷ [])) ≡ false }
    ensures too_late_an_exit { is_sound usual (done (extensions_run ++ exits 7 253402300800000 ∷ [])) ≡ false }
{}

/// There is such a run.
pub fn a_run()
    ensures { IsRun usual (opening 0 []) (one_runs 1000 ++ responds 3 3999 1 braces ∷ take_slot 3 ∷ tick 4000 ∷ []) }
{}
