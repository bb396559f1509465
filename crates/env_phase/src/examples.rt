// Worked examples of what is meant, computed by the check: a definition that changes one is refused.
#![tactic(auto, unfolding(crate::specs::Environment::era, crate::specs::Environment::registered, crate::specs::Environment::slot_of, crate::specs::Environment::unanswered, crate::specs::Environment::is_met, crate::specs::Environment::phase_of, crate::specs::Polls::refusal_of, crate::specs::Polls::answered_by,))]

ghost use Rattle.std.specs.Prelude.{◌≡◌, [], ◌∷◌, ◌++◌, None, Some, true, false};
ghost use Rattle.env_phase.specs.declared.call.EnvCall.TheVariants.{RuntimeNext, Register, ExtensionNext, Give, Answer};
ghost use Rattle.env_phase.specs.declared.call.EnvCall.TheVariants.{InitError, ExtensionError, Timeout, Shutdown};
ghost use Rattle.env_phase.specs.Calls.{runtime, extension};
ghost use Rattle.env_phase.specs.Environment.{init, ready, busy, closing, era, registered, slot_of, unanswered, phase_of, is_ready};
ghost use Rattle.env_phase.specs.Polls.{refusal_of, answered_by};
ghost use Rattle.env_phase.specs.Examples.{id, alone, first_asked, two_asked, all_asked, given, answered, asked_again, joins, ten_register, one_came_late, late_given};
ghost use Rattle.env_phase.specs.Examples.{event_on, invoke_on, end_on, spindown_on, reset_on, replaced_on};

use crate::{Reason, Refusal};

/// An event that is answered in time, and one whose time is over.
pub fn one_event()
    ensures nobody { phase_of 0 [] ≡ init }
    ensures asked { phase_of 0 (RuntimeNext 1 ∷ []) ≡ ready }
    // claim: The prover computes worked environments. [: late; two_extensions: two_polls; one_is_waited_for: has_asked;
    // ends: timeout_tells]
    ensures taken { answered_by (RuntimeNext 1 ∷ []) (Give (id 1) 4000) ≡ event_on 1 (id 1) 4000 ∷ [] }
    ensures runs { unanswered alone ≡ Some (id 1) }
    ensures works { phase_of 0 alone ≡ busy }
    ensures in_time { refusal_of 0 alone (Answer (id 1)) ≡ None }
    ensures of_another { refusal_of 0 alone (Answer (id 2)) ≡ Some Refusal.WrongPhase }
    ensures done { phase_of 0 (alone ++ Answer (id 1) ∷ []) ≡ busy }
    ensures twice { refusal_of 0 (alone ++ Answer (id 1) ∷ []) (Answer (id 1)) ≡ Some Refusal.WrongPhase }
    ensures late { refusal_of 0 alone (Timeout 4000) ≡ None }
    ensures nobody_waits { answered_by alone (Timeout 4000) ≡ [] }
    ensures anew { phase_of 0 (alone ++ Timeout 4000 ∷ []) ≡ init }
    ensures nothing_runs { unanswered (alone ++ Timeout 4000 ∷ []) ≡ None }
    ensures second_poll { refusal_of 0 alone (RuntimeNext 2) ≡ Some Refusal.WrongPhase }
{}

/// An extension that is given events and one that is only told of the end, from registration to the next event.
pub fn two_extensions()
    ensures two_have_asked { is_ready 0 two_asked ≡ false }
    ensures in_init { phase_of 0 two_asked ≡ init }
    ensures all_have_asked { is_ready 0 all_asked ≡ true }
    ensures two_polls { answered_by all_asked (Give (id 1) 4000) ≡ event_on 1 (id 1) 4000 ∷ invoke_on 2 (id 1) 4000 ∷ [] }
    ensures runtime_left { slot_of given runtime ≡ None }
    ensures first_left { slot_of given (extension (id 21) true true) ≡ None }
    ensures second_stays { slot_of given (extension (id 22) false true) ≡ Some 3 }
    ensures busy { phase_of 0 given ≡ busy }
    ensures runtime_asks_early { refusal_of 0 given (RuntimeNext 4) ≡ Some Refusal.WrongPhase }
    ensures extension_asks_early { refusal_of 0 given (ExtensionNext (id 21) 4) ≡ None }
    ensures answers_none { answered_by given (Answer (id 1)) ≡ [] }
    ensures runtime_asks { is_ready 0 (answered ++ RuntimeNext 4 ∷ []) ≡ false }
    ensures still_busy { phase_of 0 (answered ++ RuntimeNext 4 ∷ []) ≡ busy }
    ensures first_asks { is_ready 0 asked_again ≡ true }
    ensures ready_again { answered_by asked_again (Give (id 2) 9000) ≡ event_on 4 (id 2) 9000 ∷ invoke_on 5 (id 2) 9000 ∷ [] }
    ensures closed { refusal_of 0 given (joins 23) ≡ Some Refusal.RegistrationClosed }
    ensures closed_when_ready { refusal_of 0 all_asked (joins 23) ≡ Some Refusal.RegistrationClosed }
{}

/// An environment that waits for one extension, which comes after the runtime: until it has asked, it stays in Init.
pub fn one_is_waited_for()
    ensures runtime_first { phase_of 1 (RuntimeNext 1 ∷ []) ≡ init }
    ensures not_given { refusal_of 1 (RuntimeNext 1 ∷ []) (Give (id 1) 4000) ≡ Some Refusal.WrongPhase }
    ensures may_register { refusal_of 1 (RuntimeNext 1 ∷ []) (joins 21) ≡ None }
    ensures has_not_asked { phase_of 1 (RuntimeNext 1 ∷ joins 21 ∷ []) ≡ init }
    ensures a_second_may { refusal_of 1 (RuntimeNext 1 ∷ joins 21 ∷ []) (joins 22) ≡ None }
    ensures then_both_ask { phase_of 1 (RuntimeNext 1 ∷ joins 21 ∷ joins 22 ∷ ExtensionNext (id 21) 2 ∷ []) ≡ init }
    ensures has_asked { phase_of 1 one_came_late ≡ ready }
    ensures closed { refusal_of 1 one_came_late (joins 22) ≡ Some Refusal.RegistrationClosed }
    ensures two_polls { answered_by one_came_late (Give (id 1) 4000) ≡ event_on 1 (id 1) 4000 ∷ invoke_on 2 (id 1) 4000 ∷ [] }
    ensures works { phase_of 1 late_given ≡ busy }
    ensures done { phase_of 1 (late_given ++ Answer (id 1) ∷ RuntimeNext 4 ∷ []) ≡ busy }
    ensures ready_again { phase_of 1 (late_given ++ Answer (id 1) ∷ RuntimeNext 4 ∷ ExtensionNext (id 21) 5 ∷ []) ≡ ready }
    ensures anew { phase_of 1 (late_given ++ Timeout 4000 ∷ RuntimeNext 4 ∷ []) ≡ init }
    ensures may_register_anew { refusal_of 1 (late_given ++ Timeout 4000 ∷ RuntimeNext 4 ∷ []) (joins 22) ≡ None }
    ensures asked_anew { phase_of 1 (late_given ++ Timeout 4000 ∷ RuntimeNext 4 ∷ joins 22 ∷ ExtensionNext (id 22) 5 ∷ []) ≡ ready }
    ensures of_two { phase_of 2 one_came_late ≡ init }
    ensures the_second { phase_of 2 (one_came_late ++ joins 22 ∷ ExtensionNext (id 22) 3 ∷ []) ≡ ready }
    ensures of_none { phase_of 0 (RuntimeNext 1 ∷ []) ≡ ready }
    ensures of_none_closed { refusal_of 0 (RuntimeNext 1 ∷ []) (joins 21) ≡ Some Refusal.RegistrationClosed }
{}

/// Registrations, and polls that a newer one replaces.
pub fn registrations()
    ensures eleventh { refusal_of 0 ten_register (joins 31) ≡ Some Refusal.TooManyExtensions }
    ensures eleventh_again { refusal_of 0 ten_register (joins 21) ≡ Some Refusal.TooManyExtensions }
    ensures error { refusal_of 0 ten_register (InitError 1000) ≡ None }
    ensures anew { refusal_of 0 (ten_register ++ InitError 1000 ∷ []) (joins 31) ≡ None }
    ensures alone { registered (ten_register ++ InitError 1000 ∷ joins 31 ∷ []) ≡ extension (id 31) true true ∷ [] }
    ensures twice { refusal_of 0 (joins 21 ∷ []) (joins 21) ≡ Some Refusal.InUse }
    ensures after_the_runtime { refusal_of 0 (RuntimeNext 1 ∷ []) (joins 21) ≡ Some Refusal.RegistrationClosed }
    ensures unknown { refusal_of 0 (joins 21 ∷ []) (ExtensionNext (id 22) 1) ≡ Some Refusal.UnknownExtension }
    ensures void { refusal_of 0 (joins 21 ∷ InitError 1000 ∷ []) (ExtensionNext (id 21) 1) ≡ Some Refusal.UnknownExtension }
    ensures runtime_replaced { answered_by (joins 21 ∷ RuntimeNext 1 ∷ []) (RuntimeNext 2) ≡ replaced_on 1 ∷ [] }
    ensures newer_stays { slot_of (joins 21 ∷ RuntimeNext 1 ∷ RuntimeNext 2 ∷ []) runtime ≡ Some 2 }
    ensures extension_replaced { answered_by first_asked (ExtensionNext (id 21) 3) ≡ replaced_on 2 ∷ [] }
    ensures replaced_when_ready { is_ready 0 (joins 21 ∷ RuntimeNext 1 ∷ ExtensionNext (id 21) 2 ∷ ExtensionNext (id 21) 3 ∷ []) ≡ true }
{}

/// Errors, timeouts and the shutdown: who is told what, and what is left.
pub fn ends()
    ensures error_in_init { answered_by two_asked (ExtensionError (id 22) true 1000) ≡ reset_on 1 ∷ end_on 2 Reason.Failure 3000 ∷ [] }
    ensures runtime_error { answered_by two_asked (InitError 1000) ≡ reset_on 1 ∷ end_on 2 Reason.Failure 3000 ∷ [] }
    ensures init_again { phase_of 0 (two_asked ++ InitError 1000 ∷ []) ≡ init }
    ensures nobody_left { registered (two_asked ++ InitError 1000 ∷ []) ≡ [] }
    ensures no_error_when_ready { refusal_of 0 all_asked (InitError 1000) ≡ Some Refusal.WrongPhase }
    ensures no_extension_error_when_ready { refusal_of 0 all_asked (ExtensionError (id 21) true 1000) ≡ Some Refusal.WrongPhase }
    ensures exit_of_another { refusal_of 0 given (ExtensionError (id 23) false 1000) ≡ Some Refusal.UnknownExtension }
    ensures exit_when_busy { refusal_of 0 given (ExtensionError (id 21) false 1000) ≡ None }
    ensures exit_tells { answered_by given (ExtensionError (id 21) false 1000) ≡ end_on 3 Reason.Failure 3000 ∷ [] }
    ensures exit_leaves { phase_of 0 (given ++ ExtensionError (id 21) false 1000 ∷ []) ≡ init }
    ensures exit_ends_the_event { unanswered (given ++ ExtensionError (id 21) false 1000 ∷ []) ≡ None }
    ensures timeout_tells { answered_by given (Timeout 4000) ≡ end_on 3 Reason.Timeout 6000 ∷ [] }
    ensures timeout_leaves { phase_of 0 (given ++ Timeout 4000 ∷ []) ≡ init }
    ensures no_timeout { refusal_of 0 answered (Timeout 4000) ≡ Some Refusal.WrongPhase }
    ensures era_begins { era (given ++ Timeout 4000 ∷ RuntimeNext 4 ∷ []) ≡ RuntimeNext 4 ∷ [] }
    ensures shutdown_tells { answered_by all_asked (Shutdown 1000) ≡ reset_on 1 ∷ spindown_on 2 3000 ∷ spindown_on 3 3000 ∷ [] }
    ensures closes { phase_of 0 (all_asked ++ Shutdown 1000 ∷ []) ≡ closing }
    ensures not_ready { is_ready 0 (all_asked ++ Shutdown 1000 ∷ []) ≡ false }
    ensures no_poll { refusal_of 0 (all_asked ++ Shutdown 1000 ∷ []) (RuntimeNext 4) ≡ Some Refusal.WrongPhase }
    ensures no_registration { refusal_of 0 (all_asked ++ Shutdown 1000 ∷ []) (joins 23) ≡ Some Refusal.RegistrationClosed }
    ensures no_answer { refusal_of 0 (given ++ Shutdown 1000 ∷ []) (Answer (id 1)) ≡ Some Refusal.WrongPhase }
    ensures nobody_known { refusal_of 0 (all_asked ++ Shutdown 1000 ∷ []) (ExtensionNext (id 21) 4) ≡ Some Refusal.UnknownExtension }
    ensures again { refusal_of 0 (all_asked ++ Shutdown 1000 ∷ []) (Shutdown 2000) ≡ None }
    ensures nobody_waits { answered_by (all_asked ++ Shutdown 1000 ∷ []) (Shutdown 2000) ≡ [] }
{}
