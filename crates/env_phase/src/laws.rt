// What follows from the definitions alone, for readers and for the crates above.
ghost use Rattle.std.specs.Prelude.{◌≡◌, ◌<◌, ◌≤◌, ◌+◌, ◌++◌, ◌&&◌, ◌||◌, [], ◌∷◌, ℕ, List, Bool, length, cond, true, false, None, Some, is_none};
ghost use Rattle.std.specs.List.{list_all};
ghost use Rattle.std.specs.Option.{option_or};
ghost use Rattle.env_phase.specs.declared.call.Party.{Party};
ghost use Rattle.env_phase.specs.declared.call.EnvCall.{EnvCall};
ghost use Rattle.env_phase.specs.declared.call.EnvCall.TheVariants.{Register, Answer, Timeout};
ghost use Rattle.env_phase.specs.Calls.{is_reset, clears, registration, is_known, releases, slot_by, ends_event, given_by};
ghost use Rattle.env_phase.specs.Environment.{init, busy, phase_of, era, registered, parties, is_parked, slot_of, unanswered, is_met, was_met, is_ready, IsReady};
ghost use Rattle.env_phase.specs.Polls.{IsLegal, RunsOpen, IsWaiting, refusal_of};
ghost use Rattle.env_phase.specs.Slots.{polled, times_answered, waiting};
ghost use Rattle.env_phase.specs.laws.Calls.{more};

/// Each poll that came on a slot was answered once or waits: none is answered twice, and none is lost.
#[tactic(auto, using(crate::specs::laws::Slots::each_poll_is_answered_once_or_waits))]
pub fn each_poll_is_answered_once_or_waits()
    // claim: Of each slot as many polls came as were answered or wait: none is answered too often, none lost.
    ensures { (wanted : ℕ) (calls : List EnvCall) → IsLegal wanted calls → (slot : ℕ)
        → polled slot calls ≡ times_answered slot calls + waiting slot calls }
{}

/// In an environment that is ready nothing runs, as many extensions are registered as it waits for, and the runtime and each
/// of them wait.
#[tactic(auto, using(crate::specs::laws::Running::ready_runs_nothing, crate::specs::laws::Running::ready_all_wait, crate::specs::laws::Waiting::ready_enough))]
pub fn all_wait_where_one_is_ready()
    // claim: A ready environment runs nothing, has no fewer extensions than it waits for, and all its parties wait.
    ensures runs_nothing { (wanted : ℕ) (calls : List EnvCall) → IsReady wanted calls → unanswered calls ≡ None }
    ensures enough { (wanted : ℕ) (calls : List EnvCall) → IsReady wanted calls → wanted ≤ length (registered calls) }
    ensures all_wait { (wanted : ℕ) (calls : List EnvCall) → IsReady wanted calls
        → list_all (is_parked calls) (parties calls) ≡ true }
{}

/// While fewer extensions are registered than it waits for, an environment is in Init, and an extension may register. One
/// that waits for none is met where nothing is unanswered and all parties wait, and one that waits for more than may register
/// is never ready.
#[tactic(auto, using(crate::specs::laws::Waiting::waiting_is_in_init, crate::specs::laws::Waiting::waiting_registers, crate::specs::laws::Waiting::is_met_zero, crate::specs::laws::Waiting::more_are_never_ready,))]
pub fn it_waits_for_its_extensions()
    // claim: With fewer it is in Init until it is shut down. Waiting for ten at most, it registers whoever is not; for more, it
    // is never ready. [: in_init, open, for_too_many]
    ensures in_init { (wanted : ℕ) (calls : List EnvCall) → IsWaiting wanted calls → phase_of wanted calls ≡ init }
    ensures open { (wanted : ℕ) (calls : List EnvCall) (identifier : List ℕ) (events end : Bool) → IsWaiting wanted calls → wanted ≤ 10
        → is_known identifier (registered calls) ≡ false → refusal_of wanted calls (Register identifier events end) ≡ None }
    ensures for_none { (calls : List EnvCall)
        → is_met 0 calls ≡ (is_none (unanswered calls) && list_all (is_parked calls) (parties calls)) }
    ensures for_too_many { (wanted : ℕ) (calls : List EnvCall) → IsLegal wanted calls → 10 < wanted → is_ready wanted calls ≡ false }
{}

/// While an event runs, an environment that is not shut down is busy, and accepts the answer to that event, and its
/// timeout.
#[tactic(auto, using(crate::specs::laws::Running::busy_while_running, crate::specs::laws::Running::answer_is_accepted, crate::specs::laws::Running::timeout_is_accepted,))]
pub fn busy_while_an_event_runs()
    // claim: While an event runs, its answer and its timeout are accepted, unless it was shut down.
    ensures is_busy { (wanted : ℕ) (calls : List EnvCall) (id : List ℕ) → RunsOpen wanted calls id → phase_of wanted calls ≡ busy }
    ensures takes_the_answer { (wanted : ℕ) (calls : List EnvCall) (id : List ℕ) → RunsOpen wanted calls id
        → refusal_of wanted calls (Answer id) ≡ None }
    ensures times_out { (wanted : ℕ) (calls : List EnvCall) (id : List ℕ) (now : ℕ) → RunsOpen wanted calls id
        → refusal_of wanted calls (Timeout now) ≡ None }
{}

/// What each definition says after one call more, by what it said before, and that the era alone decides what is met.
#[tactic(auto, using(crate::specs::laws::Calls::registered_snoc, crate::specs::laws::Calls::slot_of_snoc, crate::specs::laws::Calls::unanswered_snoc, crate::specs::laws::Eras::was_met_snoc, crate::specs::laws::Eras::is_met_era,))]
pub fn what_one_call_changes()
    ensures registrations { (calls : List EnvCall) (c : EnvCall)
        → registered (calls ++ c ∷ []) ≡ cond (clears c) [] (registered calls ++ more (registration c)) }
    ensures polls { (calls : List EnvCall) (c : EnvCall) (party : Party)
        → slot_of (calls ++ c ∷ []) party ≡ cond (releases party c) None (option_or (slot_by party.identifier c) (slot_of calls party)) }
    ensures events { (calls : List EnvCall) (c : EnvCall)
        → unanswered (calls ++ c ∷ []) ≡ cond (ends_event c) None (option_or (given_by c) (unanswered calls)) }
    ensures eras { (wanted : ℕ) (calls : List EnvCall) (c : EnvCall)
        → was_met wanted (calls ++ c ∷ []) ≡ cond (is_reset c) false (was_met wanted calls || is_met wanted (era calls ++ c ∷ [])) }
    ensures by_the_era { (wanted : ℕ) (calls : List EnvCall) → is_met wanted (era calls) ≡ is_met wanted calls }
{}
