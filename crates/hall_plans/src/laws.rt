// What follows from the definitions alone, for readers and for the crates above.
ghost use Rattle.std.specs.Prelude.{◌≡◌, ◌++◌, ℕ, List, false, None, Some, Option};
ghost use Rattle.retry_rules.specs.declared.settings.Settings.{Settings};
ghost use Rattle.invoke_records.specs.declared.command.Command.{Command};
ghost use Rattle.async_core.specs.declared.choice.Move.{Move};
ghost use Rattle.async_core.specs.Choice.{IsFree};
ghost use Rattle.async_core.specs.History.{IsLegal};
ghost use Rattle.env_phase.specs.declared.call.EnvCall.{EnvCall};
ghost use Rattle.hall_plans.specs.Firsts.{Event, first_unheld};
ghost use Rattle.hall_plans.specs.Past.{HallCall, Past, opening, ready_in, is_stopping};
ghost use Rattle.hall_plans.specs.Effects.{Scene, command_of};
ghost use Rattle.hall_plans.specs.Run.{option_list, past_after, after, past_of};
ghost use Rattle.hall_plans.specs.Slots.{point_of};
ghost use Rattle.hall_plans.specs.Agreement.{IsSound, AllAgree, IsKept, IsUnheld};
ghost use Rattle.hall_plans.specs.Promises.{TableAnswers, next_command, comes_with, ReplyStays, LeavesAlone, RunsInOne, AllRunSomewhere};
ghost use Rattle.hall_plans.specs.Promises.{IsMade, AreMade, IsRunFrom, move_command, CommandIsLegal, CallIsAccepted};
ghost use Rattle.hall_plans.specs.Promises.{NoneUnheld, InterruptsFirst, InterruptsUnheld, LeavesNone};

/// Where nothing has to be interrupted, a tick's command is that of the move that the table answers.
pub fn the_table_answers_the_move()
    ensures { (x : Scene) (ready : Option ℕ) (move : Option Move) → TableAnswers x ready move
        → next_command x ready ≡ move_command x move }
{}

/// A run goes on from where another left, and a call adds its command to the history, if it has one, and no other, and keeps
/// for how many extensions the environments wait.
#[tactic(auto, using(crate::specs::laws::Adding::runs_join, crate::specs::laws::Adding::history_grows, crate::specs::laws::Adding::wanted_stays))]
pub fn runs()
    ensures join { (s : Settings) (past : Past) (run later : List HallCall)
        → after s past (run ++ later) ≡ after s (after s past run) later }
    ensures grow { (s : Settings) (past : Past) (call : HallCall)
        → (past_after s past call).history ≡ past.history ++ option_list (command_of s past call) }
    // claim: Every call keeps for how many extensions the environments wait.
    ensures wait { (s : Settings) (past : Past) (call : HallCall) → (past_after s past call).wanted ≡ past.wanted }
{}

/// A reply that was computed stays, whatever is called then, until another request comes with its slot.
pub fn replies()
    // claim: A reply that was computed stays until another request comes with its slot.
    ensures { (s : Settings) (past : Past) (call : HallCall) (slot : ℕ) → comes_with slot call ≡ false → ReplyStays s past call slot }
{}

/// What a slot's reply waits for changes only by a call that names the slot, or that answers the poll that came with it.
pub fn points()
    // claim: Only a call that names a slot, or answers its poll, changes the slot's point.
    ensures { (s : Settings) (past : Past) (call : HallCall) (slot : ℕ) → LeavesAlone s past call slot
        → point_of (past_after s past call) slot ≡ point_of past slot }
{}

/// An event runs in one environment at most.
pub fn an_event_runs_in_one_environment()
    ensures { (s : Settings) (wanted : ℕ) (h : List Command) (calls : ℕ → List EnvCall) → AllAgree s wanted h calls → RunsInOne calls }
{}

/// Every run is sound that begins on a legal history: the history is legal after it, each environment accepted its
/// calls, and what an environment runs runs there by the history. It holds with the facts that an induction needs, at
/// the opening and after each call.
pub fn every_run_is_sound()
    // claim: After every run on a legal history the history is legal, each environment accepted its calls, and what it
    // runs runs there by the history. [: opened, step, kept, sound; what_a_call_does_is_accepted: command, environment]
    ensures opened { (s : Settings) (wanted : ℕ) (history : List Command) → IsLegal s history → IsKept s (opening wanted history) }
    ensures step { (s : Settings) (past : Past) (call : HallCall) → IsMade s past call → IsKept s (past_after s past call) }
    ensures kept { (s : Settings) (past : Past) (run : List HallCall) → AreMade s past run → IsKept s (after s past run) }
    ensures sound { (s : Settings) (wanted : ℕ) (opened : List Command) (run : List HallCall) → IsRunFrom s wanted opened run
        → IsSound s (past_of s wanted opened run) }
{}

/// What a call does is accepted: its command is legal, and the environment that it calls accepts that call.
pub fn what_a_call_does_is_accepted()
    ensures command { (s : Settings) (past : Past) (call : HallCall) → IsMade s past call → CommandIsLegal s past call }
    ensures environment { (s : Settings) (past : Past) (call : HallCall) → IsMade s past call → CallIsAccepted s past call }
{}

/// Interrupts are for exactly the events that run by the history and that no environment holds: a tick interrupts the
/// first of them, where it interrupts none there is none, and then what runs by the history runs in an environment, and
/// the environment that is ready, if one is, runs nothing by the history, as the table asks of it.
pub fn interrupts()
    // claim: An Interrupt is only for an event that runs by the history and in no environment. Unless the hall stops, a
    // tick interrupts the first. No call makes another such event. [: first, tick, no_other, none, then_all_run;
    // nothing_is_left_behind: step, run]
    ensures first { (s : Settings) (past : Past) (event : Event) → first_unheld s past ≡ Some event → IsUnheld s past event.1 }
    ensures tick { (s : Settings) (past : Past) (now : ℕ) → is_stopping past ≡ false → InterruptsFirst s past now }
    ensures no_other { (s : Settings) (past : Past) (call : HallCall) → IsMade s past call → InterruptsUnheld s past call }
    ensures none { (s : Settings) (past : Past) (id : List ℕ) → IsLegal s past.history → first_unheld s past ≡ None → ¬ IsUnheld s past id }
    ensures then_all_run { (s : Settings) (past : Past) → NoneUnheld s past → AllRunSomewhere s past }
    ensures then_free { (s : Settings) (past : Past) → NoneUnheld s past → IsFree s past.history (ready_in s past) }
{}

/// No call leaves an event behind that runs by the history and that no environment holds: what is so after a run was so
/// at its opening.
pub fn nothing_is_left_behind()
    ensures step { (s : Settings) (past : Past) (call : HallCall) → IsMade s past call → LeavesNone s past (past_after s past call) }
    ensures run { (s : Settings) (past : Past) (run : List HallCall) → AreMade s past run → LeavesNone s past (after s past run) }
{}
