// What follows from the definitions alone, for the crates above.
ghost use Rattle.std.specs.Prelude.{ℕ, ◌≤◌};
ghost use Rattle.invoke_records.specs.declared.command.Command.{Command};
ghost use Rattle.async_core.specs.NextMoment.{WaitsASecond};
ghost use Rattle.async_core.specs.Rules.{standing_next};
ghost use Rattle.async_core.specs.Standings.{Rules};

/// Who looks for moves once a second is late for no attempt that a command brought, and for no timeout: an event that is accepted
/// is due at once, and any other wait and each attempt take a second or more. The age of an event that is to wait may end sooner.
pub fn a_wait_takes_a_second()
    ensures { (rules : Rules) (command : Command) (failures push_backs : ℕ) → 1 ≤ rules.timeout
        → WaitsASecond command.time (standing_next rules command command.kind failures push_backs) }
{}
