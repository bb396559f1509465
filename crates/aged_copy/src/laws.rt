// What a longer age leaves as it was, as the contract of a function that does nothing.
ghost use Rattle.std.specs.Prelude.{◌≡◌, ℕ, None, false, List};
ghost use Rattle.retry_rules.specs.Settings.{bad_field, is_outside};
ghost use Rattle.retry_rules.specs.declared.settings.Settings.{Settings};
ghost use Rattle.invoke_records.specs.declared.command.Command.{Command};
ghost use Rattle.async_core.specs.History.{IsLegal, table_of};
ghost use Rattle.aged_copy.specs.Aging.{aged};

/// A table whose events that have not ended get a longer age stands for a history, as it did before. It does nothing.
pub fn a_longer_age_goes_on()
    // claim: What a legal history leaves, with a longer age for each event that has not ended, is left by a legal history too.
    ensures { (s : Settings) (age : ℕ) (history : List Command) → bad_field s ≡ None → is_outside 60 21600 age ≡ false → IsLegal s history
        → (other : List Command) × IsLegal s other × (table_of s other ≡ aged age (table_of s history)) }
{}
