// Laws of the spellings, as contracts of functions that do nothing.
ghost use Rattle.std.specs.Prelude.{◌≡◌, ◌+◌, ◌≤◌, length};
ghost use Rattle.retry_rules.specs.declared.settings.Settings.{Settings};
ghost use Rattle.invoke_records.specs.declared.command.Command.{Command};
ghost use Rattle.invoke_records.specs.declared.row.EventRow.{EventRow};
ghost use Rattle.invoke_records.specs.Spelling.{command_text, IsCommand, settings_text, row_text, answer_bytes, IsRow, snapshot_text, IsSnapshot};
ghost use Rattle.invoke_records.specs.Records.{AreApart, AreSettings, HasCommandLength};

/// No spelling of a record begins another, and each is the spelling of one value.
pub fn spellings_are_apart()
    // claim: No spelling is the beginning of another one of its kind.
    ensures commands { AreApart IsCommand command_text }
    ensures settings { AreApart AreSettings settings_text }
    ensures rows { AreApart IsRow row_text }
    ensures snapshots { AreApart IsSnapshot snapshot_text }
{}

/// How long the spellings are.
pub fn spellings_are_short()
    ensures commands { (c : Command) → IsCommand c → HasCommandLength c }
    ensures settings { (s : Settings) → AreSettings s → length (settings_text s) ≤ 414 }
    ensures rows { (r : EventRow) → IsRow r → length (row_text r) ≡ 78 + length r.payload + length (answer_bytes r.answer) }
{}
