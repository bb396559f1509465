// What larger limits leave as it was, as contracts of functions that do nothing.
ghost use Rattle.std.specs.Prelude.{◌≡◌, true, List};
ghost use Rattle.retry_rules.specs.declared.settings.Settings.{Settings};
ghost use Rattle.invoke_records.specs.declared.command.Command.{Command};
ghost use Rattle.invoke_records.specs.declared.snapshot.Snapshot.{Snapshot};
ghost use Rattle.async_core.specs.History.{IsLegal, table_of};
ghost use Rattle.checkpoint.specs.Live.{may_stand};
ghost use Rattle.disk_copy.specs.Limits.{AllowsAll};

/// A history that is legal under settings is legal under those that allow all that they do, and it stands for the same
/// table. It does nothing.
pub fn larger_limits_keep_histories()
    // claim: A history legal under settings is so, with the same table, under those that allow all that they do. A table that
    // may stand on a disk under the first may under the second. [larger_limits_keep_tables]
    ensures legal { (old new : Settings) (history : List Command) → AllowsAll old new → IsLegal old history → IsLegal new history }
    ensures table { (old new : Settings) (history : List Command) → AllowsAll old new → table_of new history ≡ table_of old history }
{}

/// A table that settings let stand on a disk may stand under those that allow all that they do: to write it there is
/// never refused as a bad one. It does nothing.
pub fn larger_limits_keep_tables()
    ensures { (old new : Settings) (table : Snapshot) → AllowsAll old new → may_stand old table ≡ true → may_stand new table ≡ true }
{}
