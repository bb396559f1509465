// What a reader of a disk may rely on.
ghost use Rattle.std.specs.Prelude.{ℕ, List};
ghost use Rattle.retry_rules.specs.declared.settings.Settings.{Settings};
ghost use Rattle.invoke_records.specs.declared.snapshot.Snapshot.{Snapshot};
ghost use Rattle.checkpoint.specs.Held.{IsRecoveredAsWritten};

/// What an image recovers to is exactly what a switch wrote there: a segment behind its open gate, beside one that is
/// closed, or older and read whole, on either side of the disk. It does nothing.
pub fn what_is_recovered_is_what_was_written()
    // claim: A segment that a switch wrote, behind an open gate and beside a closed one, or an older one that reads whole,
    // recovers to its snapshot.
    ensures { (generation : ℕ) (settings : Settings) (snapshot : Snapshot) (base other : ℕ) (image : List ℕ)
        → IsRecoveredAsWritten generation settings snapshot base other image }
{}
