// What a reader of an area may rely on.
ghost use Rattle.std.specs.Prelude.{ℕ, List};
ghost use Rattle.invoke_records.specs.declared.command.Command.{Command};
ghost use Rattle.gate_journal.specs.Frames.{Frames};
ghost use Rattle.gate_journal.specs.Written.{IsReadBack, IsWrittenSo};

/// What is read of an area is exactly what was written there: each command of each batch, in order, behind the sector of
/// its frame's gate. And bytes that are read are spelled so. It does nothing.
pub fn what_is_read_is_what_was_written()
    // claim: What the bytes hold is just what was written: the same batches in order.
    ensures read { (generation number gate sectors : ℕ) (batches : List (List Command)) (bytes : List ℕ)
        → IsReadBack generation number gate sectors batches bytes }
    ensures written { (generation number gate sectors : ℕ) (bytes : List ℕ) (frames : Frames)
        → IsWrittenSo generation number gate sectors bytes frames }
{}
