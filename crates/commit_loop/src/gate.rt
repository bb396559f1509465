// What a loop does next.
ghost use Rattle.std.specs.Prelude.{◌≡◌, ℕ, nat_lt, if◌then◌else◌};
ghost use Rattle.commit_loop.specs.declared.gate.Turn.{Turn};
ghost use Rattle.commit_loop.specs.declared.gate.Turn.TheVariants as turn;

/// What a loop does next.
#[derive(Clone, Copy)]
pub enum Turn {
    /// The committer commits; the ticker makes all moves that are due.
    Commit,
    /// Nothing, until the next turn.
    Skip,
    /// The loop ends.
    End,
}

/// Is asked at each turn of a loop.
pub trait Gate {
    /// What it saw, beside what is pending.
    type Seen: Drop;

    /// With so many commands pending it may say this.
    ghost says: { Self → ℕ → Turn → Type 0 } = { λ _ _ _. Unit {0} };

    /// What it saw leads to this.
    ghost leads_to: { Self.Seen → Turn → Type 0 } = { λ _ _. Unit {0} };

    /// What the loop does next, with so many commands issued and not durable.
    fn turn(&self, pending: usize) -> (Turn, Self::Seen)
        // claim: What a gate saw leads to what it says. `WhenPending` says `Commit` exactly where something is pending, and
        // what it saw never leads to `End`. [: says, seen; WhenPending: says, leads_to]
        ensures says { says self.now pending result.0 }
        ensures seen { leads_to result.1 result.0 };
}

/// Commits whatever is pending.
#[derive(Clone, Copy)]
pub struct WhenPending;

impl Gate for WhenPending {
    type Seen = ();

    ghost says = { λ _ pending said. said ≡ (if nat_lt 0 pending then turn.Commit else turn.Skip) };

    ghost leads_to = { λ _ said. said ≡ turn.End → ⊥ };

    fn turn(&self, pending: usize) -> (Turn, ()) {
        if pending > 0 {
            (Turn::Commit, ())
        } else {
            (Turn::Skip, ())
        }
    }
}
