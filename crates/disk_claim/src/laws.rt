// What holds of two that serve one volume, as contracts of functions that do nothing.
ghost use Rattle.std.specs.Prelude.{ℕ, List};
ghost use Rattle.disk_claim.specs.Takeover.{Step, IsTakeover, AllReadsHave, replied_in};

/// What the first one replied to is in what the newcomer read, in whichever order their steps came, where the newcomer claims before it
/// reads, and the first one looks at the claim behind its last barrier and before it replies. It does nothing.
///
/// It supposes that what a step writes is durable, and that reads and writes of the volume give what was written last. Of what the
/// first one writes late it says nothing: that may harm what the newcomer writes.
#[tactic(auto, using(crate::proofs::Takeover::takeover_loses_nothing))]
pub fn a_takeover_loses_nothing()
    // claim: Let a newcomer claim with another token before it reads, and the first one see its own between write and
    // reply and claim no more behind the newcomer. Then, on a volume that gives what was written last, each read of the
    // newcomer has all that the first one replies to.
    ensures { (own new : ℕ) (steps : List Step) → IsTakeover own new steps → AllReadsHave (replied_in steps) steps }
{}
