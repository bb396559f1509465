// Who watches a claim: looks at it, and what they show.
ghost use Rattle.std.specs.Prelude.{◌≡◌, IfOk, IfSome, OnOk};
ghost use Rattle.disk_claim.specs.Volume.{IsSameVolume};
ghost use Rattle.disk_claim.specs.Watching.{SeesOwn, Shows, IsSameWatch, KeepsNothing};

use crate::looking::look_at;
use crate::settled::Settled;
use crate::{Holding, SharedHolding, Token, Volume};
use sector_disk::Fault;
use std::snapshot::Snapshot as Seen;

/// That a claim was looked at behind a barrier of a disk, and that the own token stood there. Only such a look gives it. Proofs see in
/// it which disk, as the barrier left it.
#[derive(Drop)]
pub(crate) struct Looked<D> {
    behind: Seen<D>,
}

/// Who watches a claim.
#[derive(Drop)]
pub struct Watch<V: Volume> {
    volume: V,
    own: Token,
    holding: SharedHolding,
}

impl<V: Volume> Watch<V> {
    /// Watches the claim of a volume, in which this token stands.
    pub fn new(volume: V, own: Token, holding: SharedHolding) -> Watch<V>
        ensures volume { result.volume ≡ volume }
        ensures own { result.own ≡ own }
    {
        Watch {
            volume,
            own,
            holding,
        }
    }

    /// The own token.
    pub(crate) fn own(&self) -> Token
        ensures { result ≡ self.now.own }
    {
        self.own
    }

    /// Who stands in the claim, whoever holds it.
    pub(crate) fn peek(&mut self) -> Result<Token, Fault>
        ensures same { IsSameWatch V.view self.old self.new }
        ensures shows { IfOk result (Shows V.view self.old self.new) }
    {
        look_at(&mut self.volume)
    }

    /// Has each read of the volume that follows ask the device.
    pub(crate) fn forget_all(&mut self) -> Result<(), Fault>
        ensures same { IsSameWatch V.view self.old self.new }
        ensures forgets { OnOk result (KeepsNothing V.view self.old self.new) }
    {
        self.volume.forget_all()
    }

    /// Looks at the claim. What a look has lost stays so, and then the volume is not asked.
    pub fn look(&mut self) -> Holding
        ensures same { IsSameWatch V.view self.old self.new }
        // claim: The claim is told to be held only where the own token stands on the device at that moment. [: held]
        ensures held { SeesOwn V.view self.old self.new result }
    {
        match self.holding.get() {
            Holding::Held => {}
            lost => return lost,
        }
        let found = match look_at(&mut self.volume) {
            Ok(token) if token == self.own => Holding::Held,
            Ok(_) => Holding::Taken,
            Err(_) => Holding::Unread,
        };
        self.holding.lose(found);
        found
    }

    /// Looks at the claim behind a barrier.
    pub(crate) fn look_behind<D>(&mut self, settled: Settled<D>) -> Option<Looked<D>>
        ensures same { IsSameWatch V.view self.old self.new }
        ensures behind { IfSome result (λ looked. looked.behind.value ≡ settled.at.value) }
        ensures held { IfSome result (λ looked. SeesOwn V.view self.old self.new Holding.Held) }
    {
        let behind = settled.into_disk();
        match self.look() {
            Holding::Held => Some(Looked { behind }),
            _ => None,
        }
    }

    /// What looks have shown.
    pub fn holding(&self) -> &SharedHolding
        ensures { result.now ≡ self.now.holding }
    {
        &self.holding
    }
}
