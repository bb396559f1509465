// What shows that a hall is broken.
ghost use Rattle.std.specs.Prelude.{◌≡◌, true, IfSome, is_some};
ghost use Rattle.receipts.specs.Locked.{issuer_in};

use broker_core::IssueHalf;
use hall_core::Hall;
use std::snapshot::Snapshot as Seen;

/// That a hall is broken: its device failed, so that nothing more becomes durable. Only a commit or an advance of an office makes one,
/// of the hall under its lock, which proofs see in it.
#[derive(Drop)]
pub struct BrokenHall {
    hall: Seen<Hall<IssueHalf>>,
    // claim: A commit or an advance that tells `Fault` or `Broken` shows the broken hall that its last step left. [: broken;
    // Office::commit: broken, left; Office::advance: broken, left]
    ghost broken: { (issuer_in hall.value).broken ≡ true },
}

impl BrokenHall {
    /// Of this hall, where it is broken.
    pub(crate) fn of(hall: &Hall<IssueHalf>) -> Option<BrokenHall>
        ensures is { is_some result ≡ (issuer_in hall.now).broken }
        ensures hall { IfSome result (λ broken. broken.hall.value ≡ hall.now) }
    {
        if hall.is_broken() {
            Some(BrokenHall {
                hall: Seen::of(hall),
            })
        } else {
            None
        }
    }
}
