// Whether a request is one that the hall can be asked.
ghost use Rattle.std.specs.Prelude.{◌≡◌, IsTrue, false};
ghost use Rattle.hall_plans.specs.Plans.{IsToOneOf};
ghost use Rattle.hall_plans.specs.Agreement.{IsFit};
ghost use Rattle.hall_core.specs.Hall.{view_of, settings_in, is_slot_open, request, CanBeAsked};

use crate::hall::Hall;
use api_core::Call;
use broker_core::Issuer;
use hall_plans::fits;

impl<I: Issuer> Hall<I> {
    /// Whether `arrive` can be asked this now: the slot is not open, the environment is there, the text of an answer is
    /// within the settings' limit, and the moment is at most the end of the year 9999.
    pub fn fits(&self, slot: u64, call: &Call, now: u64, words: &[u64; 2]) -> bool
        ensures free { IsTrue result → is_slot_open (view_of I.view self.now) slot ≡ false }
        ensures environment { IsTrue result → IsToOneOf self.now.environments call.now }
        ensures fit { IsTrue result → IsFit (settings_in (view_of I.view self.now)) (request slot call.now now words.now) }
        ensures all { CanBeAsked (view_of I.view self.now) slot call.now now words.now → IsTrue result }
    {
        let _ = words;
        let settings = self.issuer.table().settings();
        !self.is_open(slot) && fits(&self.environments, settings, call, now)
    }
}
