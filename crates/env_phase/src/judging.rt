// Why a call is refused: the first check that fails.
ghost use Rattle.std.specs.Prelude.{◌≡◌, ◌∷◌, [], Some, None, not, length, map, nat_le, if◌then◌else◌};
ghost use Rattle.std.specs.List.{list_any};
ghost use Rattle.env_phase.specs.declared.refusal.Refusal.TheVariants as refusal;
ghost use Rattle.env_phase.specs.Calls as meant;
ghost use Rattle.env_phase.specs.Polls.{first_failed, refusal_of};
ghost use Rattle.env_phase.specs.State.{ForEachList};
ghost use Rattle.env_phase.specs.Steps as step;

use crate::call::{EnvCall, Waiter};
use crate::env::Env;
use crate::refusal::Refusal;
use crate::steps::has_identifier;

/// How many extensions an environment registers at most. One that waits for more is never ready.
pub const MOST_EXTENSIONS: usize = 10;

fn wrong_phase(is_wrong: bool) -> Option<Refusal>
    ensures { result ≡ step.wrong_phase is_wrong }
{
    if is_wrong {
        Some(Refusal::WrongPhase)
    } else {
        None
    }
}

fn any_has(identifier: &[u8; 16], extensions: &[Waiter]) -> bool
    ensures { result ≡ list_any (step.has_party identifier.now) extensions.now }
{
    extensions.iter().any(|extension| has_identifier(identifier, extension.party.identifier))
}

// Whether an extension is registered.
#[tactic(auto, using(crate::proofs::Known::known_kept))]
fn is_known(identifier: &[u8; 16], extensions: &[Waiter]) -> bool
    ensures { result ≡ meant.is_known identifier.now (map step.party_at extensions.now) }
{
    any_has(identifier, extensions)
}

impl Env {
    // Why an extension cannot register.
    fn registration_refusal(&self, identifier: &[u8; 16]) -> Option<Refusal>
        ensures { result ≡ step.registration_refusal self.now identifier.now }
    {
        if !self.is_init() {
            Some(Refusal::RegistrationClosed)
        } else if self.extensions.len() >= MOST_EXTENSIONS {
            Some(Refusal::TooManyExtensions)
        } else if is_known(identifier, &self.extensions) {
            Some(Refusal::InUse)
        } else {
            None
        }
    }

    // Why an extension's call is refused, where its phase is wrong or not.
    fn extension_refusal(&self, identifier: &[u8; 16], is_wrong: bool) -> Option<Refusal>
        ensures { result ≡ step.extension_refusal self.now identifier.now is_wrong }
    {
        if is_known(identifier, &self.extensions) {
            wrong_phase(is_wrong)
        } else {
            Some(Refusal::UnknownExtension)
        }
    }

    // Why the call is refused now, if it is.
    pub(crate) fn refusal(&self, call: EnvCall) -> Option<Refusal>
        ensures { result ≡ step.refusal_in self.now call }
    {
        match call {
            EnvCall::RuntimeNext { .. } => wrong_phase(self.is_closing() || self.event.is_some()),
            EnvCall::Register { identifier, .. } => self.registration_refusal(&identifier),
            EnvCall::ExtensionNext { identifier, .. } => {
                self.extension_refusal(&identifier, self.is_closing())
            }
            EnvCall::Give { .. } => wrong_phase(!self.ready()),
            EnvCall::Answer { id } => {
                wrong_phase(!(self.is_busy() && has_identifier(&id, self.event)))
            }
            EnvCall::InitError { .. } => wrong_phase(!self.is_init()),
            EnvCall::ExtensionError {
                identifier,
                in_init: true,
                ..
            } => self.extension_refusal(&identifier, !self.is_init()),
            EnvCall::ExtensionError { identifier, .. } => {
                self.extension_refusal(&identifier, self.is_closing())
            }
            EnvCall::Timeout { .. } => wrong_phase(self.is_closing() || self.event.is_none()),
            EnvCall::Shutdown { .. } => None,
        }
    }

    /// Why the call is refused now, if it is: by the first check that fails, as by `call`. It changes nothing and takes
    /// no memory.
    #[tactic(auto, using(crate::specs::laws::States::is_refused))]
    pub fn judge(&self, call: EnvCall) -> Option<Refusal>
        ensures { ForEachList self.now (λ calls. result ≡ refusal_of self.now.wanted calls call) }
    {
        self.refusal(call)
    }
}
