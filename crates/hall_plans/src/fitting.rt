// Whether a request is one that can be planned.
ghost use Rattle.std.specs.Prelude.{◌≡◌, ◌↔◌, IsTrue, length};
ghost use Rattle.hall_plans.specs.Plans.{IsToOneOf, Fits};
ghost use Rattle.hall_plans.specs.Agreement.{text_of};

use crate::environments::Environments;
use api_core::Call;
use invoke_records::GREATEST_MOMENT;
use retry_rules::Settings;

// How long the text of an answer is.
fn text_size(call: &Call) -> usize
    ensures { result ≡ length (text_of call.now) }
{
    match call {
        Call::Response { body, .. } => body.as_slice().len(),
        Call::RuntimeError { body, .. } => body.as_slice().len(),
        _ => 0,
    }
}

impl Environments {
    // Whether the environment of a request is one of these, if it is to one.
    fn has_that_of(&self, call: &Call) -> bool
        ensures { IsTrue result ↔ IsToOneOf self.now call.now }
    {
        match call {
            Call::RuntimeNext { environment }
            | Call::Response { environment, .. }
            | Call::RuntimeError { environment, .. }
            | Call::RuntimeInitError { environment }
            | Call::Register { environment, .. }
            | Call::ExtensionNext { environment, .. }
            | Call::ExtensionInitError { environment, .. }
            | Call::ExtensionExitError { environment, .. }
            | Call::Subscribe { environment, .. } => self.has(*environment),
            _ => true,
        }
    }
}

/// Whether a request that comes now fits these settings: its environment is one of these, the text of an answer is within
/// the limit, and the moment is at most the end of the year 9999.
pub fn fits(environments: &Environments, settings: &Settings, call: &Call, now: u64) -> bool
    ensures { IsTrue result ↔ Fits settings.now environments.now call.now now }
{
    environments.has_that_of(call)
        && text_size(call) <= settings.response as usize
        && now <= GREATEST_MOMENT
}
