// What a port serves whose disk is gone.
ghost use Rattle.std.specs.Prelude.{◌≡◌};
ghost use Rattle.saving_port.specs.Held.{shown_for};

use crate::replies::{HeldReply, Shown, refusal_of, told_of};
use api_core::Dialect;
use http::request::Parts;
use http_port::{Application, ReadBody, Refused, target_of};
use std::alloc::Global;
use std::sync::Arc;
use tokio_util::sync::CancellationToken;

/// A port whose disk is gone.
#[derive(Drop)]
pub(crate) struct Held {
    pub(crate) alloc: Global,
    /// Whether it is the operator's, not the callers'.
    pub(crate) is_operators: bool,
    pub(crate) dialect: Dialect,
    /// What an operator is told.
    pub(crate) words: Arc<String>,
    /// What ends all ports.
    pub(crate) ending: CancellationToken,
}

/// What is shown to a request, where something is.
pub(crate) fn shown_for(is_operators: bool, method: &str, target: &str) -> Option<Shown>
    ensures { result ≡ shown_for is_operators method.now target.now }
{
    if is_operators {
        (method == "GET" && target == "/metrics").then_some(Shown::Metrics)
    } else {
        (method == "POST" && target == "/broker/stop?lose").then_some(Shown::Stopping)
    }
}

impl Application for Held {
    ghost use Rattle.std.specs.Prelude.{Some, None, IfOk, IfErr};
    ghost use Rattle.saving_port.specs.Held.{shown_to, IsRefused};

    type Response = Shown;

    type Future = HeldReply;

    // claim: Where the disk is gone, just two requests are not refused: an operator's for metrics, and a caller's to lose what was
    // told. Each other is refused with 503. [: answers; shown_for; refusal_of]
    ghost answers = { λ held head body answered.
        IfOk answered (λ reply. shown_to held head ≡ Some reply.shown)
        × IfErr answered (λ told. (shown_to held head ≡ None) × IsRefused told) };

    fn most(&self) -> usize {
        0
    }

    fn answer(&self, head: &Parts, body: ReadBody) -> Result<HeldReply, Refused> {
        drop(body);
        let Some(shown) = shown_for(self.is_operators, head.method.as_str(), target_of(head)) else {
            return Err(refusal_of(self.alloc, self.is_operators, self.dialect, &*self.words));
        };
        if !self.is_operators {
            self.ending.cancel();
        }
        Ok(told_of(shown))
    }
}
