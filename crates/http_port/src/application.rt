// What a port serves.
ghost use Rattle.std.specs.Prelude.{List, ℕ, Result, IfOk};
ghost use Rattle.http.specs.declared.request.Parts.{Parts};
ghost use Rattle.http_port.specs.declared.reading.BodyError.{BodyError};
ghost use Rattle.http_port.specs.Answering.{Message};

use crate::answering::{IntoResponse, Refused};
use crate::reading::ReadBody;
use futures::Future;
use http::request::Parts;

/// Answers the requests of a port: each is refused, or has a reply, which gives what is told to the client. An application
/// makes no response of its own but these two.
pub trait Application: Drop {
    /// What its replies give.
    type Response: IntoResponse;

    /// The reply of a request, which may be waited for.
    type Future: Future<Output = Self::Response>;

    // Holds of a request's head, its body as it was read or was not, and each answer that such a request may have: its reply,
    // which may be waited for, or what its refusal tells.
    ghost answers: { Self → Parts → Result (List ℕ) BodyError → Result Self.Future Message → Type 0 };

    /// How many bytes of a body are read. Of one that is larger by its head nothing is asked for.
    fn most(&self) -> usize;

    /// The header, in small letters, whose value is not read, where there is one. Each other head has 64 KiB at most, and with
    /// this value 1,100,000 bytes.
    fn unread_header(&self) -> Option<&'static str> {
        None
    }

    /// The reply of a request with this head, whose body was read or was not; or its refusal, which is told at once.
    fn answer(&self, head: &Parts, body: ReadBody) -> Result<Self::Future, Refused>
        ensures can_poll { IfOk result Self.Future.can_poll }
        ensures answered { answers self.now head.now body result };
}
