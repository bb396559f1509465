// Why a request asks for nothing.
ghost use Rattle.std.specs.Prelude.{◌≡◌};
ghost use Rattle.admin_replies.specs.Requests.{status_of};

use thiserror::Error;

/// Why a request asks for nothing, in the order in which a request is checked.
#[derive(Clone, Copy, Debug, Error)]
pub enum AdminRefusal {
    #[error("only GET is understood")]
    Method,
    #[error("nothing is at this path")]
    Path,
    /// `/events/ID`.
    #[error("the path names no event: its id is no UUID")]
    Id,
    /// The request has no such parameter, or it was given twice.
    #[error("a parameter is unknown, or given twice")]
    Query,
    #[error("standing is none of all, waiting, running, success, failure")]
    Standing,
    #[error("after is no UUID")]
    After,
    #[error("limit is no number from 1 to 1000")]
    Limit,
}

impl AdminRefusal {
    /// The status that it is answered with.
    pub fn status(&self) -> u16
        ensures { result ≡ status_of self.now }
    {
        match self {
            AdminRefusal::Method => 405,
            AdminRefusal::Path => 404,
            AdminRefusal::Id => 400,
            AdminRefusal::Query => 400,
            AdminRefusal::Standing => 400,
            AdminRefusal::After => 400,
            AdminRefusal::Limit => 400,
        }
    }
}
