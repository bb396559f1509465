// What is at a path.
ghost use Rattle.std.specs.Prelude.{◌≡◌};
ghost use Rattle.admin_replies.specs.Requests.{resource_of, named_by, event_at};

use crate::admin_refusal::AdminRefusal;
use crate::ids::read_id;
use async_core::Side;

/// What is at a path.
#[derive(Clone, Copy)]
pub(crate) enum Resource {
    Page,
    Metrics,
    History,
    Health,
    Events,
    Event([u8; 16]),
    Records(Side),
}

fn event_at(id: Option<[u8; 16]>) -> Result<Resource, AdminRefusal>
    ensures { result ≡ event_at id }
{
    match id {
        Some(id) => Ok(Resource::Event(id)),
        None => Err(AdminRefusal::Id),
    }
}

// What a path names that is no fixed one.
#[tactic(auto, unfolding(crate::specs::Requests::named_by))]
fn named_by(path: &[u8]) -> Result<Resource, AdminRefusal>
    ensures { result ≡ named_by path.now }
{
    match path.strip_prefix(b"/events/") {
        Some(id) => event_at(read_id(id)),
        None => Err(AdminRefusal::Path),
    }
}

/// What is at a path, or why nothing is.
pub(crate) fn resource_of(path: &str) -> Result<Resource, AdminRefusal>
    ensures { result ≡ resource_of path.now }
{
    match path {
        "/" => Ok(Resource::Page),
        "/metrics" => Ok(Resource::Metrics),
        "/history" => Ok(Resource::History),
        "/healthz" => Ok(Resource::Health),
        "/events" => Ok(Resource::Events),
        "/records/success" => Ok(Resource::Records(Side::Success)),
        "/records/failure" => Ok(Resource::Records(Side::Failure)),
        _ => named_by(path.as_bytes()),
    }
}
