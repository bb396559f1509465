// What a request asks for.
ghost use Rattle.std.specs.Prelude.{◌≡◌};
ghost use Rattle.admin_replies.specs.Requests.{path_of, query_of, parts_of, names_at, told_at, asked_at, asked_of};

use crate::admin_refusal::AdminRefusal;
use crate::admin_request::AdminRequest;
use crate::name::Name;
use crate::parameters::{read_after, read_limit, read_standing};
use crate::query::{fits, given};
use crate::resource::{Resource, resource_of};
use async_core::Side;

const OF_EVENTS: [Name; 3] = [Name::Standing, Name::After, Name::Limit];

const OF_HEALTH: [Name; 1] = [Name::Deep];

const OF_RECORDS: [Name; 2] = [Name::After, Name::Limit];

fn path_of(target: &str) -> &str
    ensures { result.now ≡ path_of target.now }
{
    match target.split_once('?') {
        Some((path, _)) => path,
        None => target,
    }
}

fn query_of(target: &str) -> &str
    ensures { result.now ≡ query_of target.now }
{
    match target.split_once('?') {
        Some((_, query)) => query,
        None => "",
    }
}

// The names that a request has.
fn names_at(resource: Resource) -> &'static [Name]
    ensures { result.now ≡ names_at resource }
{
    match resource {
        Resource::Events => &OF_EVENTS,
        Resource::Records(_) => &OF_RECORDS,
        Resource::Health => &OF_HEALTH,
        _ => &[],
    }
}

fn events_asked(query: &str) -> Result<AdminRequest, AdminRefusal>
    ensures { result ≡ told_at Resource.Events (parts_of query.now) }
{
    let which = read_standing(given(Name::Standing, query))?;
    let after = read_after(given(Name::After, query))?;
    let limit = read_limit(given(Name::Limit, query))?;
    Ok(AdminRequest::Events {
        which,
        after,
        limit,
    })
}

fn records_asked(side: Side, query: &str) -> Result<AdminRequest, AdminRefusal>
    ensures { result ≡ told_at (Resource.Records side) (parts_of query.now) }
{
    let after = read_after(given(Name::After, query))?;
    let limit = read_limit(given(Name::Limit, query))?;
    Ok(AdminRequest::Records { side, after, limit })
}

fn told_at(resource: Resource, query: &str) -> Result<AdminRequest, AdminRefusal>
    ensures { result ≡ told_at resource (parts_of query.now) }
{
    match resource {
        Resource::Page => Ok(AdminRequest::Page),
        Resource::Metrics => Ok(AdminRequest::Metrics),
        Resource::History => Ok(AdminRequest::History),
        Resource::Health => Ok(AdminRequest::Health {
            is_deep: given(Name::Deep, query).is_some(),
        }),
        Resource::Events => events_asked(query),
        Resource::Event(id) => Ok(AdminRequest::Event(id)),
        Resource::Records(side) => records_asked(side, query),
    }
}

#[tactic(auto, unfolding(crate::specs::Requests::asked_at))]
fn asked_at(resource: Resource, query: &str) -> Result<AdminRequest, AdminRefusal>
    ensures { result ≡ asked_at resource query.now }
{
    if fits(names_at(resource), query) {
        told_at(resource, query)
    } else {
        Err(AdminRefusal::Query)
    }
}

/// What a request asks for, by its method and its target, or the first check that refuses it: the method, the path, the id
/// in it, the query's names, and then their values in the order `standing`, `after`, `limit`.
///
/// A query is `NAME=VALUE` with `&` between; a part without bytes says nothing. Nothing is decoded.
pub fn read(method: &str, target: &str) -> Result<AdminRequest, AdminRefusal>
    // claim: A request asks for what the definition reads in it, or is refused by the first failing check.
    // [AdminRefusal::status]
    ensures { result ≡ asked_of method.now target.now }
{
    if method != "GET" {
        return Err(AdminRefusal::Method);
    }
    let resource = resource_of(path_of(target))?;
    asked_at(resource, query_of(target))
}
