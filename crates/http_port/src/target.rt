// The target of a request.
ghost use Rattle.std.specs.Prelude.{◌≡◌};
ghost use Rattle.http_port.specs.Target.{target_in};

use http::request::Parts;

/// The path and the query of a request, as its line has them.
pub fn target_of(head: &Parts) -> &str
    ensures { result.now ≡ target_in head.now }
{
    match head.uri.path_and_query() {
        Some(target) => target.as_str(),
        None => "/",
    }
}
