// Which hosts the operator's port answers to.
ghost use Rattle.std.specs.Prelude.{◌≡◌};
ghost use Rattle.admin_port.specs.Heads as meant;

use http::header::HeaderMap;

/// What another host is told.
pub(crate) const NOT_LOCAL: &str =
    "this port answers to the hosts 127.0.0.1, localhost and [::1] alone";

// Whether a name in a host ends there, or a port follows.
fn ends_name(rest: &[u8]) -> bool
    ensures { result ≡ meant.ends_name rest.now }
{
    match rest.first() {
        Some(byte) => *byte == b':',
        None => true,
    }
}

// Whether a host is this name, with a port or without.
fn has_name(host: &[u8], name: &[u8]) -> bool
    ensures { result ≡ meant.has_name host.now name.now }
{
    match host.strip_prefix(name) {
        Some(rest) => ends_name(rest),
        None => false,
    }
}

// Whether a host is this machine.
fn is_here(host: &[u8]) -> bool
    ensures { result ≡ meant.is_here host.now }
{
    has_name(host, b"127.0.0.1") || has_name(host, b"localhost") || has_name(host, b"[::1]")
}

/// Whether a request names this machine as its host, or none. A page of another site, whose name is made to lead here, lets a
/// browser name that site.
pub(crate) fn is_local(headers: &HeaderMap) -> bool
    ensures { result ≡ meant.is_local headers.now }
{
    match headers.get("host") {
        Some(host) => is_here(host.as_bytes()),
        None => true,
    }
}
