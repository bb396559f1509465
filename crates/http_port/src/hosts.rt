// Which hosts a port answers to.
ghost use Rattle.std.specs.Prelude.{◌≡◌, ◌≤◌, IfOk, Some, length, option_map, string_bytes};
ghost use Rattle.std.specs.List.{list_any, position_or_len};
ghost use Rattle.std.specs.Str.{str_eq_ignore_ascii_case};
ghost use Rattle.http_port.specs.Hosts as meant;
ghost use Rattle.http_port.specs.Hosts.{IsLoopback};

use std::alloc::{AllocError, Global};
use std::net::IpAddr;

const UNDER_LOCALHOST: &[u8] = b".localhost";

/// Which hosts a port answers to. A request that names another one is refused; one that names none is not.
#[derive(Drop)]
pub enum Hosts {
    /// All: the port is reached from other machines, by whatever names they give it.
    All,
    /// Those that this machine has for itself: `localhost` and the names under it, addresses, names without a dot, and this one,
    /// where one is given.
    Local(Option<String>),
}

// A name without a dot at its end.
fn without_last_dot(name: &[u8]) -> &[u8]
    ensures { result.now ≡ meant.without_last_dot name.now }
{
    match name.strip_suffix(b".") {
        Some(name) => name,
        None => name,
    }
}

// Where the first colon stands, or the end where there is none.
fn colon_at(host: &[u8]) -> usize
    ensures place { result ≡ position_or_len meant.is_colon host.now }
    ensures bound { result ≤ length host.now }
{
    for at in 0..host.len() {
        if host[at] == b':' {
            return at;
        }
    }
    host.len()
}

// The name in a host, without its port and without a dot at its end.
fn name_in(host: &[u8]) -> &[u8]
    ensures { result.now ≡ meant.name_in host.now }
{
    without_last_dot(&host[..colon_at(host)])
}

fn has_dot(name: &[u8]) -> bool
    ensures { result ≡ list_any meant.is_dot name.now }
{
    name.iter().any(|byte| *byte == b'.')
}

fn is_numeric(name: &[u8]) -> bool
    ensures { result ≡ meant.is_numeric name.now }
{
    name.iter()
        .all(|byte| byte.is_ascii_digit() || *byte == b'.')
}

fn is_same(a: &[u8], b: &[u8]) -> bool
    ensures { result ≡ str_eq_ignore_ascii_case a.now b.now }
{
    a.eq_ignore_ascii_case(b)
}

fn is_under_localhost(name: &[u8]) -> bool
    ensures { result ≡ meant.is_under_localhost name.now }
{
    let begin = name.len().saturating_sub(UNDER_LOCALHOST.len());
    is_same(&name[begin..], UNDER_LOCALHOST)
}

fn is_given(given: &Option<String>, name: &[u8]) -> bool
    ensures { result ≡ meant.is_given (option_map string_bytes given.now) name.now }
{
    match given {
        Some(given) => is_same(name, name_in(given.as_bytes())),
        None => false,
    }
}

// Whether a name may be that of a page's site.
fn is_foreign_name(given: &Option<String>, name: &[u8]) -> bool
    ensures { result ≡ meant.is_foreign_name (option_map string_bytes given.now) name.now }
{
    has_dot(name) && !is_numeric(name) && !is_under_localhost(name) && !is_given(given, name)
}

impl Hosts {
    /// Those of a port that listens on this address, and is asked under this name, too, where one is given. Only want of memory is
    /// refused.
    pub fn of(alloc: Global, reach: IpAddr, name: Option<&str>) -> Result<Hosts, AllocError>
        ensures here { IsLoopback reach → IfOk result (λ hosts. meant.judged_by hosts ≡ Some (option_map (λ name. name.now) name.entry)) }
        ensures elsewhere { ¬ (IsLoopback reach) → IfOk result (λ hosts. hosts ≡ Hosts.All) }
    {
        if !reach.is_loopback() {
            return Ok(Hosts::All);
        }
        match name {
            Some(name) => Ok(Hosts::Local(Some(String::from_str(alloc, name)?))),
            None => Ok(Hosts::Local(None)),
        }
    }

    /// Whether a host, as a request names it, is one that the port does not answer to.
    pub(crate) fn is_foreign(&self, host: &[u8]) -> bool
        ensures { result ≡ meant.is_foreign_host self.now host.now }
    {
        match self {
            Hosts::All => false,
            Hosts::Local(given) => is_foreign_name(given, name_in(host)),
        }
    }
}
