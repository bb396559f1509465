// Requests that are refused by their heads alone.
ghost use Rattle.std.specs.Prelude.{◌≡◌};
ghost use Rattle.http_port.specs.Browsers as meant;
ghost use Rattle.http_port.specs.Hosts.{is_foreign_host};

use crate::answering::Refused;
use crate::hosts::Hosts;
use http::header::HeaderMap;
use hyper::StatusCode;
use std::alloc::Global;

/// Why a request is refused before its body is read and before the application is asked.
#[derive(Clone, Copy)]
pub(crate) enum Forbidden {
    /// A browser makes it for a web page.
    CrossOrigin,
    /// It names a host that the port does not answer to.
    UnknownHost,
    /// Its body comes in a transfer coding other than `chunked` (RFC 9112, section 6.1).
    TransferCoding,
}

// Whether a browser says that a request is made neither by its user nor by a page of this port.
fn is_other_site(site: &[u8]) -> bool
    ensures { result ≡ meant.is_other_site site.now }
{
    site != b"none".as_slice() && site != b"same-origin".as_slice()
}

fn is_from_other_site(headers: &HeaderMap) -> bool
    ensures { result ≡ meant.any_value meant.is_other_site "sec-fetch-site" headers.now }
{
    headers
        .get_all("sec-fetch-site")
        .iter()
        .any(|site| is_other_site(site.as_bytes()))
}

// Whether a browser makes a request for a page.
fn is_from_a_page(headers: &HeaderMap) -> bool
    ensures { result ≡ meant.is_from_a_page headers.now }
{
    headers.get("origin").is_some() || is_from_other_site(headers)
}

fn is_for_foreign_host(hosts: &Hosts, headers: &HeaderMap) -> bool
    ensures { result ≡ meant.any_value (is_foreign_host hosts.now) "host" headers.now }
{
    headers
        .get_all("host")
        .iter()
        .any(|host| hosts.is_foreign(host.as_bytes()))
}

// Whether this is a transfer coding that the port does not read.
fn is_other_coding(coding: &[u8]) -> bool
    ensures { result ≡ meant.is_other_coding coding.now }
{
    !coding.eq_ignore_ascii_case(b"chunked")
}

fn has_other_coding(headers: &HeaderMap) -> bool
    ensures { result ≡ meant.any_value meant.is_other_coding "transfer-encoding" headers.now }
{
    headers
        .get_all("transfer-encoding")
        .iter()
        .any(|coding| is_other_coding(coding.as_bytes()))
}

impl Forbidden {
    /// Why a request with these headers is refused. None where it is not.
    pub(crate) fn of(hosts: &Hosts, headers: &HeaderMap) -> Option<Forbidden>
        // claim: Forbidden is a request with `Origin`, or a `Sec-Fetch-Site` other than `none` and `same-origin`; on a loopback address
        // also one with a foreign `Host`; and one with a transfer coding other than `chunked`. [Hosts::is_foreign; Hosts::of: here, elsewhere;
        // Listening::new: listener, hosts]
        ensures { result ≡ meant.forbidden_of hosts.now headers.now }
    {
        if is_from_a_page(headers) {
            Some(Forbidden::CrossOrigin)
        } else if is_for_foreign_host(hosts, headers) {
            Some(Forbidden::UnknownHost)
        } else if has_other_coding(headers) {
            Some(Forbidden::TransferCoding)
        } else {
            None
        }
    }

    // What its client is told.
    fn text(self) -> &'static str
        ensures { result.now ≡ meant.forbidden_text self }
    {
        match self {
            Forbidden::CrossOrigin => {
                r#"{"errorMessage":"requests of web pages are refused","errorType":"CrossOrigin"}"#
            }
            Forbidden::UnknownHost => {
                r#"{"errorMessage":"this host is not served here, see serve --host","errorType":"UnknownHost"}"#
            }
            Forbidden::TransferCoding => {
                r#"{"errorMessage":"no transfer coding but chunked is understood","errorType":"TransferCoding"}"#
            }
        }
    }

    // The status of its refusal.
    fn status(self) -> StatusCode
        ensures { result ≡ meant.forbidden_status self }
    {
        match self {
            Forbidden::CrossOrigin | Forbidden::UnknownHost => StatusCode::FORBIDDEN,
            Forbidden::TransferCoding => StatusCode::NOT_IMPLEMENTED,
        }
    }

    /// The refusal that tells of it.
    pub(crate) fn refused(self, alloc: Global) -> Refused
        ensures { meant.IsForbidden self result }
    {
        Refused::json(alloc, self.status(), self.text())
    }
}
