// Worked cases: those that AWS published for Signature Version 4, with `lambda` for the service, RFC 4231's of HMAC, and each
// refusal. The signatures are botocore's.
use crate::{DerivedKeys, JudgeError, Request, Right, judge, read_keys};
use http_header::{HeaderMap, HeaderName, HeaderValue};
use std::alloc::Global;
use std::test::Fail;

mod files;
mod hmac;
mod moments;
mod published;
mod refusals;

/// 2015-08-30T12:36:00Z.
const NOW: u64 = 1440938160000;

/// Five minutes.
const FAR: u64 = 300_000;

const STAMP: &str = "20150830T123600Z";

const KEYS: &str =
    "# who may ask\nAKIDEXAMPLE00000 wJalrXUtnFEMI/K7MDENG+bPxRfiCYEXAMPLEKEY invoke,collect\n\nAKIDEXAMPLE00001 xJalrXUtnFEMI/K7MDENG+bPxRfiCYEXAMPLEKEY stop\n";

/// Of a GET of `/` at that moment.
const VANILLA: &str =
    "AWS4-HMAC-SHA256 Credential=AKIDEXAMPLE00000/20150830/us-east-1/lambda/aws4_request, SignedHeaders=host;x-amz-date, Signature=8c416b796946664cdbc404f4c8668a9c46fce92c65b8d0a38a48792d7077b3e9";

fn add(alloc: Global, headers: &mut HeaderMap, name: &str, value: &str) -> Result<(), Fail> {
    let name = HeaderName::from_bytes(alloc, name.as_bytes())?;
    let value = HeaderValue::from_bytes(alloc, value.as_bytes())?;
    headers.append(name, value)?;
    Ok(())
}

// A head of a moment, with these headers more.
fn head(alloc: Global, stamp: &str, more: &[(&str, &str)]) -> Result<HeaderMap, Fail> {
    let mut headers: HeaderMap = HeaderMap::new(alloc);
    add(alloc, &mut headers, "Host", "example.amazonaws.com")?;
    add(alloc, &mut headers, "X-Amz-Date", stamp)?;
    for (name, value) in more {
        add(alloc, &mut headers, name, value)?;
    }
    Ok(headers)
}

// What is said of a request for invoking the function: the same with a key derived anew and with the one that was kept.
fn judged(
    alloc: Global,
    now: u64,
    method: &str,
    target: &str,
    headers: &HeaderMap,
    body: &str,
) -> Result<Result<(), JudgeError>, Fail> {
    let keys = read_keys(alloc, KEYS.as_bytes())?;
    let mut derived = DerivedKeys::new(alloc);
    let request = Request {
        method: method.as_bytes(),
        target: target.as_bytes(),
        headers,
        body: body.as_bytes(),
    };
    let first = judge(
        alloc,
        &mut derived,
        &keys,
        Right::Invoke,
        None,
        now,
        &request,
    );
    let again = judge(
        alloc,
        &mut derived,
        &keys,
        Right::Invoke,
        None,
        now,
        &request,
    );
    if first != again {
        return Err(Fail::from("a kept key says otherwise"));
    }
    Ok(first)
}
