// What is refused, and why.
use super::{KEYS, NOW, STAMP, VANILLA, head, judged};
use crate::{
    DerivedKeys, Fault, JudgeError, Refusal, Request, Right, judge, judge_head, read_keys,
};
use std::alloc::Global;
use std::test::Fail;

fn refused(why: Refusal) -> Result<(), JudgeError> {
    Err(JudgeError::Refused(why))
}

fn incomplete(fault: Fault) -> Result<(), JudgeError> {
    refused(Refusal::IncompleteSignature(fault))
}

#[test]
fn parts_and_scopes(rt: HostRuntime) -> Result<(), Fail> {
    let alloc = rt.alloc();
    for (text, want) in [
        (
            "AWS4-HMAC-SHA256   Signature=8c416b796946664cdbc404f4c8668a9c46fce92c65b8d0a38a48792d7077b3e9 ,SignedHeaders=host;x-amz-date  ,  Credential=AKIDEXAMPLE00000/20150830/us-east-1/lambda/aws4_request ",
            Ok(()),
        ),
        (
            "AWS4-HMAC-SHA1 Credential=AKIDEXAMPLE00000/20150830/us-east-1/lambda/aws4_request, SignedHeaders=host;x-amz-date, Signature=8c416b796946664cdbc404f4c8668a9c46fce92c65b8d0a38a48792d7077b3e9",
            incomplete(Fault::Algorithm),
        ),
        (
            "AWS4-HMAC-SHA256 Credential=AKIDEXAMPLE00000/20150830/us-east-1/lambda/aws4_request, Signature=8c416b796946664cdbc404f4c8668a9c46fce92c65b8d0a38a48792d7077b3e9",
            incomplete(Fault::Parts),
        ),
        (
            "AWS4-HMAC-SHA256 Credential=AKIDEXAMPLE00000/20150830/us-east-1/s3/aws4_request, SignedHeaders=host;x-amz-date, Signature=8c416b796946664cdbc404f4c8668a9c46fce92c65b8d0a38a48792d7077b3e9",
            incomplete(Fault::Credential),
        ),
        (
            "AWS4-HMAC-SHA256 Credential=AKIDEXAMPLE00000/20150831/us-east-1/lambda/aws4_request, SignedHeaders=host;x-amz-date, Signature=8c416b796946664cdbc404f4c8668a9c46fce92c65b8d0a38a48792d7077b3e9",
            incomplete(Fault::Credential),
        ),
    ] {
        let headers = head(alloc, STAMP, &[("Authorization", text)])?;
        assert_eq!(rt;
            judged(alloc, NOW, "GET", "/", &headers, "")?,
            want,
            "{text}"
        );
    }
    Ok(())
}

#[test]
fn signed_headers(rt: HostRuntime) -> Result<(), Fail> {
    let alloc = rt.alloc();
    for (text, want) in [
        (
            "AWS4-HMAC-SHA256 Credential=AKIDEXAMPLE00000/20150830/us-east-1/lambda/aws4_request, SignedHeaders=x-amz-date;host, Signature=8c416b796946664cdbc404f4c8668a9c46fce92c65b8d0a38a48792d7077b3e9",
            incomplete(Fault::SignedHeaders),
        ),
        (
            "AWS4-HMAC-SHA256 Credential=AKIDEXAMPLE00000/20150830/us-east-1/lambda/aws4_request, SignedHeaders=host;host;x-amz-date, Signature=8c416b796946664cdbc404f4c8668a9c46fce92c65b8d0a38a48792d7077b3e9",
            incomplete(Fault::SignedHeaders),
        ),
        (
            "AWS4-HMAC-SHA256 Credential=AKIDEXAMPLE00000/20150830/us-east-1/lambda/aws4_request, SignedHeaders=Host;x-amz-date, Signature=8c416b796946664cdbc404f4c8668a9c46fce92c65b8d0a38a48792d7077b3e9",
            incomplete(Fault::SignedHeaders),
        ),
    ] {
        let headers = head(alloc, STAMP, &[("Authorization", text)])?;
        assert_eq!(rt;
            judged(alloc, NOW, "GET", "/", &headers, "")?,
            want,
            "{text}"
        );
    }
    Ok(())
}

#[test]
fn names_and_keys(rt: HostRuntime) -> Result<(), Fail> {
    let alloc = rt.alloc();
    for (text, want) in [
        (
            "AWS4-HMAC-SHA256 Credential=AKIDEXAMPLE00000/20150830/us-east-1/lambda/aws4_request, SignedHeaders=x-amz-date, Signature=8c416b796946664cdbc404f4c8668a9c46fce92c65b8d0a38a48792d7077b3e9",
            incomplete(Fault::SignedHeaders),
        ),
        (
            "AWS4-HMAC-SHA256 Credential=AKIDEXAMPLE00000/20150830/us-east-1/lambda/aws4_request, SignedHeaders=host;range;x-amz-date, Signature=8c416b796946664cdbc404f4c8668a9c46fce92c65b8d0a38a48792d7077b3e9",
            incomplete(Fault::SignedHeaders),
        ),
        (
            "AWS4-HMAC-SHA256 Credential=AKIDEXAMPLE00000/20150830/us-east-1/lambda/aws4_request, SignedHeaders=host;x-amz-date, Signed=8c416b796946664cdbc404f4c8668a9c46fce92c65b8d0a38a48792d7077b3e9",
            incomplete(Fault::Signature),
        ),
        (
            "AWS4-HMAC-SHA256 Credential=AKIDEXAMPLE00002/20150830/us-east-1/lambda/aws4_request, SignedHeaders=host;x-amz-date, Signature=8c416b796946664cdbc404f4c8668a9c46fce92c65b8d0a38a48792d7077b3e9",
            refused(Refusal::UnrecognizedClient),
        ),
        (
            "AWS4-HMAC-SHA256 Credential=AKIDEXAMPLE00001/20150830/us-east-1/lambda/aws4_request, SignedHeaders=host;x-amz-date, Signature=8c416b796946664cdbc404f4c8668a9c46fce92c65b8d0a38a48792d7077b3e9",
            refused(Refusal::AccessDenied),
        ),
    ] {
        let headers = head(alloc, STAMP, &[("Authorization", text)])?;
        assert_eq!(rt;
            judged(alloc, NOW, "GET", "/", &headers, "")?,
            want,
            "{text}"
        );
    }
    Ok(())
}

#[test]
fn signatures(rt: HostRuntime) -> Result<(), Fail> {
    let alloc = rt.alloc();
    for (text, want) in [
        (
            "AWS4-HMAC-SHA256 Credential=AKIDEXAMPLE00000/20150830/us-east-1/lambda/aws4_request, SignedHeaders=host;x-amz-date, Signature=8c416b796946664cdbc404f4c8668a9c46fce92c65b8d0a38a48792d7077b3e90",
            refused(Refusal::InvalidSignature),
        ),
        (
            "AWS4-HMAC-SHA256 Credential=AKIDEXAMPLE00000/20150830/us-east-1/lambda/aws4_request, SignedHeaders=host;x-amz-date, Signature=8c416b796946664cdbc404f4c8668a9c46fce92c65b8d0a38a48792d7077b3e",
            refused(Refusal::InvalidSignature),
        ),
        (
            "AWS4-HMAC-SHA256 Credential=AKIDEXAMPLE00000/20150830/us-east-1/lambda/aws4_request, SignedHeaders=host;x-amz-date, Signature=8C416B796946664CDBC404F4C8668A9C46FCE92C65B8D0A38A48792D7077B3E9",
            refused(Refusal::InvalidSignature),
        ),
    ] {
        let headers = head(alloc, STAMP, &[("Authorization", text)])?;
        assert_eq!(rt;
            judged(alloc, NOW, "GET", "/", &headers, "")?,
            want,
            "{text}"
        );
    }
    Ok(())
}

#[test]
fn no_one_authorization(rt: HostRuntime) -> Result<(), Fail> {
    let alloc = rt.alloc();
    let want = refused(Refusal::MissingAuthenticationToken);
    let none = head(alloc, STAMP, &[])?;
    assert_eq!(rt; judged(alloc, NOW, "GET", "/", &none, "")?, want);
    let two = head(
        alloc,
        STAMP,
        &[("Authorization", VANILLA), ("authorization", VANILLA)],
    )?;
    assert_eq!(rt; judged(alloc, NOW, "GET", "/", &two, "")?, want);
    Ok(())
}

#[test]
fn changed_requests(rt: HostRuntime) -> Result<(), Fail> {
    let alloc = rt.alloc();
    let headers = head(alloc, STAMP, &[("Authorization", VANILLA)])?;
    for (method, target, body) in [
        ("POST", "/", ""),
        ("GET", "/a", ""),
        ("GET", "/?a=b", ""),
        ("GET", "/", "x"),
    ] {
        let said = judged(alloc, NOW, method, target, &headers, body)?;
        assert_eq!(rt; said, refused(Refusal::InvalidSignature));
    }
    Ok(())
}

#[test]
fn heads(rt: HostRuntime) -> Result<(), Fail> {
    let alloc = rt.alloc();
    let keys = read_keys(alloc, KEYS.as_bytes())?;
    let headers = head(alloc, STAMP, &[("Authorization", VANILLA)])?;
    for (right, region, want) in [
        (Right::Invoke, None, Ok(())),
        (Right::Invoke, Some(b"us-east-1".as_slice()), Ok(())),
        (
            Right::Invoke,
            Some(b"eu-west-1".as_slice()),
            incomplete(Fault::Region),
        ),
        (Right::Stop, None, refused(Refusal::AccessDenied)),
    ] {
        assert_eq!(rt;
            judge_head(alloc, &keys, right, region, NOW, &headers),
            want
        );
    }
    Ok(())
}

// What is said under keys of which a byte of the secret is changed.
fn judged_by_changed(
    alloc: Global,
    derived: &mut DerivedKeys,
    place: usize,
) -> Result<Result<(), JudgeError>, Fail> {
    let headers = head(alloc, STAMP, &[("Authorization", VANILLA)])?;
    let request = Request {
        method: b"GET",
        target: b"/",
        headers: &headers,
        body: b"",
    };
    let mut keys = read_keys(alloc, KEYS.as_bytes())?;
    if let Some(key) = keys.first_mut() {
        if let Some(b) = key.secret.get_mut(place) {
            *b ^= 1;
        }
    }
    Ok(judge(alloc, derived, &keys, Right::Invoke, None, NOW, &request))
}

// Each byte of a secret counts, and a kept key is that of its secret alone.
#[test]
fn changed_secrets(rt: HostRuntime) -> Result<(), Fail> {
    let alloc = rt.alloc();
    let mut derived = DerivedKeys::new(alloc);
    assert_eq!(rt; judged_by_changed(alloc, &mut derived, 40)?, Ok(()));
    for place in 0..40 {
        let said = judged_by_changed(alloc, &mut derived, place)?;
        assert_eq!(rt; said, refused(Refusal::InvalidSignature));
    }
    Ok(())
}

// A key is kept once it signed a request.
#[test]
fn kept_keys(rt: HostRuntime) -> Result<(), Fail> {
    let alloc = rt.alloc();
    let secret = b"wJalrXUtnFEMI/K7MDENG+bPxRfiCYEXAMPLEKEY";
    let mut derived = DerivedKeys::new(alloc);
    let _ = judged_by_changed(alloc, &mut derived, 0)?;
    let before = derived.kept_for(secret, b"20150830", b"us-east-1");
    let _ = judged_by_changed(alloc, &mut derived, 40)?;
    let after = derived.kept_for(secret, b"20150830", b"us-east-1");
    assert!(rt; before.is_none() && after.is_some());
    Ok(())
}
