// The published cases.
use super::{NOW, STAMP, add, head, judged};
use std::test::Fail;

struct Case {
    method: &'static str,
    target: &'static str,
    more: &'static [(&'static str, &'static str)],
    body: &'static str,
    authorization: &'static str,
}

static CASES: [Case; 11] = [
    // get-vanilla
    Case {
        method: "GET",
        target: "/",
        more: &[],
        body: "",
        authorization: "AWS4-HMAC-SHA256 Credential=AKIDEXAMPLE00000/20150830/us-east-1/lambda/aws4_request, SignedHeaders=host;x-amz-date, Signature=8c416b796946664cdbc404f4c8668a9c46fce92c65b8d0a38a48792d7077b3e9",
    },
    // get-vanilla-query-order-key-case
    Case {
        method: "GET",
        target: "/?Param2=value2&Param1=value1",
        more: &[],
        body: "",
        authorization: "AWS4-HMAC-SHA256 Credential=AKIDEXAMPLE00000/20150830/us-east-1/lambda/aws4_request, SignedHeaders=host;x-amz-date, Signature=bc83caef9db6ca19f62d57c434cf5c2760cb58dd1994df01b5bed504df325f6e",
    },
    // get-header-value-trim
    Case {
        method: "GET",
        target: "/",
        more: &[("My-Header1", "value1"), ("My-Header2", "\"a   b   c\"")],
        body: "",
        authorization: "AWS4-HMAC-SHA256 Credential=AKIDEXAMPLE00000/20150830/us-east-1/lambda/aws4_request, SignedHeaders=host;my-header1;my-header2;x-amz-date, Signature=7b44a2ecc253c2fb0416f166b704ee11c3bdc8903381d27662508e2ec39463ae",
    },
    // get-header-key-duplicate
    Case {
        method: "GET",
        target: "/",
        more: &[
            ("My-Header1", "value2"),
            ("My-Header1", "value2"),
            ("My-Header1", "value1"),
        ],
        body: "",
        authorization: "AWS4-HMAC-SHA256 Credential=AKIDEXAMPLE00000/20150830/us-east-1/lambda/aws4_request, SignedHeaders=host;my-header1;x-amz-date, Signature=49a33299c94a241fa510241f0014a0eda43b263d88cd01485c6c69eb8abffbf1",
    },
    // get-utf8
    Case {
        method: "GET",
        target: "/ሴ",
        more: &[],
        body: "",
        authorization: "AWS4-HMAC-SHA256 Credential=AKIDEXAMPLE00000/20150830/us-east-1/lambda/aws4_request, SignedHeaders=host;x-amz-date, Signature=4f26b4e8428857a147b2e2ff5968cd5e7e8133762ac0a3eb60e09d9d4680d711",
    },
    // get-unreserved
    Case {
        method: "GET",
        target: "/-._~0123456789ABCDEFGHIJKLMNOPQRSTUVWXYZabcdefghijklmnopqrstuvwxyz",
        more: &[],
        body: "",
        authorization: "AWS4-HMAC-SHA256 Credential=AKIDEXAMPLE00000/20150830/us-east-1/lambda/aws4_request, SignedHeaders=host;x-amz-date, Signature=21b16313837fd4ecbcf2ed609f12badb08a59d4f41f12e5621b605b0df9aaa4f",
    },
    // get-space
    Case {
        method: "GET",
        target: "/example space/",
        more: &[],
        body: "",
        authorization: "AWS4-HMAC-SHA256 Credential=AKIDEXAMPLE00000/20150830/us-east-1/lambda/aws4_request, SignedHeaders=host;x-amz-date, Signature=a30581b249aef43508c96b6dfa82edc63238a24a5779d14bf11bc985cb7e3eb7",
    },
    // post-vanilla-query
    Case {
        method: "POST",
        target: "/?Param1=value1",
        more: &[],
        body: "",
        authorization: "AWS4-HMAC-SHA256 Credential=AKIDEXAMPLE00000/20150830/us-east-1/lambda/aws4_request, SignedHeaders=host;x-amz-date, Signature=98a77314a484e9e6b704cfe1746aec837a54c3a970c4c6389f996d83cda7e0e3",
    },
    // post-header-key-sort
    Case {
        method: "POST",
        target: "/",
        more: &[("My-Header1", "value1")],
        body: "",
        authorization: "AWS4-HMAC-SHA256 Credential=AKIDEXAMPLE00000/20150830/us-east-1/lambda/aws4_request, SignedHeaders=host;my-header1;x-amz-date, Signature=0c3d22dea85f9a40030cb5b6ecb4f294089df536aecef5a55d851b4745e90fd1",
    },
    // post-x-www-form-urlencoded
    Case {
        method: "POST",
        target: "/",
        more: &[("Content-Type", "application/x-www-form-urlencoded")],
        body: "Param1=value1",
        authorization: "AWS4-HMAC-SHA256 Credential=AKIDEXAMPLE00000/20150830/us-east-1/lambda/aws4_request, SignedHeaders=content-type;host;x-amz-date, Signature=a66c1b8d64f5fe5c3ed22be9b058367290fcc7b2b9cc8fa5e110d70cc520291f",
    },
    // lambda-invoke-arn
    Case {
        method: "POST",
        target: "/2015-03-31/functions/arn%3Aaws%3Alambda%3Aus-east-1%3A123456789012%3Afunction%3Amy-function/invocations?Qualifier=%24LATEST",
        more: &[("X-Amz-Invocation-Type", "Event")],
        body: "{\"a\":1}",
        authorization: "AWS4-HMAC-SHA256 Credential=AKIDEXAMPLE00000/20150830/us-east-1/lambda/aws4_request, SignedHeaders=host;x-amz-date;x-amz-invocation-type, Signature=1f9699aa96d7f2a84cb6a4e460683e299d58898852aaec84aad8d6ef879074fd",
    },
];

#[test]
fn published_cases(rt: HostRuntime) -> Result<(), Fail> {
    let alloc = rt.alloc();
    for case in &CASES {
        let mut headers = head(alloc, STAMP, case.more)?;
        add(alloc, &mut headers, "Authorization", case.authorization)?;
        let said = judged(alloc, NOW, case.method, case.target, &headers, case.body)?;
        assert_eq!(rt; said, Ok(()), "{}", case.authorization);
    }
    Ok(())
}
