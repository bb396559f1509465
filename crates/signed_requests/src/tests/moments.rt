// Moments within the window and outside it, and dates that are none.
use super::{FAR, NOW, STAMP, VANILLA, head, judged};
use crate::{Fault, JudgeError, Refusal};
use std::test::Fail;

#[test]
fn moments(rt: HostRuntime) -> Result<(), Fail> {
    let alloc = rt.alloc();
    let headers = head(alloc, STAMP, &[("Authorization", VANILLA)])?;
    let late = Refusal::SignatureExpired {
        signed: NOW,
        now: NOW + FAR + 1,
    };
    let early = Refusal::SignatureNotYetCurrent {
        signed: NOW,
        now: NOW - FAR - 1,
    };
    for (now, want) in [
        (NOW - FAR, Ok(())),
        (NOW + FAR, Ok(())),
        (NOW + FAR + 1, Err(JudgeError::Refused(late))),
        (NOW - FAR - 1, Err(JudgeError::Refused(early))),
    ] {
        assert_eq!(rt; judged(alloc, now, "GET", "/", &headers, "")?, want);
    }
    Ok(())
}

#[test]
fn dates(rt: HostRuntime) -> Result<(), Fail> {
    let alloc = rt.alloc();
    for stamp in [
        "20150830T123660Z",
        "20150830T243600Z",
        "20150229T123600Z",
        "20150830 123600Z",
        "20150830T123600",
        "19690830T123600Z",
    ] {
        let headers = head(alloc, stamp, &[("Authorization", VANILLA)])?;
        let want = Err(JudgeError::Refused(Refusal::IncompleteSignature(Fault::Date)));
        assert_eq!(rt;
            judged(alloc, NOW, "GET", "/", &headers, "")?,
            want,
            "{stamp}"
        );
    }
    Ok(())
}
