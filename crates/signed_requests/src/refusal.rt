// Why a request is refused.
ghost use Rattle.signed_requests.specs.declared.refusal.JudgeError.TheVariants.{OutOfMemory};
ghost use Rattle.std.specs.Prelude.{◌≡◌};

use std::alloc::AllocError;
use thiserror::Error;

/// What of the head has not the form of a signature.
#[derive(Clone, Copy, Debug, PartialEq, Eq, Error)]
pub enum Fault {
    #[error("the algorithm of Authorization is not AWS4-HMAC-SHA256")]
    Algorithm,
    #[error("Authorization has not three parts")]
    Parts,
    #[error("the Credential has not the form KEY/DAY/REGION/lambda/aws4_request, with the day of X-Amz-Date")]
    Credential,
    #[error("the Credential is of another region")]
    Region,
    #[error("the SignedHeaders are not sorted, not in the head, or without host or x-amz-date")]
    SignedHeaders,
    #[error("Authorization has no Signature")]
    Signature,
    #[error("X-Amz-Date is not one moment YYYYMMDDTHHMMSSZ")]
    Date,
}

/// Why a request is not taken for that of a key, in the order in which it is judged. Moments are in milliseconds since 1970.
#[derive(Clone, Copy, Debug, PartialEq, Eq, Error)]
pub enum Refusal {
    /// There is no `Authorization`, or several.
    #[error("Missing Authentication Token")]
    MissingAuthenticationToken,
    /// It has another form, or what it names has.
    #[error("{0}")]
    IncompleteSignature(Fault),
    /// No key has this name.
    #[error("The security token included in the request is invalid.")]
    UnrecognizedClient,
    /// It was signed too long ago.
    #[error("Signature expired: it is of {signed}, and now it is {now}")]
    SignatureExpired { signed: u64, now: u64 },
    /// It was signed for a moment that has yet to come.
    #[error("Signature not yet current: it is of {signed}, and now it is {now}")]
    SignatureNotYetCurrent { signed: u64, now: u64 },
    /// The key has not the right that is asked.
    #[error("The key has not the right to do this.")]
    AccessDenied,
    /// The signature is not that of the request under the key.
    #[error("The request signature we calculated does not match the signature you provided.")]
    InvalidSignature,
}

/// Why a request is not judged to be that of a key.
#[derive(Clone, Copy, Debug, PartialEq, Eq, Error)]
pub enum JudgeError {
    #[error("{0}")]
    Refused(Refusal),
    #[error("out of memory")]
    OutOfMemory,
}

impl From<AllocError> for JudgeError {
    ghost from_gives = { λ _ e. e ≡ OutOfMemory };

    fn from(_: AllocError) -> JudgeError {
        JudgeError::OutOfMemory
    }
}
