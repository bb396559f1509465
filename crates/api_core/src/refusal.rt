// Why a request is refused.
ghost use Rattle.std.specs.Prelude.{◌≡◌};
ghost use Rattle.api_core.specs.Refusals.{fault_of, error_name, blamed};
ghost use Rattle.api_core.specs.declared.refusal.RequestError.TheVariants.{OutOfMemory};

use std::alloc::AllocError;

/// Why a call is refused: each has one status, type and message, told as JSON like the errors of AWS's services.
/// `read_request` answers those of the request itself; the others are the broker's.
#[derive(Clone, Copy, Debug)]
pub enum Refusal {
    /// The invocation type is not `Event`: 400.
    UnsupportedInvocationType,
    /// The payload is not JSON: 400.
    InvalidRequestContent,
    /// No such attempt is running in this environment, or its time is over: 400.
    InvalidRequestId,
    /// An extension's name or identifier is missing or bad: 400.
    InvalidExtensionHeader,
    /// The events of a registration are not a list of known events: 400.
    BadSubscription,
    /// No extension is registered under this identifier: 403.
    UnknownExtension,
    /// The environment has started, so that no extension can register: 403.
    RegistrationClosed,
    /// As many extensions are registered as may be: 403.
    TooManyExtensions,
    /// The environment is not in a phase for this: 403.
    WrongPhase,
    /// No such path or function, or not this version of it: 404.
    NotFound,
    /// No such event is held: 404.
    UnknownEvent,
    /// No line whose path fits has this method: 405.
    MethodNotAllowed,
    /// A newer poll took the place of this one: 409.
    Replaced,
    /// The event has not ended: 409.
    NotEnded,
    /// The body is too large: 413.
    TooLarge,
    /// As many events are held as may be: 429.
    TooManyEvents,
    /// The environment was reset while this poll was parked: 500.
    EnvironmentReset,
    /// The id that was drawn is in use: 500.
    IdInUse,
    /// The broker is broken or stopping: 503.
    Unavailable,
}

impl Refusal {
    /// The status of the reply that tells it.
    pub fn status(self) -> u16
        ensures { result ≡ (fault_of self).status }
    {
        match self {
            Refusal::UnsupportedInvocationType
            | Refusal::InvalidRequestContent
            | Refusal::InvalidRequestId
            | Refusal::InvalidExtensionHeader
            | Refusal::BadSubscription => 400,
            Refusal::UnknownExtension
            | Refusal::RegistrationClosed
            | Refusal::TooManyExtensions
            | Refusal::WrongPhase => 403,
            Refusal::NotFound | Refusal::UnknownEvent => 404,
            Refusal::MethodNotAllowed => 405,
            Refusal::Replaced | Refusal::NotEnded => 409,
            Refusal::TooLarge => 413,
            Refusal::TooManyEvents => 429,
            Refusal::EnvironmentReset | Refusal::IdInUse => 500,
            Refusal::Unavailable => 503,
        }
    }

    /// Whose fault it is, as AWS's services tell it.
    pub(crate) fn blamed(self) -> &'static str
        ensures { result.now ≡ blamed (fault_of self).status }
    {
        if self.status() >= 500 {
            "Service"
        } else {
            "User"
        }
    }

    /// The error that it is in the public models of the Lambda API.
    pub(crate) fn error_name(self) -> &'static str
        ensures { result.now ≡ error_name self }
    {
        match self {
            Refusal::InvalidRequestContent => "InvalidRequestContentException",
            Refusal::UnsupportedInvocationType
            | Refusal::InvalidRequestId
            | Refusal::InvalidExtensionHeader
            | Refusal::BadSubscription
            | Refusal::UnknownExtension
            | Refusal::RegistrationClosed
            | Refusal::TooManyExtensions
            | Refusal::WrongPhase
            | Refusal::MethodNotAllowed => "InvalidParameterValueException",
            Refusal::NotFound | Refusal::UnknownEvent => "ResourceNotFoundException",
            Refusal::Replaced | Refusal::NotEnded => "ResourceConflictException",
            Refusal::TooLarge => "RequestTooLargeException",
            Refusal::TooManyEvents => "TooManyRequestsException",
            Refusal::EnvironmentReset | Refusal::IdInUse | Refusal::Unavailable => {
                "ServiceException"
            }
        }
    }

    /// Its type and message.
    pub(crate) fn words(self) -> (&'static str, &'static str)
        ensures error_type { result.0.now ≡ (fault_of self).error_type }
        ensures message { result.1.now ≡ (fault_of self).message }
    {
        match self {
            Refusal::UnsupportedInvocationType => (
                "UnsupportedInvocationType",
                "only Event is supported",
            ),
            Refusal::InvalidRequestContent => ("InvalidRequestContent", "payload is not JSON"),
            Refusal::InvalidRequestId => ("InvalidRequestID", "no such request is running here"),
            Refusal::InvalidExtensionHeader => (
                "InvalidExtensionHeader",
                "missing or bad extension header",
            ),
            Refusal::BadSubscription => ("BadSubscription", "events must be INVOKE or SHUTDOWN"),
            Refusal::UnknownExtension => ("UnknownExtension", "extension is not registered"),
            Refusal::RegistrationClosed => ("RegistrationClosed", "registration is closed"),
            Refusal::TooManyExtensions => ("TooManyExtensions", "at most 10 extensions"),
            Refusal::WrongPhase => ("WrongPhase", "not allowed in this phase"),
            Refusal::NotFound => ("NotFound", "no such path or function"),
            Refusal::UnknownEvent => ("UnknownEvent", "no such event is held"),
            Refusal::MethodNotAllowed => ("MethodNotAllowed", "method not allowed"),
            Refusal::Replaced => ("Replaced", "a newer poll took this place"),
            Refusal::NotEnded => ("NotEnded", "event has not ended"),
            Refusal::TooLarge => ("TooLarge", "body is too large"),
            Refusal::TooManyEvents => ("TooManyEvents", "table is full"),
            Refusal::EnvironmentReset => ("EnvironmentReset", "environment was reset"),
            Refusal::IdInUse => ("IdInUse", "drawn id is in use"),
            Refusal::Unavailable => ("Unavailable", "broker is not available"),
        }
    }
}

/// Why a request is not read.
#[derive(Clone, Copy)]
pub enum RequestError {
    /// The first check that fails refuses it.
    Refused(Refusal),
    /// Memory was wanting. Another try may succeed.
    OutOfMemory,
}

impl From<AllocError> for RequestError {
    ghost from_gives = { λ x r. r ≡ OutOfMemory };

    fn from(_: AllocError) -> RequestError {
        RequestError::OutOfMemory
    }
}
