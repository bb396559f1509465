// The settings of a function.
ghost use Rattle.std.specs.Prelude.{◌≡◌, IfOk};
ghost use Rattle.retry_rules.specs.Settings.{policy_of};

use crate::{RetryPolicy, Text};
use std::alloc::AllocError;
use thiserror::Error;

/// The settings of a function, which a disk is formatted with.
#[derive(Debug, Drop)]
pub struct Settings {
    /// `MaximumRetryAttempts`: how often an event is tried again after a function error, 0 to 2.
    /// With the age it is the retry policy of all events that are accepted before the first Configure.
    pub retries: u8,
    /// `MaximumEventAgeInSeconds`: 60 to 21600 seconds.
    pub age: u32,
    /// The function's timeout, 1 to 900 seconds.
    pub timeout: u16,
    /// Reserved concurrency: how many attempts may run at once, 1 to 64.
    pub concurrency: u8,
    /// How many environments there are, 1 to 16.
    pub environments: u8,
    /// How many events may be held at once, 1 to 1024.
    pub events: u16,
    /// The greatest payload, 2 to 1048576 bytes.
    pub payload: u32,
    /// The greatest response or error body, 2 to 262144 bytes.
    pub response: u32,
    /// The function's name: 1 to 64 letters, digits, `-` and `_`.
    pub name: Text,
    /// The function's handler: 1 to 128 bytes of 0x21 to 0x7E without `"` and `\`.
    pub handler: Text,
    /// The function's ARN: 1 to 200 bytes of 0x21 to 0x7E without `"` and `\`.
    pub arn: Text,
}

/// A field of the settings, in the order in which they are checked.
#[derive(Clone, Copy, Debug, PartialEq, Eq, Error)]
pub enum Field {
    #[error("retries")]
    Retries,
    #[error("age")]
    Age,
    #[error("timeout")]
    Timeout,
    #[error("concurrency")]
    Concurrency,
    #[error("environments")]
    Environments,
    #[error("events")]
    Events,
    #[error("payload")]
    Payload,
    #[error("response")]
    Response,
    #[error("name")]
    Name,
    #[error("handler")]
    Handler,
    #[error("arn")]
    Arn,
}

/// Settings with a field outside its range.
#[derive(Clone, Copy, Debug, PartialEq, Eq, Error)]
#[error("bad settings: {field}")]
pub struct BadSettings {
    /// The first such field.
    pub field: Field,
}

impl Settings {
    /// The retry policy that is in force until a Configure brings another. It takes no memory.
    pub fn policy(&self) -> RetryPolicy
        ensures { result ≡ policy_of self.now }
    {
        RetryPolicy {
            retries: self.retries,
            age: self.age,
        }
    }

    /// Equal settings in memory of their own.
    pub fn copy(&self) -> Result<Settings, AllocError>
        ensures { IfOk result (λ copy. copy ≡ self.now) }
    {
        Ok(Settings {
            retries: self.retries,
            age: self.age,
            timeout: self.timeout,
            concurrency: self.concurrency,
            environments: self.environments,
            events: self.events,
            payload: self.payload,
            response: self.response,
            name: self.name.copy()?,
            handler: self.handler.copy()?,
            arn: self.arn.copy()?,
        })
    }
}
