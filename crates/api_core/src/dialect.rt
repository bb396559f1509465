// In which words replies are.

/// The words in which requests are read and replies are told.
#[derive(Clone, Copy)]
pub enum Dialect {
    /// This broker's own: each error has one type and one message, on every port.
    Profile,
    /// Those that AWS's kits know: errors of callers as the public models of the Lambda API name them, partial ARNs, reasons
    /// of a shutdown in lower case, InvokeAsync, dry runs and what the function is, a response that is too large as the
    /// function's error, and requests for telemetry and logs, which are answered as AWS's emulator does.
    Aws,
}

/// Whom a refusal is told: callers and environments are told an error in different words in the dialect `Aws`.
#[derive(Clone, Copy)]
pub enum Audience {
    /// Who asked on the callers' port.
    Caller,
    /// A runtime or an extension.
    Environment,
}

/// What a caller may ask of the function, which is answered from the settings.
#[derive(Clone, Copy)]
pub enum Description {
    /// Lambda API, Invoke with the type `DryRun`: whether an invocation could be made.
    DryRun,
    /// Lambda API, GetFunction.
    Function,
    /// Lambda API, GetFunctionConfiguration.
    Configuration,
}

/// What an extension may ask to be sent, which this broker does not send.
#[derive(Clone, Copy)]
pub enum Stream {
    /// Telemetry API, Subscribe.
    Telemetry,
    /// Logs API, Subscribe.
    Logs,
}
