// The table of requests.
ghost use Rattle.std.specs.Prelude.{◌≡◌};
ghost use Rattle.api_core.specs.Paths.{line_of};

/// What a path and a method ask for: one variant for each line of the table of requests.
#[derive(Clone, Copy)]
pub(crate) enum Route {
    Invoke,
    InvokeAsync,
    /// As the public reference has it; newer models leave the slash out.
    InvokeAsyncSlash,
    GetFunction,
    GetConfiguration,
    OldestSuccess,
    OldestFailure,
    Delete,
    StopBroker,
    RuntimeNext,
    Response,
    RuntimeError,
    RuntimeInitError,
    Register,
    ExtensionNext,
    ExtensionInitError,
    ExtensionExitError,
    Telemetry,
    Logs,
}

impl Route {
    /// The method and the path of a route. A segment as `{id}` is a hole.
    pub(crate) fn line(self) -> (&'static str, &'static str)
        ensures method { result.0.now ≡ (line_of self).0 }
        ensures path { result.1.now ≡ (line_of self).1 }
    {
        match self {
            Route::Invoke => ("POST", "/2015-03-31/functions/{FunctionName}/invocations"),
            Route::InvokeAsync => ("POST", "/2014-11-13/functions/{FunctionName}/invoke-async"),
            Route::InvokeAsyncSlash => {
                ("POST", "/2014-11-13/functions/{FunctionName}/invoke-async/")
            }
            Route::GetFunction => ("GET", "/2015-03-31/functions/{FunctionName}"),
            Route::GetConfiguration => (
                "GET",
                "/2015-03-31/functions/{FunctionName}/configuration",
            ),
            Route::OldestSuccess => ("GET", "/broker/destinations/success"),
            Route::OldestFailure => ("GET", "/broker/destinations/failure"),
            Route::Delete => ("DELETE", "/broker/destinations/{id}"),
            Route::StopBroker => ("POST", "/broker/stop"),
            Route::RuntimeNext => ("GET", "/2018-06-01/runtime/invocation/next"),
            Route::Response => ("POST", "/2018-06-01/runtime/invocation/{id}/response"),
            Route::RuntimeError => ("POST", "/2018-06-01/runtime/invocation/{id}/error"),
            Route::RuntimeInitError => ("POST", "/2018-06-01/runtime/init/error"),
            Route::Register => ("POST", "/2020-01-01/extension/register"),
            Route::ExtensionNext => ("GET", "/2020-01-01/extension/event/next"),
            Route::ExtensionInitError => ("POST", "/2020-01-01/extension/init/error"),
            Route::ExtensionExitError => ("POST", "/2020-01-01/extension/exit/error"),
            Route::Telemetry => ("PUT", "/2022-07-01/telemetry"),
            Route::Logs => ("PUT", "/2020-08-15/logs"),
        }
    }
}
