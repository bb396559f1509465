// Environments that are reset, told on standard error for whoever keeps a log. No port waits for who reads there.
use api_core::Call;
use hall_core::Issued;
use invoke_records::{Cause, Kind};
use port_meters::Lines;
use std::io::Eprint;
use uuid::Uuid;

/// The status of a report that was taken.
const TAKEN: u16 = 202;

/// What resets an environment once it is reported there (Runtime API, Extensions API).
#[derive(Clone, Copy)]
pub(crate) enum ResetReport {
    /// The runtime could not start.
    RuntimeInit,
    /// An extension could not start.
    ExtensionInit,
    /// An extension ends.
    ExtensionExit,
}

impl ResetReport {
    /// What a call reports, if it does.
    pub(crate) fn of(call: &Call) -> Option<ResetReport> {
        match call {
            Call::RuntimeInitError { .. } => Some(ResetReport::RuntimeInit),
            Call::ExtensionInitError { .. } => Some(ResetReport::ExtensionInit),
            Call::ExtensionExitError { .. } => Some(ResetReport::ExtensionExit),
            _ => None,
        }
    }

    fn text(self) -> &'static str {
        match self {
            ResetReport::RuntimeInit => "its runtime could not start",
            ResetReport::ExtensionInit => "an extension could not start",
            ResetReport::ExtensionExit => "an extension ended",
        }
    }
}

/// Says that this environment was reset, where its report was answered with the status of one that was taken.
pub(crate) fn note_report<R: Eprint>(
    rt: &R,
    lines: &Lines,
    environment: u16,
    report: Option<ResetReport>,
    status: u16,
) {
    let Some(report) = report else {
        return;
    };
    if status == TAKEN {
        let why = report.text();
        let line = format!(in lines.alloc(); "environment {environment} was reset: {why}");
        lines.tell_made(rt, line);
    }
}

/// Says that an environment was reset since its event was not answered in time, where that was issued.
pub(crate) fn note_timeout<R: Eprint>(rt: &R, lines: &Lines, issued: Option<Issued>) {
    let Some(issued) = issued else {
        return;
    };
    if issued.kind != Kind::Fail(Cause::Timeout) {
        return;
    }
    let mut buffer = Uuid::encode_buffer();
    let event = Uuid::from_bytes(issued.id)
        .hyphenated()
        .encode_lower(&mut buffer);
    let line = format!(in lines.alloc();
        "an environment was reset: event {event} was not answered in time"
    );
    lines.tell_made(rt, line);
}
