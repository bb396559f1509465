// How far it is with a record that is tried again.
use crate::admin_response::AdminResponse;
use crate::asked::{Accepted, Asked};
use long_poll::PendingView;
use receipts::Trace;
use std::sync::Wait;
use std::sync::ledger::Ledger;

/// How far it is with a record that is tried again.
#[derive(Drop)]
pub(crate) enum Step<R: Wait, L: Ledger, T: Trace> {
    /// What was seen of its event is not durable yet.
    Looking(PendingView<R, L, T>),
    /// Its payload came as an event, and the reply to that is waited for.
    Accepting(Asked<R, L, T>),
    /// It was accepted so, and the reply to the DELETE of its record is waited for.
    Collecting(Accepted, Asked<R, L, T>),
    /// It was told what became of it.
    Told,
}

/// What comes of a poll.
#[derive(Drop)]
pub(crate) enum Turn<R: Wait, L: Ledger, T: Trace> {
    Waits(Step<R, L, T>),
    Tells(AdminResponse),
}
