// The reply to an operator.
use crate::admin_context::AdminContext;
use crate::admin_response::{AdminResponse, device_fault};
use admin_replies::AdminRequest;
use futures::Future;
use futures::task::{Context, Poll};
use long_poll::PendingView;
use receipts::Trace;
use std::sync::ledger::Ledger;
use std::sync::{Arc, Wait};
use std::time::Clock;

/// The reply to an operator, which is told once all that it shows is durable.
#[derive(Drop)]
pub(crate) struct PendingReply<R: Wait, L: Ledger, T: Trace> {
    pub(crate) rt: R,
    pub(crate) context: Arc<AdminContext<L, T>>,
    pub(crate) request: AdminRequest,
    pub(crate) view: PendingView<R, L, T>,
}

impl<R: Wait + Clock + Drop, L: Ledger, T: Trace> Future for PendingReply<R, L, T> {
    type Output = AdminResponse;

    ghost use Rattle.std.specs.Prelude.{◌≡◌};
    ghost use Rattle.bell.specs.Bell.{source_of};
    ghost use Rattle.long_poll.specs.PendingView.{unreleased_in};
    ghost use Rattle.admin_port.specs.Replying.{TellsOfUnreleased};

    // claim: Where the reply to a look is pending, its poll has registered at the bell, or is made again. [: needs]
    ghost needs = { λ pending source. source ≡ source_of pending.view.reader.value.bell.value };

    // claim: Page and history aside, a reply tells of what its own future held back, for what was asked, or is 503. [: gives;
    // AdminContext::tell; AdminResponse: tells]
    ghost gives = { λ pending shown. TellsOfUnreleased pending.context.value.baseline pending.request
        (unreleased_in pending.view.view) shown.reply };

    fn poll(&mut self, cx: &mut Context<'_>) -> Poll<AdminResponse> {
        match self.view.poll(cx) {
            Poll::Pending => Poll::Pending,
            Poll::Ready(Ok(told)) => {
                Poll::Ready(self.context.tell(&self.rt, &self.request, &told.view))
            }
            Poll::Ready(Err(_)) => Poll::Ready(device_fault(self.context.alloc)),
        }
    }
}
