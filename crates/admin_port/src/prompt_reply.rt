// A reply that waits for nothing.
use crate::admin_response::AdminResponse;
use admin_replies::AdminReply;
use futures::Future;
use futures::task::{Context, Poll};

/// The reply to an operator that is told at once. None where memory is wanting.
#[derive(Drop)]
pub(crate) struct PromptReply {
    pub(crate) reply: Option<AdminReply>,
}

impl Future for PromptReply {
    type Output = AdminResponse;

    ghost use Rattle.std.specs.Prelude.{◌≡◌};

    ghost gives = { λ prompt shown. shown.reply ≡ prompt.reply };

    fn poll(&mut self, _cx: &mut Context<'_>) -> Poll<AdminResponse> {
        Poll::Ready(AdminResponse {
            reply: self.reply.take(),
        })
    }
}
