// The future of what an operator is shown.
ghost use Rattle.std.specs.Prelude.{◌≡◌, ◌≤◌};
ghost use Rattle.futures.specs.Task.{Covers, Keeps};
ghost use Rattle.futures.specs.Poll.{IfReady, OnPending};

use crate::admin_reader::{AdminReader, TicketedView};
use bell::SaidBroken;
use front_board::Shown;
use futures::Future;
use futures::task::{Context, Poll};
use receipts::{Mark, Trace, Unreleased, View};
use std::sync::ledger::Ledger;
use std::sync::{Arc, Wait};

/// Why nothing is shown.
#[derive(Drop)]
pub enum ViewError {
    /// The hall broke before all that was seen was durable.
    HallBroke(SaidBroken),
    /// It was shown before.
    Given,
}

/// What an operator is shown, with what shows that all of it is durable.
#[derive(Drop)]
pub struct DurableView {
    pub view: View,
    shown: Shown,
}

// What was unreleased, by a receipt of all that it shows.
fn release(unreleased: Unreleased, shown: Shown) -> DurableView
    requires { unreleased.number ≤ shown.receipt }
    ensures view { result.view ≡ unreleased.view }
    ensures shown { result.shown ≡ shown }
{
    match unreleased.release(&shown) {
        Some(view) => DurableView { view, shown },
        None => unreachable!(),
    }
}

/// Waits until what was seen of an office is durable, and then gives it once; or tells that the hall broke before.
#[derive(Drop)]
pub struct PendingView<R: Wait, L: Ledger, T: Trace = Mark> {
    rt: R,
    reader: Arc<AdminReader<L, T>>,
    /// Where it waits at the bell.
    place: u64,
    view: Option<TicketedView>,
}

impl<R: Wait, L: Ledger, T: Trace> PendingView<R, L, T> {
    ghost use Rattle.bell.specs.Bell.{source_of};
    ghost use Rattle.long_poll.specs.PendingView.{unreleased_in, IsOf};

    /// Waits at this reader with what was seen there.
    pub fn new(rt: R, reader: Arc<AdminReader<L, T>>, view: TicketedView) -> PendingView<R, L, T>
        ensures view { result.view ≡ Some view }
        ensures reader { result.reader ≡ reader }
    {
        let place = reader.take_place();
        PendingView {
            rt,
            reader,
            place,
            view: Some(view),
        }
    }

    // Looks at the board: what was seen, where all of it is durable.
    fn check(&mut self) -> Poll<Result<DurableView, ViewError>>
        ensures same { self.new.reader ≡ self.old.reader }
        ensures shown { IfReady result (IsOf (unreleased_in self.old.view)) }
        ensures waits { OnPending result (unreleased_in self.new.view ≡ unreleased_in self.old.view) }
    {
        let Some(view) = self.view.take() else {
            return Poll::Ready(Err(ViewError::Given));
        };
        let (unreleased, ticket) = view.into_parts();
        match self.reader.check(&self.rt, ticket) {
            Ok(shown) => Poll::Ready(Ok(release(unreleased, shown))),
            Err(ticket) => {
                if let Some(said) = self.reader.bell().said_broken() {
                    return Poll::Ready(Err(ViewError::HallBroke(said)));
                }
                self.view = Some(TicketedView::of(unreleased, ticket));
                Poll::Pending
            }
        }
    }

    // The number for which the task registers.
    fn number(&self) -> u64 {
        match &self.view {
            Some(view) => view.number(),
            None => 0,
        }
    }

    // Registers for rings of the number that has to be durable.
    fn register(&self, cx: &mut Context<'_>)
        ensures covers { Covers cx.new (λ source. source ≡ source_of self.now.reader.value.bell.value) }
        ensures kept { Keeps cx.old cx.new }
    {
        let number = self.number();
        let registered = self
            .reader
            .bell()
            .register(&self.rt, self.place, number, cx);
        drop(registered);
    }
}

impl<R: Wait + Drop, L: Ledger, T: Trace> Future for PendingView<R, L, T> {
    type Output = Result<DurableView, ViewError>;

    ghost use Rattle.bell.specs.Bell.{source_of};
    ghost use Rattle.long_poll.specs.PendingView.{unreleased_in, IsOf};

    ghost needs = { λ pending source. source ≡ source_of pending.reader.value.bell.value };

    // claim: The future gives just what was unreleased, with what shows that a board showed all of it durable; or
    // `HallBroke`, or that it was given before. [: gives]
    ghost gives = { λ pending told. IsOf (unreleased_in pending.view) told };

    fn poll(&mut self, cx: &mut Context<'_>) -> Poll<Result<DurableView, ViewError>> {
        if let Poll::Ready(told) = self.check() {
            return Poll::Ready(told);
        }
        self.register(cx);
        self.check()
    }
}
