// The future of one reply.
ghost use Rattle.std.specs.Prelude.{◌≡◌, Some, None, IfSome, IfNone, OnSome};
ghost use Rattle.futures.specs.Task.{Covers, Keeps};

use crate::port::{Arrived, Port};
use bell::{Parked, Registered, SaidBroken};
use broker_core::{Receipt, Ticket};
use futures::Future;
use futures::task::{Context, Poll};
use hall_core::Released;
use receipts::{Mark, Trace, Witnessed};
use std::mem;
use std::sync::ledger::Ledger;
use std::sync::{Arc, Wait};

// How far a reply is.
#[derive(Drop)]
enum Progress {
    // What was issued when the request came is not durable yet, as far as the port knows.
    Issued(Ticket),
    // It is durable. The reply may be computed later.
    Durable(Receipt),
    // The reply was computed, and may be told once so much is durable.
    Answered(Receipt, u64),
    // It was told.
    Told,
}

// Why the office may be asked for a reply.
#[derive(Drop)]
enum TakeReason {
    Durable(Receipt),
    HallBroke(SaidBroken),
}

/// Waits for the reply of one slot, and gives it once it may be told. Where it is dropped before, the slot is forgotten.
pub struct Waiting<R: Wait, L: Ledger, T: Trace = Mark> {
    rt: R,
    port: Arc<Port<L, T>>,
    slot: u64,
    progress: Progress,
    // What stood under the office's lock around the call that got the slot.
    seen: Witnessed<(), L, T>,
}

impl<R: Wait, L: Ledger, T: Trace> Waiting<R, L, T> {
    ghost use Rattle.bell.specs.Bell.{IsUnder, IsParkedAt, source_of};
    ghost use Rattle.long_poll.specs.Waiting.{number_at, number_for, IsTaken};

    /// Waits for the reply of a request that came to this port.
    pub fn new(rt: R, port: Arc<Port<L, T>>, arrived: Arrived<L, T>) -> Waiting<R, L, T>
        // claim: A future waits for the slot that its own call got. [: slot, seen; Port::arrive: done]
        ensures slot { result.slot ≡ arrived.slot }
        ensures seen { result.seen ≡ arrived.seen }
        ensures number { number_at result.progress ≡ Some arrived.ticket }
        ensures port { result.port ≡ port }
    {
        let Arrived {
            ticket,
            slot,
            seen,
            ..
        } = arrived;
        let progress = Progress::Issued(ticket);
        Waiting {
            rt,
            port,
            slot,
            progress,
            seen,
        }
    }

    // The number for which the task registers: once that is durable, the office may be asked.
    fn number(&self) -> u64
        ensures { result ≡ number_for self.now.progress }
    {
        match &self.progress {
            Progress::Issued(ticket) => ticket.number(),
            _ => u64::MAX,
        }
    }

    // Registers for rings of this number and above.
    fn register(&self, number: u64, cx: &mut Context<'_>) -> Registered
        ensures under { IsUnder result self.now.slot number }
        ensures covers { Covers cx.new (λ source. source ≡ source_of self.now.port.value.bell.value) }
        ensures kept { Keeps cx.old cx.new }
    {
        self.port.bell().register(&self.rt, self.slot, number, cx)
    }

    // Registers for the slot's answer.
    fn park(&self, cx: &mut Context<'_>) -> Parked
        ensures under { IsParkedAt result self.now.slot }
        ensures covers { Covers cx.new (λ source. source ≡ source_of self.now.port.value.bell.value) }
        ensures kept { Keeps cx.old cx.new }
    {
        self.port.bell().park(&self.rt, self.slot, cx)
    }

    // Looks at the board for a ticket: why the office may be asked, if it may.
    fn check(&mut self, ticket: Ticket) -> Option<TakeReason>
        ensures same { (self.new.slot ≡ self.old.slot) × (self.new.port ≡ self.old.port) }
        ensures number { number_at self.new.progress ≡ Some ticket }
        ensures waits { IfNone result (number_for self.new.progress ≡ ticket) }
    {
        match self.port.check(&self.rt, ticket) {
            Ok(receipt) => {
                self.progress = Progress::Durable(receipt);
                Some(TakeReason::Durable(receipt))
            }
            Err(ticket) => {
                self.progress = Progress::Issued(ticket);
                let said = self.port.bell().said_broken()?;
                Some(TakeReason::HallBroke(said))
            }
        }
    }

    // Looks whether the office may be asked, and why.
    fn look(&mut self) -> Option<TakeReason>
        ensures same { (self.new.slot ≡ self.old.slot) × (self.new.port ≡ self.old.port) }
        ensures number { number_at self.new.progress ≡ number_at self.old.progress }
    {
        match mem::replace(&mut self.progress, Progress::Told) {
            Progress::Issued(ticket) => self.check(ticket),
            Progress::Durable(receipt) => {
                self.progress = Progress::Durable(receipt);
                Some(TakeReason::Durable(receipt))
            }
            Progress::Answered(receipt, number) => {
                self.progress = Progress::Answered(receipt, number);
                Some(TakeReason::Durable(receipt))
            }
            Progress::Told => None,
        }
    }

    // Looks again, after the task has registered for its number.
    fn look_again(&mut self, registered: Registered) -> Option<TakeReason>
        requires { IsUnder registered self.old.slot (number_for self.old.progress) }
        ensures same { (self.new.slot ≡ self.old.slot) × (self.new.port ≡ self.old.port) }
        ensures number { number_at self.new.progress ≡ number_at self.old.progress }
    {
        drop(registered);
        self.look()
    }

    // Why the office may be asked. Where it may not, the task has registered, and looked after that.
    fn cause(&mut self, cx: &mut Context<'_>) -> Option<TakeReason>
        ensures same { (self.new.slot ≡ self.old.slot) × (self.new.port ≡ self.old.port) }
        ensures number { number_at self.new.progress ≡ number_at self.old.progress }
        ensures covers { IfNone result (Covers cx.new (λ source. source ≡ source_of self.old.port.value.bell.value)) }
        ensures kept { Keeps cx.old cx.new }
    {
        let cause = self.look();
        if cause.is_some() {
            return cause;
        }
        let registered = self.register(self.number(), cx);
        self.look_again(registered)
    }

    // Takes the reply, if it may be told.
    fn take(&mut self) -> Option<Witnessed<Released, L, T>>
        ensures same { (self.new.slot ≡ self.old.slot) × (self.new.port ≡ self.old.port) }
        ensures takes { IfSome result (IsTaken self.old.slot) }
        ensures told { OnSome result (number_at self.new.progress ≡ None) }
        ensures waits { IfNone result (number_at self.new.progress ≡ number_at self.old.progress) }
    {
        let (answer, seen) = self.port.take(&self.rt, self.slot).split();
        let released = answer?;
        self.progress = Progress::Told;
        Some(seen.with(released))
    }

    // Asks the office, of which there has to be a cause.
    fn ask(&mut self, cause: TakeReason) -> Option<Witnessed<Released, L, T>>
        ensures same { (self.new.slot ≡ self.old.slot) × (self.new.port ≡ self.old.port) }
        ensures takes { IfSome result (IsTaken self.old.slot) }
        ensures told { OnSome result (number_at self.new.progress ≡ None) }
        ensures waits { IfNone result (number_at self.new.progress ≡ number_at self.old.progress) }
    {
        drop(cause);
        self.take()
    }

    // Takes the reply, after the task has registered for the number at which it may be told.
    fn take_registered(&mut self, registered: Registered) -> Option<Witnessed<Released, L, T>>
        requires { registered.slot ≡ self.old.slot }
        ensures same { (self.new.slot ≡ self.old.slot) × (self.new.port ≡ self.old.port) }
        ensures takes { IfSome result (IsTaken self.old.slot) }
        ensures told { OnSome result (number_at self.new.progress ≡ None) }
        ensures waits { IfNone result (number_at self.new.progress ≡ number_at self.old.progress) }
    {
        drop(registered);
        self.take()
    }

    // The number at which the reply may be told, if that is known.
    fn known_point(&self) -> Option<u64> {
        match &self.progress {
            Progress::Answered(_, number) => Some(*number),
            _ => None,
        }
    }

    // Asks at which number the reply may be told, after the task has registered for the slot's answer.
    fn ask_point(&mut self, parked: &Parked) -> Option<u64>
        requires { IsParkedAt parked.now self.old.slot }
        ensures same { (self.new.slot ≡ self.old.slot) × (self.new.port ≡ self.old.port) }
        ensures number { number_at self.new.progress ≡ number_at self.old.progress }
    {
        let _ = parked;
        let number = self.port.point(&self.rt, self.slot).answer?;
        if let Progress::Durable(receipt) = &self.progress {
            self.progress = Progress::Answered(*receipt, number);
        }
        Some(number)
    }

    // Registers for the slot's answer, and where that was computed, for its number. None where it was not.
    fn register_again(&mut self, cx: &mut Context<'_>) -> Option<Registered>
        ensures same { (self.new.slot ≡ self.old.slot) × (self.new.port ≡ self.old.port) }
        ensures number { number_at self.new.progress ≡ number_at self.old.progress }
        ensures under { IfSome result (λ registered. registered.slot ≡ self.old.slot) }
        ensures covers { Covers cx.new (λ source. source ≡ source_of self.old.port.value.bell.value) }
        ensures kept { Keeps cx.old cx.new }
    {
        if let Some(number) = self.known_point() {
            return Some(self.register(number, cx));
        }
        let parked = self.park(cx);
        let number = self.ask_point(&parked)?;
        Some(self.port.bell().go_on(&self.rt, parked, number))
    }

    // Waits for the reply: for the slot's answer, and where that was computed, for its number.
    fn wait(&mut self, cx: &mut Context<'_>) -> Option<Witnessed<Released, L, T>>
        ensures same { (self.new.slot ≡ self.old.slot) × (self.new.port ≡ self.old.port) }
        ensures takes { IfSome result (IsTaken self.old.slot) }
        ensures covers { IfNone result (Covers cx.new (λ source. source ≡ source_of self.old.port.value.bell.value)) }
        ensures kept { Keeps cx.old cx.new }
    {
        let registered = self.register_again(cx)?;
        self.take_registered(registered)
    }
}

impl<R: Wait + Drop, L: Ledger, T: Trace> Future for Waiting<R, L, T> {
    type Output = Witnessed<Released, L, T>;

    ghost use Rattle.bell.specs.Bell.{source_of};
    ghost use Rattle.long_poll.specs.Waiting.{IsTaken};

    // claim: Where the future of a reply is pending it has registered at the bell, or is polled again. [: needs]
    ghost needs = { λ waiting source. source ≡ source_of waiting.port.value.bell.value };

    // claim: The future gives the reply that the hall under the lock gave its slot.
    ghost gives = { λ waiting told. IsTaken waiting.slot told };

    fn poll(&mut self, cx: &mut Context<'_>) -> Poll<Witnessed<Released, L, T>> {
        let Some(cause) = self.cause(cx) else {
            return Poll::Pending;
        };
        if let Some(told) = self.ask(cause) {
            return Poll::Ready(told);
        }
        match self.wait(cx) {
            Some(told) => Poll::Ready(told),
            None => Poll::Pending,
        }
    }
}

impl<R: Wait + Drop, L: Ledger, T: Trace> Drop for Waiting<R, L, T> {
    fn drop(self) {
        let Waiting {
            rt,
            port,
            slot,
            progress,
            seen: _,
        } = self;
        if !matches!(progress, Progress::Told) {
            port.bell().leave(&rt, slot);
            port.forget(&rt, slot);
        }
    }
}
