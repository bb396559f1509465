// The permits of a port: each open connection has one.
ghost use Rattle.std.specs.Prelude.{◌≡◌, ◌+◌, ◌≤◌, ◌<◌, IfOk, OnSome, None};
ghost use Rattle.futures.specs.Task.{IsArmed, Keeps};
ghost use Rattle.futures.specs.Poll.{IfReady, OnPending};

use futures::task::{Context, Poll, Source, Waker};
use port_meters::PortMeter;
use std::alloc::{AllocError, Global};
use std::cell::Cell;
use std::rc::Rc;
use std::sync::Arc;

// Where permits tell that they were given back.
#[derive(Drop)]
struct Returned {
    source: Source,
    // How many were given back since that was asked last.
    count: Cell<usize>,
    // The task that waits for one.
    waker: Cell<Option<Waker>>,
    // Where it is counted how many are out.
    meter: Arc<PortMeter>,
}

impl Returned {
    // A permit was given back. A waker wakes its task when it is dropped.
    fn note(&self) {
        self.meter.note_closed();
        self.count.set(self.count.get().saturating_add(1));
        drop(self.waker.take());
    }

    // The task is woken once a permit is given back.
    fn wait(&self, cx: &mut Context<'_>) -> Poll<()>
        ensures pending { result ≡ Poll.Pending }
        ensures armed { IsArmed cx.new }
        ensures kept { Keeps cx.old cx.new }
    {
        let mut waker = self.waker.take();
        let waits = cx.register(&self.source, &mut waker);
        self.waker.set(waker);
        waits
    }
}

/// The permit of an open connection. It is given back when it is dropped.
pub(crate) struct Permit {
    returned: Rc<Returned>,
}

impl Drop for Permit {
    fn drop(self) {
        let Permit { returned } = self;
        returned.note();
    }
}

/// The permits of a port. No more are taken than there are.
#[derive(Drop)]
pub(crate) struct Permits {
    most: usize,
    taken: usize,
    returned: Rc<Returned>,
    ghost bounded: { taken ≤ most },
}

impl Permits {
    /// So many permits, all free. Those that are taken are counted here.
    pub(crate) fn new(
        alloc: Global,
        most: usize,
        meter: Arc<PortMeter>,
    ) -> Result<Permits, AllocError>
        ensures most { IfOk result (λ permits. permits.most ≡ most) }
        ensures free { IfOk result (λ permits. permits.taken ≡ 0) }
    {
        let returned = Returned {
            source: Source::new(),
            count: Cell::new(0),
            waker: Cell::new(None),
            meter,
        };
        Ok(Permits {
            most,
            taken: 0,
            returned: Rc::new(alloc, returned)?,
        })
    }

    // Those that were given back are free again.
    fn free(&mut self)
        ensures most { self.new.most ≡ self.old.most }
        ensures taken { self.new.taken ≤ self.old.taken }
    {
        let returned = self.returned.count.replace(0);
        self.taken = self.taken.saturating_sub(returned);
    }

    /// Ready while a permit is free.
    pub(crate) fn poll_free(&mut self, cx: &mut Context<'_>) -> Poll<()>
        ensures most { self.new.most ≡ self.old.most }
        // claim: At most as many connections are counted as there are permits, and one more is permitted only while one is
        // free. [: free; Permits::take: taken, none; Permits: bounded; Connections::take: counted]
        ensures free { IfReady result (λ _. self.new.taken < self.new.most) }
        ensures armed { OnPending result (IsArmed cx.new) }
        ensures kept { Keeps cx.old cx.new }
    {
        self.free();
        if self.taken < self.most {
            return Poll::Ready(());
        }
        self.returned.wait(cx)
    }

    /// Takes a permit that is free. None where too many are out to be counted.
    pub(crate) fn take(&mut self) -> Option<Permit>
        requires { self.old.taken < self.old.most }
        ensures most { self.new.most ≡ self.old.most }
        ensures taken { OnSome result (self.new.taken ≡ self.old.taken + 1) }
        ensures none { result ≡ None → self.new.taken ≡ self.old.taken }
    {
        let returned = Rc::clone(&self.returned).ok()?;
        returned.meter.note_opened();
        self.taken += 1;
        Some(Permit { returned })
    }
}
