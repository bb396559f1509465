// The room that the bodies of a port have while they are under way.
ghost use Rattle.std.specs.Prelude.{◌≡◌, ◌≤◌, ◌↔◌, true, IfOk, IfSome, min};
ghost use Rattle.std.proofs.Props.{props};
ghost use Rattle.futures.specs.Task.{IsArmed, Keeps};
ghost use Rattle.futures.specs.Poll.{IfReady, OnPending};
ghost use Rattle.tokio.specs.Locks.{owned_num_permits};
ghost use Rattle.http_port.specs.Room.{units_in, WaitsFor};

use futures::Future;
use futures::task::{Context, Poll};
use std::alloc::{AllocError, Global};
use std::sync::Arc;
use tokio::sync::{AcquireOwned, OwnedSemaphorePermit, Semaphore};

/// How many bytes of a body one permit stands for.
const UNIT: u64 = 1024;

// How many permits so many bytes want.
fn units_in(bytes: u64) -> u32
    ensures { result ≡ units_in bytes }
{
    bytes.div_ceil(UNIT).min(u64::from(u32::MAX)) as u32
}

/// Room for the bodies that are under way at a port, in units of 1024 bytes. A body for which there is none waits until there is, the
/// oldest first. One that is larger than all of it waits for all of it.
#[derive(Drop)]
pub struct BodyRoom {
    free: Arc<Semaphore>,
    most: u32,
}

impl BodyRoom {
    /// Room for so many bytes. Only want of memory is refused.
    pub fn new(alloc: Global, bytes: u64) -> Result<BodyRoom, AllocError>
        ensures { IfOk result (λ room. room.most ≡ units_in bytes) }
    {
        let most = units_in(bytes);
        let free = Semaphore::new(alloc, most as usize)?;
        Ok(BodyRoom {
            free: Arc::new(alloc, free)?,
            most,
        })
    }

    /// The same room. Only want of memory is refused.
    pub fn another(&self) -> Result<BodyRoom, AllocError>
        ensures { IfOk result (λ room. room.most ≡ self.now.most) }
    {
        Ok(BodyRoom {
            free: Arc::try_clone(&self.free)?,
            most: self.most,
        })
    }

    /// The place of a body of so many bytes, which waits for it.
    pub(crate) fn place(&self, bytes: u64) -> BodyPlace
        ensures { result.units ≡ min (units_in bytes) self.now.most }
    {
        let units = units_in(bytes).min(self.most);
        let wanted = match Arc::try_clone(&self.free) {
            Ok(free) => Some(Semaphore::acquire_many_owned(free, units)),
            Err(_) => None,
        };
        BodyPlace {
            units,
            wanted,
            had: None,
        }
    }
}

/// The place of a body in the room of its port. It is given back when it is dropped.
#[derive(Drop)]
pub(crate) struct BodyPlace {
    units: u32,
    // None once it is had, and where memory was wanting.
    wanted: Option<AcquireOwned>,
    had: Option<OwnedSemaphorePermit>,
    ghost waits: { IfSome wanted (WaitsFor units) } by { Prim.hlevel props },
    ghost fits: { IfSome had (λ had. owned_num_permits had ≡ units) } by { Prim.hlevel props },
}

impl BodyPlace {
    ghost use Rattle.http_port.specs.Place.{HasPlace};

    // Waits for it, where it is not had yet: whether it is had.
    fn poll_wanted(&mut self, cx: &mut Context<'_>) -> Poll<bool>
        ensures units { self.new.units ≡ self.old.units }
        ensures has { result ≡ Poll.Ready true → HasPlace self.new }
        ensures armed { OnPending result (IsArmed cx.new) }
        ensures kept { Keeps cx.old cx.new }
    {
        let Some(mut wanted) = self.wanted.take() else {
            return Poll::Ready(false);
        };
        match wanted.poll(cx) {
            Poll::Pending => {
                self.wanted = Some(wanted);
                Poll::Pending
            }
            Poll::Ready(Ok(had)) => {
                self.had = Some(had);
                Poll::Ready(true)
            }
            Poll::Ready(Err(_)) => Poll::Ready(false),
        }
    }

    /// Ready with true once it is had, or none is wanted. Ready with false where there was no memory to wait.
    pub(crate) fn poll(&mut self, cx: &mut Context<'_>) -> Poll<bool>
        ensures units { self.new.units ≡ self.old.units }
        ensures has { result ≡ Poll.Ready true → HasPlace self.new }
        ensures armed { OnPending result (IsArmed cx.new) }
        ensures kept { Keeps cx.old cx.new }
    {
        if self.units == 0 || self.had.is_some() {
            return Poll::Ready(true);
        }
        self.poll_wanted(cx)
    }
}
