// What the committer and the ticker sleep on.
ghost use Rattle.std.specs.Prelude.{◌≡◌, Some, None, IfSome, is_some};

use futures::task::Source;
use std::snapshot::Snapshot as Seen;
use std::sync::{Condvar, Mutex, Wait};
use std::time::{Clock, Duration};
use std::{mem, thread};

/// That a thread was called. Only a call gives it. Proofs see in it by which wake.
#[derive(Drop)]
pub struct Called {
    at: Seen<Source>,
}

/// That a thread slept at a wake, or had been called: for so many milliseconds at most, where there is a bound. Only a sleep gives
/// it.
#[derive(Drop)]
pub(crate) struct Slept {
    at_most: Option<u64>,
    at: Seen<Source>,
}

/// That a thread slept for so many milliseconds, whoever called. Only that gives it.
#[derive(Drop)]
pub(crate) struct Paused {
    millis: u64,
}

/// A call that one thread sleeps for. A call that comes while it is awake is kept, so that none is missed.
#[derive(Drop)]
pub(crate) struct Wake {
    /// The name of this wake, for proofs.
    source: Source,
    called: Mutex<bool>,
    calls: Condvar,
}

impl Wake {
    pub(crate) fn new() -> Wake {
        Wake {
            source: Source::new(),
            called: Mutex::new(false),
            calls: Condvar::new(),
        }
    }

    /// Calls. Where it was called already since the thread was last awake, that call wakes it.
    pub(crate) fn call<R: Wait>(&self, rt: &R) -> Called
        ensures { result.at.value ≡ self.now.source }
    {
        let was_called = mem::replace(&mut *self.called.lock(rt), true);
        if !was_called {
            self.calls.notify_one();
        }
        Called {
            at: Seen::of(&self.source),
        }
    }

    /// Calls, where that is wanted.
    pub(crate) fn call_if<R: Wait>(&self, rt: &R, wanted: bool) -> Option<Called>
        ensures called { is_some result ≡ wanted }
        ensures wake { IfSome result (λ called. called.at.value ≡ self.now.source) }
    {
        if wanted { Some(self.call(rt)) } else { None }
    }

    /// Sleeps until it is called, or has been since the last time.
    pub(crate) fn wait<R: Wait>(&self, rt: &R) -> Slept
        ensures at_most { result.at_most ≡ None }
        ensures wake { result.at.value ≡ self.now.source }
    {
        let mut called = self
            .calls
            .wait_while(rt, self.called.lock(rt), |called| !*called);
        *called = false;
        Slept {
            at_most: None,
            at: Seen::of(&self.source),
        }
    }

    /// The same, for so many milliseconds at most.
    pub(crate) fn wait_at_most<R: Wait + Clock>(&self, rt: &R, millis: u64) -> Slept
        ensures at_most { result.at_most ≡ Some millis }
        ensures wake { result.at.value ≡ self.now.source }
    {
        let (mut called, _) = self.calls.wait_timeout_while(
            rt,
            self.called.lock(rt),
            Duration::from_millis(millis),
            |called| !*called,
        );
        *called = false;
        Slept {
            at_most: Some(millis),
            at: Seen::of(&self.source),
        }
    }
}

/// Sleeps for so many milliseconds, whoever calls.
pub(crate) fn pause<R: Clock>(rt: &R, millis: u64) -> Paused
    ensures { result.millis ≡ millis }
{
    thread::sleep(rt, Duration::from_millis(millis));
    Paused { millis }
}
