// The body of a request, as it comes.
ghost use Rattle.std.specs.Prelude.{◌≡◌, ◌++◌, [], Err, IsTrue, OnOk};
ghost use Rattle.futures.specs.Task.{IsArmed, Keeps};
ghost use Rattle.futures.specs.Poll.{IfReady, OnPending};
ghost use Rattle.http_port.specs.ReadBody.{bytes_read};

use bytes::Bytes;
use futures::task::{Context, Poll};
use http_body::{Body, Frame};
use http_body_util::{Limited, LimitedError};
use hyper::body::Incoming;
use std::alloc::{AllocError, Global};
use std::marker::Model;
use std::mem;

/// How many frames of a body are read.
const MOST_FRAMES: u32 = 65536;

/// Why a body was not read.
#[derive(Clone, Copy)]
pub enum BodyError {
    /// The connection failed in it, or it was no body.
    CutOff,
    /// There was no memory for it.
    OutOfMemory,
    /// It has more bytes than are read, or more frames.
    TooLarge,
}

/// The body of a request that was read, or why it was not. Only reading it makes one, and of each request one: whoever is asked
/// with it is asked once. Contracts see its bytes.
#[derive(Drop)]
pub struct ReadBody {
    read: Result<Vec<u8>, BodyError>,
}

impl Model for ReadBody {
    ghost use Rattle.std.specs.Prelude.{List, ℕ, Result};
    ghost use Rattle.http_port.specs.declared.reading.BodyError.{BodyError};
    ghost use Rattle.http_port.specs.ReadBody.{bytes_read};

    ghost Value = { Result (List ℕ) BodyError };

    ghost view = { λ body. bytes_read body.read };
}

impl ReadBody {
    /// That of a request for whose body there was no memory before any of it was read.
    pub(crate) fn without_memory() -> ReadBody
        ensures { result ≡ Err BodyError.OutOfMemory }
    {
        ReadBody {
            read: Err(BodyError::OutOfMemory),
        }
    }

    /// Its bytes, or why they were not read.
    pub fn into_result(self) -> Result<Vec<u8>, BodyError>
        ensures { bytes_read result ≡ self }
    {
        let ReadBody { read } = self;
        read
    }
}

/// What has become of a body.
#[derive(Clone, Copy)]
pub(crate) enum State {
    /// Some of it is left, which is still read or is not.
    Left,
    /// It was read to its end.
    Ended,
    /// It failed. `hyper` knows, and ends the connection.
    Failed,
}

/// A body that is read.
#[derive(Drop)]
pub(crate) struct Reading<I: Drop> {
    alloc: Global,
    body: Limited<Incoming<I>>,
    bytes: Vec<u8>,
    frames: u32,
    // Whether the head says that more comes than is read.
    is_too_long: bool,
    state: State,
}

// What a frame is followed by.
enum Step {
    Goes,
    Ended,
    TooMuch,
    Failed(BodyError),
}

impl<I: Drop> Reading<I> {
    ghost use Rattle.http_port.specs.Reading.{data_in, frames_of, Follows, IsStill, Reads};

    pub(crate) fn new(alloc: Global, body: Incoming<I>, most: usize) -> Reading<I>
        ensures state { result.state ≡ State.Left }
        ensures body { result.body.inner ≡ body }
        ensures bytes { result.bytes.items ≡ [] }
    {
        let is_too_long = body.size_hint().lower() > most as u64;
        Reading {
            alloc,
            body: Limited::new(body, most),
            bytes: Vec::new(alloc),
            frames: 0,
            is_too_long,
            state: State::Left,
        }
    }

    /// How many bytes it takes at most: as many as its head says, and no more than are read. One that is refused by its head takes none.
    pub(crate) fn size(&self) -> u64 {
        if self.is_too_long {
            return 0;
        }
        let most = self.body.size_hint();
        most.upper().unwrap_or(most.lower())
    }

    /// What has become of it so far.
    pub(crate) fn state(&self) -> State
        ensures { result ≡ self.now.state }
    {
        self.state
    }

    // What was read so far.
    fn take_bytes(&mut self) -> Vec<u8>
        ensures { result ≡ self.old.bytes }
    {
        let none = Vec::new(self.alloc);
        mem::replace(&mut self.bytes, none)
    }

    // It is larger than what is read. What was read of it is let go.
    fn let_go(&mut self) -> ReadBody
        ensures { result ≡ Err BodyError.TooLarge }
    {
        drop(self.take_bytes());
        ReadBody {
            read: Err(BodyError::TooLarge),
        }
    }

    // Puts the data of a frame behind what was read.
    fn take_frame(&mut self, frame: &Frame<Bytes>) -> Result<(), AllocError>
        ensures ok { OnOk result (self.new.bytes.items ≡ self.old.bytes.items ++ data_in frame.now) }
        ensures same { (self.new.body ≡ self.old.body) × (self.new.frames ≡ self.old.frames) × (self.new.is_too_long ≡ self.old.is_too_long) }
    {
        match frame.data_ref() {
            Some(data) => self.bytes.extend_from_slice(data.as_slice()),
            None => Ok(()),
        }
    }

    // Reads a frame.
    fn step(&mut self, cx: &mut Context<'_>) -> Poll<Step>
        ensures follows { IfReady result
            (Follows (frames_of self.old.body) (frames_of self.new.body) self.old.bytes.items self.new.bytes.items) }
        ensures still { OnPending result (IsStill self.old self.new) }
        ensures same { (self.new.frames ≡ self.old.frames) × (self.new.is_too_long ≡ self.old.is_too_long) }
        ensures armed { OnPending result (IsArmed cx.new) }
        ensures kept { Keeps cx.old cx.new }
    {
        match self.body.poll_frame(cx) {
            Poll::Pending => Poll::Pending,
            Poll::Ready(None) => Poll::Ready(Step::Ended),
            Poll::Ready(Some(Ok(frame))) => match self.take_frame(&frame) {
                Ok(()) => Poll::Ready(Step::Goes),
                Err(_) => Poll::Ready(Step::Failed(BodyError::OutOfMemory)),
            },
            Poll::Ready(Some(Err(LimitedError::LengthLimit))) => Poll::Ready(Step::TooMuch),
            Poll::Ready(Some(Err(LimitedError::Body(_)))) => {
                self.state = State::Failed;
                Poll::Ready(Step::Failed(BodyError::CutOff))
            }
        }
    }

    /// Reads on. A body that is larger than what is read, or that has not ended after 65536 frames, is told to be too large,
    /// and what was read of it is let go. Where the head says that it is larger, nothing of it is asked for, so that a client
    /// who waits to be asked is refused before it sends it.
    pub(crate) fn poll(&mut self, cx: &mut Context<'_>) -> Poll<ReadBody>
        // claim: A body is told as its frames' data joined in order, as cut off, or as more bytes or frames than are
        // read; or memory is wanting. [: value, same; Reading::step: follows; Reading::take_frame: ok; Requests: calls]
        ensures value { IfReady result (Reads self.old) }
        ensures same { OnPending result ((body : _) → Reads self.new body → Reads self.old body) }

        // claim: A body that is too long by its head is told to be so, and nothing of it is asked for. [: unasked, too_long]
        ensures unasked { IsTrue self.old.is_too_long → self.new.body ≡ self.old.body }
        ensures too_long { IsTrue self.old.is_too_long → result ≡ Poll.Ready (Err BodyError.TooLarge) }
        ensures armed { OnPending result (IsArmed cx.new) }
        ensures kept { Keeps cx.old cx.new }
    {
        if self.is_too_long {
            return Poll::Ready(ReadBody {
                read: Err(BodyError::TooLarge),
            });
        }
        for frame in self.frames..MOST_FRAMES {
            match self.step(cx) {
                Poll::Pending => {
                    self.frames = frame;
                    return Poll::Pending;
                }
                Poll::Ready(Step::Goes) => {}
                Poll::Ready(Step::Ended) => {
                    self.state = State::Ended;
                    let read = Ok(self.take_bytes());
                    return Poll::Ready(ReadBody { read });
                }
                Poll::Ready(Step::TooMuch) => return Poll::Ready(self.let_go()),
                Poll::Ready(Step::Failed(why)) => {
                    return Poll::Ready(ReadBody { read: Err(why) });
                }
            }
        }
        Poll::Ready(self.let_go())
    }
}
