// What is counted of a port's connections.
use crate::histogram::{Histogram, Spread};
use std::alloc::{AllocError, Global};
use std::sync::Arc;
use std::sync::atomic::{AtomicU64, Ordering};

/// Why a request did not come to what its port serves.
#[derive(Clone, Copy)]
pub enum Unread {
    /// Its head is none of HTTP.
    BadHead,
    /// Its target or its head is too long.
    HeadTooLarge,
    /// The connection ended in its head.
    HeadCutOff,
    /// Its head did not come in time.
    HeadLate,
    /// The connection ended in its body.
    BodyCutOff,
    /// Its body did not come in time.
    BodyLate,
    /// A web page made it, or it is for another host.
    Forbidden,
}

/// How many requests did not come to what their port serves, by why.
#[derive(Clone, Copy)]
pub struct UnreadCounts {
    pub bad_head: u64,
    pub head_too_large: u64,
    pub head_cut_off: u64,
    pub head_late: u64,
    pub body_cut_off: u64,
    pub body_late: u64,
    pub forbidden: u64,
}

/// What is counted of a port's connections, by numbers that its thread and whoever shows them share.
#[derive(Drop)]
pub struct PortMeter {
    open: AtomicU64,
    bad_head: AtomicU64,
    head_too_large: AtomicU64,
    head_cut_off: AtomicU64,
    head_late: AtomicU64,
    body_cut_off: AtomicU64,
    body_late: AtomicU64,
    forbidden: AtomicU64,
    // Whether a GET is a long poll here.
    has_polls: bool,
    // How long long polls took, from their heads to their replies.
    polls: Histogram,
    // How long other requests did.
    others: Histogram,
}

impl PortMeter {
    /// Nothing was counted. A GET may be a long poll.
    pub fn new(alloc: Global, has_polls: bool) -> Result<Arc<PortMeter>, AllocError> {
        let meter = PortMeter {
            open: AtomicU64::new(0),
            bad_head: AtomicU64::new(0),
            head_too_large: AtomicU64::new(0),
            head_cut_off: AtomicU64::new(0),
            head_late: AtomicU64::new(0),
            body_cut_off: AtomicU64::new(0),
            body_late: AtomicU64::new(0),
            forbidden: AtomicU64::new(0),
            has_polls,
            polls: Histogram::new(),
            others: Histogram::new(),
        };
        Ok(Arc::new(alloc, meter)?)
    }

    /// A connection was accepted.
    pub fn note_opened(&self) {
        self.open.fetch_add(1, Ordering::SeqCst);
    }

    /// A connection that was accepted has ended.
    pub fn note_closed(&self) {
        self.open.fetch_sub(1, Ordering::SeqCst);
    }

    /// A request did not come to what the port serves.
    pub fn note_unread(&self, why: Unread) {
        let count = match why {
            Unread::BadHead => &self.bad_head,
            Unread::HeadTooLarge => &self.head_too_large,
            Unread::HeadCutOff => &self.head_cut_off,
            Unread::HeadLate => &self.head_late,
            Unread::BodyCutOff => &self.body_cut_off,
            Unread::BodyLate => &self.body_late,
            Unread::Forbidden => &self.forbidden,
        };
        count.fetch_add(1, Ordering::SeqCst);
    }

    /// A request was answered, so many microseconds after its head was read.
    pub fn note_reply(&self, is_get: bool, took: u64) {
        if is_get && self.has_polls {
            self.polls.note(took);
        } else {
            self.others.note(took);
        }
    }

    /// How many connections are open.
    pub fn open(&self) -> u64 {
        self.open.load(Ordering::SeqCst)
    }

    /// How many requests did not come to what the port serves.
    pub fn unread(&self) -> UnreadCounts {
        UnreadCounts {
            bad_head: self.bad_head.load(Ordering::SeqCst),
            head_too_large: self.head_too_large.load(Ordering::SeqCst),
            head_cut_off: self.head_cut_off.load(Ordering::SeqCst),
            head_late: self.head_late.load(Ordering::SeqCst),
            body_cut_off: self.body_cut_off.load(Ordering::SeqCst),
            body_late: self.body_late.load(Ordering::SeqCst),
            forbidden: self.forbidden.load(Ordering::SeqCst),
        }
    }
    /// How long long polls took.
    pub fn polls(&self) -> Spread {
        self.polls.read()
    }

    /// How long other requests took.
    pub fn others(&self) -> Spread {
        self.others.read()
    }
}
