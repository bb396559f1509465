// The reply to a list of records that are to be collected.
ghost use Rattle.std.specs.Prelude.{◌≡◌, map, Some, IfSome, IfOk, option_map};
ghost use Rattle.futures.specs.Task.{IsArmed, Keeps};
ghost use Rattle.futures.specs.Poll.{OnPending};
ghost use Rattle.admin_replies.specs.Collecting.{line_in};
ghost use Rattle.admin_port.specs.Collecting.{TellsOfLines};

use crate::admin_response::{AdminResponse, unavailable};
use crate::entry::Entry;
use admin_replies::{ToldLine, list_reply};
use futures::Future;
use futures::task::{Context, Poll};
use long_poll::Acting;
use receipts::Trace;
use std::alloc::{AllocError, Global};
use std::sync::ledger::Ledger;
use std::sync::{Arc, Wait};

/// How many records are judged at a turn, before what became of them is waited for. As many commands may be pending four times
/// over, so nobody else is turned away.
const MOST_AT_ONCE: usize = 64;

/// The reply to a list, which is told once what became of each of its records is durable.
#[derive(Drop)]
pub(crate) struct Collecting<R: Wait, L: Ledger, T: Trace, A> {
    rt: R,
    alloc: Global,
    acting: Arc<A>,
    entries: Vec<Entry<R, L, T>>,
    // Of so many it is known what is told.
    told: usize,
    // So many were judged.
    judged: usize,
}

// A line for each of these ids.
fn entries_of<R: Wait + Drop, L: Ledger, T: Trace>(
    alloc: Global,
    ids: &[Option<[u8; 16]>],
) -> Result<Vec<Entry<R, L, T>>, AllocError>
    ensures { IfOk result (λ entries. map (λ entry. entry.id) entries.items ≡ ids.now) }
{
    let mut entries = Vec::with_capacity(alloc, ids.len())?;
    for id in ids {
        entries.push(Entry::new(*id))?;
    }
    Ok(entries)
}

// What is told of each of these. None where that of one is not known, or memory is wanting.
fn lines_of<R: Wait + Drop, L: Ledger, T: Trace>(
    alloc: Global,
    entries: &[Entry<R, L, T>],
) -> Option<Vec<ToldLine>>
    ensures { IfSome result (λ lines. map Some lines.items
        ≡ map (λ entry. line_in entry.id (option_map (λ told. told.answer) entry.told)) entries.now) }
{
    let mut lines = Vec::with_capacity(alloc, entries.len()).ok()?;
    for entry in entries {
        lines.push(entry.line()?).ok()?;
    }
    Some(lines)
}

// What is told of all of these together.
fn response_to<R: Wait + Drop, L: Ledger, T: Trace>(
    alloc: Global,
    entries: &[Entry<R, L, T>],
) -> AdminResponse
    ensures { IfSome result.reply (TellsOfLines (λ entry. entry.id)
        (λ entry. line_in entry.id (option_map (λ told. told.answer) entry.told)) entries.now) }
{
    match lines_of(alloc, entries) {
        Some(lines) => AdminResponse {
            reply: list_reply(alloc, lines.as_slice()).ok(),
        },
        None => unavailable(alloc),
    }
}

// Has the record of a line judged: whether that was not refused.
fn judge_at<R, L, T, A>(rt: R, acting: &A, entries: &mut Vec<Entry<R, L, T>>, place: usize) -> bool
where
    R: Wait + Drop + Copy,
    L: Ledger,
    T: Trace,
    A: Acting<R, L, T>,
    ensures { map (λ entry. entry.id) entries.new.items ≡ map (λ entry. entry.id) entries.old.items }
{
    if let Some(entry) = entries.get_mut(place) {
        return entry.judge(rt, acting);
    }
    true
}

// Waits until it is known what is told of a line: whether the broker told it.
fn poll_at<R: Wait + Drop, L: Ledger, T: Trace>(
    entries: &mut Vec<Entry<R, L, T>>,
    place: usize,
    cx: &mut Context<'_>,
) -> Poll<bool>
    ensures ids { map (λ entry. entry.id) entries.new.items ≡ map (λ entry. entry.id) entries.old.items }
    ensures armed { OnPending result (IsArmed cx.new) }
    ensures kept { Keeps cx.old cx.new }
{
    if let Some(entry) = entries.get_mut(place) {
        return entry.poll(cx);
    }
    Poll::Ready(true)
}

impl<R: Wait + Drop + Copy, L: Ledger, T: Trace, A: Acting<R, L, T>> Collecting<R, L, T, A> {
    /// The records of these ids are to be collected, in this order. Only want of memory is refused.
    pub(crate) fn new(
        rt: R,
        alloc: Global,
        acting: Arc<A>,
        ids: &[Option<[u8; 16]>],
    ) -> Result<Collecting<R, L, T, A>, AllocError>
        ensures { IfOk result (λ collecting. map (λ entry. entry.id) collecting.entries.items ≡ ids.now) }
    {
        let entries = entries_of(alloc, ids)?;
        Ok(Collecting {
            rt,
            alloc,
            acting,
            entries,
            told: 0,
            judged: 0,
        })
    }

    // Has those of the next lines judged, as many as are at a turn, up to the first that is refused: whether one was judged.
    fn judge_all(&mut self, from: usize) -> bool
        ensures { map (λ entry. entry.id) self.new.entries.items ≡ map (λ entry. entry.id) self.old.entries.items }
    {
        let end = from.saturating_add(MOST_AT_ONCE).min(self.entries.len());
        for place in from..end {
            if !judge_at(self.rt, &*self.acting, &mut self.entries, place) {
                self.judged = place;
                return from < place;
            }
        }
        self.judged = end;
        true
    }

    // A turn begins: whether a line of it was judged.
    fn begin(&mut self, from: usize) -> bool
        ensures { map (λ entry. entry.id) self.new.entries.items ≡ map (λ entry. entry.id) self.old.entries.items }
    {
        let begun = self.judge_all(from);
        self.acting.commit(self.rt);
        begun
    }

    // A turn begins with a line, and waits until it is known what is told of that.
    fn begin_and_poll(&mut self, place: usize, cx: &mut Context<'_>) -> Poll<bool>
        ensures ids { map (λ entry. entry.id) self.new.entries.items ≡ map (λ entry. entry.id) self.old.entries.items }
        ensures armed { OnPending result (IsArmed cx.new) }
        ensures kept { Keeps cx.old cx.new }
    {
        if !self.begin(place) {
            return Poll::Ready(false);
        }
        poll_at(&mut self.entries, place, cx)
    }

    // Waits until it is known what is told of a line, once its turn has begun: whether the broker told it.
    fn step(&mut self, place: usize, cx: &mut Context<'_>) -> Poll<bool>
        ensures ids { map (λ entry. entry.id) self.new.entries.items ≡ map (λ entry. entry.id) self.old.entries.items }
        ensures armed { OnPending result (IsArmed cx.new) }
        ensures kept { Keeps cx.old cx.new }
    {
        if self.judged <= place {
            return self.begin_and_poll(place, cx);
        }
        poll_at(&mut self.entries, place, cx)
    }
}

impl<R, L, T, A> Future for Collecting<R, L, T, A>
where
    R: Wait + Drop + Copy,
    L: Ledger,
    T: Trace,
    A: Acting<R, L, T>,
{
    type Output = AdminResponse;

    // claim: A list's reply tells of each line, in order, what the hall's reply to a DELETE of its id says, or that it is no
    // id; or is 503. [: gives; Collecting::new; Acts::collect: ids; Entry: waits, tells]
    ghost gives = { λ collecting shown. IfSome shown.reply (TellsOfLines (λ entry. entry.id)
        (λ entry. line_in entry.id (option_map (λ told. told.answer) entry.told)) collecting.entries.items) };

    fn poll(&mut self, cx: &mut Context<'_>) -> Poll<AdminResponse> {
        for place in self.told..self.entries.len() {
            match self.step(place, cx) {
                Poll::Pending => {
                    self.told = place;
                    return Poll::Pending;
                }
                Poll::Ready(true) => {}
                Poll::Ready(false) => return Poll::Ready(unavailable(self.alloc)),
            }
        }
        Poll::Ready(response_to(self.alloc, self.entries.as_slice()))
    }
}
