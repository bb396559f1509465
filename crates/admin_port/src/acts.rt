// What an operator may do.
ghost use Rattle.std.specs.Prelude.{◌≡◌, ◌⊎◌, true, Some, Ok, IfOk, IfErr, OnOk};
ghost use Rattle.admin_port.specs.declared.step.Step.TheVariants as in_step;
ghost use Rattle.http_port.specs.Answering.{status_alone};
ghost use Rattle.admin_port.specs.Acting.{RefusesAct, RefusesBody, RefusesList, RefusesRetry, RefusesText, TellsOf};
ghost use Rattle.admin_port.specs.Heads.{may_act};
ghost use Rattle.admin_port.specs.Replying.{CollectsBody, CollectsIds};

use crate::collecting::Collecting;
use crate::local::{NOT_LOCAL, is_local};
use crate::refusing::{refuse_act, refuse_list, refuse_retry};
use crate::retrying::Retrying;
use admin_replies::{MOST_LIST, RetryRefusal, read_list};
use http::request::Parts;
use http_port::{BodyError, ReadBody, Refused};
use hyper::StatusCode;
use long_poll::{Acting, PendingView};
use receipts::Trace;
use std::alloc::{AllocError, Global};
use std::sync::ledger::Ledger;
use std::sync::{Arc, Wait};

/// The header without which nothing is done. No form of a web page sends it.
const ACT: &str = "lambda-broker-act";

const NO_ACT: &str = "an act needs the header lambda-broker-act";

const TOO_LONG: &str = "a list has 48000 bytes at most";

/// What an operator may do, and by what his calls come to the hall.
#[derive(Drop)]
pub(crate) struct Acts<A> {
    alloc: Global,
    acting: Arc<A>,
}

// Whether a request may do something.
fn may_act(alloc: Global, head: &Parts) -> Result<(), Refused>
    ensures may { OnOk result (may_act head.now.headers ≡ true) }
    ensures refused { IfErr result (RefusesAct head.now) }
{
    if !is_local(&head.headers) {
        return Err(refuse_act(alloc, 403, NOT_LOCAL));
    }
    if head.headers.get(ACT).is_none() {
        return Err(refuse_act(alloc, 403, NO_ACT));
    }
    Ok(())
}

// That there is no memory.
fn no_memory(alloc: Global) -> Refused
    ensures { result ≡ status_alone 503 }
{
    Refused::bare(alloc, StatusCode::SERVICE_UNAVAILABLE)
}

// The body of a request that does something.
fn whole(alloc: Global, body: ReadBody) -> Result<Vec<u8>, Refused>
    ensures bytes { IfOk result (λ list. body ≡ Ok list.items) }
    ensures refused { IfErr result (RefusesBody body) }
{
    match body.into_result() {
        Ok(list) => Ok(list),
        Err(BodyError::TooLarge) => Err(refuse_act(alloc, 413, TOO_LONG)),
        Err(BodyError::CutOff) => Err(Refused::bare(alloc, StatusCode::BAD_REQUEST)),
        Err(BodyError::OutOfMemory) => Err(no_memory(alloc)),
    }
}

impl<A: Drop> Acts<A> {
    /// He may act by this, if he may at all.
    pub(crate) fn by(alloc: Global, acts: bool, acting: A) -> Result<Option<Acts<A>>, AllocError> {
        if !acts {
            return Ok(None);
        }
        let acting = Arc::new(alloc, acting)?;
        Ok(Some(Acts { alloc, acting }))
    }

    /// How many bytes of a body are read.
    pub(crate) fn most(&self) -> usize {
        MOST_LIST
    }

    // The records of a list are collected.
    fn collect<R, L, T>(&self, rt: R, list: &[u8]) -> Result<Collecting<R, L, T, A>, Refused>
    where
        R: Wait + Drop + Copy,
        L: Ledger,
        T: Trace,
        A: Acting<R, L, T>,
        ensures ids { IfOk result (λ collecting. CollectsIds (λ entry. entry.id) list.now collecting.entries.items) }
        ensures refused { IfErr result (λ told. TellsOf 503 told ⊎ RefusesText list.now told) }
    {
        let ids = match read_list(self.alloc, list) {
            Ok(ids) => ids,
            Err(why) => return Err(refuse_list(self.alloc, why)),
        };
        let Ok(acting) = Arc::try_clone(&self.acting) else {
            return Err(no_memory(self.alloc));
        };
        match Collecting::new(rt, self.alloc, acting, &ids) {
            Ok(collecting) => Ok(collecting),
            Err(_) => Err(no_memory(self.alloc)),
        }
    }

    /// A request brings a list of records, which are collected, unless it may not act.
    pub(crate) fn take_list<R, L, T>(
        &self,
        rt: R,
        head: &Parts,
        body: ReadBody,
    ) -> Result<Collecting<R, L, T, A>, Refused>
    where
        R: Wait + Drop + Copy,
        L: Ledger,
        T: Trace,
        A: Acting<R, L, T>,
        ensures may { OnOk result (may_act head.now.headers ≡ true) }
        ensures ids { IfOk result (λ collecting. CollectsBody (λ entry. entry.id) body collecting.entries.items) }
        ensures refused { IfErr result (RefusesList head.now body) }
    {
        may_act(self.alloc, head)?;
        let list = whole(self.alloc, body)?;
        self.collect(rt, &list)
    }

    /// The event whose record a request names, unless it may not act, or names none.
    pub(crate) fn named(&self, head: &Parts, id: Option<[u8; 16]>) -> Result<[u8; 16], Refused>
        ensures may { OnOk result (may_act head.now.headers ≡ true) }
        ensures id { IfOk result (λ named. id ≡ Some named) }
        ensures refused { IfErr result (RefusesRetry head.now id) }
    {
        may_act(self.alloc, head)?;
        match id {
            Some(id) => Ok(id),
            None => Err(refuse_retry(self.alloc, RetryRefusal::Id)),
        }
    }

    /// The record of this event, of which something was seen, is tried again.
    pub(crate) fn retry<R, L, T>(
        &self,
        rt: R,
        id: [u8; 16],
        view: PendingView<R, L, T>,
    ) -> Result<Retrying<R, L, T, A>, Refused>
    where
        R: Wait + Drop + Copy,
        L: Ledger,
        T: Trace,
        A: Acting<R, L, T>,
        ensures id { IfOk result (λ retrying. retrying.id ≡ id) }
        ensures step { IfOk result (λ retrying. retrying.step ≡ in_step.Looking view) }
        ensures refused { IfErr result (λ told. told ≡ status_alone 503) }
    {
        match Arc::try_clone(&self.acting) {
            Ok(acting) => Ok(Retrying::new(rt, self.alloc, acting, id, view)),
            Err(_) => Err(no_memory(self.alloc)),
        }
    }
}
