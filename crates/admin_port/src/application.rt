// What the operator's port serves.
ghost use Rattle.std.specs.Prelude.{◌≡◌, ◌&&◌, true, Some, None, IfOk, IfErr, OnOk, is_some, option_map, if◌then◌else◌};
ghost use Rattle.admin_port.specs.Acting.{BringsList, NamesRecord, Refuses, RefusesList, RefusesRetry, brings, named_by};
ghost use Rattle.admin_port.specs.Heads.{may_act};
ghost use Rattle.admin_port.specs.Replying.{CollectsBody, IsAsked, RefusesRequest, Seeks, ShowsOrActs, TellsAtOnceBy};
ghost use Rattle.admin_replies.specs.Seeking.{sought_by};
ghost use Rattle.http_port.specs.Answering.{status_alone};
ghost use Rattle.long_poll.specs.PendingView.{unreleased_in};

use crate::acts::Acts;
use crate::admin_context::AdminContext;
use crate::admin_response::AdminResponse;
use crate::collecting::Collecting;
use crate::local::{NOT_LOCAL, is_local};
use crate::pending_reply::PendingReply;
use crate::prompt_reply::PromptReply;
use crate::refusing::{refuse, refuse_words};
use crate::retrying::Retrying;
use admin_replies::{AdminRequest, brings_list, read, record_named};
use futures::future::Either;
use hall_core::Sought;
use http::request::Parts;
use http_port::{Application, ReadBody, Refused, target_of};
use hyper::StatusCode;
use long_poll::{Acting, PendingView};
use receipts::Trace;
use std::alloc::AllocError;
use std::sync::ledger::Ledger;
use std::sync::{Arc, Wait};
use std::time::Clock;

/// How many bytes of a body are read, where nothing may be done: these requests have none.
const MOST_BODY: usize = 1024;

/// What the operator's port serves.
#[derive(Drop)]
pub(crate) struct AdminApplication<R, L: Ledger, T: Trace, A> {
    pub(crate) rt: R,
    pub(crate) context: Arc<AdminContext<L, T>>,
    /// What an operator may do. None where he only looks.
    pub(crate) acts: Option<Acts<A>>,
}

impl<R: Wait + Clock + Drop + Copy, L: Ledger, T: Trace, A> AdminApplication<R, L, T, A> {
    // What an operator may do, where a request brings a list of records.
    fn list_brought(&self, head: &Parts) -> Option<&Acts<A>>
        ensures { is_some result ≡ (is_some self.now.acts && brings head.now) }
    {
        let acts = self.acts.as_ref()?;
        brings_list(head.method.as_str(), target_of(head)).then_some(acts)
    }

    // What is there to be seen now by one who seeks this.
    fn look(&self, sought: Sought) -> Result<PendingView<R, L, T>, AllocError>
        ensures { IfOk result (λ pending. Seeks sought (unreleased_in pending.view)) }
    {
        let at = self.context.now_or_zero(&self.rt);
        let view = self.context.reader.look(&self.rt, sought, at).answer?;
        let reader = Arc::try_clone(&self.context.reader)?;
        Ok(PendingView::new(self.rt, reader, view))
    }

    // What is asked for is seen now, and is told once it is durable.
    fn reply_to(&self, request: AdminRequest) -> Result<PendingReply<R, L, T>, AllocError>
        ensures request { IfOk result (λ pending. pending.request ≡ request) }
        ensures context { IfOk result (λ pending. pending.context.value ≡ self.now.context.value) }
        ensures seeks { IfOk result (λ pending. Seeks (sought_by request) (unreleased_in pending.view.view)) }
    {
        let view = self.look(request.sought())?;
        let context = Arc::try_clone(&self.context)?;
        Ok(PendingReply {
            rt: self.rt,
            context,
            request,
            view,
        })
    }

    // What an operator may do, and the event, where a request names a record that is to be tried again.
    fn record_named(&self, head: &Parts) -> Option<(&Acts<A>, Option<[u8; 16]>)>
        ensures { option_map (λ named. named.1) result ≡ (if is_some self.now.acts then named_by head.now else None) }
    {
        let acts = self.acts.as_ref()?;
        let id = record_named(head.method.as_str(), target_of(head))?;
        Some((acts, id))
    }

    // What a request asks for, where it may ask for that.
    fn asked(&self, head: &Parts) -> Result<AdminRequest, Refused>
        ensures asked { IfOk result (IsAsked head.now) }
        ensures refused { IfErr result (RefusesRequest head.now) }
    {
        let alloc = self.context.alloc;
        let request = match read(head.method.as_str(), target_of(head)) {
            Ok(request) => request,
            Err(why) => return Err(refuse_words(alloc, why, self.acts.is_some())),
        };
        if !is_local(&head.headers) {
            return Err(refuse(alloc, 403, NOT_LOCAL));
        }
        Ok(request)
    }

    // The same, or that there is no memory.
    fn seen(&self, request: AdminRequest) -> Result<PendingReply<R, L, T>, Refused>
        ensures request { IfOk result (λ pending. pending.request ≡ request) }
        ensures context { IfOk result (λ pending. pending.context.value ≡ self.now.context.value) }
        ensures seeks { IfOk result (λ pending. Seeks (sought_by request) (unreleased_in pending.view.view)) }
        ensures refused { IfErr result (λ why. why ≡ status_alone 503) }
    {
        match self.reply_to(request) {
            Ok(pending) => Ok(pending),
            Err(_) => Err(Refused::bare(self.context.alloc, StatusCode::SERVICE_UNAVAILABLE)),
        }
    }

    // What a request asks for is told: at once, or of a look.
    fn show(&self, head: &Parts) -> Result<Either<PromptReply, PendingReply<R, L, T>>, Refused>
        ensures shown { IfOk result (ShowsOrActs
            (λ prompt. TellsAtOnceBy self.now.context.value.baseline head.now prompt.reply)
            (λ pending. IsAsked head.now pending.request × (pending.context.value ≡ self.now.context.value)
            × Seeks (sought_by pending.request) (unreleased_in pending.view.view))) }
        ensures refused { IfErr result (RefusesRequest head.now) }
    {
        let request = self.asked(head)?;
        match self.context.tell_at_once(&self.rt, &request) {
            Some(AdminResponse { reply }) => Ok(Either::Left(PromptReply { reply })),
            None => Ok(Either::Right(self.seen(request)?)),
        }
    }
}

impl<R, L, T, A> AdminApplication<R, L, T, A>
where
    R: Wait + Clock + Drop + Copy,
    L: Ledger,
    T: Trace,
    A: Acting<R, L, T>,
{
    // A record is tried again, where it has an id.
    fn retry(
        &self,
        acts: &Acts<A>,
        head: &Parts,
        id: Option<[u8; 16]>,
    ) -> Result<Retrying<R, L, T, A>, Refused>
        ensures may { OnOk result (may_act head.now.headers ≡ true) }
        ensures id { IfOk result (λ retrying. id ≡ Some retrying.id) }
        ensures refused { IfErr result (RefusesRetry head.now id) }
    {
        let id = acts.named(head, id)?;
        match self.look(Sought::Event(id)) {
            Ok(view) => acts.retry(self.rt, id, view),
            Err(_) => Err(Refused::bare(self.context.alloc, StatusCode::SERVICE_UNAVAILABLE)),
        }
    }
}

impl<R, L, T, A> Application for AdminApplication<R, L, T, A>
where
    R: Wait + Clock + Drop + Copy,
    L: Ledger,
    T: Trace,
    A: Acting<R, L, T>,
{
    type Response = AdminResponse;

    type Future = Either<
        PromptReply,
        Either<PendingReply<R, L, T>, Either<Collecting<R, L, T, A>, Retrying<R, L, T, A>>>,
    >;

    // claim: A request is told at once what needs no look at the table, is shown what its head asks for, of a look that sought
    // it, has the records of just its body's ids collected, has the record that it names tried again, or is refused. Something
    // is done only where acts are allowed, no other host is named and the header for acts is there. A refusal is that of a
    // check that fails, or 503. [: answers; refuse_words; refuse_list; AdminApplication::show: shown, refused;
    // AdminContext::tell_at_once; Acts::take_list: may, ids, refused; Acts::named: may, id, refused;
    // AdminApplication::reply_to: request, context, seeks]
    ghost answers = { λ application head body answered.
        IfOk answered (ShowsOrActs
        (λ prompt. TellsAtOnceBy application.context.value.baseline head prompt.reply)
        (ShowsOrActs
        (λ pending. IsAsked head pending.request × (pending.context.value ≡ application.context.value)
        × Seeks (sought_by pending.request) (unreleased_in pending.view.view))
        (ShowsOrActs
        (λ collecting. BringsList (is_some application.acts) head × CollectsBody (λ entry. entry.id) body collecting.entries.items)
        (λ retrying. NamesRecord (is_some application.acts) head retrying.id))))
        × IfErr answered (Refuses (is_some application.acts) head body) };

    fn most(&self) -> usize {
        match &self.acts {
            Some(acts) => acts.most(),
            None => MOST_BODY,
        }
    }

    fn unread_header(&self) -> Option<&'static str> {
        None
    }

    fn answer(&self, head: &Parts, body: ReadBody) -> Result<Self::Future, Refused> {
        match self.list_brought(head) {
            Some(acts) => {
                let collecting = acts.take_list(self.rt, head, body)?;
                Ok(Either::Right(Either::Right(Either::Left(collecting))))
            }
            None => {
                drop(body);
                match self.record_named(head) {
                    Some((acts, id)) => {
                        let retrying = self.retry(acts, head, id)?;
                        Ok(Either::Right(Either::Right(Either::Right(retrying))))
                    }
                    None => match self.show(head)? {
                        Either::Left(prompt) => Ok(Either::Left(prompt)),
                        Either::Right(pending) => Ok(Either::Right(Either::Left(pending))),
                    },
                }
            }
        }
    }
}
