// The hall: requests and ticks make commands, calls of environments and replies.
ghost use Rattle.std.specs.Prelude.{◌≡◌};
ghost use Rattle.hall_plans.specs.Past.{call_stops};

use crate::issuing::issue;
use crate::released::Released;
use crate::slots::Slots;
use api_core::{Call, Dialect, Reply, unavailable};
use async_core::Table;
use broker_core::{Durable, Issuer, MOST_COMMANDS, MOST_PENDING, Receipt, Ticket};
use hall_plans::{Environments, HallError, Issued, Prepared, plan_request, plan_tick, prepare};
use std::alloc::Global;

/// How many slots may be open.
const MOST_OPEN: usize = 1024;

// Whether a request asks the broker to stop.
fn is_stop(call: &Call) -> bool
    ensures { result ≡ call_stops call.now }
{
    matches!(call, Call::StopBroker)
}

/// The hall over an issuer of commands.
#[derive(Drop)]
pub struct Hall<I: Issuer> {
    pub(crate) alloc: Global,
    /// In which words replies are told.
    pub(crate) dialect: Dialect,
    pub(crate) issuer: I,
    pub(crate) environments: Environments,
    /// For how many extensions each of them waits.
    pub(crate) wanted: u8,
    pub(crate) slots: Slots,
    /// A request asked it to stop.
    pub(crate) stops: bool,
    /// The issuer failed.
    pub(crate) broken: bool,
    /// Of all that is durable.
    pub(crate) receipt: Receipt,
    /// The slots of the polls that the last request or move answered.
    pub(crate) answered: Vec<u64>,
    ghost knows: { broken ≡ (I.view issuer).broken },
    ghost counted: { receipt ≡ (I.view issuer).durable },
}

impl<I: Issuer> Hall<I> {
    ghost use Rattle.std.specs.Prelude.{◌&&◌, ◌||◌, ◌^◌, nat_le, length, false, true, IfOk, IfErr, IfSome, IfNone, OnOk, OnErr, OnSome};
    ghost use Rattle.hall_plans.specs.declared.error.HallError.TheVariants as HallError;
    ghost use Rattle.hall_core.specs.OpenSlots.{has_open, unavailable_in, ForEachKept};
    ghost use Rattle.hall_plans.specs.Changes.{IsWithin, Leads};
    ghost use Rattle.hall_core.specs.Issuing.{Continues, IsAnswered, IsUnissued};
    ghost use Rattle.hall_core.specs.Doing.{KeepRequest, KeepTick};
    ghost use Rattle.hall_plans.specs.Agreement.{IsFit};
    ghost use Rattle.hall_plans.specs.Plans.{IsToOneOf, drawn_by};
    ghost use Rattle.hall_plans.specs.Asked.{IsAsked};
    ghost use Rattle.broker_core.specs.Issuer.{issued_in, state_in};
    ghost use Rattle.hall_plans.specs.Past.{tick, take_slot, forget_slot};
    ghost use Rattle.hall_core.specs.Hall.{view_of, settings_in, words_in, pending_in, refusal_of_arrival, refusal_of_moving, IsSameHall, request, Does, Passes, Refuses, KeepsReason};
    ghost use Rattle.hall_core.specs.Hall.{is_slot_open, Gives, GivesFor, slot_told, IsDone, IsAsDurable, IssuesAtMostOne, AnswersPolls, answered_slots};

    // Whether no number is left for a command.
    fn is_worn_out(&self, has_command: bool) -> bool
        ensures { result ≡ (has_command && nat_le (2 ^ 62) (issued_in (I.view self.now.issuer))) }
    {
        has_command && self.issuer.issued() >= MOST_COMMANDS
    }

    // Whether a command finds as many pending as may be.
    fn is_full(&self, has_command: bool) -> bool
        ensures { result ≡ (has_command && nat_le 256 (pending_in (I.view self.now.issuer))) }
    {
        let issued = self.issuer.issued();
        let durable = self.issuer.durable().number();
        has_command && issued.saturating_sub(durable) >= MOST_PENDING as u64
    }

    // Why a request is refused that comes now, if it is.
    fn refusal_of_arrival(&self, has_command: bool) -> Option<HallError>
        ensures { result ≡ refusal_of_arrival (view_of I.view self.now) has_command }
    {
        if self.broken {
            Some(HallError::Broken)
        } else if self.stops {
            Some(HallError::Stopping)
        } else if self.is_worn_out(has_command) {
            Some(HallError::WornOut)
        } else if self.slots.open_count(self.broken) >= MOST_OPEN {
            Some(HallError::Backlog)
        } else if self.is_full(has_command) {
            Some(HallError::Backlog)
        } else {
            None
        }
    }

    // Does what was prepared for a request that comes with this slot. Where the command is refused, nothing is done.
    fn do_for(
        &mut self,
        slot: u64,
        stops: bool,
        unavailable: Reply,
        prepared: Prepared,
    ) -> Result<Option<Issued>, HallError>
        requires free { has_open false self.old.slots slot ≡ false }
        requires within { IsWithin self.old.environments prepared.changes }
        requires told { unavailable ≡ unavailable_in (words_in (view_of I.view self.old)) }
        ensures issuer { OnOk result (Continues (I.view self.old.issuer) (I.view self.new.issuer) prepared.command) }
        ensures issued { IfOk result (IsAnswered (I.view self.old.issuer) prepared.command) }
        ensures count { OnOk result (length self.new.environments ≡ length self.old.environments) }
        ensures environments { OnOk result (Leads self.old.environments prepared.changes self.new.environments) }
        ensures slots { OnOk result (KeepRequest self.old.slots self.new.slots slot unavailable prepared
            (issued_in (I.view self.new.issuer))) }
        ensures wanted { OnOk result (self.new.wanted ≡ self.old.wanted) }
        ensures dialect { OnOk result (self.new.dialect ≡ self.old.dialect) }
        ensures stops { OnOk result (self.new.stops ≡ (self.old.stops || stops)) }
        ensures answered { OnOk result (self.new.answered ≡ prepared.answered) }
        ensures kept_answered { OnErr result (self.new.answered ≡ self.old.answered) }
        ensures no_call { I.is_untouched self.old.issuer self.new.issuer }
        ensures err { OnErr result (IsSameHall (view_of I.view self.old) (view_of I.view self.new)) }
        ensures refused { IfErr result (IsUnissued (I.view self.old.issuer) prepared.command) }
    {
        let Prepared {
            command,
            changes,
            replies,
            answered,
            own,
        } = prepared;
        self.slots.open(slot, unavailable)?;
        match issue(&mut self.issuer, command) {
            Ok(issued) => {
                self.environments.change(changes);
                self.slots.reply_all(replies, &self.issuer);
                self.slots.reply_own(slot, own, self.issuer.ticket());
                self.stops = self.stops || stops;
                self.answered = answered;
                Ok(issued)
            }
            Err(why) => {
                self.slots.undo(slot);
                Err(why)
            }
        }
    }

    /// A request comes with a slot that is not open, now, with two random words: its command is issued, if it has one,
    /// its environment is called, and replies are computed. A reply is told by `take` once all that it shows is durable.
    /// `take_answered` then hands out the slots of the polls that it answered.
    ///
    /// What an environment or the table refuses is an answer. The hall refuses by `Broken`, `Stopping`, `WornOut` (where
    /// it has a command), `Backlog` (1024 slots are open, or 256 commands are pending and it has one), or `OutOfMemory`,
    /// in this order, and then nothing has changed; over a table that no history leaves also by `NoHistory`. Moments are
    /// milliseconds since 1970.
    pub fn arrive(
        &mut self,
        slot: u64,
        call: Call,
        now: u64,
        words: [u64; 2],
    ) -> Result<Option<Issued>, HallError>
        requires free { is_slot_open (view_of I.view self.old) slot ≡ false }
        requires environment { IsToOneOf self.old.environments call }
        requires fit { IsFit (settings_in (view_of I.view self.old)) (request slot call now words) }
        // claim: After Ok the hall stands for its run with that call, whose command, if any, is issued. A request's
        // command is one that the request by itself allows. [: ok, asked; Hall::tick: ok]
        ensures ok { IfOk result (Does (view_of I.view self.old) (view_of I.view self.new) (request slot call now words)) }
        ensures asked { IfOk result (IsAsked (drawn_by words) call) }
        // claim: Even without a run an Ok issues at most one command, legal and told, and makes nothing durable. No
        // disk is called. [Hall::tick]
        ensures issues { IfOk result (IssuesAtMostOne (I.view self.old.issuer) (I.view self.new.issuer)) }
        ensures kept { OnOk result (IsAsDurable (view_of I.view self.old) (view_of I.view self.new)) }
        ensures no_call { I.is_untouched self.old.issuer self.new.issuer }
        // claim: A call is refused wherever a check fails, by the first, else only for want of memory. The hall has the
        // reason, and stays the same. [: passes, refused, reason, err; Hall::tick]
        ensures passes { IfOk result (Passes (view_of I.view self.old) (request slot call now words)) }
        ensures refused { IfErr result (Refuses (view_of I.view self.old) (request slot call now words)) }
        ensures reason { IfErr result (KeepsReason (view_of I.view self.old) (request slot call now words)) }
        // claim: An Ok leaves the slots of just the polls that it answered, in order, to be handed out once. Other
        // calls keep them. [: answered, kept_answered; Hall::tick; Hall::take_answered: slots, none_left, same;
        // Hall::take, Hall::forget, Hall::commit, Hall::lend, Hall::settle: kept_answered]
        ensures answered { OnOk result (AnswersPolls (view_of I.view self.old) (request slot call now words) (answered_slots self.new)) }
        ensures kept_answered { OnErr result (answered_slots self.new ≡ answered_slots self.old) }
        ensures err { OnErr result (IsSameHall (view_of I.view self.old) (view_of I.view self.new)) }
    {
        let stops = is_stop(&call);
        let plan = plan_request(
            self.issuer.table(),
            &self.environments,
            slot,
            call,
            now,
            words,
        );
        if let Some(why) = self.refusal_of_arrival(plan.has_command()) {
            return Err(why);
        }
        let prepared = match prepare(
            self.alloc,
            self.dialect,
            self.issuer.table(),
            &self.environments,
            plan,
        ) {
            Ok(prepared) => prepared,
            Err(why) => return Err(why),
        };
        let told = unavailable(self.alloc, self.dialect);
        match self.do_for(slot, stops, told, prepared) {
            Ok(issued) => Ok(issued),
            Err(why) => Err(why),
        }
    }

    // Why a tick is refused now, if it is.
    fn refusal_of_moving(&self, has_command: bool) -> Option<HallError>
        ensures { result ≡ refusal_of_moving (view_of I.view self.now) has_command }
    {
        if self.broken {
            Some(HallError::Broken)
        } else if self.is_worn_out(has_command) {
            Some(HallError::WornOut)
        } else if self.is_full(has_command) {
            Some(HallError::Backlog)
        } else {
            None
        }
    }

    // Does what was prepared for a tick. Where the command is refused, nothing is done.
    fn do_moving(&mut self, prepared: Prepared) -> Result<Option<Issued>, HallError>
        requires { IsWithin self.old.environments prepared.changes }
        ensures issuer { OnOk result (Continues (I.view self.old.issuer) (I.view self.new.issuer) prepared.command) }
        ensures issued { IfOk result (IsAnswered (I.view self.old.issuer) prepared.command) }
        ensures count { OnOk result (length self.new.environments ≡ length self.old.environments) }
        ensures environments { OnOk result (Leads self.old.environments prepared.changes self.new.environments) }
        ensures slots { OnOk result (KeepTick self.old.slots self.new.slots prepared (issued_in (I.view self.new.issuer))) }
        ensures wanted { OnOk result (self.new.wanted ≡ self.old.wanted) }
        ensures dialect { OnOk result (self.new.dialect ≡ self.old.dialect) }
        ensures stops { OnOk result (self.new.stops ≡ self.old.stops) }
        ensures answered { OnOk result (self.new.answered ≡ prepared.answered) }
        ensures kept_answered { OnErr result (self.new.answered ≡ self.old.answered) }
        ensures no_call { I.is_untouched self.old.issuer self.new.issuer }
        ensures err { OnErr result (IsSameHall (view_of I.view self.old) (view_of I.view self.new)) }
        ensures refused { IfErr result (IsUnissued (I.view self.old.issuer) prepared.command) }
    {
        let Prepared {
            command,
            changes,
            replies,
            answered,
            ..
        } = prepared;
        let issued = issue(&mut self.issuer, command)?;
        self.environments.change(changes);
        self.slots.reply_all(replies, &self.issuer);
        self.answered = answered;
        Ok(issued)
    }

    /// Makes one move that is due now: first an Interrupt for an event that runs in no environment, else the table's
    /// next move, a Start with the least-numbered environment that is ready. None where nothing is due, and once the
    /// hall stops. `take_answered` then hands out the slots of the polls that it answered.
    ///
    /// It is refused by `Broken`, `WornOut` or `Backlog` (256 commands are pending) where there is a command to issue,
    /// or `OutOfMemory`, in this order, and then nothing has changed; over a table that no history leaves also by
    /// `NoHistory`. Where there is no command it asks for no memory. A moment is at most the end of the year 9999.
    pub fn tick(&mut self, now: u64) -> Result<Option<Issued>, HallError>
        requires { IsFit (settings_in (view_of I.view self.old)) (tick now) }
        ensures ok { IfOk result (Does (view_of I.view self.old) (view_of I.view self.new) (tick now)) }
        ensures issues { IfOk result (IssuesAtMostOne (I.view self.old.issuer) (I.view self.new.issuer)) }
        ensures kept { OnOk result (IsAsDurable (view_of I.view self.old) (view_of I.view self.new)) }
        ensures no_call { I.is_untouched self.old.issuer self.new.issuer }
        ensures passes { IfOk result (Passes (view_of I.view self.old) (tick now)) }
        ensures refused { IfErr result (Refuses (view_of I.view self.old) (tick now)) }
        ensures reason { IfErr result (KeepsReason (view_of I.view self.old) (tick now)) }
        ensures answered { OnOk result (AnswersPolls (view_of I.view self.old) (tick now) (answered_slots self.new)) }
        ensures kept_answered { OnErr result (answered_slots self.new ≡ answered_slots self.old) }
        ensures err { OnErr result (IsSameHall (view_of I.view self.old) (view_of I.view self.new)) }
    {
        let plan = plan_tick(self.issuer.table(), &self.environments, self.stops, now);
        let has_command = plan.has_command();
        if let Some(why) = self.refusal_of_moving(has_command) {
            return Err(why);
        }
        if !has_command {
            drop(plan);
            self.answered = Vec::new(self.alloc);
            return Ok(None);
        }
        let prepared = match prepare(
            self.alloc,
            self.dialect,
            self.issuer.table(),
            &self.environments,
            plan,
        ) {
            Ok(prepared) => prepared,
            Err(why) => return Err(why),
        };
        match self.do_moving(prepared) {
            Ok(issued) => Ok(issued),
            Err(why) => Err(why),
        }
    }

    /// The reply of a slot, where all that it shows is durable, with the receipt of that and the slot; the slot is then
    /// closed. In a broken hall a slot whose reply is not durable, or that has none, is told that the broker is not
    /// available, with the receipt of all that is durable. None where the slot is not open or its reply is not wanted,
    /// and as long as it waits. It takes no memory.
    ///
    /// So it tells also what was computed before two halves were joined, of which one was broken (`kept`).
    pub fn take(&mut self, slot: u64) -> Option<Released>
        // claim: A reply is told, byte for byte, exactly where it is wanted, computed and durable to its point. A
        // broken hall tells every other wanted slot 503.
        ensures gives { Gives (view_of I.view self.old) slot result }
        ensures kept { ForEachKept self.old.slots (GivesFor (view_of I.view self.old) slot result) }
        // claim: Only the slot that was taken is told, then closed. Else nothing changes.
        ensures slot { IfSome result (λ released. slot_told released ≡ slot) }
        ensures some { OnSome result (IsDone (view_of I.view self.old) (view_of I.view self.new) (take_slot slot)) }
        ensures none { IfNone result (IsSameHall (view_of I.view self.old) (view_of I.view self.new)) }
        ensures issuer { self.new.issuer ≡ self.old.issuer }
        ensures kept_answered { answered_slots self.new ≡ answered_slots self.old }
    {
        match self.slots.take(slot, self.broken, self.receipt) {
            Some((reply, receipt)) => Some(Released::new(slot, reply, receipt)),
            None => None,
        }
    }

    /// The reply of a slot is not wanted any more: it is thrown away, now or when it is computed, which closes the slot. In a
    /// broken hall, where nothing computes it any more, the slot is closed at once, and one that waits so is closed when the
    /// hall breaks. A parked poll stays parked. For a slot that is not open it does nothing. It takes no memory.
    pub fn forget(&mut self, slot: u64)
        // claim: A reply that is not wanted is thrown away, now or once computed. In a broken hall its slot is closed.
        ensures done { IsDone (view_of I.view self.old) (view_of I.view self.new) (forget_slot slot) }
        ensures closed { (I.view self.old.issuer).broken ≡ true → is_slot_open (view_of I.view self.new) slot ≡ false }
        ensures issuer { self.new.issuer ≡ self.old.issuer }
        ensures kept_answered { answered_slots self.new ≡ answered_slots self.old }
    {
        self.slots.forget(slot);
    }

    /// How many commands were issued.
    pub fn issued(&self) -> u64
        ensures { result ≡ issued_in (I.view self.now.issuer) }
    {
        self.issuer.issued()
    }

    /// How many of them are durable.
    pub fn durable(&self) -> Durable
        ensures { result ≡ (I.view self.now.issuer).durable }
    {
        self.issuer.durable()
    }

    /// A ticket of all that was issued.
    pub fn ticket(&self) -> Ticket
        ensures { result ≡ issued_in (I.view self.now.issuer) }
    {
        self.issuer.ticket()
    }

    /// The table after all that was issued.
    pub fn table(&self) -> &Table
        ensures { result.now ≡ state_in (I.view self.now.issuer) }
    {
        self.issuer.table()
    }
}
