// One environment: who polls it, which event runs in it, and in which phase it is.
ghost use Rattle.std.specs.Prelude.{◌≡◌, [], IfOk};

use crate::call::Waiter;
use crate::steps::all_wait;
use std::alloc::{AllocError, Global};
use std::marker::Model;

/// An environment: the runtime and the extensions that poll it, and the event that runs in it.
#[derive(Drop)]
pub struct Env {
    pub(crate) alloc: Global,
    number: u16,
    /// For how many extensions it waits in each era.
    wanted: u8,
    /// It was shut down.
    pub(crate) is_shut: bool,
    /// Since the last reset there was a moment when it could be given an event.
    pub(crate) has_met: bool,
    /// The event that was given and is not answered.
    pub(crate) event: Option<[u8; 16]>,
    /// Where the runtime waits.
    pub(crate) runtime_slot: Option<u64>,
    /// In the order of their registration.
    pub(crate) extensions: Vec<Waiter>,
}

impl Model for Env {
    ghost use Rattle.env_phase.specs.State.{EnvState};

    ghost Value = { EnvState };

    ghost view = { λ e. record {
      number = e.number;
      wanted = e.wanted;
      is_shut = e.is_shut;
      has_met = e.has_met;
      event = e.event;
      runtime_slot = e.runtime_slot;
      extensions = e.extensions.items;
    } };
}

impl Env {
    ghost use Rattle.env_phase.specs.Environment.{is_ready, running};
    ghost use Rattle.env_phase.specs.State.{StandsFor, ForEachList};
    ghost use Rattle.env_phase.specs.Steps as step;
    ghost use Rattle.env_phase.specs.Steps.{is_ready_in};

    /// The environment of this number, in which nobody has asked for anything. It waits for no extension: it is ready once
    /// the runtime and each extension that registered before wait. It takes no memory.
    pub fn new(alloc: Global, number: u16) -> Env
        // claim: A new environment waits for as many extensions as it is made for, by default none. [Env::waiting_for]
        ensures number { result.number ≡ number }
        ensures wanted { result.wanted ≡ 0 }
        ensures stands { StandsFor result [] }
    {
        Env::waiting_for(alloc, number, 0)
    }

    /// As `new`, for an environment whose extensions may come after its runtime, as when the broker was served anew: in each
    /// era it stays in Init, where extensions may register, until so many have registered and have asked for Next beside the
    /// runtime. With 0 it is `new`; where more are wanted than may register, it is never ready.
    #[tactic(auto, using(crate::specs::laws::States::first_state))]
    pub fn waiting_for(alloc: Global, number: u16, extensions: u8) -> Env
        ensures number { result.number ≡ number }
        ensures wanted { result.wanted ≡ extensions }
        ensures stands { StandsFor result [] }
    {
        Env {
            alloc,
            number,
            wanted: extensions,
            is_shut: false,
            has_met: false,
            event: None,
            runtime_slot: None,
            extensions: Vec::new(alloc),
        }
    }

    /// Its number, which commands name.
    pub fn number(&self) -> u16
        ensures { result ≡ self.now.number }
    {
        self.number
    }

    // Whether as many extensions are registered as it waits for.
    fn has_enough(&self) -> bool
        ensures { result ≡ step.has_enough_in self.now }
    {
        self.extensions.len() >= usize::from(self.wanted)
    }

    // Whether no event is unanswered, enough extensions are registered, and the runtime and each of them wait.
    pub(crate) fn is_met(&self) -> bool
        ensures { result ≡ step.is_met_in self.now }
    {
        self.event.is_none()
            && self.has_enough()
            && self.runtime_slot.is_some()
            && all_wait(&self.extensions)
    }

    pub(crate) fn is_init(&self) -> bool
        ensures { result ≡ step.is_init_in self.now }
    {
        !self.is_shut && !self.is_met() && !self.has_met
    }

    #[tactic(auto, using(crate::specs::laws::States::closing_is_shut))]
    pub(crate) fn is_closing(&self) -> bool
        ensures { result ≡ step.is_closing_in self.now }
    {
        self.is_shut
    }

    pub(crate) fn is_busy(&self) -> bool
        ensures { result ≡ step.is_busy_in self.now }
    {
        !self.is_shut && !self.is_met() && self.has_met
    }

    /// Whether an event can be given: it was not shut down, no event is unanswered, as many extensions are registered as it
    /// waits for, and the runtime and each of them wait.
    #[tactic(auto, using(crate::specs::laws::States::is_ready_kept))]
    pub fn ready(&self) -> bool
        // claim: Readiness, running event, phase and number of parked parties follow from its calls. A copy is equal. [:
        // by_state, by_calls; Env::running; Env::phase; Env::parked; Env::copy]
        ensures by_state { result ≡ is_ready_in self.now }
        ensures by_calls { ForEachList self.now (λ calls. result ≡ is_ready self.now.wanted calls) }
    {
        !self.is_shut && self.is_met()
    }

    /// The event that runs here: it was given and is not answered.
    #[tactic(auto, using(crate::specs::laws::States::running_kept))]
    pub fn running(&self) -> Option<[u8; 16]>
        ensures { ForEachList self.now (λ calls. result ≡ running calls) }
    {
        self.event
    }

    /// An equal environment, in memory of its own.
    pub fn copy(&self) -> Result<Env, AllocError>
        ensures { IfOk result (λ copy. copy ≡ self.now) }
    {
        let extensions = Vec::from_slice(self.alloc, &self.extensions)?;
        Ok(Env {
            alloc: self.alloc,
            number: self.number,
            wanted: self.wanted,
            is_shut: self.is_shut,
            has_met: self.has_met,
            event: self.event,
            runtime_slot: self.runtime_slot,
            extensions,
        })
    }
}
