// The calls that change an environment.
ghost use Rattle.std.specs.Prelude.{◌≡◌, ◌∷◌, filter_map, IfOk, IfErr, OnOk, OnErr, IsTrue, ℕ};
ghost use Rattle.env_phase.specs.Calls.{moment_by, IsMoment};
ghost use Rattle.env_phase.specs.Polls as poll;
ghost use Rattle.env_phase.specs.Steps as step;

use crate::answer::PollAnswer;
use crate::call::{EnvCall, Waiter};
use crate::env::Env;
use crate::refusal::EnvError;
use crate::steps::{
    RUNTIME, clears, event_after, is_reset, is_shutdown, move_slots, registration, slot_after, told,
};
use std::alloc::{AllocError, Global};

/// The polls that a call answers: each the slot of a request that waits, and what it is told.
pub type Answered = Vec<(u64, PollAnswer)>;

// What a call answers a poll, if it answers it.
fn poll_answer(call: EnvCall, waiter: &Waiter) -> Option<(u64, PollAnswer)>
    requires { IsMoment (moment_by call) }
    ensures { result ≡ poll.answered call waiter.now }
{
    let answer = told(call, &waiter.party);
    match waiter.slot {
        Some(slot) => answer.map(|answer| (slot, answer)),
        None => None,
    }
}

// The polls that a call answers, the runtime's first.
fn poll_answers(
    alloc: Global,
    call: EnvCall,
    runtime: &Waiter,
    extensions: &[Waiter],
) -> Result<Answered, AllocError>
    requires { IsMoment (moment_by call) }
    ensures { IfOk result (λ answers. answers.items ≡ filter_map (poll.answered call) (runtime.now ∷ extensions.now)) }
{
    let mut answers = Vec::new(alloc);
    if let Some(answer) = poll_answer(call, runtime) {
        answers.push(answer)?;
    }
    for extension in extensions {
        if let Some(answer) = poll_answer(call, extension) {
            answers.push(answer)?;
        }
    }
    Ok(answers)
}

// Who is registered after a call, and where each waits.
fn change_extensions(extensions: &mut Vec<Waiter>, call: EnvCall) -> Result<(), AllocError>
    ensures ok { OnOk result (extensions.new.items ≡ step.extensions_after call extensions.old.items) }
    ensures err { OnErr result (extensions.new.items ≡ extensions.old.items) }
{
    if let Some(party) = registration(call) {
        extensions.push(Waiter { party, slot: None })?;
    }
    if clears(call) {
        extensions.clear();
    }
    move_slots(extensions, call);
    Ok(())
}

impl Env {
    ghost use Rattle.env_phase.specs.declared.call.EnvCall.TheVariants.{RuntimeNext, Register, ExtensionNext, Give, Answer};
    ghost use Rattle.env_phase.specs.declared.call.EnvCall.TheVariants.{InitError, ExtensionError, Timeout, Shutdown};
    ghost use Rattle.env_phase.specs.declared.refusal.EnvError.TheVariants.{OutOfMemory};
    ghost use Rattle.env_phase.specs.State.{Accepts, Refuses};
    ghost use Rattle.env_phase.specs.Steps.{is_ready_in};

    // Changes what the call changes.
    fn change(&mut self, call: EnvCall) -> Result<(), AllocError>
        ensures ok { OnOk result (self.new ≡ step.state_after self.old call) }
        ensures err { OnErr result (self.new ≡ self.old) }
    {
        change_extensions(&mut self.extensions, call)?;
        self.runtime_slot = slot_after(call, &RUNTIME, self.runtime_slot);
        self.event = event_after(call, self.event);
        self.is_shut = self.is_shut || is_shutdown(call);
        self.has_met = !is_reset(call) && (self.has_met || self.is_met());
        Ok(())
    }

    // The polls that the call answers.
    fn answers(&self, call: EnvCall) -> Result<Answered, AllocError>
        requires { IsMoment (moment_by call) }
        ensures { IfOk result (λ answers. answers.items ≡ step.answered_in self.now call) }
    {
        let runtime = Waiter {
            party: RUNTIME,
            slot: self.runtime_slot,
        };
        poll_answers(self.alloc, call, &runtime, &self.extensions)
    }

    /// Makes a call: what each of the calls below does, for callers that have the call as a value.
    ///
    /// It is refused, and then changes nothing: by the first check that fails (`Give` by `WrongPhase` where the
    /// environment is not ready), then by want of memory. A moment is at most the end of the year 9999.
    #[tactic(auto, using(crate::specs::laws::States::is_accepted, crate::specs::laws::States::is_refused))]
    pub fn call(&mut self, call: EnvCall) -> Result<Answered, EnvError>
        requires { IsMoment (moment_by call) }
        // claim: A call is accepted only where the calls before allow it. The environment then stands for all, and answers
        // just the polls that they say. [Env::runtime_next, Env::register, Env::extension_next, Env::give, Env::answer,
        // Env::init_error, Env::extension_error, Env::timeout, Env::shutdown]
        ensures ok { IfOk result (λ answers. Accepts self.old call self.new answers.items) }
        // claim: A refusal is the first failing check, or want of memory. It changes nothing. A shutdown is refused for
        // memory alone. [: refused, shutdown, err; Env::runtime_next, Env::register, Env::extension_next, Env::give,
        // Env::answer, Env::init_error, Env::extension_error, Env::timeout: refused, err; Env::shutdown: refused, memory,
        // err]
        ensures refused { IfErr result (λ why. Refuses self.old call why) }
        ensures shutdown { (now : ℕ) → call ≡ Shutdown now → IfErr result (λ why. why ≡ OutOfMemory) }
        ensures err { OnErr result (self.new ≡ self.old) }
    {
        if let Some(why) = self.refusal(call) {
            return Err(EnvError::Refused(why));
        }
        let answers = self.answers(call)?;
        self.change(call)?;
        Ok(answers)
    }

    /// The runtime asks for the next event, on this slot; an older poll of it is answered `Replaced`.
    ///
    /// `WrongPhase` while an event is unanswered, and once the environment was shut down. Runtime API, Next invocation.
    pub fn runtime_next(&mut self, slot: u64) -> Result<Answered, EnvError>
        ensures ok { IfOk result (λ answers. Accepts self.old (RuntimeNext slot) self.new answers.items) }
        ensures refused { IfErr result (λ why. Refuses self.old (RuntimeNext slot) why) }
        ensures err { OnErr result (self.new ≡ self.old) }
    {
        self.call(EnvCall::RuntimeNext { slot })
    }

    /// An extension registers under an identifier, for events, for the end of the environment, for both or neither.
    /// Names say nothing here: several extensions may have the same.
    ///
    /// `RegistrationClosed` outside of Init, then `TooManyExtensions` where 10 are registered, then `InUse` where the
    /// identifier is. Extensions API, Register.
    pub fn register(
        &mut self,
        identifier: &[u8; 16],
        _name: &[u8],
        invoke: bool,
        shutdown: bool,
    ) -> Result<Answered, EnvError>
        ensures ok { IfOk result (λ answers. Accepts self.old (Register identifier.now invoke shutdown) self.new answers.items) }
        ensures refused { IfErr result (λ why. Refuses self.old (Register identifier.now invoke shutdown) why) }
        ensures err { OnErr result (self.new ≡ self.old) }
    {
        self.call(EnvCall::Register {
            identifier: *identifier,
            invoke,
            shutdown,
        })
    }

    /// An extension asks for what it registered for, on this slot; an older poll of it is answered `Replaced`. It may
    /// ask while an event is unanswered.
    ///
    /// `UnknownExtension` where the identifier is not registered, as after a reset or a shutdown. Extensions API, Next.
    pub fn extension_next(&mut self, identifier: &[u8; 16], slot: u64) -> Result<Answered, EnvError>
        ensures ok { IfOk result (λ answers. Accepts self.old (ExtensionNext identifier.now slot) self.new answers.items) }
        ensures refused { IfErr result (λ why. Refuses self.old (ExtensionNext identifier.now slot) why) }
        ensures err { OnErr result (self.new ≡ self.old) }
    {
        self.call(EnvCall::ExtensionNext {
            identifier: *identifier,
            slot,
        })
    }

    /// Gives the event to the runtime and to the extensions that registered for events, whose polls are answered.
    /// The environment is ready, by condition.
    pub fn give(&mut self, id: &[u8; 16], deadline: u64) -> Result<Answered, EnvError>
        requires { IsTrue (is_ready_in self.old) }
        ensures ok { IfOk result (λ answers. Accepts self.old (Give id.now deadline) self.new answers.items) }
        ensures refused { IfErr result (λ why. Refuses self.old (Give id.now deadline) why) }
        ensures err { OnErr result (self.new ≡ self.old) }
    {
        self.call(EnvCall::Give { id: *id, deadline })
    }

    /// The runtime answers the event that runs here.
    ///
    /// `WrongPhase` where that event does not run here, and once the environment was shut down. Runtime API,
    /// Invocation response and Invocation error.
    pub fn answer(&mut self, id: &[u8; 16]) -> Result<Answered, EnvError>
        ensures ok { IfOk result (λ answers. Accepts self.old (Answer id.now) self.new answers.items) }
        ensures refused { IfErr result (λ why. Refuses self.old (Answer id.now) why) }
        ensures err { OnErr result (self.new ≡ self.old) }
    {
        self.call(EnvCall::Answer { id: *id })
    }

    /// The runtime reports that it could not start: the environment is reset, and those who wait are told, with the
    /// reason `Failure`. The deadline of a Shutdown is 2000 milliseconds later.
    ///
    /// `WrongPhase` outside of Init. Runtime API, Initialization error.
    pub fn init_error(&mut self, now: u64) -> Result<Answered, EnvError>
        requires { IsMoment now }
        ensures ok { IfOk result (λ answers. Accepts self.old (InitError now) self.new answers.items) }
        ensures refused { IfErr result (λ why. Refuses self.old (InitError now) why) }
        ensures err { OnErr result (self.new ≡ self.old) }
    {
        self.call(EnvCall::InitError { now })
    }

    /// An extension reports that it could not start (`in_init`), or that it ends: the environment is reset, and those
    /// who wait are told, with the reason `Failure`.
    ///
    /// `UnknownExtension` where the identifier is not registered, then `WrongPhase` for an error of Init outside of
    /// Init. Extensions API, Init error and Exit error.
    pub fn extension_error(
        &mut self,
        identifier: &[u8; 16],
        in_init: bool,
        now: u64,
    ) -> Result<Answered, EnvError>
        requires { IsMoment now }
        ensures ok { IfOk result (λ answers. Accepts self.old (ExtensionError identifier.now in_init now) self.new answers.items) }
        ensures refused { IfErr result (λ why. Refuses self.old (ExtensionError identifier.now in_init now) why) }
        ensures err { OnErr result (self.new ≡ self.old) }
    {
        self.call(EnvCall::ExtensionError {
            identifier: *identifier,
            in_init,
            now,
        })
    }

    /// The event was not answered in time: the environment is reset, and those who wait are told, with the reason
    /// `Timeout`.
    ///
    /// `WrongPhase` where no event is unanswered, and once the environment was shut down.
    pub fn timeout(&mut self, now: u64) -> Result<Answered, EnvError>
        requires { IsMoment now }
        ensures ok { IfOk result (λ answers. Accepts self.old (Timeout now) self.new answers.items) }
        ensures refused { IfErr result (λ why. Refuses self.old (Timeout now) why) }
        ensures err { OnErr result (self.new ≡ self.old) }
    {
        self.call(EnvCall::Timeout { now })
    }

    /// Ends the environment for good: those who wait are told, with the reason `Spindown`, and later calls are refused.
    /// It is refused by want of memory alone.
    pub fn shutdown(&mut self, now: u64) -> Result<Answered, EnvError>
        requires { IsMoment now }
        ensures ok { IfOk result (λ answers. Accepts self.old (Shutdown now) self.new answers.items) }
        ensures refused { IfErr result (λ why. Refuses self.old (Shutdown now) why) }
        ensures memory { IfErr result (λ why. why ≡ OutOfMemory) }
        ensures err { OnErr result (self.new ≡ self.old) }
    {
        self.call(EnvCall::Shutdown { now })
    }
}
