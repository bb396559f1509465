// The environments of a hall.
ghost use Rattle.std.specs.Prelude.{◌≡◌, ◌↔◌, [], ◌-◌, find, length, slice_get, Some, IfSome, IsTrue, IfOk, IfErr};
ghost use Rattle.env_phase.specs.Calls.{moment_by, IsMoment};
ghost use Rattle.env_phase.specs.declared.call.EnvCall.TheVariants.{Shutdown};
ghost use Rattle.env_phase.specs.Environment.{runs};
ghost use Rattle.env_phase.specs.State.{ForEachList, Accepts};

use crate::environment_status::{EnvironmentStatus, environment_status};
use env_phase::{Answered, Env, EnvCall, EnvError, Refusal};
use std::alloc::{AllocError, Global};
use std::marker::Model;

/// The environments of a hall, numbered from 1 on.
///
/// Each stands for the calls that were made of it. A call is made of a copy, which is then put in its place.
#[derive(Drop)]
pub struct Environments {
    alloc: Global,
    /// The environment of number n stands at the place n - 1.
    list: Vec<Env>,
}

impl Model for Environments {
    ghost use Rattle.std.specs.Prelude.{List};
    ghost use Rattle.env_phase.specs.State.{EnvState};

    ghost Value = { List EnvState };

    ghost use Rattle.hall_plans.specs.Environments.{AreNumbered};

    ghost view = { λ e. e.list.items };

    ghost invariant = { λ e. AreNumbered e.list.items };
}

// Whether the event runs in this environment.
fn runs_in(env: &Env, id: &[u8; 16]) -> bool
    ensures { ForEachList env.now (λ calls. result ≡ runs calls id.now) }
{
    match env.running() {
        Some(event) => *id == event,
        None => false,
    }
}

// Shuts down a copy of the environment.
fn shut_down_copy(env: &Env, now: u64) -> Result<(Env, Answered), AllocError>
    requires { IsMoment now }
    ensures { IfOk result (λ ended. Accepts env.now (Shutdown now) ended.0 ended.1.items) }
{
    let mut copy = env.copy()?;
    match copy.shutdown(now) {
        Ok(answers) => Ok((copy, answers)),
        Err(EnvError::OutOfMemory) => Err(AllocError),
        Err(EnvError::Refused(_)) => unreachable!(),
    }
}

impl Environments {
    ghost use Rattle.env_phase.specs.Environment.{is_ready, running};
    ghost use Rattle.env_phase.specs.Polls.{refusal_of};
    ghost use Rattle.env_phase.specs.State.{IsAccepted, IsRefused};
    ghost use Rattle.hall_plans.specs.Past.{calls_in};
    ghost use Rattle.hall_plans.specs.Environments.{numbers, IsNumberIn, HoldFor, ForEachMade, ForCallsOf, IsPut, AreShutDown, AreAnsweredAtEnd};
    ghost use Rattle.hall_plans.specs.Showing.{numbers_shown, AreShownAfter};

    /// So many environments, in which nobody has asked for anything, and of which each waits for so many extensions.
    pub fn new(alloc: Global, count: u8, extensions: u8) -> Result<Environments, AllocError>
        ensures length { IfOk result (λ made. length made ≡ count) }
        ensures hold { IfOk result (λ made. HoldFor extensions made []) }
    {
        let mut list = Vec::with_capacity(alloc, usize::from(count))?;
        for place in 0..u16::from(count) {
            list.push(Env::waiting_for(alloc, place + 1, extensions))?;
        }
        Ok(Environments { alloc, list })
    }

    /// The least-numbered environment that can be given an event.
    pub(crate) fn ready(&self) -> Option<u16>
        ensures in_range { IfSome result (λ number. IsNumberIn self.now number) }
        ensures first { ForEachMade self.now (λ wanted made. result ≡ find (λ n. is_ready wanted (calls_in n made)) (numbers self.now)) }
    {
        for env in &self.list {
            if env.ready() {
                return Some(env.number());
            }
        }
        None
    }

    /// The environment in which the event runs.
    pub(crate) fn holder(&self, id: &[u8; 16]) -> Option<u16>
        ensures in_range { IfSome result (λ number. IsNumberIn self.now number) }
        ensures first { ForEachMade self.now (λ wanted made. result ≡ find (λ n. runs (calls_in n made) id.now) (numbers self.now)) }
    {
        for env in &self.list {
            if runs_in(env, id) {
                return Some(env.number());
            }
        }
        None
    }

    // The environment of this number.
    fn env(&self, number: u16) -> &Env
        requires { IsNumberIn self.now number }
        ensures place { slice_get self.now (number - 1) ≡ Some result.now }
        ensures number { result.now.number ≡ number }
    {
        &self.list[usize::from(number) - 1]
    }

    /// How many there are.
    pub(crate) fn len(&self) -> usize
        ensures { result ≡ length self.now }
    {
        self.list.len()
    }

    /// Whether one of them has this number.
    pub(crate) fn has(&self, number: u16) -> bool
        ensures { IsTrue result ↔ IsNumberIn self.now number }
    {
        1 <= number && usize::from(number) <= self.list.len()
    }

    /// The event that runs in the environment of this number.
    pub(crate) fn running(&self, number: u16) -> Option<[u8; 16]>
        requires { IsNumberIn self.now number }
        ensures { ForCallsOf self.now number (λ wanted calls. result ≡ running calls) }
    {
        self.env(number).running()
    }

    /// Why the environment of this number refuses the call now, if it does. It takes no memory.
    pub(crate) fn judge(&self, number: u16, call: EnvCall) -> Option<Refusal>
        requires { IsNumberIn self.now number }
        ensures { ForCallsOf self.now number (λ wanted calls. result ≡ refusal_of wanted calls call) }
    {
        self.env(number).judge(call)
    }

    /// The environment of this number after the call, and the polls that it answers; these stay as they are.
    ///
    /// It is refused as `Env::call` refuses it, then by want of memory.
    pub(crate) fn called(&self, number: u16, call: EnvCall) -> Result<(Env, Answered), EnvError>
        requires in_range { IsNumberIn self.now number }
        requires moment { IsMoment (moment_by call) }
        ensures number { IfOk result (λ called. called.0.number ≡ number) }
        ensures wanted { IfOk result (λ called. ForCallsOf self.now number (λ wanted calls. called.0.wanted ≡ wanted)) }
        ensures ok { IfOk result (λ called. ForCallsOf self.now number (λ wanted calls. IsAccepted calls call called.0 called.1.items)) }
        ensures refused { IfErr result (λ why. ForCallsOf self.now number (λ wanted calls. IsRefused wanted calls call why)) }
    {
        let env = self.env(number);
        if let Some(why) = env.judge(call) {
            return Err(EnvError::Refused(why));
        }
        let mut env = env.copy()?;
        let answers = env.call(call)?;
        Ok((env, answers))
    }

    /// Puts an environment in the place of the one of its number. It takes no memory.
    pub(crate) fn put(&mut self, env: Env)
        requires { IsNumberIn self.old env.number }
        ensures length { length self.new ≡ length self.old }
        ensures hold { IsPut self.old env self.new }
    {
        let place = usize::from(env.number()) - 1;
        self.list[place] = env;
    }

    /// All environments after their shutdown, and the polls that it answers, by the environments in turn; these stay as
    /// they are. A moment is at most the end of the year 9999.
    pub(crate) fn shut_down(&self, now: u64) -> Result<(Environments, Answered), AllocError>
        requires { IsMoment now }
        ensures length { IfOk result (λ ended. length ended.0 ≡ length self.now) }
        ensures hold { IfOk result (λ ended. AreShutDown self.now now ended.0) }
        ensures answers { IfOk result (λ ended. AreAnsweredAtEnd self.now now ended.1.items) }
    {
        let mut list = Vec::with_capacity(self.alloc, self.list.len())?;
        let mut answers = Vec::new(self.alloc);
        for env in &self.list {
            let (ended, told) = shut_down_copy(env, now)?;
            list.push(ended)?;
            answers.extend_from_slice(&told)?;
        }
        let ended = Environments {
            alloc: self.alloc,
            list,
        };
        Ok((ended, answers))
    }

    /// What is shown of each, in the order of their numbers.
    pub fn statuses(&self) -> Result<Vec<EnvironmentStatus>, AllocError>
        ensures numbers { IfOk result (λ statuses. numbers_shown statuses.items ≡ numbers self.now) }
        ensures shown { IfOk result (λ statuses. ForEachMade self.now (λ wanted made. AreShownAfter wanted (λ n. calls_in n made) statuses.items)) }
    {
        let mut statuses = Vec::with_capacity(self.alloc, self.list.len())?;
        for env in &self.list {
            statuses.push(environment_status(env))?;
        }
        Ok(statuses)
    }
}
