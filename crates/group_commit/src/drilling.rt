// Scripts of steps, stops among them, on a disk in memory.
ghost use Rattle.std.specs.Prelude.{◌≡◌, [], length, OnOk, IfOk, IfErr};
ghost use Rattle.sector_disk.specs.Memory.{memory_view};
ghost use Rattle.broker_core.specs.Broker.{settings_of, pending_of, durable_of};
ghost use Rattle.broker_core.specs.Promises.{ForEachHistory, ForEachHistoryOn};
ghost use Rattle.broker_core.specs.Refusals.{TellsNotFormatted, TellsDamage, TellsOld, IsCutOff};
ghost use Rattle.group_commit.specs.declared.script.Step.TheVariants as step;
ghost use Rattle.group_commit.specs.Drill.{answer_to, cause_in, IsAtOneOf, Recovers, TellsOpening, IsStop, MayBeCutOff, IsDrillFailure};
ghost use Rattle.group_commit.specs.DrillBroker.{ForEachStop, Leads, IsStarted, HasGenerationOf, KeepsGeneration, IsDrillOf};

use crate::{Drill, DrillFailure, Step, StepAnswer};
use broker_core::{Broker, IssueError, Ticket, copy_command, without_disk};
use checkpoint::OpenError;
use invoke_records::{Command, GREATEST_MOMENT};
use sector_disk::MemDisk;
use std::alloc::{AllocError, Global};

// Opens a disk.
pub(crate) fn start(alloc: Global, disk: MemDisk) -> Result<Broker<MemDisk>, OpenError>
    ensures recovers { ForEachHistoryOn (memory_view disk) (λ s history durable. IfOk result (IsStarted s history durable)) }
    ensures refused { ForEachHistoryOn (memory_view disk) (λ s history durable. IfErr result IsCutOff) }
    ensures nothing { IfOk result (λ b. pending_of b ≡ []) }
    ensures generation { IfOk result (HasGenerationOf (memory_view disk).content) }
    ensures opened { OnOk result (Recovers (memory_view disk).content) }
    ensures not_formatted { IfErr result (TellsNotFormatted (memory_view disk).content) }
    ensures damaged { IfErr result (TellsDamage (memory_view disk).content) }
    ensures old_version { IfErr result (TellsOld (memory_view disk).content) }
{
    without_disk(Broker::open(alloc, disk))
}

// Stops the disk and opens it again.
fn stop(
    alloc: Global,
    broker: Broker<MemDisk>,
    choice: &[(u64, [u8; 512])],
) -> Result<Broker<MemDisk>, OpenError>
    ensures recovers { ForEachHistory memory_view broker (λ history.
        IfOk result (IsStarted (settings_of broker) history (durable_of broker))) }
    ensures generation { ForEachHistory memory_view broker (λ history. IfOk result (KeepsGeneration broker)) }
    ensures refused { ForEachHistory memory_view broker (λ history. IfErr result IsCutOff) }
{
    start(alloc, broker.close().stop(choice))
}

// Issues a command, a copy of which takes memory.
fn issue(broker: &mut Broker<MemDisk>, command: &Command) -> Result<StepAnswer, AllocError>
    ensures step { IfOk result (λ answer. Leads broker.old (step.Issue command.now) answer broker.new) }
{
    let command = copy_command(command)?;
    Ok(match broker.issue(command) {
        Ok(ticket) => StepAnswer::Number(ticket.number()),
        Err(why) => StepAnswer::IssueRefused(why),
    })
}

// Commits what is pending.
fn commit(broker: &mut Broker<MemDisk>) -> StepAnswer
    ensures step { Leads broker.old step.Commit result broker.new }
{
    match broker.commit() {
        Ok(durable) => StepAnswer::Number(durable.number()),
        Err(why) => StepAnswer::CommitRefused(why),
    }
}

// Switches to the other segment.
fn switch(broker: &mut Broker<MemDisk>) -> StepAnswer
    ensures step { Leads broker.old step.Switch result broker.new }
{
    match broker.switch() {
        Ok(durable) => StepAnswer::Number(durable.number()),
        Err(why) => StepAnswer::CommitRefused(why),
    }
}

// What a step says of a resumption's answer.
fn answer_to(outcome: Result<Option<Ticket>, IssueError>) -> StepAnswer
    ensures { result ≡ answer_to outcome }
{
    match outcome {
        Ok(Some(ticket)) => StepAnswer::Number(ticket.number()),
        Ok(None) => StepAnswer::Number(0),
        Err(why) => StepAnswer::IssueRefused(why),
    }
}

// Marks the running event that was accepted first as interrupted.
fn resume(broker: &mut Broker<MemDisk>, now: u64) -> StepAnswer
    ensures step { Leads broker.old (step.Resume now) result broker.new }
{
    answer_to(broker.resume(now.min(GREATEST_MOMENT)))
}

// Runs a step that is no stop.
fn act(broker: &mut Broker<MemDisk>, step: &Step) -> Result<StepAnswer, AllocError>
    requires { IsStop step.now → ⊥ }
    ensures step { IfOk result (λ answer. Leads broker.old step.now answer broker.new) }
{
    match step {
        Step::Issue(command) => issue(broker, command),
        Step::Commit => Ok(commit(broker)),
        Step::Switch => Ok(switch(broker)),
        Step::Resume(now) => Ok(resume(broker, *now)),
        Step::Stop(_) => unreachable!(),
    }
}

// Stops the disk, opens it again and tells how many commands were recovered.
fn stop_on(
    alloc: Global,
    broker: Broker<MemDisk>,
    choice: &[(u64, [u8; 512])],
) -> Result<(Broker<MemDisk>, StepAnswer), OpenError>
    ensures step { IfOk result (λ r. ForEachStop (λ step. Leads broker step r.1 r.0)) }
    ensures refused { ForEachHistory memory_view broker (λ history. IfErr result IsCutOff) }
{
    match stop(alloc, broker, choice) {
        Ok(broker) => {
            let recovered = broker.durable().number();
            Ok((broker, StepAnswer::Number(recovered)))
        }
        Err(cause) => Err(cause),
    }
}

// Runs one step.
fn run_step(
    alloc: Global,
    broker: Broker<MemDisk>,
    step: &Step,
) -> Result<(Broker<MemDisk>, StepAnswer), OpenError>
    ensures step { IfOk result (λ r. Leads broker step.now r.1 r.0) }
    ensures refused { ForEachHistory memory_view broker (λ history. IfErr result IsCutOff) }
    ensures needs { IfErr result (MayBeCutOff step.now) }
{
    let mut broker = broker;
    match step {
        Step::Stop(choice) => stop_on(alloc, broker, choice),
        _ => match act(&mut broker, step) {
            Ok(answer) => Ok((broker, answer)),
            Err(AllocError) => Err(OpenError::OutOfMemory),
        },
    }
}

/// Opens a disk in memory and runs a script on it, stops among its steps.
///
/// On a disk of which each image is a legal stop of a history, the answers are those of one history that goes on from
/// what the opening recovered: a stop cuts it to a length from the durable number to its own, and after a fault nothing is
/// issued or committed until the next stop. A commit or a switch is worn out only where the generation has reached 2^62: the
/// opening tells it, and each switch raises it by one. It fails only where memory runs out, also the disk's own, and gives the
/// disk up then: where it failed at a step, those before it have such answers, and it opened the disk again or wanted memory.
///
/// Of any other disk it says this: the first opening fails for the causes of `Broker::open`, and only a disk that recovers
/// comes to a step.
pub fn drill(alloc: Global, disk: MemDisk, steps: &[Step]) -> Result<Drill, DrillFailure>
    // claim: A whole script of issues, commits, switches, resumptions and crashes on a memory disk of legal stops has the
    // answers of one history, from which crashes cut only what was not durable.
    ensures run { ForEachHistoryOn (memory_view disk) (λ s history durable.
        IfOk result (IsDrillOf (memory_view disk).content s history durable steps.now)) }
    // claim: On legal stops only the device or want of memory cuts a script off, at a place that is told, behind steps with a
    // history's answers. [: refused, failed, place; drill_split]
    ensures refused { ForEachHistoryOn (memory_view disk) (λ s history durable. IfErr result (λ failure. IsCutOff (cause_in failure))) }
    ensures failed { ForEachHistoryOn (memory_view disk) (λ s history durable.
        IfErr result (IsDrillFailure (memory_view disk).content s history durable steps.now)) }
    ensures place { IfErr result (IsAtOneOf (length steps.now)) }
    ensures opened { OnOk result (Recovers (memory_view disk).content) }
    ensures opening { IfErr result (TellsOpening (memory_view disk).content) }
{
    let mut broker = match start(alloc, disk) {
        Ok(broker) => broker,
        Err(cause) => return Err(DrillFailure::AtOpening(cause)),
    };
    let mut answers = Vec::new(alloc);
    for (index, step) in steps.iter().enumerate() {
        if answers.reserve(1).is_err() {
            let cause = OpenError::OutOfMemory;
            return Err(DrillFailure::AtStep { step: index, cause });
        }
        let (next, answer) = match run_step(alloc, broker, step) {
            Ok(done) => done,
            Err(cause) => return Err(DrillFailure::AtStep { step: index, cause }),
        };
        broker = next;
        answers.push_reserved(answer);
    }
    Ok(Drill { answers, broker })
}
