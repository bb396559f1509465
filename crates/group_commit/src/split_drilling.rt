// Scripts of steps of two halves, stops among them, on a disk in memory.
ghost use Rattle.std.specs.Prelude.{◌≡◌, length, OnOk, IfOk, IfErr};
ghost use Rattle.sector_disk.specs.Memory.{memory_view};
ghost use Rattle.broker_core.specs.Promises.{ForEachHistoryOn};
ghost use Rattle.broker_core.specs.Refusals.{TellsNotFormatted, TellsDamage, TellsOld, IsCutOff};
ghost use Rattle.group_commit.specs.Drill.{cause_in, IsAtOneOf, Recovers, TellsOpening};
ghost use Rattle.checkpoint.specs.declared.error.OpenError.TheVariants as open_error;
ghost use Rattle.group_commit.specs.declared.split_drilling.Held.TheVariants as held;
ghost use Rattle.group_commit.specs.declared.split_script.SplitStep.TheVariants as split_step;
ghost use Rattle.group_commit.specs.SplitDrill.{MayBeCutOff, IsSplitDrillOf, IsSplitDrillFailure};
ghost use Rattle.group_commit.specs.SplitSteps.{ForEachLog, ForEachStop, Leads, IsBegun, HaveGenerationOf, IsStopped, write_answer};

use crate::drilling::start;
use crate::{DrillFailure, SplitAnswer, SplitDrill, SplitStep};
use broker_core::{
    Batch, DiskHalf, Failed, IssueHalf, SettleError, SplitFailure, Written, copy_command,
};
use checkpoint::OpenError;
use invoke_records::Command;
use sector_disk::MemDisk;
use std::alloc::{AllocError, Global};

/// What the last lend or write left.
#[derive(Drop)]
pub(crate) enum Held {
    Nothing,
    Lent(Batch),
    Done(Result<Written, Failed>),
}

/// Both halves, and what is held between them.
#[derive(Drop)]
pub(crate) struct Halves {
    pub(crate) issue: IssueHalf,
    pub(crate) disk: DiskHalf<MemDisk>,
    pub(crate) held: Held,
}

// Opens a disk and splits its broker.
fn begin(alloc: Global, disk: MemDisk) -> Result<Halves, OpenError>
    ensures begins { ForEachHistoryOn (memory_view disk) (λ s history durable. IfOk result (IsBegun s history durable)) }
    ensures generation { IfOk result (HaveGenerationOf (memory_view disk).content) }
    ensures refused { ForEachHistoryOn (memory_view disk) (λ s history durable. IfErr result IsCutOff) }
    ensures opened { OnOk result (Recovers (memory_view disk).content) }
    ensures not_formatted { IfErr result (TellsNotFormatted (memory_view disk).content) }
    ensures damaged { IfErr result (TellsDamage (memory_view disk).content) }
    ensures old_version { IfErr result (TellsOld (memory_view disk).content) }
{
    let broker = match start(alloc, disk) {
        Ok(broker) => broker,
        Err(cause) => return Err(cause),
    };
    match broker.split() {
        Ok((issue, disk)) => Ok(Halves {
            issue,
            disk,
            held: Held::Nothing,
        }),
        Err(SplitFailure { .. }) => Err(OpenError::OutOfMemory),
    }
}

// Stops the disk, opens it and splits again.
fn stop(alloc: Global, halves: Halves, choice: &[(u64, [u8; 512])]) -> Result<Halves, OpenError>
    ensures recovers { ForEachLog halves (λ s log. IfOk result (IsStopped s log)) }
    ensures refused { ForEachLog halves (λ s log. IfErr result IsCutOff) }
{
    let Halves { disk, .. } = halves;
    begin(alloc, disk.close().stop(choice))
}

// Issues a command, a copy of which takes memory.
fn issue(halves: &mut Halves, command: &Command) -> Result<SplitAnswer, AllocError>
    ensures step { IfOk result (λ answer. Leads halves.old (split_step.Issue command.now) answer halves.new) }
{
    let command = copy_command(command)?;
    Ok(match halves.issue.issue(command) {
        Ok(ticket) => SplitAnswer::Number(ticket.number()),
        Err(why) => SplitAnswer::IssueRefused(why),
    })
}

// Lends what is pending.
fn lend(halves: Halves) -> (Halves, SplitAnswer)
    ensures step { Leads halves split_step.Lend result.1 result.0 }
{
    let Halves {
        mut issue,
        disk,
        held,
    } = halves;
    match issue.lend() {
        Ok(Some(batch)) => {
            let answer = SplitAnswer::Number(batch.last());
            let held = Held::Lent(batch);
            (Halves { issue, disk, held }, answer)
        }
        Ok(None) => (Halves { issue, disk, held }, SplitAnswer::Idle),
        Err(why) => (Halves { issue, disk, held }, SplitAnswer::LendRefused(why)),
    }
}

// What a step says of a write.
fn answer_to(outcome: &Result<Written, Failed>) -> SplitAnswer
    ensures { result ≡ write_answer outcome.now }
{
    match outcome {
        Ok(written) => SplitAnswer::Number(written.last()),
        Err(failed) => SplitAnswer::WriteRefused(failed.cause()),
    }
}

// Writes the batch that is held.
fn write(halves: Halves) -> (Halves, SplitAnswer)
    ensures step { Leads halves split_step.Write result.1 result.0 }
{
    let Halves {
        issue,
        mut disk,
        held,
    } = halves;
    match held {
        Held::Lent(batch) => {
            let outcome = disk.write(batch);
            let answer = answer_to(&outcome);
            let held = Held::Done(outcome);
            (Halves { issue, disk, held }, answer)
        }
        Held::Nothing => {
            let held = Held::Nothing;
            (Halves { issue, disk, held }, SplitAnswer::Idle)
        }
        Held::Done(outcome) => {
            let held = Held::Done(outcome);
            (Halves { issue, disk, held }, SplitAnswer::Idle)
        }
    }
}

// Settles the result that is held.
fn settle(halves: Halves) -> (Halves, SplitAnswer)
    ensures step { Leads halves split_step.Settle result.1 result.0 }
{
    let Halves {
        mut issue,
        disk,
        held,
    } = halves;
    match held {
        Held::Done(outcome) => {
            let held = Held::Nothing;
            match issue.settle(outcome) {
                Ok(durable) => {
                    let answer = SplitAnswer::Number(durable.number());
                    (Halves { issue, disk, held }, answer)
                }
                Err(why) => (
                    Halves { issue, disk, held },
                    SplitAnswer::SettleRefused(why),
                ),
            }
        }
        Held::Nothing => {
            let held = Held::Nothing;
            (Halves { issue, disk, held }, SplitAnswer::Idle)
        }
        Held::Lent(batch) => {
            let held = Held::Lent(batch);
            (Halves { issue, disk, held }, SplitAnswer::Idle)
        }
    }
}

// Lends what is pending and not lent, advances by it, and settles what came of that.
fn advance_on(halves: Halves) -> (Halves, SplitAnswer)
    requires { halves.held ≡ held.Nothing }
    ensures step { Leads halves split_step.Advance result.1 result.0 }
{
    let Halves {
        mut issue,
        mut disk,
        held,
    } = halves;
    let batch = match issue.lend_more() {
        Ok(Some(batch)) => batch,
        Ok(None) => return (Halves { issue, disk, held }, SplitAnswer::Idle),
        Err(why) => return (Halves { issue, disk, held }, SplitAnswer::LendRefused(why)),
    };
    match disk.advance(batch) {
        Ok(Some(written)) => match issue.settle_front(written) {
            Ok(durable) => {
                let answer = SplitAnswer::Number(durable.number());
                (Halves { issue, disk, held }, answer)
            }
            Err(why) => (
                Halves { issue, disk, held },
                SplitAnswer::SettleRefused(why),
            ),
        },
        Ok(None) => {
            let answer = SplitAnswer::Number(issue.durable().number());
            (Halves { issue, disk, held }, answer)
        }
        Err(failed) => match issue.settle(Err(failed)) {
            Ok(durable) => {
                let answer = SplitAnswer::Number(durable.number());
                (Halves { issue, disk, held }, answer)
            }
            Err(SettleError::NotWritten(why)) => (
                Halves { issue, disk, held },
                SplitAnswer::WriteRefused(why),
            ),
            Err(why) => (
                Halves { issue, disk, held },
                SplitAnswer::SettleRefused(why),
            ),
        },
    }
}

// Advances, where nothing is held.
fn advance(halves: Halves) -> (Halves, SplitAnswer)
    ensures step { Leads halves split_step.Advance result.1 result.0 }
{
    match &halves.held {
        Held::Nothing => advance_on(halves),
        Held::Lent(_) => (halves, SplitAnswer::Idle),
        Held::Done(_) => (halves, SplitAnswer::Idle),
    }
}

// Issues a command on halves that are given up where there is no memory for it.
fn issue_on(halves: Halves, command: &Command) -> Result<(Halves, SplitAnswer), OpenError>
    ensures step { IfOk result (λ r. Leads halves (split_step.Issue command.now) r.1 r.0) }
    ensures refused { IfErr result (λ why. why ≡ open_error.OutOfMemory) }
{
    let mut halves = halves;
    match issue(&mut halves, command) {
        Ok(answer) => Ok((halves, answer)),
        Err(AllocError) => Err(OpenError::OutOfMemory),
    }
}

// Stops the disk, opens it and splits again, and tells how many commands were recovered.
fn stop_on(
    alloc: Global,
    halves: Halves,
    choice: &[(u64, [u8; 512])],
) -> Result<(Halves, SplitAnswer), OpenError>
    ensures step { IfOk result (λ r. ForEachStop (λ step. Leads halves step r.1 r.0)) }
    ensures refused { ForEachLog halves (λ s log. IfErr result IsCutOff) }
{
    match stop(alloc, halves, choice) {
        Ok(halves) => {
            let recovered = halves.issue.durable().number();
            Ok((halves, SplitAnswer::Number(recovered)))
        }
        Err(cause) => Err(cause),
    }
}

// Runs one step.
fn run_step(
    alloc: Global,
    halves: Halves,
    step: &SplitStep,
) -> Result<(Halves, SplitAnswer), OpenError>
    ensures step { IfOk result (λ r. Leads halves step.now r.1 r.0) }
    ensures refused { ForEachLog halves (λ s log. IfErr result IsCutOff) }
    ensures needs { IfErr result (MayBeCutOff step.now) }
{
    match step {
        SplitStep::Issue(command) => issue_on(halves, command),
        SplitStep::Lend => Ok(lend(halves)),
        SplitStep::Write => Ok(write(halves)),
        SplitStep::Settle => Ok(settle(halves)),
        SplitStep::Advance => Ok(advance(halves)),
        SplitStep::Stop(choice) => stop_on(alloc, halves, choice),
    }
}

/// Opens a disk in memory, splits its broker, and runs a script on the halves, stops among its steps.
///
/// On a disk of which each image is a legal stop of a history, the answers are those of one list and three numbers: how many
/// commands are durable, up to which they are durable in the disk half, and up to which they were lent. Each begins as the number of
/// commands that the opening recovered; a stop cuts the list to a length from the second number to the third. An advance
/// lends the list to its end and makes durable what was staged; where nothing was, it stages what is not durable, or switches
/// and all is durable. Once a fault of a write or an advance is settled, nothing is issued or lent until the next stop. Both
/// are worn out only in generation 2^62. It fails as `drill` does.
pub fn drill_split(
    alloc: Global,
    disk: MemDisk,
    steps: &[SplitStep],
) -> Result<SplitDrill, DrillFailure>
    // claim: A whole script of issues, loans, writes, settlements, advances and crashes on a memory disk of legal stops has
    // the answers of one list and three numbers: durable, written, lent. An advance makes durable what was staged before, and
    // where nothing was, it stages all or switches. From a settled fault to the next crash, issues and loans are refused as
    // broken. [: run]
    ensures run { ForEachHistoryOn (memory_view disk) (λ s history durable.
        IfOk result (IsSplitDrillOf (memory_view disk).content s history durable steps.now)) }
    ensures refused { ForEachHistoryOn (memory_view disk) (λ s history durable. IfErr result (λ failure. IsCutOff (cause_in failure))) }
    ensures failed { ForEachHistoryOn (memory_view disk) (λ s history durable.
        IfErr result (IsSplitDrillFailure (memory_view disk).content s history durable steps.now)) }
    ensures place { IfErr result (IsAtOneOf (length steps.now)) }
    ensures opened { OnOk result (Recovers (memory_view disk).content) }
    ensures opening { IfErr result (TellsOpening (memory_view disk).content) }
{
    let mut halves = match begin(alloc, disk) {
        Ok(halves) => halves,
        Err(cause) => return Err(DrillFailure::AtOpening(cause)),
    };
    let mut answers = Vec::new(alloc);
    for (index, step) in steps.iter().enumerate() {
        if answers.reserve(1).is_err() {
            let cause = OpenError::OutOfMemory;
            return Err(DrillFailure::AtStep { step: index, cause });
        }
        let (next, answer) = match run_step(alloc, halves, step) {
            Ok(done) => done,
            Err(cause) => return Err(DrillFailure::AtStep { step: index, cause }),
        };
        halves = next;
        answers.push_reserved(answer);
    }
    let Halves { issue, disk, .. } = halves;
    Ok(SplitDrill {
        answers,
        issue,
        disk,
    })
}
