// What a command that is legal does to the rows.
ghost use Rattle.std.specs.Prelude.{◌≡◌, ◌+◌, ◌<◌, ◌≤◌, ◌^◌, OnOk, OnErr, IfOk};
ghost use Rattle.async_core.specs.Policies as policies;
ghost use Rattle.async_core.specs.Rules as meant;
ghost use Rattle.async_core.specs.Standings as ruled;
ghost use Rattle.async_core.specs.Steps as step;

use crate::held::Held;
use invoke_records::{Answer, Cause, Command, EventRow, Kind, Outcome, Standing};
use retry_rules::{RetryPolicy, Settings, after_failure, after_pushback};
use std::alloc::AllocError;

/// What is in force after a command of this kind.
pub(crate) fn policy_after(before: RetryPolicy, kind: Kind) -> RetryPolicy
    ensures { result ≡ policies.policy_by before kind }
{
    match kind {
        Kind::Configure(policy) => policy,
        _ => before,
    }
}

/// The event that command number `number` accepts, while this policy is in force.
fn accepted_event(
    policy: RetryPolicy,
    number: u64,
    command: &Command,
) -> Result<EventRow, AllocError>
    ensures { IfOk result (λ row. row ≡ meant.accepted_row policy number command.now) }
{
    let payload = command.bytes.copy()?;
    Ok(EventRow {
        id: command.id,
        accepted: command.time,
        number,
        last_number: number,
        standing: Standing::Waiting { due: command.time },
        starts: 0,
        failures: 0,
        push_backs: 0,
        policy,
        payload,
        answer: Answer::None,
    })
}

fn one_more(n: u32) -> u32
    ensures { result ≡ meant.one_more n }
{
    if n < u32::MAX { n + 1 } else { u32::MAX }
}

fn starts_by(kind: Kind, n: u32) -> u32
    ensures { result ≡ meant.starts_by kind n }
{
    match kind {
        Kind::Start => one_more(n),
        _ => n,
    }
}

fn failures_by(kind: Kind, n: u32) -> u32
    ensures { result ≡ meant.failures_by kind n }
{
    match kind {
        Kind::Fail(_) => one_more(n),
        _ => n,
    }
}

fn push_backs_by(kind: Kind, n: u32) -> u32
    ensures { result ≡ meant.push_backs_by kind n }
{
    match kind {
        Kind::Throttle | Kind::Interrupt => one_more(n),
        Kind::Fail(_) => 0,
        _ => n,
    }
}

fn failed_at(retries: u8, failures: u32, time: u64) -> Standing
    requires { time < 2 ^ 63 }
    ensures { result ≡ ruled.failed_at retries failures time }
{
    if failures > u32::from(retries) {
        return Standing::Ended {
            outcome: Outcome::RetriesExhausted,
            at: time,
        };
    }
    Standing::DueAgain {
        due: time + after_failure(failures),
    }
}

fn pushed_back_at(push_backs: u32, time: u64) -> Standing
    requires some { 1 ≤ push_backs }
    requires time { time < 2 ^ 63 }
    ensures { result ≡ Standing.DueAgain (time + ruled.after_pushback push_backs) }
{
    Standing::DueAgain {
        due: time + after_pushback(push_backs),
    }
}

/// Where an event, which is judged by this policy, stands after the command, where it had failed and was pushed back so
/// often before.
pub(crate) fn standing_after(
    settings: &Settings,
    policy: RetryPolicy,
    command: &Command,
    failures: u32,
    push_backs: u32,
) -> Standing
    requires { command.now.time < 2 ^ 63 }
    ensures { result ≡ step.standing_with settings.now policy command.now failures push_backs }
{
    let time = command.time;
    match command.kind {
        Kind::Accept => Standing::Waiting { due: time },
        Kind::Start => Standing::Running {
            environment: command.environment,
            deadline: time + 1000 * u64::from(settings.timeout),
        },
        Kind::Succeed => Standing::Ended {
            outcome: Outcome::Success,
            at: time,
        },
        Kind::Fail(_) => failed_at(policy.retries, one_more(failures), time),
        Kind::Throttle => pushed_back_at(one_more(push_backs), time),
        Kind::Interrupt => pushed_back_at(one_more(push_backs), time),
        Kind::Expire => Standing::Ended {
            outcome: Outcome::EventAgeExceeded,
            at: time,
        },
        Kind::Collect => Standing::Unknown,
        Kind::Configure(_) => Standing::Unknown,
    }
}

/// The answer that the command brings, if it brings one.
fn new_answer(command: &Command) -> Result<Option<Answer>, AllocError>
    ensures { IfOk result (step.Brings command.now) }
{
    match command.kind {
        Kind::Succeed => {
            let bytes = command.bytes.copy()?;
            Ok(Some(Answer::Response(bytes)))
        }
        Kind::Fail(Cause::Reported) => {
            let bytes = command.bytes.copy()?;
            Ok(Some(Answer::Error(bytes)))
        }
        _ => Ok(None),
    }
}

/// Changes the row of the event that command number `number` names.
pub(crate) fn update(
    row: &mut EventRow,
    settings: &Settings,
    number: u64,
    command: &Command,
    answer: Option<Answer>,
)
    requires { command.now.time < 2 ^ 63 }
    ensures { step.Replaces command.now row.old.answer answer → row.new ≡ step.row_with settings.now number command.now row.old }
{
    let kind = command.kind;
    row.standing = standing_after(settings, row.policy, command, row.failures, row.push_backs);
    row.last_number = number;
    row.starts = starts_by(kind, row.starts);
    row.failures = failures_by(kind, row.failures);
    row.push_backs = push_backs_by(kind, row.push_backs);
    if let Some(answer) = answer {
        row.answer = answer;
    }
}

/// Does what command number `number` does to the rows, while this policy is in force.
pub(crate) fn change(
    held: &mut Held,
    settings: &Settings,
    policy: RetryPolicy,
    number: u64,
    command: &Command,
) -> Result<(), AllocError>
    requires { command.now.time < 2 ^ 63 }
    ensures ok { OnOk result (held.new ≡ step.rows_with settings.now policy number command.now held.old) }
    ensures err { OnErr result (held.new ≡ held.old) }
{
    match command.kind {
        Kind::Accept => {
            let row = accepted_event(policy, number, command)?;
            held.push(row)
        }
        Kind::Collect => {
            held.remove(&command.id);
            Ok(())
        }
        Kind::Configure(_) => Ok(()),
        _ => {
            let answer = new_answer(command)?;
            held.change(settings, number, command, answer)
        }
    }
}
