// What is printed for a command, and with which status it ends.
ghost use Rattle.std.specs.Prelude.{◌≡◌, ◌≤◌, IfOk, if◌then◌else◌};
ghost use Rattle.broker_commands.specs.Auditing.{status_for};
ghost use Rattle.broker_commands.specs.Formatting as formatting;
ghost use Rattle.broker_commands.specs.Configuring as configuring;
ghost use Rattle.broker_commands.specs.Migrating as migrating;
ghost use Rattle.broker_commands.specs.Copying as copying;
ghost use Rattle.broker_commands.specs.Status.{status_after, status_of_audit, status_of_usage, IsJobStatus};
ghost use Rattle.clap.specs.Values.{kind_of};
ghost use Rattle.broker_trial.specs.Trial as trial;
ghost use Rattle.disk_probe.specs.Faults as probing;

use crate::auditing::{Audit, AuditError, AuditOutput, audit_disk};
use crate::configured::Configured;
use crate::configuring::{ConfiguringError, configure_disk};
use crate::copying::{Copied, CopyingError, copy_disk};
use crate::formatting::{Function, NewDiskError, make_disk};
use crate::migrating::{Migrated, MigratingError, migrate_file};
use crate::probing::probe_volume;
use crate::progress::{Progress, ended};
use crate::words::Job;
use audit_report::Older;
use broker_trial::{Trial, TrialError, run_trial};
use clap::Error;
use clap::error::ErrorKind;
use disk_probe::{Probe, ProbeError};
use port_meters::Lines;
use sector_disk::Disk;
use std::alloc::AllocGlobal;
use std::fmt::Display;
use std::fs::File;
use std::io;
use std::io::{Eprint, Write};
use std::rt::Files;
use std::sync::Arc;
use std::time::Clock;

/// The command did what it was asked to.
pub const DONE: u8 = 0;
/// The disk is damaged, or the command was refused.
const REFUSED: u8 = 1;
/// The words are no command.
pub const USAGE: u8 = 2;
/// The device failed.
const DEVICE: u8 = 3;

/// Does a command that waits for nobody, prints what came of it to `out`, and answers the status: 0 done, 1 damaged or refused,
/// 3 the device.
pub fn print_job<R, W>(rt: &R, job: &Job<'_>, out: &mut W) -> io::Result<u8>
where
    R: Files<File = File> + Clock + Eprint + AllocGlobal + Copy + Drop,
    W: Write,
    // claim: By its outcome a command that waits for nobody ends, where it can print, with status 0 (done), 1 (refused, or an
    // audit's segments differ) or 3 (the device failed). [: job; print_fault; print_trial; print_format; print_audit;
    // print_configure; print_migrate; print_copy; print_probe]
    ensures job { IfOk result IsJobStatus }
    ensures small { IfOk result (λ status. status ≤ 3) }
{
    match Progress::new(rt) {
        Ok(progress) => print_job_by(rt, &progress, job, out),
        Err(_) => refuse_for_memory(out),
    }
}

// The same, where it is told so how far the work is. That goes before anything is printed.
fn print_job_by<R, W>(
    rt: &R,
    progress: &Arc<Progress<R>>,
    job: &Job<'_>,
    out: &mut W,
) -> io::Result<u8>
where
    R: Files<File = File> + Clock + Eprint + AllocGlobal + Copy + Drop,
    W: Write,
    ensures job { IfOk result IsJobStatus }
    ensures small { IfOk result (λ status. status ≤ 3) }
{
    match job {
        Job::Trial => print_trial(run_trial(rt.alloc()), out),
        Job::Format(new) => {
            warn_of_arn(rt, &new.function);
            let made = ended(progress, make_disk(rt, progress, new));
            print_format(new.sectors, made, out)
        }
        Job::Audit(old) => print_audit(ended(progress, audit_disk(rt, progress, old)), out),
        Job::Configure(new) => {
            let configured = told_by(configure_disk(rt, progress, new));
            print_configure(ended(progress, configured), out)
        }
        Job::Migrate(old) => print_migrate(ended(progress, migrate_file(rt, progress, old)), out),
        Job::Copy(new) => print_copy(ended(progress, copy_disk(rt, progress, new)), out),
        Job::Probe(volume) => print_probe(probe_volume(rt, volume), out),
    }
}

/// Whether words are no command since they ask for the version.
pub fn asks_for_version(fault: &Error) -> bool {
    matches!(fault.kind(), ErrorKind::DisplayVersion)
}

/// Prints why words are no command, or the help that they ask for: status 2, or 0 for help. Where memory was wanting to read them,
/// that is printed, with status 1.
pub fn print_usage<W: Write>(fault: &Error, out: &mut W) -> io::Result<u8>
    // claim: By the kind of their fault, words that are no command end, where it can print, with status 2, or with 0 (help or the
    // version was asked for) or 1 (want of memory). [: status]
    ensures status { IfOk result (λ status. status ≡ status_of_usage (kind_of fault.now)) }
    ensures small { IfOk result (λ status. status ≤ 3) }
{
    let status = match fault.kind() {
        ErrorKind::OutOfMemory => return refuse_for_memory(out),
        ErrorKind::DisplayHelp | ErrorKind::DisplayVersion => DONE,
        _ => USAGE,
    };
    write!(out, "{fault}")?;
    Ok(status)
}

fn print_trial<W: Write>(outcome: Result<Trial, TrialError>, out: &mut W) -> io::Result<u8>
    ensures { IfOk result (λ status. status ≡ status_after trial.is_device_fault outcome) }
{
    match outcome {
        Ok(done) => {
            done.print(out)?;
            Ok(DONE)
        }
        Err(fault) => print_fault(&fault, fault.is_device_fault(), out),
    }
}

// Says on standard error where an ARN does not end with the name of its function: records are told with the ARN.
fn warn_of_arn<R: Eprint + AllocGlobal>(rt: &R, function: &Function<'_>) {
    let Function { name, arn, .. } = *function;
    if arn.rsplit(':').next() == Some(name) {
        return;
    }
    if let Ok(lines) = Lines::new(rt.alloc()) {
        let line = format!(in rt.alloc();
            "warning: the ARN {arn} does not end with the name {name}"
        );
        lines.tell_made(rt, line);
    }
}

// Prints the size of a disk that was formatted.
fn print_format<W: Write>(
    sectors: u64,
    outcome: Result<(), NewDiskError>,
    out: &mut W,
) -> io::Result<u8>
    ensures { IfOk result (λ status. status ≡ status_after formatting.is_device_fault outcome) }
{
    match outcome {
        Ok(()) => {
            writeln!(out, "formatted {sectors} sectors")?;
            Ok(DONE)
        }
        Err(fault) => print_fault(&fault, fault.is_device_fault(), out),
    }
}

// Prints what a disk holds.
fn print_audit<W: Write>(outcome: Result<Audit, AuditError>, out: &mut W) -> io::Result<u8>
    ensures { IfOk result (λ status. status ≡ status_of_audit outcome) }
{
    match outcome {
        Ok(audit) => print_lines(&audit, out),
        Err(fault) => print_fault(&fault, fault.is_device_fault(), out),
    }
}

// What is in force on a disk that was configured, or why it was not.
fn told_by<D: Disk>(
    outcome: Result<Configured<'_, D>, ConfiguringError>,
) -> Result<(u8, u32), ConfiguringError> {
    match outcome {
        Ok(configured) => Ok(configured.told()),
        Err(why) => Err(why),
    }
}

// Prints what is in force on a disk that was configured.
fn print_configure<W: Write>(
    outcome: Result<(u8, u32), ConfiguringError>,
    out: &mut W,
) -> io::Result<u8>
    ensures { IfOk result (λ status. status ≡ status_after configuring.is_device_fault outcome) }
{
    match outcome {
        Ok((retries, age)) => {
            writeln!(out, "configured retries {retries} age {age}")?;
            Ok(DONE)
        }
        Err(fault) => print_fault(&fault, fault.is_device_fault(), out),
    }
}

// Prints what a disk holds that was migrated.
fn print_migrate<W: Write>(outcome: Result<Migrated, MigratingError>, out: &mut W) -> io::Result<u8>
    ensures { IfOk result (λ status. status ≡ status_after migrating.is_device_fault outcome) }
{
    match outcome {
        Ok(Migrated { generation, number }) => {
            writeln!(out, "migrated generation {generation} number {number}")?;
            Ok(DONE)
        }
        Err(fault) => print_fault(&fault, fault.is_device_fault(), out),
    }
}

// Prints how many events were copied, and the size of the new disk.
fn print_copy<W: Write>(outcome: Result<Copied, CopyingError>, out: &mut W) -> io::Result<u8>
    ensures { IfOk result (λ status. status ≡ status_after copying.is_device_fault outcome) }
{
    match outcome {
        Ok(Copied { events, sectors }) => {
            writeln!(out, "copied {events} events to {sectors} sectors")?;
            Ok(DONE)
        }
        Err(fault) => print_fault(&fault, fault.is_device_fault(), out),
    }
}

// Prints what was measured of a volume.
fn print_probe<W: Write>(outcome: Result<Probe, ProbeError>, out: &mut W) -> io::Result<u8>
    ensures { IfOk result (λ status. status ≡ status_after probing.is_device_fault outcome) }
{
    match outcome {
        Ok(told) => {
            writeln!(out, "{told}")?;
            Ok(DONE)
        }
        Err(fault) => print_fault(&fault, fault.is_device_fault(), out),
    }
}

// Prints what is told of an audit.
fn print_told<W: Write>(audit: &Audit, out: &mut W) -> io::Result<()> {
    let report = audit.report;
    match &audit.told {
        AuditOutput::Report(lines) => {
            writeln!(out, "{report}")?;
            out.write_all(lines.as_bytes())
        }
        AuditOutput::Figures(line) => writeln!(out, "{line}"),
        AuditOutput::Records(lines) => out.write_all(lines.as_slice()),
    }
}

// Prints the lines of an audit.
fn print_lines<W: Write>(audit: &Audit, out: &mut W) -> io::Result<u8>
    ensures { IfOk result (λ status. status ≡ status_for audit.now.report.older) }
{
    print_told(audit, out)?;
    Ok(match audit.report.older {
        Older::Differs => REFUSED,
        _ => DONE,
    })
}

/// Prints that memory ran out.
pub fn refuse_for_memory<W: Write>(out: &mut W) -> io::Result<u8>
    ensures { IfOk result (λ status. status ≡ 1) }
{
    print_fault(&"out of memory", false, out)
}

/// Prints why a command was not carried out, and answers the status of that: 3 where the device failed, else 1. An output that
/// takes nothing changes no status.
pub fn print_fault<E: Display, W: Write>(
    fault: &E,
    is_device_fault: bool,
    out: &mut W,
) -> io::Result<u8>
    ensures { IfOk result (λ status. status ≡ (if is_device_fault then 3 else 1)) }
{
    if is_device_fault {
        let _ = writeln!(out, "{fault}");
        return Ok(DEVICE);
    }
    let _ = writeln!(out, "refused: {fault}");
    Ok(REFUSED)
}
