// Auditing a disk in a file.
ghost use Rattle.std.specs.Prelude.{◌≡◌, ◌++◌, IfOk, OnOk, string_bytes};
ghost use Rattle.broker_commands.specs.Auditing.{is_device_fault, lines_of_policy, lines_of_event, lines_of, IsTold, Answers};

use crate::clock::now;
use crate::opening::{DiskError, open_device_read_only};
use crate::progress::Progress;
use crate::prospects::{Prospects, prospects_of};
use async_core::Table;
use audit_report::{Report, all_records, explain, figures, in_force_line, inspect, json_line};
use broker_core::OpenError;
use port_meters::Lines;
use sector_disk::Disk;
use std::alloc::{AllocError, Global};
use std::fs::File;
use std::io::Eprint;
use std::rt::Files;
use std::sync::Arc;
use std::time::Clock;
use thiserror::Error;

/// A disk that is to be audited.
#[derive(Clone, Copy)]
pub struct OldDisk<'a> {
    /// A file or a block device.
    pub path: &'a str,
    pub asked: AuditRequest,
}

/// What is asked of a disk.
#[derive(Clone, Copy)]
pub enum AuditRequest {
    /// A report, for a person to read.
    Report(More),
    /// The numbers, as JSON.
    Figures,
    /// The destination records.
    Records,
}

/// What is asked for behind a report.
#[derive(Clone, Copy)]
pub struct More {
    /// What is in force for the events that are accepted next.
    pub in_force: bool,
    /// The event with this id.
    pub event: Option<[u8; 16]>,
}

/// What an audit tells.
#[derive(Drop)]
pub struct Audit {
    pub report: Report,
    pub told: AuditOutput,
    /// What becomes of it once it is served, where the clock tells.
    pub prospects: Option<Prospects>,
}

/// What is printed of an audit.
#[derive(Drop)]
pub enum AuditOutput {
    /// The report, and these lines behind it.
    Report(String),
    /// The line of the numbers alone.
    Figures(String),
    /// The lines of the destination records alone.
    Records(Vec<u8>),
}

/// Why a disk was not audited.
#[derive(Clone, Copy, Debug, Error)]
pub enum AuditError {
    #[error("out of memory")]
    OutOfMemory(#[from] AllocError),
    #[error("{0}")]
    Disk(#[from] DiskError),
    #[error("{0}")]
    Open(#[from] OpenError),
}

impl AuditError {
    /// Whether the device failed.
    pub fn is_device_fault(&self) -> bool
        ensures { result ≡ is_device_fault self.now }
    {
        match self {
            AuditError::OutOfMemory(_) => false,
            AuditError::Disk(why) => why.is_device_fault(),
            AuditError::Open(why) => matches!(why, OpenError::Fault),
        }
    }
}

// Puts the line of what is in force behind a text, where it is asked for.
fn put_in_force(
    alloc: Global,
    out: &mut String,
    report: &Report,
    is_asked: bool,
) -> Result<(), AllocError>
    ensures { OnOk result (string_bytes out.new ≡ string_bytes out.old ++ lines_of_policy report.now is_asked) }
{
    if !is_asked {
        return Ok(());
    }
    let line = in_force_line(alloc, report)?;
    out.push_str(line.as_str())?;
    out.push_str("\n")
}

// Puts the line of an event behind a text, where one is asked for.
fn put_event(
    alloc: Global,
    out: &mut String,
    table: &Table,
    event: Option<[u8; 16]>,
) -> Result<(), AllocError>
    ensures { OnOk result (string_bytes out.new ≡ string_bytes out.old ++ lines_of_event table.now event) }
{
    match event {
        None => Ok(()),
        Some(id) => {
            let line = explain(alloc, table, &id)?;
            out.push_str(line.as_str())?;
            out.push_str("\n")
        }
    }
}

// The lines behind a report that are asked for.
fn lines_of(alloc: Global, table: &Table, report: &Report, more: More) -> Result<String, AllocError>
    ensures { IfOk result (λ lines. string_bytes lines ≡ lines_of table.now report.now more) }
{
    let mut lines = String::new(alloc);
    put_in_force(alloc, &mut lines, report, more.in_force)?;
    put_event(alloc, &mut lines, table, more.event)?;
    Ok(lines)
}

// What is told of a table where this is asked for.
fn told_of(
    alloc: Global,
    table: &Table,
    report: &Report,
    asked: AuditRequest,
) -> Result<AuditOutput, AllocError>
    ensures { IfOk result (IsTold table.now report.now asked) }
{
    match asked {
        AuditRequest::Report(more) => Ok(AuditOutput::Report(lines_of(
            alloc, table, report, more,
        )?)),
        AuditRequest::Figures => {
            let numbers = figures(table, report);
            Ok(AuditOutput::Figures(json_line(alloc, &numbers)?))
        }
        AuditRequest::Records => Ok(AuditOutput::Records(all_records(alloc, table)?)),
    }
}

// What a disk holds, what else is asked for, and what becomes of it by this moment.
fn with_more<D: Disk>(
    alloc: Global,
    disk: &mut D,
    asked: AuditRequest,
    at: Option<u64>,
) -> Result<Audit, AuditError>
    // claim: An audit tells what is asked for: report, what is in force and event, numbers, or records. [told_of]
    ensures { (D.view disk.old).honest → IfOk result (Answers (D.view disk.old).content asked) }
{
    let (table, report) = inspect(alloc, disk)?;
    let told = told_of(alloc, &table, &report, asked)?;
    let prospects = match at {
        Some(at) => Some(prospects_of(&table, at)),
        None => None,
    };
    Ok(Audit {
        report,
        told,
        prospects,
    })
}

// Warns of what becomes of a disk once it is served.
fn warn<R: Eprint + AllocGlobal>(
    rt: &R,
    path: &str,
    prospects: &Prospects,
) -> Result<(), AllocError> {
    let (alloc, lines) = (rt.alloc(), Lines::new(rt.alloc())?);
    if let Some(line) = prospects.age_line(alloc, path)? {
        lines.tell(rt, line.as_str());
    }
    if let Some(line) = prospects.clock_line(alloc, path)? {
        lines.tell(rt, line.as_str());
    }
    Ok(())
}

/// Reads what a disk holds, which is opened for reading alone. What serving it now would give up is told on standard error.
pub fn audit_disk<R>(
    rt: &R,
    progress: &Arc<Progress<R>>,
    old: &OldDisk<'_>,
) -> Result<Audit, AuditError>
where
    R: Files<File = File> + Eprint + Clock + AllocGlobal + Copy + Drop,
{
    let mut disk = open_device_read_only(rt, progress, old.path)?;
    let audit = with_more(rt.alloc(), &mut disk, old.asked, now(rt).ok())?;
    progress.end();
    if let Some(prospects) = &audit.prospects {
        warn(rt, old.path, prospects)?;
    }
    Ok(audit)
}
