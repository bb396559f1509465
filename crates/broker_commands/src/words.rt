// The words of the command line: which command they are, and what it is told.
use crate::address::{Address, Stopping};
use crate::auditing::{AuditRequest, More, OldDisk};
use crate::commands::{audit_command, commands, serve_command, stop_command};
use crate::configuring::NewPolicy;
use crate::copying::{NewCopy, NewLimits};
use crate::formatting::{Function, NewDisk, NumericSettings};
use crate::migrating::OldVersion;
use crate::probing::Volume;
use api_core::Dialect;
use clap::error::ErrorKind;
use clap::{ArgMatches, Command, Error};
use std::alloc::{AllocError, Global};
use std::net::{IpAddr, SocketAddr};
use uuid::Uuid;

/// A command of the program.
#[derive(Drop)]
pub enum Task<'a> {
    Job(Job<'a>),
    /// Serves a disk until it is told to stop.
    Serve(Address<'a>),
    /// Ends a broker, and waits for that.
    Stop(Stopping<'a>),
}

/// A command that waits for nobody.
#[derive(Drop)]
pub enum Job<'a> {
    Trial,
    Format(NewDisk<'a>),
    Audit(OldDisk<'a>),
    Configure(NewPolicy<'a>),
    Migrate(OldVersion<'a>),
    Copy(NewCopy<'a>),
    Probe(Volume<'a>),
}

fn function<'a>(matches: &ArgMatches<'a>) -> Option<Function<'a>> {
    Some(Function {
        name: matches.get_str("name")?,
        handler: matches.get_str("handler")?,
        arn: matches.get_str("arn")?,
    })
}

fn numbers(matches: &ArgMatches<'_>) -> Option<NumericSettings> {
    Some(NumericSettings {
        retries: matches.get_one("retries")?,
        age: matches.get_one("age")?,
        timeout: matches.get_one("timeout")?,
        concurrency: matches.get_one("concurrency")?,
        environments: matches.get_one("environments")?,
        events: matches.get_one("events")?,
        payload: matches.get_one("payload")?,
        response: matches.get_one("response")?,
    })
}

fn new_disk<'a>(matches: &ArgMatches<'a>) -> Option<NewDisk<'a>> {
    Some(NewDisk {
        path: matches.get_str("disk")?,
        sectors: matches.get_one("sectors")?,
        function: function(matches)?,
        numbers: numbers(matches)?,
        is_forced: matches.get_flag("force"),
        is_allocated: matches.get_flag("allocate"),
    })
}

// The fault of an id that is none.
fn bad_id(alloc: Global, id: &str) -> Result<Error, AllocError> {
    let message = format!(in alloc; "invalid value '{id}' for '--event <ID>': no UUID")?;
    audit_command(alloc)?.error(ErrorKind::ValueValidation, message.as_str())
}

// What is asked for behind a report.
fn more(alloc: Global, matches: &ArgMatches<'_>) -> Result<More, Error> {
    let in_force = matches.get_flag("in-force");
    let Some(id) = matches.get_str("event") else {
        return Ok(More {
            in_force,
            event: None,
        });
    };
    match Uuid::parse_str(id) {
        Ok(id) => Ok(More {
            in_force,
            event: Some(id.into_bytes()),
        }),
        Err(_) => Err(bad_id(alloc, id)?),
    }
}

// What is asked of a disk that is audited.
fn asked(alloc: Global, matches: &ArgMatches<'_>) -> Result<AuditRequest, Error> {
    if matches.get_flag("json") {
        return Ok(AuditRequest::Figures);
    }
    if matches.get_flag("records") {
        return Ok(AuditRequest::Records);
    }
    Ok(AuditRequest::Report(more(alloc, matches)?))
}

fn old_disk<'a>(alloc: Global, matches: &ArgMatches<'a>) -> Result<Option<Task<'a>>, Error> {
    let Some(path) = matches.get_str("disk") else {
        return Ok(None);
    };
    let asked = asked(alloc, matches)?;
    Ok(Some(Task::Job(Job::Audit(OldDisk { path, asked }))))
}

fn new_policy<'a>(matches: &ArgMatches<'a>) -> Option<NewPolicy<'a>> {
    Some(NewPolicy {
        path: matches.get_str("disk")?,
        retries: matches.get_one("retries"),
        age: matches.get_one("age"),
        is_unclaimed: matches.get_flag("unclaim"),
    })
}

fn new_limits<'a>(matches: &ArgMatches<'a>) -> NewLimits<'a> {
    NewLimits {
        environments: matches.get_one("environments"),
        events: matches.get_one("events"),
        payload: matches.get_one("payload"),
        response: matches.get_one("response"),
        name: matches.get_str("name"),
        handler: matches.get_str("handler"),
        arn: matches.get_str("arn"),
    }
}

fn new_copy<'a>(matches: &ArgMatches<'a>) -> Option<NewCopy<'a>> {
    Some(NewCopy {
        old: matches.get_str("disk")?,
        path: matches.get_str("new")?,
        sectors: matches.get_one("sectors"),
        limits: new_limits(matches),
        age: matches.get_one("age"),
        is_forced: matches.get_flag("force"),
        is_allocated: matches.get_flag("allocate"),
        is_unclaimed: matches.get_flag("unclaim"),
    })
}

fn old_version<'a>(matches: &ArgMatches<'a>) -> Option<OldVersion<'a>> {
    Some(OldVersion {
        path: matches.get_str("disk")?,
        is_unclaimed: matches.get_flag("unclaim"),
    })
}

fn volume<'a>(matches: &ArgMatches<'a>) -> Option<Volume<'a>> {
    Some(Volume {
        path: matches.get_str("disk")?,
        witness: matches.get_str("witness"),
    })
}

// The dialect of this name.
fn dialect(name: &str) -> Dialect {
    if name == "aws" {
        Dialect::Aws
    } else {
        Dialect::Profile
    }
}

// The fault of an address that is none, of a command.
fn bad_address(
    alloc: Global,
    mut command: Command<'_>,
    address: &str,
) -> Result<Error, AllocError> {
    let message = format!(in alloc;
        "invalid value '{address}' for '--address <IP>': no IP address"
    )?;
    command.error(ErrorKind::ValueValidation, message.as_str())
}

// Whether the records of one side are discarded, where it is said of which sides they are.
fn discards(matches: &ArgMatches<'_>, side: &str) -> bool {
    matches!(matches.get_str("discard"), Some(sides) if sides == side || sides == "both")
}

fn address_at<'a>(matches: &ArgMatches<'a>, reach: IpAddr) -> Option<Address<'a>> {
    Some(Address {
        path: matches.get_str("disk")?,
        name: matches.get_str("name"),
        reach,
        port: matches.get_one("port")?,
        host: matches.get_str("host"),
        admin: matches.get_one("admin"),
        acts: matches.get_flag("acts"),
        dialect: dialect(matches.get_str("dialect")?),
        extensions: matches.get_one("extensions")?,
        threads: matches.get_one("threads"),
        body_memory: matches.get_one("body-memory")?,
        clock_grace: matches.get_one("clock-grace")?,
        is_standby: matches.get_flag("standby"),
        is_watched: matches.get_flag("watch"),
        is_unclaimed: matches.get_flag("unclaim"),
        discards_success: discards(matches, "success"),
        discards_failure: discards(matches, "failure"),
    })
}

fn address<'a>(alloc: Global, matches: &ArgMatches<'a>) -> Result<Option<Task<'a>>, Error> {
    let Some(reach) = matches.get_str("address") else {
        return Ok(None);
    };
    match reach.parse::<IpAddr>() {
        Ok(ip) => Ok(address_at(matches, ip).map(Task::Serve)),
        Err(_) => Err(bad_address(alloc, serve_command(alloc)?, reach)?),
    }
}

fn stopped<'a>(alloc: Global, matches: &ArgMatches<'a>) -> Result<Option<Task<'a>>, Error> {
    let (Some(reach), Some(port)) = (matches.get_str("address"), matches.get_one("port")) else {
        return Ok(None);
    };
    match reach.parse::<IpAddr>() {
        Ok(ip) => Ok(Some(Task::Stop(Stopping {
            at: SocketAddr::new(ip, port),
            name: matches.get_str("name"),
            loses: matches.get_flag("lose"),
        }))),
        Err(_) => Err(bad_address(alloc, stop_command(alloc)?, reach)?),
    }
}

// What the words that were matched ask for.
fn task_of<'a>(alloc: Global, matches: &ArgMatches<'a>) -> Result<Option<Task<'a>>, Error> {
    let Some((name, told)) = matches.subcommand() else {
        return Ok(None);
    };
    match name {
        "trial" => Ok(Some(Task::Job(Job::Trial))),
        "format" => Ok(new_disk(told).map(Job::Format).map(Task::Job)),
        "serve" => address(alloc, told),
        "stop" => stopped(alloc, told),
        "audit" => old_disk(alloc, told),
        "configure" => Ok(new_policy(told).map(Job::Configure).map(Task::Job)),
        "migrate" => Ok(old_version(told).map(Job::Migrate).map(Task::Job)),
        "copy" => Ok(new_copy(told).map(Job::Copy).map(Task::Job)),
        "probe" => Ok(volume(told).map(Job::Probe).map(Task::Job)),
        _ => Ok(None),
    }
}

/// The command that the words are, the first of which is the program's name.
pub fn read_task<'a>(alloc: Global, words: &'a [String]) -> Result<Option<Task<'a>>, Error> {
    let matches = commands(alloc)?.try_get_matches_from(words)?;
    task_of(alloc, &matches)
}
