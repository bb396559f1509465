// The commands of the program, and what each is told.
use crate::argument::{Argument, command_of};
use clap::builder::ValueParser;
use clap::{Command, value_parser};
use port_meters::BARE_VERSION;
use std::alloc::{AllocError, Global};

// The file or the device that a command is about.
fn disk<'a>() -> Argument<'a> {
    Argument::place("disk", "DISK", "A file or a block device")
}

// How often and for how long an event is tried.
const RETRIES: &str = "Retries after a function error, 0 to 2";

const AGE: &str = "Greatest age of an event in seconds, 60 to 21600";

// Taking a claim away before anything else is written.
fn unclaim<'a>() -> Argument<'a> {
    let help = "Take away the claim of a broker that watched the disk and has ended";
    Argument::flag("unclaim", help)
}

// Writing all of a new file.
fn allocate<'a>() -> Argument<'a> {
    let help =
        "Write all of a new file, so that there is room for all of it; else only what must be";
    Argument::flag("allocate", help)
}

fn format_command<'a>(alloc: Global) -> Result<Command<'a>, AllocError> {
    let sectors = "Size of the disk in sectors of 512 bytes";
    let timeout = "Timeout of an attempt in seconds, 1 to 900";
    let concurrency = "Attempts that may run at once, 1 to 64";
    let environments = "Environments, 1 to 16";
    let events = "Events that may be held at once, 1 to 1024";
    let payload = "Greatest payload in bytes, 2 to 1048576";
    let response = "Greatest response in bytes, 2 to 262144";
    let about = "Make a disk of zeros and format it for a function";
    let told = [
        disk(),
        Argument::flag("force", "Format it whatever is there, which is lost"),
        allocate(),
        Argument::needed("sectors", sectors).of(value_parser!(u64)),
        Argument::needed("name", "Name of the function"),
        Argument::needed("handler", "Handler of the function"),
        Argument::needed("arn", "ARN of the function"),
        Argument::usual("retries", RETRIES, "2", value_parser!(u8)),
        Argument::usual("age", AGE, "21600", value_parser!(u32)),
        Argument::usual("timeout", timeout, "3", value_parser!(u16)),
        Argument::usual("concurrency", concurrency, "10", value_parser!(u8)),
        Argument::usual("environments", environments, "1", value_parser!(u8)),
        Argument::usual("events", events, "64", value_parser!(u16)),
        Argument::usual("payload", payload, "262144", value_parser!(u32)),
        Argument::usual("response", response, "262144", value_parser!(u32)),
    ];
    command_of(alloc, "format", about, &told)
}

/// `audit`.
pub(crate) fn audit_command<'a>(alloc: Global) -> Result<Command<'a>, AllocError> {
    let in_force = "Tell the retries and the age that are in force, too";
    let json = "Tell the numbers as one line of JSON instead";
    let records = "Tell the destination records instead, one a line";
    let about = "Tell what a disk holds, and whether its two segments tell one story";
    let told = [
        disk(),
        Argument::flag("in-force", in_force),
        Argument::option("event", "Tell of the event with this id, too").called("ID"),
        Argument::flag("json", json).without(&["in-force", "event", "records"]),
        Argument::flag("records", records).without(&["in-force", "event"]),
    ];
    command_of(alloc, "audit", about, &told)
}

fn configure_command<'a>(alloc: Global) -> Result<Command<'a>, AllocError> {
    let about =
        "Set how the events that are accepted from now on are tried; what is left out stays as it is";
    let told = [
        disk(),
        Argument::option("retries", RETRIES).of(value_parser!(u8)),
        Argument::option("age", AGE).of(value_parser!(u32)),
        unclaim(),
    ];
    command_of(alloc, "configure", about, &told)
}

fn migrate_command<'a>(alloc: Global) -> Result<Command<'a>, AllocError> {
    let about = "Make a disk that an older version wrote one of this version; its events stay";
    command_of(alloc, "migrate", about, &[disk(), unclaim()])
}

fn copy_command<'a>(alloc: Global) -> Result<Command<'a>, AllocError> {
    let old = "The disk that is copied, which stays as it is";
    let new = "The new disk: a file or a block device";
    let sectors = "Size of the new disk in sectors of 512 bytes, else that of the old one";
    let environments = "Environments, as many as before at least";
    let events = "Events that may be held at once, as many as before at least";
    let payload = "Greatest payload in bytes, as great as before at least";
    let response = "Greatest response in bytes, as great as before at least";
    let age =
        "Age in seconds of each event that has not ended, where it has a shorter one, 60 to 21600";
    let about = "Make a new disk with every event of an old one; its limits may be larger";
    let told = [
        Argument::place("disk", "OLD", old),
        Argument::place("new", "NEW", new),
        Argument::option("sectors", sectors).of(value_parser!(u64)),
        Argument::flag("force", "Make it whatever is there, which is lost"),
        allocate(),
        Argument::option("environments", environments).of(value_parser!(u8)),
        Argument::option("events", events).of(value_parser!(u16)),
        Argument::option("payload", payload).of(value_parser!(u32)),
        Argument::option("response", response).of(value_parser!(u32)),
        Argument::option("name", "Another name of the function"),
        Argument::option("handler", "Another handler"),
        Argument::option("arn", "Another ARN"),
        Argument::option("age", age).of(value_parser!(u32)),
        unclaim(),
    ];
    command_of(alloc, "copy", about, &told)
}

fn probe_command<'a>(alloc: Global) -> Result<Command<'a>, AllocError> {
    let witness = "Another attachment of the same volume, which is only read";
    let about =
        "Tell what can be known of a volume before it holds a broker; only one of zeros is written";
    let told = [disk(), Argument::option("witness", witness).called("DISK")];
    command_of(alloc, "probe", about, &told)
}

// The option of an IP address.
fn reach<'a>(help: &'a str) -> Argument<'a> {
    Argument::usual("address", help, "127.0.0.1", ValueParser::String).called("IP")
}

// The options of `serve` that have a number.
fn extensions<'a>() -> Argument<'a> {
    let help = "Extensions for which an environment waits before its first event, 0 to 10";
    Argument::usual("extensions", help, "0", value_parser!(u8).range(0..11))
}

fn threads<'a>() -> Argument<'a> {
    let help =
        "Threads that serve the callers, 1 to 32; where it is left out, one for each processor, 8 at most";
    Argument::option("threads", help).of(value_parser!(u8).range(1..33))
}

fn body_memory<'a>() -> Argument<'a> {
    let help =
        "MiB of callers' bodies that are under way at once, 8 to 32767; those behind wait to be read";
    let range = value_parser!(u16).range(8..32768);
    Argument::usual("body-memory", help, "32", range).called("MIB")
}

fn clock_grace<'a>() -> Argument<'a> {
    let help =
        "Seconds for which the clock is not believed after it was set ahead by more than an hour, 0 to 86400";
    let range = value_parser!(u32).range(0..86401);
    Argument::usual("clock-grace", help, "0", range).called("SECONDS")
}

/// `serve`.
pub(crate) fn serve_command<'a>(alloc: Global) -> Result<Command<'a>, AllocError> {
    let port = "Port of the callers, 1024 to 65519; environment n has the port n behind it";
    let dialect = "Whose words errors and names are in";
    let host = "A host name under which the ports are asked, beside localhost and addresses";
    let standby = "Wait for a disk that another program has open";
    let watch = "Claim the disk, and end with status 4 once another broker has taken it over";
    let discard =
        "Whose records are collected as soon as they are durable, so that nobody reads them";
    let admin = "Port of the operator, 1024 to 65535, on the loopback address";
    let dialects = ValueParser::Names(&["profile", "aws"]);
    let sides = ValueParser::Names(&["success", "failure", "both"]);
    let told = [
        disk(),
        Argument::option("name", "Serve the disk of this function alone"),
        Argument::needed("port", port).of(value_parser!(u16).range(1024..65520)),
        Argument::usual("dialect", dialect, "profile", dialects),
        extensions(),
        reach("IP address of the callers' and the environments' ports"),
        Argument::option("host", host).called("NAME"),
        threads(),
        body_memory(),
        clock_grace(),
        Argument::flag("standby", standby),
        Argument::flag("watch", watch),
        unclaim().without(&["watch"]),
        Argument::option("discard", discard).of(sides),
        Argument::option("admin", admin).of(value_parser!(u16).range(1024..65536)),
        Argument::flag("acts", "Let the operator act, too"),
    ];
    command_of(
        alloc,
        "serve",
        "Serve a disk until POST /broker/stop",
        &told,
    )
}

/// `stop`.
pub(crate) fn stop_command<'a>(alloc: Global) -> Result<Command<'a>, AllocError> {
    let port = "Port of the broker's callers";
    let lose = "End it though its disk is gone, by which all that was not saved is lost";
    let about =
        "Stop a broker that serves, as POST /broker/stop does, and wait until nobody listens there";
    let name = "Stop it only if it serves the function of this name";
    let told = [
        Argument::flag("lose", lose).without(&["name"]),
        Argument::needed("port", port).of(value_parser!(u16).range(1..65536)),
        reach("IP address of the callers' port"),
        Argument::option("name", name),
    ];
    command_of(alloc, "stop", about, &told)
}

fn trial_command<'a>(alloc: Global) -> Result<Command<'a>, AllocError> {
    let about = "Accept, commit and recover one event on a disk in memory";
    command_of(alloc, "trial", about, &[])
}

// A command's name.
#[derive(Clone, Copy)]
enum Name {
    Trial,
    Format,
    Audit,
    Configure,
    Migrate,
    Copy,
    Probe,
    Serve,
    Stop,
}

/// All commands, as help lists them.
const NAMES: [Name; 9] = [
    Name::Trial,
    Name::Format,
    Name::Audit,
    Name::Configure,
    Name::Migrate,
    Name::Copy,
    Name::Probe,
    Name::Serve,
    Name::Stop,
];

fn named<'a>(alloc: Global, name: Name) -> Result<Command<'a>, AllocError> {
    match name {
        Name::Trial => trial_command(alloc),
        Name::Format => format_command(alloc),
        Name::Audit => audit_command(alloc),
        Name::Configure => configure_command(alloc),
        Name::Migrate => migrate_command(alloc),
        Name::Copy => copy_command(alloc),
        Name::Probe => probe_command(alloc),
        Name::Serve => serve_command(alloc),
        Name::Stop => stop_command(alloc),
    }
}

fn all_named<'a>(alloc: Global) -> Result<Vec<Command<'a>>, AllocError> {
    let mut all = Vec::new(alloc);
    for name in NAMES {
        all.push(named(alloc, name)?)?;
    }
    Ok(all)
}

/// All commands of the program.
pub(crate) fn commands<'a>(alloc: Global) -> Result<Command<'a>, AllocError> {
    let all = all_named(alloc)?;
    Command::new(alloc, "lambda_broker")
        .about("A broker for asynchronous invocations of one function")
        .version(BARE_VERSION)
        .subcommand_required(true)
        .subcommands(all)
}
