// The words of the command line, and what is printed for them.
ghost use Rattle.std.specs.Prelude.{◌≡◌, ◌≤◌, IfOk};
ghost use Rattle.lambda_broker.specs.Status.{status_of_serving};

use crate::serving::{ServingError, serve_disk};
use broker_commands::{
    Address, DONE, Stopping, Task, USAGE, asks_for_version, print_fault, print_job, print_usage,
    read_task, refuse_for_memory,
};
use broker_opening::{own_version, stop_broker};
use std::fs::File;
use std::io;
use std::io::{Eprint, Write};
use std::net::{Net, TcpListener, TcpStream};
use std::random::RandomSource;
use std::rt::Files;
use std::sync::Wait;
use std::thread::Threads;
use std::time::Clock;

/// The status where another broker has taken the disk over.
const TAKEN: u8 = 4;

/// Does what the words say, the first of which is the program's name, prints it to `out`, and answers the status: 0 done,
/// 1 damaged or refused, 2 usage, 3 device, 4 taken over.
pub fn run<R, W>(rt: R, words: &[String], out: &mut W) -> io::Result<u8>
where
    R: Files<File = File>
        + Eprint
        + Threads
        + Wait
        + Clock
        + Net<Listener = TcpListener, Stream = TcpStream>
        + RandomSource
        + AllocGlobal
        + Copy
        + Drop
        + Send
        + 'static,
    R::Dir: Send + 'static,
    W: Write,
    // claim: The program's status is 0 to 4, where its printing does not fail.
    ensures { IfOk result (λ status. status ≤ 4) }
{
    match read_task(rt.alloc(), words) {
        Ok(Some(Task::Job(job))) => print_job(&rt, &job, out),
        Ok(Some(Task::Serve(at))) => print_serve(rt, &at, out),
        Ok(Some(Task::Stop(stopping))) => print_stop(&rt, &stopping, out),
        Ok(None) => Ok(USAGE),
        Err(fault) if asks_for_version(&fault) => print_version(&rt, out),
        Err(fault) => print_usage(&fault, out),
    }
}

// Serves a disk. Its line is printed once it is served.
fn print_serve<R, W>(rt: R, at: &Address<'_>, out: &mut W) -> io::Result<u8>
where
    R: Files<File = File>
        + Eprint
        + Threads
        + Wait
        + Clock
        + Net<Listener = TcpListener, Stream = TcpStream>
        + RandomSource
        + AllocGlobal
        + Copy
        + Drop
        + Send
        + 'static,
    R::Dir: Send + 'static,
    W: Write,
    ensures { IfOk result (λ status. status ≤ 4) }
{
    let outcome = serve_disk(rt, at, out);
    print_served(outcome, out)
}

// Prints why a serving ended, where it was not stopped.
fn print_served<W: Write>(outcome: Result<(), ServingError>, out: &mut W) -> io::Result<u8>
    // claim: By its outcome a serving ends, where it can print, with status 0 (stopped), 4 (taken over), 3 (the device failed)
    // or else 1. [: status]
    ensures status { IfOk result (λ status. status ≡ status_of_serving outcome) }
    ensures small { IfOk result (λ status. status ≤ 4) }
{
    match outcome {
        Ok(()) => Ok(DONE),
        Err(fault) if fault.is_taken_over() => {
            print_fault(&fault, false, out)?;
            Ok(TAKEN)
        }
        Err(fault) => print_fault(&fault, fault.is_device_fault(), out),
    }
}

// Prints what was stopped: the address, and the function where that was asked for.
fn print_stopped<W: Write>(stopping: &Stopping<'_>, out: &mut W) -> io::Result<()> {
    let at = stopping.at;
    match stopping.name {
        Some(name) => writeln!(out, "stopped {name} on {at}"),
        None => writeln!(out, "stopped {at}"),
    }
}

// Prints which program this is.
fn print_version<R, W>(rt: &R, out: &mut W) -> io::Result<u8>
where
    R: Files<File = File> + AllocGlobal,
    W: Write,
    ensures { IfOk result (λ status. status ≤ 3) }
{
    match own_version(rt) {
        Ok(version) => {
            writeln!(out, "lambda_broker {version}")?;
            Ok(DONE)
        }
        Err(_) => refuse_for_memory(out),
    }
}

// Stops a broker that serves, and says so once it has ended.
fn print_stop<R, W>(rt: &R, stopping: &Stopping<'_>, out: &mut W) -> io::Result<u8>
where
    R: Files<File = File> + AllocGlobal + Clock + Net<Listener = TcpListener, Stream = TcpStream>,
    W: Write,
    ensures { IfOk result (λ status. status ≤ 3) }
{
    match stop_broker(rt, stopping) {
        Ok(()) => {
            print_stopped(stopping, out)?;
            Ok(DONE)
        }
        Err(fault) => print_fault(&fault, false, out),
    }
}
