//! The program `lambda_broker`: its command line, and serving a disk. What is done before that stands in `broker_opening`, the other
//! commands in `broker_commands`.
#![tactic(auto)]

mod claiming;
mod clock_look;
mod command_line;
mod disk_look;
mod flush_look;
mod lookout;
mod owner;
mod serving;
mod turns;

use broker_commands::{DONE, print_fault, refuse_for_memory};
use broker_opening::{Output, keep_numbers};
use std::io::{ErrorKind, Write};
use std::process::ExitCode;
use std::rt::Env;
use std::{env, io};

/// The status where not all that was to be printed was taken.
const CUT: u8 = 1;

// The words of the command line.
fn words_of<R: Env + AllocGlobal>(rt: &R) -> io::Result<Vec<String>> {
    let mut words = Vec::new(rt.alloc());
    for word in env::args(rt)? {
        words.push(word)?;
    }
    Ok(words)
}

// Whether a disk is to be served: that waits for nobody who reads what it prints.
fn serves(words: &io::Result<Vec<String>>) -> bool {
    match words {
        Ok(words) => matches!(words.get(1), Some(word) if word.as_str() == "serve"),
        Err(_) => false,
    }
}

// A fault is printed as a refusal is, and not by the runtime: that would wait for whoever reads standard error.
fn main(rt: HostRuntime) -> ExitCode {
    let streams = keep_numbers(&rt);
    let words = words_of(&rt);
    let mut out = Output::new(io::writer(&rt), !serves(&words));
    let outcome = match words {
        Ok(words) => command_line::run(rt, &words, &mut out),
        Err(fault) if fault.kind() == ErrorKind::OutOfMemory => refuse_for_memory(&mut out),
        Err(fault) => Err(fault),
    };
    let status = match outcome {
        Ok(status) => status,
        Err(fault) => print_fault(&fault, false, &mut out).unwrap_or(CUT),
    };
    let _ = out.flush();
    drop(streams);
    if status == DONE && out.is_cut() {
        return ExitCode::from(CUT);
    }
    ExitCode::from(status)
}
