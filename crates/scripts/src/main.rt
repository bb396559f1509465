//! Runs the worked cases of a disk and of the broker on it, of its halves and of halls, of its table, and of all that needs no
//! disk: records, rules, requests, replies and environments.
//!
//! `case_runner` reads the files and compares the answers; what is here says what is answered to a step. In a file whose name
//! ends with `halves.txt` a broker can be split, in one whose name ends with `halls.txt` a hall can be opened, and in any other
//! one a broker can be copied and drilled. `CONTRIBUTING.md` has the language of the cases.
#![tactic(auto)]

mod broker_stage;
mod copying;
mod drilling;
mod events;
mod hall_stage;
mod halls;
mod halves;
mod halves_stage;
mod open_hall;
mod placing;
mod split_drilling;
mod splits;
mod timing;

use crate::broker_stage::BrokerStage;
use crate::hall_stage::HallStage;
use crate::halves_stage::HalvesStage;
use crate::timing::{print_all_times, words_of_times};
use case_runner::{Tally, run_file};
use disk_steps::World;
use std::process::ExitCode;
use std::{env, io};

// Runs the script of this name.
fn run_named(rt: &HostRuntime, name: &str, tally: &mut Tally) -> io::Result<()> {
    if name.ends_with("halves.txt") {
        run_file::<World<HalvesStage>, HostRuntime>(rt, name, tally)
    } else if name.ends_with("halls.txt") {
        run_file::<World<HallStage>, HostRuntime>(rt, name, tally)
    } else {
        run_file::<World<BrokerStage>, HostRuntime>(rt, name, tally)
    }
}

// Runs the scripts that the command line names.
fn run_all(rt: &HostRuntime) -> io::Result<ExitCode> {
    let mut tally = Tally::new();
    let mut names = env::args(rt)?;
    let _ = names.next();
    for name in names {
        run_named(rt, name.as_str(), &mut tally)?;
    }
    tally.print(rt)
}

fn main(rt: HostRuntime) -> io::Result<ExitCode> {
    if let Some(words) = words_of_times(&rt)? {
        print_all_times(&rt, &words)?;
        return Ok(ExitCode::from(0));
    }
    run_all(&rt)
}
