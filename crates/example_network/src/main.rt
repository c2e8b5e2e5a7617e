//! Members that finalize views over links that lose messages, in one process: each is an engine with a disk and an
//! application.
#![tactic(auto)]

mod disk;
mod error;
mod faults;
mod grid;
mod links;
mod message;
mod node;
mod options;
mod random;
mod report;
mod world;

use error::RunError;
use options::{Asked, Options};
use std::process::ExitCode;
use std::{env, io};
use world::World;

const USAGE: &str =
    "usage: example_network [--members N] [--faulty N] [--term N] [--optimistic N] [--loss PERCENT] [--seed N] [--views N] [--quiet] | --help";

const USAGE_STATUS: u8 = 2;

fn main(rt: HostRuntime) -> ExitCode {
    match asked(&rt) {
        Ok(Asked::Run(options)) => match simulate(&rt, options) {
            Ok(()) => ExitCode::SUCCESS,
            Err(error) => failed(&rt, error),
        },
        Ok(Asked::Help) => {
            let _ = println!(rt; "{USAGE}");
            ExitCode::SUCCESS
        }
        Err(e) if e.kind() == io::ErrorKind::OutOfMemory => failed(&rt, RunError::OutOfMemory),
        Ok(Asked::Misused) | Err(_) => misused(&rt),
    }
}

/// Returns what the arguments after the program's name ask for.
fn asked(rt: &HostRuntime) -> io::Result<Asked> {
    let mut words = Vec::new(rt.alloc());
    for word in env::args(rt)?.skip(1) {
        words.push(word)?;
    }
    Ok(Asked::read(&words))
}

fn failed(rt: &HostRuntime, error: RunError) -> ExitCode {
    let _ = eprintln!(rt; "{error}");
    ExitCode::FAILURE
}

fn misused(rt: &HostRuntime) -> ExitCode {
    let _ = eprintln!(rt; "{USAGE}");
    ExitCode::from(USAGE_STATUS)
}

fn simulate(rt: &HostRuntime, options: Options) -> Result<(), RunError> {
    options.print(rt)?;
    let mut world = World::start(rt.alloc(), options)?;
    world.run(rt)
}
