//! `viewstate`: a voter or a resolver that lines call.
#![tactic(auto)]

use simplex_program::mode::Mode;
use simplex_program::program::{ServeError, serve};
use std::process::ExitCode;
use std::{env, io};

const USAGE: &str = "usage: viewstate voter N ME T OPTIMISTIC | viewstate resolver T";

const USAGE_STATUS: u8 = 2;

fn main(rt: HostRuntime) -> ExitCode {
    let arguments = match arguments(&rt) {
        Ok(arguments) => arguments,
        Err(e) if e.kind() == io::ErrorKind::OutOfMemory => {
            return failed(&rt, ServeError::OutOfMemory);
        }
        Err(_) => return misused(&rt),
    };
    let Some(mode) = Mode::read(&arguments) else {
        return misused(&rt);
    };
    match serve(rt.alloc(), mode, rt.reader(), &mut io::writer(&rt)) {
        Ok(()) => ExitCode::SUCCESS,
        Err(e) => failed(&rt, e),
    }
}

/// Returns the arguments after the program's name.
fn arguments(rt: &HostRuntime) -> io::Result<Vec<String>> {
    let mut words = Vec::new(rt.alloc());
    for word in env::args(rt)?.skip(1) {
        words.push(word)?;
    }
    Ok(words)
}

fn misused(rt: &HostRuntime) -> ExitCode {
    let _ = eprintln!(rt; "{USAGE}");
    ExitCode::from(USAGE_STATUS)
}

fn failed(rt: &HostRuntime, error: ServeError) -> ExitCode {
    let status = error.status();
    let _ = eprintln!(rt; "{error}");
    ExitCode::from(status)
}
