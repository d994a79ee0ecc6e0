//! `cellas DIR SOURCE`: assembles a source of a folder, and writes its object to standard output.
#![tactic(auto)]

ghost use Rattle.std.specs.Prelude.{◌≡◌};
ghost use Rattle.cellas.specs.Exit.{exit_of};

use cell_assemble::{AsStatus, cellas};
use cell_io::{RealHost, StdSink};
use std::process::ExitCode;
use std::{env, io};

fn main(rt: HostRuntime) -> ExitCode {
    let words = match command_line(&rt) {
        Ok(words) => words,
        Err(fault) if fault.kind() == io::ErrorKind::OutOfMemory => {
            return ExitCode::from(exit_status(AsStatus::OutOfMemory));
        }
        // Words that are no text are refused, as none are.
        Err(_) => Vec::new(rt.alloc()),
    };
    let mut out = StdSink::new(io::writer(&rt));
    let mut host = RealHost::new(rt);
    let status = cellas(rt.alloc(), &words, &mut host, &mut out);
    ExitCode::from(exit_status(status))
}

/// The words after the program's name.
fn command_line(rt: &HostRuntime) -> io::Result<Vec<String>> {
    let mut words = Vec::new(rt.alloc());
    for word in env::args(rt)?.skip(1) {
        words.push(word)?;
    }
    Ok(words)
}

fn exit_status(status: AsStatus) -> u8
    ensures { result ≡ exit_of status }
{
    match status {
        AsStatus::Done => 0,
        AsStatus::Usage
        | AsStatus::NoSource
        | AsStatus::TooManyNames
        | AsStatus::TooLong
        | AsStatus::Fault { .. } => 2,
        AsStatus::ReadFault => 3,
        AsStatus::WriteFault => 4,
        AsStatus::OutOfMemory => 5,
    }
}
