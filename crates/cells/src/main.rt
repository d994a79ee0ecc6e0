//! `cells DIR SCRIPT [--base HEX] [--pages N]`: does the commands of a script over the object files of
//! a folder, and writes the transcript to standard output. `cells --generate N --seed S [--base HEX]
//! [--pages N]`: makes a large run, does it, and writes what its answers come to.
#![tactic(auto)]

ghost use Rattle.std.specs.Prelude.{◌≡◌};
ghost use Rattle.cells.specs.Exit.{exit_of};

use cell_io::{RealHost, StdSink};
use cell_run::{Shelf, Status, cells};
use std::alloc::Global;
use std::process::ExitCode;
use std::{env, io};

fn main(rt: HostRuntime) -> ExitCode {
    let words = match command_line(&rt) {
        Ok(words) => words,
        Err(fault) if fault.kind() == io::ErrorKind::OutOfMemory => {
            return ExitCode::from(exit_status(Status::OutOfMemory));
        }
        // Words that are no text have no reading, as none have none.
        Err(_) => Vec::new(rt.alloc()),
    };
    keep_heap(rt.alloc());
    let mut out = StdSink::new(io::writer(&rt));
    let mut host = RealHost::new(rt);
    let mut shelf = Shelf::new();
    let status = cells(rt.alloc(), &words, &mut host, &mut out, &mut shelf);
    ExitCode::from(exit_status(status))
}

/// Bytes of heap that stay the program's between one command and the next.
const KEPT_HEAP: usize = 1 << 20;

/// glibc gives the end of its heap back to the system as soon as more is free there than twice the
/// largest block that was given back so far, and each command would take it anew. Without this room
/// the program does the same, but slower.
fn keep_heap(alloc: Global) {
    let _ = Vec::<u8>::with_capacity(alloc, KEPT_HEAP);
}

/// The words after the program's name.
fn command_line(rt: &HostRuntime) -> io::Result<Vec<String>> {
    let mut words = Vec::new(rt.alloc());
    for word in env::args(rt)?.skip(1) {
        words.push(word)?;
    }
    Ok(words)
}

fn exit_status(status: Status) -> u8
    ensures { result ≡ exit_of status }
{
    match status {
        Status::Done => 0,
        Status::SomeRefused => 1,
        Status::Usage | Status::NoScript | Status::BadScript { .. } | Status::TooLarge { .. } => 2,
        Status::ReadFault => 3,
        Status::WriteFault => 4,
        Status::OutOfMemory => 5,
    }
}
