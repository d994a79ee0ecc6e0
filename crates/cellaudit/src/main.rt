//! `cellaudit DIR DUMP`: audits the dump of a whole machine against the object files of a folder.
#![tactic(auto)]

ghost use Rattle.std.specs.Prelude.{◌≡◌};
ghost use Rattle.cellaudit.specs.Exit.{exit_of};

use cell_io::{RealHost, StdSink};
use cell_verdict::{AuditStatus, cellaudit};
use std::process::ExitCode;
use std::{env, io};

fn main(rt: HostRuntime) -> ExitCode {
    let words = match command_line(&rt) {
        Ok(words) => words,
        Err(fault) if fault.kind() == io::ErrorKind::OutOfMemory => {
            return ExitCode::from(exit_status(AuditStatus::OutOfMemory));
        }
        // Words that are no text are refused, as none are.
        Err(_) => Vec::new(rt.alloc()),
    };
    let mut out = StdSink::new(io::writer(&rt));
    let mut host = RealHost::new(rt);
    let status = cellaudit(rt.alloc(), &words, &mut host, &mut out);
    ExitCode::from(exit_status(status))
}

/// The words after the program's name.
fn command_line(rt: &HostRuntime) -> io::Result<Vec<String>> {
    let mut words = Vec::new(rt.alloc());
    for word in env::args(rt)?.skip(1) {
        words.push(word)?;
    }
    Ok(words)
}

fn exit_status(status: AuditStatus) -> u8
    ensures { result ≡ exit_of status }
{
    match status {
        AuditStatus::Clean => 0,
        AuditStatus::Fault => 1,
        AuditStatus::Usage | AuditStatus::NoDump | AuditStatus::TooLarge { .. } => 2,
        AuditStatus::ReadFault => 3,
        AuditStatus::WriteFault => 4,
        AuditStatus::OutOfMemory => 5,
    }
}
