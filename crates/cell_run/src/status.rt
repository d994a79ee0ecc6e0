//! How a run ends.

ghost use Rattle.std.specs.Prelude.{◌≡◌, ◌≢◌};
ghost use Rattle.cell_run.specs.Driven.{IsFinished};
ghost use Rattle.cell_run.specs.Run.{status_of};

use cell_input::{Reason, What};

/// How a run ended.
#[derive(Clone, Copy, Debug, PartialEq, Eq)]
pub enum Status {
    /// Each command was done.
    Done,
    /// Each command was answered, some by a refusal.
    SomeRefused,
    Usage,
    NoScript,
    BadScript { line: u32 },
    TooLarge { what: What, limit: u64 },
    ReadFault,
    WriteFault,
    OutOfMemory,
}

pub fn status_of(reason: Reason) -> Status
    ensures status { result ≡ status_of reason }
    ensures other { result ≢ Status.Usage }
    ensures unfinished { IsFinished result → ⊥ }
{
    match reason {
        Reason::NoScript => Status::NoScript,
        Reason::BadScript { line } => Status::BadScript { line },
        Reason::TooLarge { what, limit } => Status::TooLarge { what, limit },
    }
}
