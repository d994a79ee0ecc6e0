//! How a call ends.

ghost use Rattle.std.specs.Prelude.{◌≡◌, ◌≢◌};
ghost use Rattle.cell_assemble.specs.Assembling.{status_of};

use cell_asm::AsmKind;

/// Why there is no object, if nothing failed.
#[derive(Clone, Copy, Debug, PartialEq, Eq)]
pub enum Refusal {
    TooManyNames,
    NoSource,
    TooLong,
    Fault { line: u32, kind: AsmKind },
}

/// How a call ended.
#[derive(Clone, Copy, Debug, PartialEq, Eq)]
pub enum AsStatus {
    /// The object was written.
    Done,
    /// There aren't two words.
    Usage,
    /// The folder has no such name.
    NoSource,
    /// The folder has more than 65536 names.
    TooManyNames,
    /// The source has more bytes than it may have (`MAX_SOURCE_BYTES`).
    TooLong,
    /// The first line of the source that has a fault, from 1, and what is wrong with it.
    Fault { line: u32, kind: AsmKind },
    ReadFault,
    WriteFault,
    OutOfMemory,
}

pub fn status_of(refusal: Refusal) -> AsStatus
    ensures status { result ≡ status_of refusal }
    ensures other { result ≢ AsStatus.Usage }
{
    match refusal {
        Refusal::TooManyNames => AsStatus::TooManyNames,
        Refusal::NoSource => AsStatus::NoSource,
        Refusal::TooLong => AsStatus::TooLong,
        Refusal::Fault { line, kind } => AsStatus::Fault { line, kind },
    }
}
