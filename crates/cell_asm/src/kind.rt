//! Why a source is no object.

ghost use Rattle.std.specs.Prelude.{◌≡◌, ◌<◌};
ghost use Rattle.cell_asm.specs.declared.kind.AsmFail.TheVariants.{OutOfMemory};
ghost use Rattle.cell_asm.specs.declared.kind.Stop.TheVariants.{OutOfMemory as NoMemory};
ghost use Rattle.cell_asm.specs.Faults.{Gives, rank as rank_of, earlier as earlier_of, both as both_of};

use std::alloc::{AllocError, AllocFailed};

/// What is wrong with a line. On a line with several faults the first of Word, Operand, Range,
/// Section, Twice, Long is answered; Label is answered only where no line has one of these.
#[derive(Clone, Copy, Debug, PartialEq, Eq)]
pub enum AsmKind {
    /// There is no such directive, instruction, register or spelling.
    Word,
    /// The operands are of the wrong number or kind.
    Operand,
    /// A number doesn't fit.
    Range,
    /// No section is chosen, or the statement isn't allowed in it.
    Section,
    /// A name is defined twice, or has two bindings.
    Twice,
    /// `.bss` is above 16 MiB, or another section above 1 MiB.
    Long,
    /// `%pcrel_lo` of a name that is no label of an instruction with `%pcrel_hi` or `%got_pcrel_hi`.
    Label,
}

/// Why a source was not assembled.
#[derive(Clone, Copy, Debug, PartialEq, Eq)]
pub enum AsmFail {
    /// The line, from 1, and what is wrong with it.
    Fault { line: u32, kind: AsmKind },
    OutOfMemory,
}

impl From<AllocError> for AsmFail {
    ghost from_gives = { λ _ e. e ≡ OutOfMemory };

    fn from(_error: AllocError) -> AsmFail {
        AsmFail::OutOfMemory
    }
}

/// Why a line is not read.
#[derive(Clone, Copy, Debug, PartialEq, Eq)]
pub enum Stop {
    Fault(AsmKind),
    OutOfMemory,
}

impl From<AllocError> for Stop {
    ghost from_gives = { λ _ e. e ≡ NoMemory };

    fn from(_error: AllocError) -> Stop {
        Stop::OutOfMemory
    }
}

impl<T: Drop> From<AllocFailed<T>> for Stop {
    ghost from_gives = { λ _ e. e ≡ NoMemory };

    fn from(_error: AllocFailed<T>) -> Stop {
        Stop::OutOfMemory
    }
}

/// The place in the order in which the faults of one line are answered.
fn rank(kind: AsmKind) -> u8
    ensures rank { result ≡ rank_of kind }
    ensures small { result < 7 }
{
    kind as u8
}

/// The fault that is answered of two on one line.
pub fn earlier(first: AsmKind, second: AsmKind) -> AsmKind
    ensures { result ≡ earlier_of first second }
{
    if rank(first) <= rank(second) {
        first
    } else {
        second
    }
}

/// The two values, or the fault that is answered.
pub fn both<A: Drop, B: Drop>(
    first: Result<A, AsmKind>,
    second: Result<B, AsmKind>,
) -> Result<(A, B), AsmKind>
    ensures { result ≡ both_of first second }
{
    match (first, second) {
        (Ok(first), Ok(second)) => Ok((first, second)),
        (Err(first), Err(second)) => Err(earlier(first, second)),
        (Err(kind), Ok(_)) | (Ok(_), Err(kind)) => Err(kind),
    }
}

/// The value, or the fault as what stops the reading of a line.
pub fn or_stop<A: Drop>(outcome: Result<A, AsmKind>) -> Result<A, Stop>
    ensures { Gives result outcome }
{
    outcome.map_err(Stop::Fault)
}
