//! Why an audit isn't clean.

ghost use Rattle.std.specs.Prelude.{◌≡◌};

use cell_num::Name;
use std::alloc::AllocError;

/// The first line of the dump with a fault, by its number in the file.
#[derive(Drop)]
pub enum AuditFail {
    /// There is no dump (line 0), or the line has no reading behind those before it.
    Unreadable { line: u32 },
    /// No file has the name of the cell's, or its file breaks a rule.
    NoObject { line: u32 },
    /// The cell's sections aren't those of its object, or a section or an alias stands where none can.
    Misplaced { line: u32 },
    /// The entry at that place of the cell's table lacks a provider, or doesn't fit.
    Unlinked { line: u32, entry: u32 },
    /// The line, without the spaces before it, and what would stand there after linking anew.
    Differs { line: u32, held: Name, fresh: Name },
    OutOfMemory,
}

impl From<AllocError> for AuditFail {
    ghost use Rattle.cell_audit.specs.declared.fail.AuditFail.TheVariants.{OutOfMemory};

    ghost from_gives = { λ _ e. e ≡ OutOfMemory };

    fn from(_error: AllocError) -> AuditFail {
        AuditFail::OutOfMemory
    }
}
