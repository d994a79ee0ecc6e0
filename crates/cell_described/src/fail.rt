//! Why the cells of a dump describe none of a machine.

ghost use Rattle.std.specs.Prelude.{◌≡◌};
ghost use Rattle.cell_described.specs.Fails.{audit_fail};
ghost use Rattle.cell_described.specs.declared.fail.DescribeFail.TheVariants.{OutOfMemory};

use cell_audit::AuditFail;
use std::alloc::{AllocError, AllocFailed};

/// The first fault, by the number of its line in the file.
#[derive(Clone, Copy, Debug, PartialEq, Eq)]
pub enum DescribeFail {
    /// No file has the name of the cell's, or its file breaks a rule.
    NoObject { line: u32 },
    /// The cell's places aren't of its object's sections in order, or a section or an alias stands
    /// where none can.
    Misplaced { line: u32 },
    OutOfMemory,
}

impl From<AllocError> for DescribeFail {
    ghost from_gives = { λ _ e. e ≡ OutOfMemory };

    fn from(_error: AllocError) -> DescribeFail {
        DescribeFail::OutOfMemory
    }
}

impl<T: Drop> From<AllocFailed<T>> for DescribeFail {
    ghost from_gives = { λ _ e. e ≡ OutOfMemory };

    fn from(_error: AllocFailed<T>) -> DescribeFail {
        DescribeFail::OutOfMemory
    }
}

impl From<DescribeFail> for AuditFail {
    ghost from_gives = { λ fail e. e ≡ audit_fail fail };

    fn from(fail: DescribeFail) -> AuditFail {
        match fail {
            DescribeFail::NoObject { line } => AuditFail::NoObject { line },
            DescribeFail::Misplaced { line } => AuditFail::Misplaced { line },
            DescribeFail::OutOfMemory => AuditFail::OutOfMemory,
        }
    }
}
