//! Why a file is not read.

ghost use Rattle.std.specs.Prelude.{◌≡◌};
ghost use Rattle.cell_file.specs.declared.fail.ReadFail.TheVariants.{OutOfMemory};

use std::alloc::{AllocError, AllocFailed};

#[derive(Clone, Copy, Debug, PartialEq, Eq)]
pub enum ReadFail {
    /// The first rule that the file breaks, and the file offset that shows it.
    BadObject { rule: u8, at: u64 },
    OutOfMemory,
}

impl From<AllocError> for ReadFail {
    ghost from_gives = { λ _ e. e ≡ OutOfMemory };

    fn from(_error: AllocError) -> ReadFail {
        ReadFail::OutOfMemory
    }
}

impl<T: Drop> From<AllocFailed<T>> for ReadFail {
    ghost from_gives = { λ _ e. e ≡ OutOfMemory };

    fn from(_error: AllocFailed<T>) -> ReadFail {
        ReadFail::OutOfMemory
    }
}
