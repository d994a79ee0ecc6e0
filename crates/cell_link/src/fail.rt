//! Why a cell or a field is not linked.

ghost use Rattle.std.specs.Prelude.{◌≡◌};
ghost use Rattle.cell_link.specs.declared.fail.LinkFail.TheVariants.{OutOfMemory};

use std::alloc::{AllocError, AllocFailed};

#[derive(Clone, Copy, Debug, PartialEq, Eq)]
pub enum LinkFail {
    /// The place in the table of the first entry whose number is outside its kind's range.
    Overflow { entry: u32 },
    OutOfMemory,
}

impl From<AllocError> for LinkFail {
    ghost from_gives = { λ _ e. e ≡ OutOfMemory };

    fn from(_error: AllocError) -> LinkFail {
        LinkFail::OutOfMemory
    }
}

impl<T: Drop> From<AllocFailed<T>> for LinkFail {
    ghost from_gives = { λ _ e. e ≡ OutOfMemory };

    fn from(_error: AllocFailed<T>) -> LinkFail {
        LinkFail::OutOfMemory
    }
}

/// The place in the table of the first entry of a field whose number is outside its kind's range.
#[derive(Clone, Copy, Debug, PartialEq, Eq)]
pub struct Overflow {
    pub entry: u32,
}
