//! Why an object is not written.

ghost use Rattle.std.specs.Prelude.{◌≡◌};
ghost use Rattle.cell_elfw.specs.declared.fail.WriteFail.TheVariants.{OutOfMemory};

use std::alloc::{AllocError, AllocFailed};

#[derive(Clone, Copy, Debug, PartialEq, Eq)]
pub enum WriteFail {
    /// The rule that the image breaks, or 0 where it reads as another object.
    Unwritable { rule: u8 },
    OutOfMemory,
}

impl From<AllocError> for WriteFail {
    ghost from_gives = { λ _ e. e ≡ OutOfMemory };

    fn from(_error: AllocError) -> WriteFail {
        WriteFail::OutOfMemory
    }
}
