//! Why a command was not done.

ghost use Rattle.std.specs.Prelude.{◌≡◌};
ghost use Rattle.cell_world.specs.declared.fail.Fail.TheVariants.{OutOfMemory};

use crate::Refusal;
use std::alloc::AllocError;

/// The first refusal, or want of memory.
#[derive(Drop)]
pub enum Fail {
    Refused(Refusal),
    OutOfMemory,
}

impl From<AllocError> for Fail {
    ghost from_gives = { λ _ e. e ≡ OutOfMemory };

    fn from(_error: AllocError) -> Fail {
        Fail::OutOfMemory
    }
}
