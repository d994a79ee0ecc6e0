//! What stops the work on what a host gives.

use crate::HostFault;
use std::alloc::AllocError;

/// Why there is nothing to work on: a refusal of the caller's kinds, or a fault of the outside.
#[derive(Clone, Copy, Debug, PartialEq, Eq)]
pub enum Stop<R> {
    Refused(R),
    ReadFault,
    OutOfMemory,
}

impl<R> From<AllocError> for Stop<R> {
    ghost use Rattle.std.specs.Prelude.{◌≡◌};
    ghost use Rattle.cell_io.specs.declared.stop.Stop.TheVariants.{OutOfMemory};

    ghost from_gives = { λ _ stop. stop ≡ OutOfMemory };

    fn from(_error: AllocError) -> Stop<R> {
        Stop::OutOfMemory
    }
}

impl<R> From<HostFault> for Stop<R> {
    ghost use Rattle.std.specs.Prelude.{◌≡◌};
    ghost use Rattle.cell_io.specs.Within.{stop_of};

    ghost from_gives = { λ fault stop. stop ≡ stop_of fault };

    fn from(fault: HostFault) -> Stop<R> {
        match fault {
            HostFault::Failed => Stop::ReadFault,
            HostFault::OutOfMemory => Stop::OutOfMemory,
        }
    }
}
