//! The causes of traps at accesses.

ghost use Rattle.std.specs.Prelude.{◌≡◌};
ghost use Rattle.cell_hart.specs.Causes.{load_cause as load_cause_of, store_cause as store_cause_of};

use cell_mem::MemFault;
use cell_num::Cause;

/// Why a load traps.
pub fn load_cause(fault: MemFault) -> Cause
    ensures { result ≡ load_cause_of fault }
{
    match fault {
        MemFault::Misaligned => Cause::LoadAlign,
        _ => Cause::Load,
    }
}

/// Why a store traps.
pub fn store_cause(fault: MemFault) -> Cause
    ensures { result ≡ store_cause_of fault }
{
    match fault {
        MemFault::Misaligned => Cause::StoreAlign,
        _ => Cause::Store,
    }
}
