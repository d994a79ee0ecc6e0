//! A transfer on a stack of its own.

ghost use Rattle.std.specs.Prelude.{◌≡◌, ◌<◌, [], length, slice_index_or};
ghost use Rattle.cell_world.specs.declared.refusal.Refusal.TheVariants.{Transfer as TransferRefused};
ghost use Rattle.cell_xfer.specs.Carried.{CanCarry, IsCarried};

use crate::{Addresses, transfer};
use cell_mem::{Memory, Perm};
use cell_num::Name;
use cell_world::{Class, Failure, Refusal, Routine};

/// All that the routines of a swap take, so that running them takes no memory.
#[derive(Drop)]
pub struct Transfer {
    /// What the routines are called, by their numbers.
    pub names: Vec<Name>,
    pub routines: Vec<Routine>,
    /// How many turns all of them have together.
    pub budget: u32,
    pub addresses: Addresses,
    /// Where their stack starts.
    pub stack: u64,
    /// The bytes of the stack, which are 0.
    pub zeros: Vec<u8>,
}

/// E14: the refusal of a swap one of whose routines failed.
fn refused(mut names: Vec<Name>, failure: Failure) -> Refusal
    requires { failure.routine < length names.items }
    ensures { result ≡ TransferRefused (slice_index_or names.items failure.routine []) failure.why }
{
    Refusal::Transfer {
        name: names.swap_remove(failure.routine as usize),
        why: failure.why,
    }
}

/// Maps the stack, runs the routines on it one after the other, and unmaps it. Where a routine fails,
/// what was written stays. This takes no memory.
pub fn carry_over(memory: &mut Memory, given: Transfer) -> Result<(), Refusal>
    requires { CanCarry memory.old given }
    ensures { IsCarried memory.old given result memory.new }
{
    let Transfer {
        names,
        routines,
        budget,
        addresses,
        stack,
        zeros,
    } = given;
    memory.space();
    memory.keeps_shapes();
    memory.map(stack, Perm::of(Class::Writable.permission()), zeros);
    memory.laid_out();
    memory.holds_bytes();
    let result = transfer(&routines, budget, stack, memory, &addresses);
    memory.unmap(stack);
    match result {
        Ok(()) => Ok(()),
        Err(failure) => Err(refused(names, failure)),
    }
}
