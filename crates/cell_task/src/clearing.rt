//! A stack that is cleared.

ghost use Rattle.std.specs.Prelude.{◌≡◌, None, Ok};
ghost use Rattle.cell_mem.specs.Access.{storable};
ghost use Rattle.cell_mem.specs.State.{write_at};
ghost use Rattle.cell_world.specs.Running.Memory.{put_in};
ghost use Rattle.cell_task.specs.Clearing.{CanClear, with_cleared};

use cell_mem::Memory;
use cell_num::STACK_SIZE;

/// Stores eight zeros, where that can't fail.
fn clear_word(memory: &mut Memory, addr: u64)
    requires may { storable memory.old addr 8 ≡ Ok tt }
    requires undo { memory.old.undo ≡ None }
    ensures { memory.new ≡ record memory.old { regions = put_in memory.old.regions (write_at addr 8 0) } }
{
    match memory.store(addr, 8, 0) {
        Ok(()) => {}
        Err(_) => unreachable!(),
    }
}

/// Clears the stack that begins there, eight bytes at a time.
pub fn clear_stack(memory: &mut Memory, stack: u64)
    requires stack { CanClear memory.old stack }
    requires undo { memory.old.undo ≡ None }
    ensures { memory.new ≡ with_cleared memory.old stack }
{
    // The regions stand apart, so each store changes the stack's own alone.
    memory.laid_out();
    for word in 0..STACK_SIZE / 8 {
        memory.laid_out();
        clear_word(memory, stack + 8 * word);
    }
}
