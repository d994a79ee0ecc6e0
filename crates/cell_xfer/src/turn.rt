//! One turn of a routine.

ghost use Rattle.std.specs.Prelude.{◌≡◌, false, [], List};
ghost use Rattle.cell_hart.specs.Step.{seen_of};
ghost use Rattle.cell_mem.specs.State.{HasWrites};
ghost use Rattle.cell_world.specs.World.{Region};
ghost use Rattle.cell_world.specs.Running.Move.{called, gone_on, move, passed, state_at};
ghost use Rattle.cell_world.specs.Running.Transfer.{asked, asked_name as name_asked, routine_column};
ghost use Rattle.cell_xfer.specs.Named.{addresses_as};
ghost use Rattle.std.specs.Prelude.{slice_index};
ghost use Rattle.cell_xfer.specs.Ran.{hart_as, moved, tables_of};
ghost use Rattle.cell_xfer.specs.Written.{HasWritten};

use crate::asking::{MOST_BYTES, asked_name};
use crate::{Addresses, Firsts};
use cell_hart::{Hart, Stop};
use cell_mem::Memory;
use cell_num::Cause;
use cell_world::TaskState;

/// How a routine stands that has gone on: at the pc 0 it ends.
fn gone_on(hart: &Hart) -> TaskState
    ensures { result ≡ state_at (hart_as hart.now) }
{
    if hart.pc == 0 {
        return TaskState::Done(hart.x[10]);
    }
    TaskState::Ready
}

/// On to the instruction after a call.
fn pass(hart: &mut Hart) -> TaskState
    ensures { (regions : List Region) → moved regions hart.new result ≡ passed regions (hart_as hart.old) false [] }
{
    hart.pc = hart.pc.wrapping_add(4);
    gone_on(hart)
}

/// Answers a call for the address of a name. A name that is too long or can't be read is refused.
fn answer(hart: &mut Hart, memory: &Memory, names: &Firsts<u64>) -> TaskState
    ensures { moved memory.now.regions hart.new result ≡ called memory.now.regions (hart_as hart.old) (asked (addresses_as names.now) (name_asked (seen_of memory.now) (slice_index hart.old.x 10) (slice_index hart.old.x 11))) }
{
    let mut room = [0; MOST_BYTES];
    match asked_name(memory, hart.x[10], hart.x[11], &mut room) {
        Some(name) => {
            hart.x[10] = names.get(name).unwrap_or(0);
            pass(hart)
        }
        None => TaskState::Fault(Cause::Call, hart.pc),
    }
}

/// The call whose number stands in x17: 0 ends the routine with the code in x10, 1 to 3 do nothing,
/// 4 and 5 ask for the address of a name. Any other traps.
fn call(hart: &mut Hart, memory: &Memory, addresses: &Addresses) -> TaskState
    ensures { moved memory.now.regions hart.new result ≡ called memory.now.regions (hart_as hart.old) (routine_column (tables_of addresses.now) (seen_of memory.now) hart.old.x) }
{
    match hart.x[17] {
        0 => TaskState::Done(hart.x[10]),
        1..=3 => pass(hart),
        4 => answer(hart, memory, &addresses.old),
        5 => answer(hart, memory, &addresses.new),
        _ => TaskState::Fault(Cause::Call, hart.pc),
    }
}

/// An instruction, or a call.
pub fn turn(hart: &mut Hart, memory: &mut Memory, addresses: &Addresses) -> TaskState
    requires { HasWrites memory.old 1 }
    ensures moved { moved memory.new.regions hart.new result ≡ move (routine_column (tables_of addresses.now)) (seen_of memory.old) (hart_as hart.old) }
    ensures written { HasWritten memory.old memory.new 1 }
{
    match hart.step(memory) {
        Stop::Next => gone_on(hart),
        Stop::Call => call(hart, memory, addresses),
        Stop::Trap { cause, pc } => TaskState::Fault(cause, pc),
    }
}
