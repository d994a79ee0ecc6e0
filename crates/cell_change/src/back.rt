//! The way back of a change that is refused once its new cells are there. It takes no memory.

ghost use Rattle.std.specs.Prelude.{◌≡◌};
ghost use Rattle.cell_machine.specs.Same.{IsSame, without_counts};
ghost use Rattle.cell_change.specs.Back.{CanUndo};

use cell_commit::{Rewiring, rewire};
use cell_machine::Machine;
use cell_num::CellId;
use cell_unload::take_away;

/// Gives the fields and the links of other cells and all that routines wrote back, and takes the new
/// cells away. `back` is what takes back what became of links. What was patched and mapped counts.
pub fn undo_new_cells(machine: &mut Machine, back: &Rewiring, fresh: &[CellId])
    requires { CanUndo machine.old back.now fresh.now }
    ensures same { (c : CanUndo machine.old back.now fresh.now) → IsSame c.can.room (without_counts c.can.room machine.new) }
    ensures patches { machine.new.memory.patches ≡ machine.old.memory.patches }
    ensures maps { machine.new.memory.maps ≡ machine.old.memory.maps }
{
    machine.memory.undo();
    machine.memory.laid_out();
    rewire(&mut machine.graph, &back.unbinds, &back.binds, &back.moves);
    take_away(machine, fresh);
    machine.next -= fresh.len() as u32;
}
