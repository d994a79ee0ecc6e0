//! Old cells put aside, and taken back where the change is refused. This takes no memory.

ghost use Rattle.std.specs.Prelude.{◌≡◌, ◌==◌, ◌||◌, ◌&&◌, ℕ, Bool, List, Some, not, option_map};
ghost use Rattle.cell_machine.specs.Machine.{IsSound};
ghost use Rattle.cell_machine.specs.Same.{IsSame, without_counts};
ghost use Rattle.cell_space.specs.Named.{cell_numbered as numbered};
ghost use Rattle.cell_space.specs.Spaces.{HasCell, HasDetached, HasNoRival};
ghost use Rattle.cell_world.specs.declared.state.Standing.TheVariants.{Attached};
ghost use Rattle.cell_space.specs.declared.cell.SpaceCell.{SpaceCell as Known};
ghost use Rattle.cell_change.specs.OldCells.{AreAttached, AreThere, CanReturn, IsAside, IsPut};

use cell_machine::Machine;
use cell_num::CellId;
use cell_space::Spaces;
use cell_world::Standing;

/// Puts a cell aside, unless it was already, as where two items name it.
fn put_one_aside(spaces: &mut Spaces, cell: CellId, swap: u32)
    requires there { HasCell spaces.old cell.0 }
    ensures known { (before : List Known) (p : ℕ → Bool) → IsPut before swap p spaces.old.cells → option_map (λ x. x.state) (numbered before cell.0) ≡ Some Attached → IsPut before swap (λ n. p n || n == cell.0) spaces.new.cells }
    ensures namespaces { spaces.new.namespaces ≡ spaces.old.namespaces }
{
    match spaces.state(cell) {
        Standing::Attached => spaces.detach(cell, swap),
        Standing::Detached(_) => {}
    }
}

/// Counts a swap, and puts the cells aside by it, unless there are none.
pub fn put_aside(machine: &mut Machine, old: &[CellId])
    requires sound { IsSound machine.old }
    requires there { AreThere machine.old.spaces.cells old.now }
    ensures { IsAside machine.old old.now machine.new }
{
    if old.is_empty() {
        return;
    }
    machine.swaps += 1;
    let swap = machine.swaps;
    for cell in old {
        put_one_aside(&mut machine.spaces, *cell, swap);
    }
}

/// Attaches a cell again, unless it was already.
fn reattach_one(spaces: &mut Spaces, cell: CellId)
    requires there { HasCell spaces.old cell.0 }
    requires free { HasDetached spaces.old cell.0 → HasNoRival spaces.old cell.0 }
    ensures known { (before : List Known) (k : ℕ) (p : ℕ → Bool) → IsPut before k p spaces.old.cells → AreAttached before cell.0 → IsPut before k (λ n. p n && not (n == cell.0)) spaces.new.cells }
    ensures namespaces { spaces.new.namespaces ≡ spaces.old.namespaces }
{
    match spaces.state(cell) {
        Standing::Attached => {}
        Standing::Detached(_) => spaces.reattach(cell),
    }
}

/// Attaches the cells again that the last swap put aside, which doesn't count then, if there are any.
pub fn reattach(machine: &mut Machine, old: &[CellId])
    requires { CanReturn machine.old old.now }
    ensures same { (r : CanReturn machine.old old.now) → IsSame r.before (without_counts r.before machine.new) }
    ensures memory { machine.new.memory ≡ machine.old.memory }
{
    if old.is_empty() {
        return;
    }
    for cell in old {
        reattach_one(&mut machine.spaces, *cell);
    }
    machine.swaps -= 1;
}
