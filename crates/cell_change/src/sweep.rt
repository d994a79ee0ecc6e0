//! Cells that nobody keeps go, and what is put aside still is listed. This takes no memory.

ghost use Rattle.std.specs.Prelude.{◌≡◌, ◌+◌, ◌<◌, ◌≤◌, ◌++◌, [], length, vec_capacity, vec_len};
ghost use Rattle.cell_world.specs.Answer.{ids};
ghost use Rattle.cell_world.specs.Commands.UnloadCommand.{detached_of};
ghost use Rattle.cell_machine.specs.Machine.{IsSound, world_of};
ghost use Rattle.cell_change.specs.Exchanged.{unless_attached};
ghost use Rattle.cell_change.specs.Sweeping.{AreSwept, CanSweep};

use cell_machine::Machine;
use cell_num::CellId;
use cell_unload::{Survey, remove_unkept};

/// Removes all cells that nobody keeps by the survey, if there is one, and lists them, and those that are put
/// aside still, in lists that are empty and have room for all cells. This takes no memory.
pub fn sweep(
    machine: &mut Machine,
    survey: &Option<Survey>,
    removed: &mut Vec<CellId>,
    aside: &mut Vec<CellId>,
)
    requires can { CanSweep machine.old survey.now (vec_capacity removed.old) (vec_capacity aside.old) }
    requires none_removed { removed.old.items ≡ [] }
    requires none_aside { aside.old.items ≡ [] }
    ensures { AreSwept machine.old survey.now removed.new.items aside.new.items machine.new }
{
    if let Some(survey) = survey {
        remove_unkept(machine, survey, removed);
        list_detached(machine, aside);
    }
}

/// Adds the cell to a list with room for it, if a swap put it aside.
fn add_detached(cell: CellId, group: Option<u32>, into: &mut Vec<CellId>)
    requires { vec_len into.old < vec_capacity into.old }
    ensures cells { into.new.items ≡ into.old.items ++ unless_attached cell group }
    ensures room { vec_capacity into.old ≤ vec_capacity into.new }
    ensures more { vec_len into.new ≤ vec_len into.old + 1 }
{
    if group.is_none() {
        return;
    }
    into.push_reserved(cell);
}

/// Lists the cells that are put aside, ascending, in a list that is empty and has room for all cells.
/// This takes no memory.
fn list_detached(machine: &Machine, into: &mut Vec<CellId>)
    requires sound { IsSound machine.now }
    requires empty { into.old.items ≡ [] }
    requires room { length machine.now.cells.items ≤ vec_capacity into.old }
    ensures { into.new.items ≡ ids (detached_of (world_of machine.now)) }
{
    let cells = machine.cells.as_slice();
    for place in 0..cells.len() {
        let cell = &cells[place];
        add_detached(cell.id, machine.group(cell), into);
    }
}
