//! `unload` and `purge`

ghost use Rattle.cell_machine.specs.Does.{Does, no_stack};
ghost use Rattle.cell_machine.specs.Machine.{IsSound, world_of};
ghost use Rattle.cell_world.specs.Commands.UnloadCommand.{next_purge, next_unload};

use crate::named::named_cells;
use crate::sweep::sweep;
use cell_machine::Machine;
use cell_num::Listed;
use cell_world::{CellName, Fail, Reply};
use std::alloc::Global;

/// Removes the cells of these names, and with them every cell that was put aside and that nobody
/// keeps. What is kept is read with the named cells put aside, so cells that hold only each other
/// go together.
///
/// Refusals, of which the first that holds is answered: a name that is no attached cell's, and a
/// named cell that is kept, with its holder.
pub fn unload(alloc: Global, machine: &mut Machine, names: &[CellName]) -> Result<Reply, Fail>
    requires { IsSound machine.old }
    ensures { Does (next_unload (world_of machine.old) names.now) no_stack machine.old result machine.new }
{
    let cells = named_cells(alloc, machine, names)?;
    let removed = sweep(alloc, machine, &cells)?;
    Ok(Reply::Unload {
        removed: Listed::from_vec(removed),
    })
}

/// Removes every cell that was put aside and that nobody keeps.
pub fn purge(alloc: Global, machine: &mut Machine) -> Result<Reply, Fail>
    requires { IsSound machine.old }
    ensures { Does (next_purge (world_of machine.old)) no_stack machine.old result machine.new }
{
    let removed = sweep(alloc, machine, &[])?;
    Ok(Reply::Purge {
        removed: Listed::from_vec(removed),
    })
}
