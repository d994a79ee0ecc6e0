//! All that gathered cells add, before anything is changed.

ghost use Rattle.cell_machine.specs.Machine.{world_of};
ghost use Rattle.cell_load.specs.Stages.{CanStage, Stages, new_cells};

use crate::landing::land;
use cell_gather::Gathered;
use cell_machine::{Machine, Staged};
use cell_world::Fail;
use std::alloc::Global;

/// Places the gathered cells, links them, and lists what they are called. The machine stays as it is.
///
/// Refusals, of which the first that holds is answered: too few free pages in a row, and an entry
/// whose number is outside its kind's range.
pub fn stage(alloc: Global, machine: &Machine, gathered: Gathered) -> Result<Staged, Fail>
    requires { CanStage machine.now gathered }
    ensures { Stages (world_of machine.now) (new_cells gathered.entry) result }
{
    let landed = land(alloc, machine, gathered, 0)?;
    Ok(landed.into_staged(alloc)?)
}
