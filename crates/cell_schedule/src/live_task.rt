//! The live task that a command names.

ghost use Rattle.cell_world.specs.Following.{Follows};
ghost use Rattle.cell_machine.specs.Machine.{world_of};
ghost use Rattle.cell_task.specs.State.{seen_as};
ghost use Rattle.cell_world.specs.Answer.{live_task};

use cell_machine::{Machine, unknown_number};
use cell_task::Task;
use cell_world::Fail;
use std::alloc::Global;

/// The live task of that number.
pub fn live(alloc: Global, machine: &Machine, task: u32) -> Result<&Task, Fail>
    ensures { Follows (λ t. seen_as task t.now) result (live_task (world_of machine.now) task) }
{
    match machine.tasks.get(task) {
        Some(live) => Ok(live),
        None => Err(unknown_number(alloc, task)),
    }
}
