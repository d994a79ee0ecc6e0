//! `kill`

ghost use Rattle.cell_machine.specs.Machine.{IsSound, world_of};
ghost use Rattle.cell_world.specs.Commands.TaskCommands.{next_kill};
ghost use Rattle.cell_machine.specs.Does.{Does, no_stack};

use crate::live_task::live;
use crate::stack::give_back;
use cell_machine::Machine;
use cell_world::{Fail, Reply};
use std::alloc::Global;

/// Ends a live task. Its stack is given back at once.
pub fn kill(alloc: Global, machine: &mut Machine, task: u32) -> Result<Reply, Fail>
    requires { IsSound machine.old }
    ensures { Does (next_kill (world_of machine.old) task) no_stack machine.old result machine.new }
{
    live(alloc, machine, task)?;
    let stack = machine.tasks.kill(task);
    machine.memory.unmap(stack);
    give_back(&mut machine.space, stack);
    Ok(Reply::Kill { task })
}
