//! `tasks`

ghost use Rattle.std.specs.Prelude.{◌≡◌, IfOk, IsTrue, map, nat_lt, option_map};
ghost use Rattle.cell_machine.specs.Machine.{IsSound, world_of};
ghost use Rattle.cell_num.specs.Lists.{each_pair};
ghost use Rattle.cell_task.specs.State.{seen_as};
ghost use Rattle.cell_world.specs.Following.{Follows};
ghost use Rattle.cell_machine.specs.Does.{answer_in};
ghost use Rattle.cell_world.specs.Commands.TaskCommands.{next_tasks, task_line as line_of};

use cell_machine::Machine;
use cell_num::{Cause, Listed};
use cell_task::{Task, TaskFault, Tasks};
use cell_world::{Fail, Reply, TaskLine};
use std::alloc::{AllocError, Global};

fn cause(fault: Option<TaskFault>) -> Option<Cause>
    ensures { result ≡ option_map (λ fault. fault.cause) fault }
{
    match fault {
        Some(fault) => Some(fault.cause),
        None => None,
    }
}

fn task_line(number: u32, task: &Task) -> TaskLine
    ensures { result ≡ line_of (seen_as number task.now) }
{
    TaskLine {
        task: number,
        root: task.root,
        pc: task.hart.pc,
        fault: cause(task.fault),
    }
}

/// The line of each live task.
fn task_lines(alloc: Global, tasks: &Tasks) -> Result<Vec<TaskLine>, AllocError>
    requires { IsTrue (each_pair (λ a b. nat_lt a.number b.number) tasks.now.tasks) }
    ensures { IfOk result (λ lines. lines.items ≡ map line_of tasks.now.tasks) }
{
    let mut lines = Vec::new(alloc);
    for number in tasks.live() {
        match tasks.get(number) {
            Some(task) => lines.push(task_line(number, task))?,
            None => unreachable!(),
        }
    }
    Ok(lines)
}

/// Shows all live tasks, in the order of their numbers.
pub fn tasks(alloc: Global, machine: &Machine) -> Result<Reply, Fail>
    requires { IsSound machine.now }
    ensures { Follows (answer_in (world_of machine.now)) result (next_tasks (world_of machine.now)) }
{
    let lines = task_lines(alloc, &machine.tasks)?;
    Ok(Reply::Tasks {
        tasks: Listed::from_vec(lines),
    })
}
