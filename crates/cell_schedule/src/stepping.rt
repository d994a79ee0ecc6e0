//! `step`

ghost use Rattle.std.specs.Prelude.{◌≡◌, ◌*◌, ◌≤◌, [], IfOk, vec_capacity};
ghost use Rattle.cell_world.specs.Following.{Follows};
ghost use Rattle.cell_machine.specs.Machine.{IsSound, world_of};
ghost use Rattle.cell_task.specs.State.{seen_as};
ghost use Rattle.cell_world.specs.Commands.TaskCommands.{can_run as can_run_as, next_step};
ghost use Rattle.cell_machine.specs.Does.{Does, no_stack};

use crate::live_task::live;
use crate::slice::slice;
use cell_machine::Machine;
use cell_task::Task;
use cell_world::{Fail, Refusal, Reply};
use std::alloc::{AllocError, Global};

/// The most bytes that a turn puts out: a number of 64 bits in decimal.
const MOST_OUT: usize = 20;

/// Room for what so many turns may put out.
pub fn room(alloc: Global, turns: u32) -> Result<Vec<u8>, AllocError>
    ensures empty { IfOk result (λ out. out.items ≡ []) }
    ensures room { IfOk result (λ out. 20 * turns ≤ vec_capacity out) }
{
    Vec::with_capacity(alloc, MOST_OUT * turns as usize)
}

/// The task isn't faulted, else E3.
fn can_run(number: u32, task: &Task) -> Result<(), Fail>
    ensures { Follows (λ u. u) result (can_run_as (seen_as number task.now)) }
{
    match task.fault {
        None => Ok(()),
        Some(fault) => Err(Fail::Refused(Refusal::NotRunnable {
            task: number,
            cause: fault.cause,
            pc: fault.pc,
        })),
    }
}

/// Gives a task at most so many turns, fewer where it ends or faults.
///
/// Refusals: a number that no live task has, and a task that faulted.
pub fn step(alloc: Global, machine: &mut Machine, task: u32, turns: u32) -> Result<Reply, Fail>
    requires { IsSound machine.old }
    ensures { Does (next_step (world_of machine.old) task turns) no_stack machine.old result machine.new }
{
    can_run(task, live(alloc, machine, task)?)?;
    let out = room(alloc, turns)?;
    let run = slice(machine, task, turns, false, out);
    Ok(Reply::Step { run })
}
