//! Turns of a task, one after another.

ghost use Rattle.std.specs.Prelude.{◌≡◌, ◌*◌, ◌<◌, ◌≤◌, Some, [], true, vec_capacity};
ghost use Rattle.cell_num.specs.Limits.{max_pages};
ghost use Rattle.cell_machine.specs.Machine.{IsSound, world_of};
ghost use Rattle.cell_task.specs.State.{IsReady, live_in};
ghost use Rattle.cell_world.specs.Placed.Pages.{is_taken_run};
ghost use Rattle.cell_world.specs.Running.Turn.{turns_from};
ghost use Rattle.cell_world.specs.World.{Task as WorldTask};
ghost use Rattle.cell_schedule.specs.Ends.{stack_run};
ghost use Rattle.cell_schedule.specs.Turns.{HasRun, space_after};

use crate::stack::give_back;
use cell_machine::Machine;
use cell_num::Bytes;
use cell_place::Space;
use cell_task::{Slice, Tasks};
use cell_world::{TaskRun, TaskState};

/// Where the task ended, its stack is given back.
fn settle(space: &mut Space, stack: u64, state: TaskState)
    requires above { space.old.base ≤ stack }
    requires low { (stack_run space.old.base stack).page < max_pages }
    requires taken { is_taken_run space.old.taken (stack_run space.old.base stack).page 4 ≡ true }
    ensures { space.new ≡ space_after state space.old stack }
{
    if let TaskState::Done(_) = state {
        give_back(space, stack);
    }
}

/// Where the stack of a ready task begins.
fn stack_of(tasks: &Tasks, task: u32) -> u64
    requires { IsReady tasks.now task }
    ensures { (t : WorldTask) → live_in tasks.now task ≡ Some t → t.stack ≡ result }
{
    match tasks.get(task) {
        Some(live) => live.stack,
        None => unreachable!(),
    }
}

/// Gives a ready task at most so many turns, fewer where it ends or faults, and where
/// `until_yield` says so also where it yields. `out` is empty and has room for what the task may
/// put out: 20 bytes a turn.
pub fn slice(
    machine: &mut Machine,
    task: u32,
    turns: u32,
    until_yield: bool,
    mut out: Vec<u8>,
) -> TaskRun
    requires sound { IsSound machine.old }
    requires ready { IsReady machine.old.tasks task }
    requires empty { out.items ≡ [] }
    requires room { 20 * turns ≤ vec_capacity out }
    ensures { HasRun machine.old (turns_from turns until_yield task 0 [] (world_of machine.old)) result machine.new }
{
    let stack = stack_of(&machine.tasks, task);
    let slice = Slice { turns, until_yield };
    let ran = machine
        .tasks
        .run(task, slice, &mut machine.memory, &mut out);
    settle(&mut machine.space, stack, ran.state);
    TaskRun {
        task,
        turns: ran.turns,
        state: ran.state,
        out: Bytes::from_vec(out),
    }
}
