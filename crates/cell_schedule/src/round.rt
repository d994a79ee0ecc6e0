//! `run`

ghost use Rattle.std.specs.Prelude.{◌≡◌, ◌≤◌, [], IfOk, filter, map, length, vec_capacity};
ghost use Rattle.cell_machine.specs.Machine.{IsSound, world_of};
ghost use Rattle.cell_world.specs.Commands.TaskCommands.{next_run};
ghost use Rattle.cell_machine.specs.Does.{Does, no_stack};
ghost use Rattle.cell_schedule.specs.Rounds.{AreDue, HasGone, HaveRoom, can_turn};

use crate::slice::slice;
use crate::stepping::room;
use cell_machine::Machine;
use cell_num::Listed;
use cell_task::Tasks;
use cell_world::{Fail, Reply, TaskRun};
use std::alloc::{AllocError, Global};

/// A task that is to have turns, and room for what it puts out.
#[derive(Drop)]
struct Due {
    task: u32,
    out: Vec<u8>,
}

/// The number is that of a live task without a fault.
fn is_ready(tasks: &Tasks, number: u32) -> bool
    ensures { result ≡ can_turn tasks.now number }
{
    match tasks.get(number) {
        Some(task) => task.fault.is_none(),
        None => false,
    }
}

/// The ready tasks, ascending by number.
fn due_tasks(alloc: Global, tasks: &Tasks, turns: u32) -> Result<Vec<Due>, AllocError>
    ensures ready { IfOk result (λ due. map (λ d. d.task) due.items ≡ filter (can_turn tasks.now) (map (λ t. t.number) tasks.now.tasks)) }
    ensures room { IfOk result (λ due. HaveRoom turns due.items) }
{
    let mut due = Vec::new(alloc);
    for number in tasks.live() {
        if is_ready(tasks, number) {
            let out = room(alloc, turns)?;
            due.push(Due { task: number, out })?;
        }
    }
    Ok(due)
}

/// Goes once over the tasks. `runs` is empty, and has room for the run of each.
fn run_each(
    machine: &mut Machine,
    all: Vec<Due>,
    turns: u32,
    mut runs: Vec<TaskRun>,
) -> Vec<TaskRun>
    requires sound { IsSound machine.old }
    requires due { AreDue machine.old.tasks turns all.items }
    requires empty { runs.items ≡ [] }
    requires room { length all.items ≤ vec_capacity runs }
    ensures { HasGone machine.old turns (map (λ d. d.task) all.items) result.items machine.new }
{
    for due in all {
        let run = slice(machine, due.task, turns, true, due.out);
        match runs.push(run) {
            Ok(()) => {}
            Err(_) => unreachable!(),
        }
    }
    runs
}

/// Goes once over the tasks that are ready, and gives each at most so many turns, fewer where it
/// yields, ends or faults.
pub fn run(alloc: Global, machine: &mut Machine, turns: u32) -> Result<Reply, Fail>
    requires { IsSound machine.old }
    ensures { Does (next_run (world_of machine.old) turns) no_stack machine.old result machine.new }
{
    let due = due_tasks(alloc, &machine.tasks, turns)?;
    let runs = Vec::with_capacity(alloc, due.len())?;
    let runs = run_each(machine, due, turns, runs);
    Ok(Reply::Run {
        runs: Listed::from_vec(runs),
    })
}
