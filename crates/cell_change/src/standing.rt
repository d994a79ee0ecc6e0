//! Tasks that stand inside what a change changes.

ghost use Rattle.std.specs.Prelude.{◌≡◌, ◌++◌, IfOk, IsTrue, List, OnOk, filter, map, nat_lt};
ghost use Rattle.cell_num.specs.Lists.{each_pair};
ghost use Rattle.cell_plan.specs.Coverage.{Covers};
ghost use Rattle.cell_plan.specs.Spans.{pc_of, span_at};
ghost use Rattle.cell_change.specs.Planning.{place_if_ready};
ghost use Rattle.cell_task.specs.State.{seen_as};
ghost use Rattle.cell_world.specs.Changed.{FieldAt};
ghost use Rattle.cell_world.specs.Torn.{first_torn as first_torn_in};
ghost use Rattle.cell_world.specs.World.{is_ready};

use cell_plan::{Span, TaskPc, Torn, first_torn};
use cell_task::{Task, Tasks};
use cell_world::{Fail, Refusal};
use std::alloc::{AllocError, Global};

/// Adds where the task stands, unless it has faulted.
fn add_ready(places: &mut Vec<TaskPc>, number: u32, task: &Task) -> Result<(), AllocError>
    ensures { OnOk result (places.new.items ≡ places.old.items ++ place_if_ready (seen_as number task.now)) }
{
    if task.fault.is_none() {
        places.push(TaskPc {
            task: number,
            pc: task.hart.pc,
        })?;
    }
    Ok(())
}

/// Where the ready tasks stand, by their numbers.
fn ready_places(alloc: Global, tasks: &Tasks) -> Result<Vec<TaskPc>, AllocError>
    requires { IsTrue (each_pair (λ a b. nat_lt a.number b.number) tasks.now.tasks) }
    ensures { IfOk result (λ places. places.items ≡ map pc_of (filter is_ready tasks.now.tasks)) }
{
    let mut places = Vec::new(alloc);
    for number in tasks.live() {
        match tasks.get(number) {
            Some(task) => add_ready(&mut places, number, task)?,
            None => unreachable!(),
        }
    }
    Ok(places)
}

/// E13: the task stands inside what a changed field is a part of.
fn torn(torn: Torn) -> Refusal
    ensures { result ≡ Rattle.cell_plan.specs.Spans.refusal_of torn }
{
    Refusal::Torn {
        task: torn.task,
        cell: torn.cell,
        section: torn.section,
        offset: torn.offset,
    }
}

/// Sees that no ready task stands inside what a changed field is a part of. The first that does is
/// refused, with the lowest such field.
pub fn check_torn(alloc: Global, tasks: &Tasks, spans: &[Span]) -> Result<(), Fail>
    requires { IsTrue (each_pair (λ a b. nat_lt a.number b.number) tasks.now.tasks) }
    ensures { (fields : List FieldAt) → spans.now ≡ map span_at fields → Covers (first_torn_in fields (filter is_ready tasks.now.tasks)) result }
{
    if spans.is_empty() {
        return Ok(());
    }
    let places = ready_places(alloc, tasks)?;
    match first_torn(spans, &places) {
        Some(found) => Err(Fail::Refused(torn(found))),
        None => Ok(()),
    }
}
