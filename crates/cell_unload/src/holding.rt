//! Where holding begins in a machine.

ghost use Rattle.std.specs.Prelude.{◌≡◌, ◌++◌, IfOk, IsTrue, OnOk, flat_map, map, nat_lt};
ghost use Rattle.cell_num.specs.Lists.{In, each_pair};
ghost use Rattle.cell_machine.specs.Machine.{IsSound, world_of};
ghost use Rattle.cell_hold.specs.declared.roots.Root.TheVariants.{Task as TaskRoot};
ghost use Rattle.cell_unload.specs.Begun.{is_aside, root_of, root_of_task};
ghost use Rattle.cell_task.specs.State.{seen_as};
ghost use Rattle.cell_world.specs.World.{Cell};

use cell_hold::{Boxed, Root, TaskView};
use cell_machine::Machine;
use cell_num::CellId;
use cell_task::{Task, Tasks};
use cell_world::NewCell;
use std::alloc::{AllocError, Global};

fn is_aside(aside: &[CellId], cell: CellId) -> bool
    ensures { result ≡ is_aside aside.now cell }
{
    aside.iter().any(|other| other.0 == cell.0)
}

/// Adds a cell that is attached, unless it is put aside.
fn add_cell(
    machine: &Machine,
    cell: &NewCell,
    aside: &[CellId],
    into: &mut Vec<Root>,
) -> Result<(), AllocError>
    requires sound { IsSound machine.now }
    requires there { In cell.now machine.now.cells.items }
    ensures { OnOk result ((c : Cell) → In c (world_of machine.now).cells → c.placed ≡ cell.now → into.new.items ≡ into.old.items ++ root_of aside.now c) }
{
    if machine.group(cell).is_some() || is_aside(aside, cell.id) {
        return Ok(());
    }
    into.push(Root::Attached(cell.id))?;
    Ok(())
}

/// Adds the cells that stay attached.
fn add_cells(machine: &Machine, aside: &[CellId], into: &mut Vec<Root>) -> Result<(), AllocError>
    requires { IsSound machine.now }
    ensures { OnOk result (into.new.items ≡ into.old.items ++ flat_map (root_of aside.now) (world_of machine.now).cells) }
{
    let cells = machine.cells.as_slice();
    for place in 0..cells.len() {
        add_cell(machine, &cells[place], aside, into)?;
    }
    Ok(())
}

/// What of the live task of that number may hold cells.
pub fn view_of(number: u32, task: &Task) -> TaskView
    ensures { TaskRoot result ≡ root_of_task (seen_as number task.now) }
{
    TaskView {
        task: number,
        root: task.root,
        pc: task.hart.pc,
        x: task.hart.x,
        stack: task.stack,
    }
}

fn root_of_task(alloc: Global, number: u32, task: &Task) -> Result<Root, AllocError>
    ensures { IfOk result (λ root. root ≡ root_of_task (seen_as number task.now)) }
{
    let view = view_of(number, task);
    Ok(Root::Task(Boxed::new(alloc, view)?))
}

/// Adds the live tasks, by their numbers.
fn add_tasks(alloc: Global, tasks: &Tasks, into: &mut Vec<Root>) -> Result<(), AllocError>
    requires { IsTrue (each_pair (λ a b. nat_lt a.number b.number) tasks.now.tasks) }
    ensures { OnOk result (into.new.items ≡ into.old.items ++ map root_of_task tasks.now.tasks) }
{
    for number in tasks.live() {
        match tasks.get(number) {
            Some(task) => into.push(root_of_task(alloc, number, task)?)?,
            None => unreachable!(),
        }
    }
    Ok(())
}

/// The attached cells but those that are put aside, and the live tasks.
pub fn roots(alloc: Global, machine: &Machine, aside: &[CellId]) -> Result<Vec<Root>, AllocError>
    requires { IsSound machine.now }
    ensures { IfOk result (λ roots. roots.items ≡ flat_map (root_of aside.now) (world_of machine.now).cells ++ map root_of_task machine.now.tasks.tasks) }
{
    // Those of new cells are added behind.
    let mut roots = Vec::with_capacity(alloc, machine.cells.len() + 1)?;
    add_cells(machine, aside, &mut roots)?;
    add_tasks(alloc, &machine.tasks, &mut roots)?;
    Ok(roots)
}
