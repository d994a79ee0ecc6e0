//! `recover` and `rebuild`

ghost use Rattle.std.specs.Prelude.{◌≡◌, ◌≤◌, ◌++◌, ◌∷◌, [], All, IfOk, OnOk, Some, filter, length, map};
ghost use Rattle.cell_num.specs.Limits.{max_file_bytes};
ghost use Rattle.cell_num.specs.Lists.{In};
ghost use Rattle.cell_machine.specs.Does.{Does};
ghost use Rattle.cell_machine.specs.Machine.{IsSound, world_of};
ghost use Rattle.cell_task.specs.State.{live_in, seen_as};
ghost use Rattle.cell_space.specs.Joined.{placed_of};
ghost use Rattle.cell_world.specs.Commands.Asked.{next_recover, next_rebuild};
ghost use Rattle.cell_world.specs.Commands.Recovery.{faulted_task as task_faulted, recovery_of, rebuild_of};
ghost use Rattle.cell_world.specs.Following.{Follows};
ghost use Rattle.cell_world.specs.Gather.{source_of};
ghost use Rattle.cell_world.specs.World.{Cell, is_attached};
ghost use Rattle.cell_world.specs.declared.refusal.Refusal.TheVariants.{NoCrate as NoCellThere};
ghost use Rattle.cell_commands.specs.Counted.{renewal_counts};
ghost use Rattle.cell_commands.specs.Renewals.{AddsRenewal, AsksFor, AsksRenewals};

use crate::wants::{file_named, push, want};
use cell_change::{Change, Ending, Made, Options, make_change};
use cell_depot::Depot;
use cell_machine::Machine;
use cell_recover::{plan_rebuild, plan_recovery};
use cell_schedule::live;
use cell_task::Task;
use cell_world::{Fail, NewCell, Refusal, Reply};
use std::alloc::{AllocError, Global};

/// The live task of that number, which has faulted.
fn faulted_task(alloc: Global, machine: &Machine, number: u32) -> Result<&Task, Fail>
    ensures { Follows (λ t. seen_as number t.now) result (task_faulted (world_of machine.now) number) }
{
    let task = live(alloc, machine, number)?;
    if task.fault.is_none() {
        return Err(Fail::Refused(Refusal::NotFaulted { task: number }));
    }
    Ok(task)
}

/// Adds the cell, if it is attached.
fn add_attached<'a>(
    cells: &mut Vec<&'a NewCell>,
    machine: &Machine,
    cell: &'a NewCell,
) -> Result<(), AllocError>
    requires sound { IsSound machine.now }
    requires there { In cell.now machine.now.cells.items }
    ensures { OnOk result ((c : Cell) → In c (world_of machine.now).cells → c.placed ≡ cell.now → map (λ d. d.now) cells.new.items ≡ map (λ d. d.now) cells.old.items ++ map placed_of (filter (λ d. is_attached d.standing) (c ∷ []))) }
{
    if machine.group(cell).is_none() {
        cells.push(cell)?;
    }
    Ok(())
}

/// The attached cells, in the order of their numbers.
fn attached_cells(alloc: Global, machine: &Machine) -> Result<Vec<&NewCell>, AllocError>
    requires { IsSound machine.now }
    ensures { IfOk result (λ cells. map (λ c. c.now) cells.items ≡ map placed_of (filter (λ c. is_attached c.standing) (world_of machine.now).cells)) }
{
    let mut cells = Vec::new(alloc);
    let present = machine.cells.as_slice();
    for place in 0..present.len() {
        add_attached(&mut cells, machine, &present[place])?;
    }
    Ok(cells)
}

/// E17: no cell is there that could be renewed for the task.
fn no_crate(number: u32, task: &Task) -> Fail
    ensures { result ≡ Fail.Refused (NoCellThere number task.now.hart.pc) }
{
    Fail::Refused(Refusal::NoCrate {
        task: number,
        pc: task.hart.pc,
    })
}

/// Adds a fresh instance of the cell's own file, in the place of the cell.
fn add_renewal(
    alloc: Global,
    depot: &Depot,
    cell: &NewCell,
    change: &mut Change,
) -> Result<(), Fail>
    ensures { AddsRenewal (map source_of depot.now) cell.now change.old result change.new }
{
    file_named(alloc, depot, &cell.file)?;
    let want = want(alloc, cell, &cell.file)?;
    push(change, want, cell.id)?;
    Ok(())
}

/// The change that renews these cells, with all their names, and has the task begin again.
fn renewing<'a>(
    alloc: Global,
    depot: &Depot,
    cells: &[&NewCell],
    task: u32,
) -> Result<Change<'a>, Fail>
    ensures { AsksRenewals (map source_of depot.now) (map (λ c. c.now) cells.now) task result }
{
    let mut change = Change {
        wants: Vec::new(alloc),
        replaced: Vec::new(alloc),
        copies: Vec::new(alloc),
        options: Options {
            reexport: true,
            routines: &[],
            budget: 0,
            ending: Ending::Restart(task),
        },
    };
    for place in 0..cells.len() {
        add_renewal(alloc, depot, cells[place], &mut change)?;
    }
    Ok(change)
}

/// The change that renews the cell that the task stands in.
fn recovery<'a>(
    alloc: Global,
    depot: &Depot,
    machine: &Machine,
    number: u32,
) -> Result<Change<'a>, Fail>
    requires { IsSound machine.now }
    ensures { AsksFor (map source_of depot.now) (world_of machine.now) number recovery_of result }
{
    let task = faulted_task(alloc, machine, number)?;
    let cells = attached_cells(alloc, machine)?;
    match plan_recovery(&cells, task.hart.pc) {
        Some(cell) => renewing(alloc, depot, &[cell], number),
        None => Err(no_crate(number, task)),
    }
}

/// The attached cells that the task holds.
fn held_cells<'a>(
    alloc: Global,
    machine: &'a Machine,
    number: u32,
    task: &Task,
) -> Result<Vec<&'a NewCell>, AllocError>
    requires sound { IsSound machine.now }
    requires live { live_in machine.now.tasks number ≡ Some (seen_as number task.now) }
    ensures { IfOk result (λ cells. map (λ c. c.now) cells.items ≡ map placed_of (rebuild_of (world_of machine.now) (seen_as number task.now))) }
{
    let mut words = Vec::new(alloc);
    machine.tasks.words_of(number, &machine.memory, &mut words)?;
    let cells = attached_cells(alloc, machine)?;
    plan_rebuild(alloc, &cells, task.root, &words)
}

/// The change that renews all attached cells that the task holds.
fn rebuilding<'a>(
    alloc: Global,
    depot: &Depot,
    machine: &Machine,
    number: u32,
) -> Result<Change<'a>, Fail>
    requires { IsSound machine.now }
    ensures { AsksFor (map source_of depot.now) (world_of machine.now) number rebuild_of result }
{
    let task = faulted_task(alloc, machine, number)?;
    let cells = held_cells(alloc, machine, number, task)?;
    if cells.is_empty() {
        return Err(no_crate(number, task));
    }
    renewing(alloc, depot, &cells, number)
}

/// Puts a fresh instance of its own file in the place of the cell that a faulted task stands in, and has the
/// task begin again as at its spawn. Every cell that nobody keeps then is removed.
///
/// Refusals, of which the first that holds is answered: a task that isn't live, one that hasn't faulted, no
/// attached cell where it stands, a file that isn't there, and those of the change.
pub fn recover(
    alloc: Global,
    depot: &Depot,
    machine: &mut Machine,
    task: u32,
) -> Result<Reply, Fail>
    requires sound { IsSound machine.old }
    requires small { All (λ f. length f.bytes ≤ max_file_bytes) depot.now }
    ensures { Does (next_recover (map source_of depot.now) (world_of machine.old) task) (renewal_counts (map source_of depot.now) (world_of machine.old) task recovery_of) machine.old result machine.new }
{
    let change = recovery(alloc, depot, machine, task)?;
    let Made {
        fresh,
        patched,
        removed,
        aside,
    } = make_change(alloc, depot, machine, &change)?;
    Ok(Reply::Recover {
        task,
        number: machine.swaps,
        fresh,
        patched,
        removed,
        kept: aside,
    })
}

/// Puts fresh instances of their own files in the place of all attached cells that a faulted task holds, and
/// has the task begin again as at its spawn. Every cell that nobody keeps then is removed.
///
/// Refusals, of which the first that holds is answered: a task that isn't live, one that hasn't faulted, no
/// attached cell that it holds, a file that isn't there, and those of the change.
pub fn rebuild(
    alloc: Global,
    depot: &Depot,
    machine: &mut Machine,
    task: u32,
) -> Result<Reply, Fail>
    requires sound { IsSound machine.old }
    requires small { All (λ f. length f.bytes ≤ max_file_bytes) depot.now }
    ensures { Does (next_rebuild (map source_of depot.now) (world_of machine.old) task) (renewal_counts (map source_of depot.now) (world_of machine.old) task rebuild_of) machine.old result machine.new }
{
    let change = rebuilding(alloc, depot, machine, task)?;
    let Made {
        fresh,
        patched,
        removed,
        aside,
    } = make_change(alloc, depot, machine, &change)?;
    Ok(Reply::Rebuild {
        task,
        number: machine.swaps,
        fresh,
        patched,
        removed,
        kept: aside,
    })
}
