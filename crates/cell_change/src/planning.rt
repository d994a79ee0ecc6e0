//! The plan of a change: all is decided before the first cell is added.

ghost use Rattle.std.specs.Prelude.{◌++◌, All, IfOk, IsTrue, map, nat_lt, option_map};
ghost use Rattle.cell_num.specs.Lists.{In, each_pair};
ghost use Rattle.cell_world.specs.declared.state.NewCell.{NewCell as Placed};
ghost use Rattle.cell_plan.specs.Exchanged.{Change as Changes, MayChange};
ghost use Rattle.cell_change.specs.Planning.{FindsNew, GathersFor, IsAffected, IsBegun, Looks, Plans, view_with};
ghost use Rattle.cell_target.specs.Scene.{AreCells};

use crate::affected::Affected;
use crate::copying::originals;
use crate::request::Change;
use crate::restarting::begin_again;
use crate::standing::check_torn;
use crate::transferring::stack_pages;
use cell_commit::Rewiring;
use cell_depot::Depot;
use cell_gather::{Gathered, Room, append_copies, gather};
use cell_hold::Root;
use cell_link::FieldValue;
use cell_load::{Landed, land};
use cell_machine::{Machine, Staged};
use cell_plan::{Changed, Exchange, check_coverage};
use cell_routines::{Begin, begins_of};
use cell_target::Scene;
use cell_unload::Outlook;
use cell_world::{Fail, NewCell};
use std::alloc::{AllocError, Global};

/// What a change adds to the machine, in which the old cells are put aside, and what it changes there.
#[derive(Drop)]
pub struct Plan {
    pub staged: Staged,
    /// The fields of other cells, by what they hold then.
    pub patches: Vec<FieldValue>,
    /// What becomes of the links of other cells.
    pub links: Rewiring,
    /// Where holding is read from then, where cells are replaced.
    pub outlook: Option<Outlook>,
    /// Where the routines begin.
    pub begins: Vec<Begin>,
    /// Where their stack starts, which is free still, if there are any.
    pub stack: Option<u64>,
    /// The number of the task that begins again after them, if one does.
    pub again: Option<u32>,
}

/// The new cells, which have no places yet.
fn gather_new<'a>(
    alloc: Global,
    depot: &'a Depot,
    machine: &'a Machine,
    asked: &Change,
) -> Result<Gathered<'a>, Fail>
    requires { IsBegun depot.now asked.now machine.now }
    ensures { (b : IsBegun depot.now asked.now machine.now) → GathersFor depot.now asked.now machine.now b result }
{
    let room = Room {
        spaces: &machine.spaces,
        present: machine.cells.len() as u32,
        next: machine.next,
    };
    let mut gathered = gather(
        alloc,
        depot,
        room.spaces,
        room.present,
        room.next,
        &asked.wants,
        asked.options.reexport,
    )?;
    let originals = originals(alloc, machine, &asked.copies)?;
    append_copies(alloc, &room, &mut gathered, &originals)?;
    Ok(gathered)
}

/// The new cells, with which no other cell lacks a name that it needs.
fn find_new<'a>(
    alloc: Global,
    depot: &'a Depot,
    machine: &'a Machine,
    asked: &Change,
    affected: &Affected,
) -> Result<Gathered<'a>, Fail>
    requires begun { IsBegun depot.now asked.now machine.now }
    requires affected { IsAffected machine.now asked.now affected.now }
    ensures { (b : IsBegun depot.now asked.now machine.now) → FindsNew depot.now asked.now machine.now b result }
{
    let gathered = gather_new(alloc, depot, machine, asked)?;
    check_coverage(
        alloc,
        &machine.spaces,
        &gathered.ahead,
        &affected.cells,
        &affected.old,
    )?;
    Ok(gathered)
}

/// What changes in the affected cells, once the new ones are in their places.
fn changed_by(
    alloc: Global,
    machine: &Machine,
    landed: &Landed,
    affected: &Affected,
) -> Result<Changed, Fail>
    requires cells { AreCells landed.now.ahead.cells (machine.now.cells.items ++ landed.now.cells.items) }
    requires there { All (λ c. In c.now machine.now.cells.items) affected.now.cells.items }
    requires may { All (λ c. MayChange (view_with machine.now landed.now) c.now) affected.now.cells.items }
    ensures { Changes (view_with machine.now landed.now) (map (λ c. c.now) affected.now.cells.items) result }
{
    let scene = Scene {
        ahead: &landed.ahead,
        present: &machine.cells,
        fresh: &landed.cells,
    };
    let exchange = Exchange {
        spaces: &machine.spaces,
        graph: &machine.graph,
        scene: &scene,
    };
    exchange.changed(alloc, &affected.cells)
}

/// Where holding is read from once the new cells are there, where it is read at all: in all cells, and from
/// these roots on and the new cells.
fn look(
    alloc: Global,
    machine: &Machine,
    fresh: &[NewCell],
    roots: Option<Vec<Root>>,
) -> Result<Option<Outlook>, AllocError>
    requires { (c : Placed) → In c (machine.now.cells.items ++ fresh.now) → IsTrue (each_pair (λ a b. nat_lt a.section b.section) c.places) }
    ensures { IfOk result (λ outlook. Looks machine.now fresh.now (option_map (λ list. list.items) roots) outlook) }
{
    let Some(roots) = roots else {
        return Ok(None);
    };
    let outlook = Outlook::with(alloc, &machine.cells, fresh, roots)?;
    Ok(Some(outlook))
}

/// Plans the change on a machine in which the old cells are put aside. `roots` are where holding begins
/// but for the new cells, where it is read.
///
/// Refusals, of which the first that holds is answered: those of gathering, a need of another cell that
/// nobody provides any more, a routine that no new cell has, or that is no entry, a task that can't begin
/// again where it began, those of staging, of which the stack of the routines comes last among the pages,
/// an entry of another cell whose number is outside its kind's range by then, and a task that stands
/// inside what changes.
pub fn plan_change(
    alloc: Global,
    depot: &Depot,
    machine: &Machine,
    asked: &Change,
    roots: Option<Vec<Root>>,
) -> Result<Plan, Fail>
    requires { IsBegun depot.now asked.now machine.now }
    ensures { (b : IsBegun depot.now asked.now machine.now) → Plans depot.now asked.now machine.now b (option_map (λ list. list.items) roots) result }
{
    let affected = Affected::of(alloc, machine, asked)?;
    let gathered = find_new(alloc, depot, machine, asked, &affected)?;
    let routines = asked.options.routines;
    let begins = begins_of(alloc, &gathered.cells, routines)?;
    let again = begin_again(alloc, machine, &gathered, &asked.options)?;
    let landed = land(alloc, machine, gathered, stack_pages(routines))?;
    let Changed {
        patches,
        links,
        spans,
    } = changed_by(alloc, machine, &landed, &affected)?;
    check_torn(alloc, &machine.tasks, &spans)?;
    let outlook = look(alloc, machine, &landed.cells, roots)?;
    let stack = landed.extra;
    let staged = landed.into_staged(alloc)?;
    Ok(Plan {
        staged,
        patches,
        links,
        outlook,
        begins,
        stack,
        again,
    })
}
