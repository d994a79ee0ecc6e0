//! A change, by its passes in their order: all is decided before the machine is changed, then room is made,
//! and the rest takes no memory.

ghost use Rattle.std.specs.Prelude.{◌≤◌, All, IfOk, length, map, option_map};
ghost use Rattle.cell_num.specs.Limits.{max_file_bytes};
ghost use Rattle.cell_world.specs.Gather.{source_of};
ghost use Rattle.cell_machine.specs.Machine.{IsSound, world_of};
ghost use Rattle.cell_change.specs.Asking.{IsAsked};
ghost use Rattle.cell_change.specs.Exchanged.{AreRoots, Changes, Exchanges, HasBegun};

use crate::made::Made;
use crate::old_cells::{put_aside, reattach};
use crate::planning::plan_change;
use crate::ready::Ready;
use crate::request::Change;
use cell_depot::Depot;
use cell_hold::Root;
use cell_machine::Machine;
use cell_num::CellId;
use cell_unload::roots;
use cell_world::Fail;
use std::alloc::{AllocError, Global};

/// Where holding begins but for the cells that are replaced. Where there are none it isn't read.
fn roots_without(
    alloc: Global,
    machine: &Machine,
    replaced: &[CellId],
) -> Result<Option<Vec<Root>>, AllocError>
    requires { IsSound machine.now }
    ensures { IfOk result (λ list. AreRoots machine.now replaced.now (option_map (λ roots. roots.items) list)) }
{
    if replaced.is_empty() {
        return Ok(None);
    }
    let roots = roots(alloc, machine, replaced)?;
    Ok(Some(roots))
}

/// Brings the new cells, while the replaced ones are put aside. `roots` are where holding began before,
/// but for the replaced cells.
fn exchange(
    alloc: Global,
    depot: &Depot,
    machine: &mut Machine,
    asked: &Change,
    roots: Option<Vec<Root>>,
) -> Result<Made, Fail>
    requires { HasBegun depot.now asked.now machine.old (option_map (λ list. list.items) roots) }
    ensures { (h : HasBegun depot.now asked.now machine.old (option_map (λ list. list.items) roots)) → Exchanges depot.now asked.now machine.old h.begun result machine.new }
{
    let plan = plan_change(alloc, depot, machine, asked, roots)?;
    let ready = Ready::of(alloc, machine, plan, asked)?;
    machine.memory.begin_undo(alloc, ready.writes)?;
    ready.finish(machine, asked).map_err(Fail::Refused)
}

/// Brings new cells, beside the others or in the place of attached ones, which keep all that tasks and data
/// still need of them, runs the routines, has the task begin again, if one does, and, where cells were
/// replaced, removes every cell that nobody keeps then.
///
/// Refusals, of which the first that holds is answered: those of gathering, a need of another cell that
/// nobody provides any more, a routine that no new cell has, a task that can't begin again where it began,
/// a run of pages that is too long, an entry of a new cell and then one of another cell that doesn't fit, a
/// task that stands inside what changes, a routine that doesn't end with 0, and, of a strict change, a
/// replaced cell that is still kept.
pub fn make_change(
    alloc: Global,
    depot: &Depot,
    machine: &mut Machine,
    asked: &Change,
) -> Result<Made, Fail>
    requires sound { IsSound machine.old }
    requires small { All (λ f. length f.bytes ≤ max_file_bytes) depot.now }
    requires asked { IsAsked (map source_of depot.now) (world_of machine.old) asked.now }
    ensures { (a : IsAsked (map source_of depot.now) (world_of machine.old) asked.now) → Changes depot.now asked.now machine.old a result machine.new }
{
    let roots = roots_without(alloc, machine, &asked.replaced)?;
    put_aside(machine, &asked.replaced);
    match exchange(alloc, depot, machine, asked, roots) {
        Ok(made) => Ok(made),
        Err(fail) => {
            reattach(machine, &asked.replaced);
            Err(fail)
        }
    }
}
