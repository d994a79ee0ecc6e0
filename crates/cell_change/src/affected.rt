//! What a change takes hold of in the machine as it is.

ghost use Rattle.std.specs.Prelude.{◌≡◌, IfOk, filter, map};
ghost use Rattle.cell_plan.specs.Users.{may_change as may_change_by};
ghost use Rattle.cell_change.specs.Planning.{IsAffected};

use crate::request::Change;
use cell_machine::Machine;
use cell_plan::{Old, may_change};
use cell_world::NewCell;
use std::alloc::{AllocError, Global};

/// The old cells, and the present cells that the change may change.
#[derive(Drop)]
pub struct Affected<'a> {
    pub old: Old<'a>,
    pub cells: Vec<&'a NewCell>,
}

impl<'a> Affected<'a> {
    /// Goes over the links into the old cells, and into those that have a WEAK symbol.
    pub fn of(
        alloc: Global,
        machine: &'a Machine,
        asked: &'a Change,
    ) -> Result<Affected<'a>, AllocError>
        ensures { IfOk result (IsAffected machine.now asked.now) }
    {
        let old = Old::of(alloc, &asked.replaced)?;
        let cells = cells_for(alloc, machine, &old)?;
        Ok(Affected { old, cells })
    }
}

/// The present cells that a change may change. Where no cell is old, and none has a WEAK symbol, no cell is
/// looked at.
fn cells_for<'a>(
    alloc: Global,
    machine: &'a Machine,
    old: &Old,
) -> Result<Vec<&'a NewCell>, AllocError>
    ensures { IfOk result (λ cells. map (λ c. c.now) cells.items ≡ filter (may_change_by (map (λ c. c.0) old.now.cells.now) (map (λ c. c.0) machine.now.soft.items) machine.now.graph.rows) machine.now.cells.items) }
{
    if old.cells.is_empty() && machine.soft.is_empty() {
        return Ok(Vec::new(alloc));
    }
    let soft = Old::of(alloc, &machine.soft)?;
    let cells = may_change(alloc, &machine.cells, &machine.graph, old, &soft)?;
    Ok(cells)
}
