//! What other cells need once the old ones are put aside.

ghost use Rattle.std.specs.Prelude.{◌≡◌, ◌<◌, ◌∷◌, [], All, IfOk, find, is_none, length, map, option_map};
ghost use Rattle.cell_space.specs.Spaces.{HasCell};
ghost use Rattle.cell_target.specs.Scene.{in_state};
ghost use Rattle.cell_space.specs.Named.{provider_for as provider_among};
ghost use Rattle.cell_world.specs.Names.{chain};
ghost use Rattle.cell_world.specs.World.{World};
ghost use Rattle.cell_world.specs.declared.refusal.Refusal.TheVariants.{Missing};
ghost use Rattle.cell_plan.specs.Coverage.{Covers, IsAhead, first_lost, lost_by, others_in};
ghost use Rattle.cell_plan.specs.Known.{IsKnown};

use crate::known::{Known, has_all};
use crate::old::Old;
use cell_gather::needs;
use cell_num::{CellId, Name};
use cell_space::{Ahead, Spaces};
use cell_world::{Fail, NewCell, Refusal, Standing};
use std::alloc::{AllocError, Global};

/// E9: the cell has lost a name.
fn missing(alloc: Global, name: &Name, needed_by: CellId) -> Result<Refusal, AllocError>
    ensures { IfOk result (λ refusal. refusal ≡ Missing name.now needed_by) }
{
    let name = name.copy(alloc)?;
    Ok(Refusal::Missing { name, needed_by })
}

/// Whether nobody provides the name for a cell of that namespace and state.
fn is_lacking(ahead: &Ahead, ns: u16, state: Standing, name: &Name) -> bool
    requires { ns < length ahead.now.namespaces }
    ensures { result ≡ is_none (provider_among (chain ahead.now.namespaces ns) state name.now ahead.now.cells) }
{
    ahead.provider_for(ns, state, name.bytes()).is_none()
}

/// The first of the names that nobody provides for a cell of that namespace and state.
fn first_lacking<'a>(ahead: &Ahead, ns: u16, state: Standing, names: &'a [Name]) -> Option<&'a Name>
    requires { ns < length ahead.now.namespaces }
    ensures { option_map (λ name. name.now) result ≡ find (λ name. is_none (provider_among (chain ahead.now.namespaces ns) state name ahead.now.cells)) names.now }
{
    names.iter().find(|name| is_lacking(ahead, ns, state, name))
}

/// Sees that each need of a cell in that state has a provider, name by name.
fn check_names(alloc: Global, ahead: &Ahead, cell: &NewCell, state: Standing) -> Result<(), Fail>
    requires { cell.now.ns < length ahead.now.namespaces }
    ensures { (w : World) → IsAhead w ahead.now → Covers (lost_by w (in_state cell.now state)) result }
{
    let names = needs(alloc, &cell.object)?;
    match first_lacking(ahead, cell.ns, state, &names) {
        Some(name) => Err(Fail::Refused(missing(alloc, name, cell.id)?)),
        None => Ok(()),
    }
}

/// Sees that each need of a cell in that state has a provider. Where all names have one, the needs are
/// not picked out.
fn check_cell<'a>(
    alloc: Global,
    ahead: &Ahead,
    known: &mut Option<Known<'a>>,
    cell: &'a NewCell,
    state: Standing,
) -> Result<(), Fail>
    requires ns { cell.now.ns < length ahead.now.namespaces }
    requires known { IsKnown ahead.now known.old }
    ensures known { IsKnown ahead.now known.new }
    ensures covers { (w : World) → IsAhead w ahead.now → Covers (lost_by w (in_state cell.now state)) result }
{
    if has_all(ahead, known, cell, state) {
        return Ok(());
    }
    check_names(alloc, ahead, cell, state)
}

/// Sees that each need of a user that isn't old itself has a provider.
fn check_user<'a>(
    alloc: Global,
    spaces: &Spaces,
    ahead: &Ahead,
    known: &mut Option<Known<'a>>,
    cell: &'a NewCell,
    old: &Old,
) -> Result<(), Fail>
    requires there { HasCell spaces.now cell.now.id.0 }
    requires ns { cell.now.ns < length ahead.now.namespaces }
    requires known { IsKnown ahead.now known.old }
    ensures known { IsKnown ahead.now known.new }
    ensures covers { (w : World) → IsAhead w ahead.now → Covers (first_lost w (others_in spaces.now (map (λ c. c.0) old.now.cells.now) (cell.now ∷ []))) result }
{
    if old.has(cell.id) {
        return Ok(());
    }
    check_cell(alloc, ahead, known, cell, spaces.state(cell.id))
}

/// Sees that each need of the users that aren't old themselves has a provider still. The old cells keep
/// each other. The first need without one is refused, by cells and then by symbols.
pub fn check_coverage<'a>(
    alloc: Global,
    spaces: &Spaces,
    ahead: &Ahead,
    users: &[&'a NewCell],
    old: &Old,
) -> Result<(), Fail>
    requires there { All (λ c. HasCell spaces.now c.now.id.0) users.now }
    requires ns { All (λ c. c.now.ns < length ahead.now.namespaces) users.now }
    ensures { (w : World) → IsAhead w ahead.now → Covers (first_lost w (others_in spaces.now (map (λ c. c.0) old.now.cells.now) (map (λ c. c.now) users.now))) result }
{
    let mut known = None;
    for place in 0..users.len() {
        check_user(alloc, spaces, ahead, &mut known, users[place], old)?;
    }
    Ok(())
}
