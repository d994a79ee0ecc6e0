//! `clone`

ghost use Rattle.std.specs.Prelude.{◌≡◌, ◌<◌, ◌≤◌, All, IfOk, OnOk, length, map, option_and_then, slice_get};
ghost use Rattle.cell_num.specs.Limits.{max_file_bytes};
ghost use Rattle.cell_num.specs.Lists.{In};
ghost use Rattle.cell_machine.specs.Does.{Does, no_stack};
ghost use Rattle.cell_machine.specs.Machine.{IsSound, world_of};
ghost use Rattle.cell_world.specs.Commands.Asked.{cells_in, is_in_space, next_clone};
ghost use Rattle.cell_world.specs.Following.{Follows};
ghost use Rattle.cell_world.specs.Gather.{source_of};
ghost use Rattle.cell_world.specs.Outcome.{found};
ghost use Rattle.cell_world.specs.World.{Cell};
ghost use Rattle.cell_world.specs.declared.refusal.Refusal.TheVariants.{NoParent as HasNoParent};
ghost use Rattle.cell_commands.specs.Cloning.{AddsCopy, AsksCopies, CanCopy, HasCopies, IsNoParent, MakesCopies};

use cell_change::{CellCopy, Change, Ending, Made, Options, make_change};
use cell_depot::Depot;
use cell_machine::{Machine, check_new_namespace, namespace};
use cell_num::Name;
use cell_space::Spaces;
use cell_world::{Fail, NewCell, Refusal, Reply};
use std::alloc::{AllocError, Global};

/// E18: the namespace has no parent, so it has no sibling.
fn no_parent(alloc: Global, word: &[u8]) -> Fail
    ensures { IsNoParent word.now result }
{
    match Name::of(alloc, word) {
        Ok(word) => Fail::Refused(Refusal::NoParent { word }),
        Err(_) => Fail::OutOfMemory,
    }
}

/// The parent of a namespace.
fn parent(alloc: Global, spaces: &Spaces, ns: u16, word: &[u8]) -> Result<u16, Fail>
    requires { ns < length spaces.now.namespaces }
    ensures number { Follows (λ up. up) result (found (option_and_then (λ space. space.parent) (slice_get spaces.now.namespaces ns)) (HasNoParent word.now)) }
    ensures there { IfOk result (λ up. up < length spaces.now.namespaces) }
{
    let all = spaces.namespaces();
    let space = &all[ns as usize];
    match space.parent {
        Some(up) => Ok(up),
        None => Err(no_parent(alloc, word)),
    }
}

/// Whether the cell is attached in the namespace itself.
fn is_in(machine: &Machine, cell: &NewCell, ns: u16) -> bool
    requires sound { IsSound machine.now }
    requires there { In cell.now machine.now.cells.items }
    ensures { (c : Cell) → In c (world_of machine.now).cells → c.placed ≡ cell.now → result ≡ is_in_space ns c }
{
    if machine.group(cell).is_some() {
        return false;
    }
    cell.ns == ns
}

/// Adds a copy of the cell, if it is attached in the namespace itself.
fn add_copy(
    copies: &mut Vec<CellCopy>,
    machine: &Machine,
    cell: &NewCell,
    from: u16,
    to: u16,
) -> Result<(), AllocError>
    requires sound { IsSound machine.now }
    requires there { In cell.now machine.now.cells.items }
    ensures { OnOk result (AddsCopy (world_of machine.now) cell.now from to copies.old.items copies.new.items) }
{
    if is_in(machine, cell, from) {
        copies.push(CellCopy {
            original: cell.id,
            ns: to,
        })?;
    }
    Ok(())
}

/// Copies, for another namespace, of the cells that are attached in a namespace itself.
fn copies(alloc: Global, machine: &Machine, from: u16, to: u16) -> Result<Vec<CellCopy>, AllocError>
    requires { IsSound machine.now }
    ensures { IfOk result (λ copies. HasCopies to (cells_in (world_of machine.now) from) copies.items) }
{
    let mut copies = Vec::new(alloc);
    let present = machine.cells.as_slice();
    for place in 0..present.len() {
        add_copy(&mut copies, machine, &present[place], from, to)?;
    }
    Ok(copies)
}

/// The change that adds these copies, and no more.
fn copying<'a>(alloc: Global, copies: Vec<CellCopy>) -> Change<'a>
    ensures { AsksCopies copies.items result }
{
    Change {
        wants: Vec::new(alloc),
        replaced: Vec::new(alloc),
        copies,
        options: Options {
            reexport: false,
            routines: &[],
            budget: 0,
            ending: Ending::Lenient,
        },
    }
}

/// Adds copies of the cells of one namespace to another one, in which no cell stands.
fn copy_cells(
    alloc: Global,
    depot: &Depot,
    machine: &mut Machine,
    from: u16,
    to: u16,
) -> Result<Made, Fail>
    requires sound { IsSound machine.old }
    requires small { All (λ f. length f.bytes ≤ max_file_bytes) depot.now }
    requires new { CanCopy (world_of machine.old) from to }
    ensures { MakesCopies depot.now machine.old from to result machine.new }
{
    let copies = copies(alloc, machine, from, to)?;
    let change = copying(alloc, copies);
    make_change(alloc, depot, machine, &change)
}

/// Adds a namespace beside another one, with a copy of each cell that is attached there: no file is read for
/// them and no cell that was there names anything else than before.
///
/// Refusals, of which the first that holds is answered: a namespace that isn't there, one without a parent, a
/// name that is taken, too many namespaces, cells or cell numbers, a run of pages that is too long, and an
/// entry that doesn't fit.
pub fn clone(
    alloc: Global,
    depot: &Depot,
    machine: &mut Machine,
    ns: &[u8],
    name: &[u8],
) -> Result<Reply, Fail>
    requires sound { IsSound machine.old }
    requires small { All (λ f. length f.bytes ≤ max_file_bytes) depot.now }
    ensures { Does (next_clone (map source_of depot.now) (world_of machine.old) ns.now name.now) no_stack machine.old result machine.new }
{
    let from = namespace(alloc, &machine.spaces, ns)?;
    let up = parent(alloc, &machine.spaces, from, ns)?;
    check_new_namespace(alloc, &machine.spaces, name)?;
    let shown = Name::of(alloc, name)?;
    let own = Name::of(alloc, name)?;
    let to = machine.spaces.add_ns(own, up)?;
    match copy_cells(alloc, depot, machine, from, to) {
        Ok(made) => Ok(Reply::Clone {
            name: shown,
            fresh: made.fresh,
            patched: made.patched,
        }),
        Err(fail) => {
            machine.spaces.drop_ns();
            Err(fail)
        }
    }
}
