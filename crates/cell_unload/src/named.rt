//! The cells that words name.

ghost use Rattle.std.specs.Prelude.{◌≡◌, IfOk, map, option_and_then, option_map};
ghost use Rattle.cell_world.specs.Following.{Follows};
ghost use Rattle.cell_machine.specs.Machine.{IsSound, world_of};
ghost use Rattle.cell_space.specs.Named.{cell_at, number_as};
ghost use Rattle.cell_space.specs.Spaces.{namespace_named};
ghost use Rattle.cell_machine.specs.Unknown.{IsUnknown};
ghost use Rattle.cell_unload.specs.Sweep.{cell_numbered, cells_numbered};
ghost use Rattle.cell_world.specs.Commands.UnloadCommand.{cell_word};

use cell_machine::{Machine, unknown};
use cell_num::CellId;
use cell_space::Spaces;
use cell_world::{CellName, Fail};
use std::alloc::{AllocError, Global};

/// `NS/STEM`
fn word_of(alloc: Global, name: &CellName) -> Result<Vec<u8>, AllocError>
    ensures { IfOk result (λ word. word.items ≡ cell_word name.now) }
{
    let mut word = Vec::new(alloc);
    word.extend_from_slice(name.ns.bytes())?;
    word.push(b'/')?;
    word.extend_from_slice(name.stem.bytes())?;
    Ok(word)
}

/// The name is that of no cell.
fn unknown_cell(alloc: Global, name: &CellName) -> Fail
    ensures { IsUnknown (cell_word name.now) result }
{
    match word_of(alloc, name) {
        Ok(word) => unknown(alloc, &word),
        Err(_) => Fail::OutOfMemory,
    }
}

/// The attached cell of that namespace and stem.
fn find_cell(spaces: &Spaces, name: &CellName) -> Option<CellId>
    ensures { option_map number_as result ≡ option_and_then (λ ns. cell_at ns name.now.stem spaces.now.cells) (namespace_named spaces.now.namespaces name.now.ns) }
{
    let ns = spaces.find_ns(name.ns.bytes())?;
    spaces.cell_at(ns, name.stem.bytes())
}

/// The number of the cell of that name.
pub fn named_cell(alloc: Global, machine: &Machine, name: &CellName) -> Result<CellId, Fail>
    requires { IsSound machine.now }
    ensures { Follows (λ c. c.0) result (cell_numbered (world_of machine.now) name.now) }
{
    match find_cell(&machine.spaces, name) {
        Some(cell) => Ok(cell),
        None => Err(unknown_cell(alloc, name)),
    }
}

/// The cells of these names, in their order.
pub fn named_cells(
    alloc: Global,
    machine: &Machine,
    names: &[CellName],
) -> Result<Vec<CellId>, Fail>
    requires { IsSound machine.now }
    ensures { Follows (λ cells. map (λ c. c.0) cells.items) result (cells_numbered (world_of machine.now) names.now) }
{
    let mut cells = Vec::new(alloc);
    for name in names {
        let cell = named_cell(alloc, machine, name)?;
        let Ok(()) = cells.push(cell) else {
            return Err(Fail::OutOfMemory);
        };
    }
    Ok(cells)
}
