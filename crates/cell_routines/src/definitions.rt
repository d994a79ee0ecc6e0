//! The names that cells define, each with the place at which its routine may begin.

ghost use Rattle.std.specs.Prelude.{◌++◌, ◌∷◌, [], All, IfOk, OnOk};
ghost use Rattle.cell_world.specs.Coherent.{IsLoadable};
ghost use Rattle.cell_xfer.specs.Named.{AnswersAs};
ghost use Rattle.cell_routines.specs.Begins.{all_rows, definition_rows};

use crate::entries::{Begin, Entries};
use cell_object::{Symbol, is_definition};
use cell_world::NewCell;
use cell_xfer::Firsts;
use std::alloc::{AllocError, Global};

/// The names of definitions; a definition has no place where nothing can begin at it.
pub type Definitions = Firsts<Option<Begin>>;

/// Adds a symbol of a cell, where it is a definition.
fn add_symbol(
    alloc: Global,
    table: &mut Definitions,
    entries: &Entries,
    symbol: &Symbol,
) -> Result<(), AllocError>
    ensures { OnOk result (AnswersAs table.new (table.old ++ definition_rows entries.now.cell.now (symbol.now ∷ []))) }
{
    if is_definition(symbol) {
        table.add(alloc, symbol.name.as_slice(), entries.of_symbol(symbol))?;
    }
    Ok(())
}

/// Adds the definitions of a cell.
fn add_cell(alloc: Global, table: &mut Definitions, cell: &NewCell) -> Result<(), AllocError>
    requires { IsLoadable cell.now.object }
    ensures { OnOk result (AnswersAs table.new (table.old ++ definition_rows cell.now cell.now.object.symbols)) }
{
    let entries = Entries::of(alloc, cell)?;
    for symbol in cell.object.symbols.as_slice() {
        add_symbol(alloc, table, &entries, symbol)?;
    }
    Ok(())
}

/// The definitions of all cells. The first cell that defines a name counts.
pub fn definitions_in(alloc: Global, cells: &[NewCell]) -> Result<Definitions, AllocError>
    requires { All (λ c. IsLoadable c.object) cells.now }
    ensures { IfOk result (λ table. AnswersAs table (all_rows cells.now)) }
{
    let mut table = Firsts::new(alloc);
    for cell in cells {
        add_cell(alloc, &mut table, cell)?;
    }
    Ok(table)
}
