//! The names of objects and of cells.

ghost use Rattle.std.specs.Prelude.{◌≡◌, ◌++◌, ◌∷◌, [], IfOk, OnOk, flat_map, map, not};
ghost use Rattle.std.specs.List.{cons_option};
ghost use Rattle.cell_num.specs.Lists.{numbered};
ghost use Rattle.cell_object.specs.Parts.{is_local as local};
ghost use Rattle.cell_bearers.specs.Namings.{alias_naming, cell_namings, namings_of, object_namings, symbol_naming};

use crate::named::{Naming, Owner, halved, narrow, symbol_owner};
use crate::text::text_at;
use cell_audit::WrittenAlias;
use cell_described::DescribedCell;
use cell_object::{Bind, Object, Symbol};
use std::alloc::{AllocError, Global};

fn has_row(symbol: &Symbol) -> bool
    ensures { result ≡ not (local symbol.now.bind) }
{
    !matches!(symbol.bind, Bind::Local)
}

/// The name of the object's symbol at that place, if it isn't LOCAL. Other names are never asked for, and may be long.
fn add_symbol<'a>(
    namings: &mut Vec<Naming<'a>>,
    object: usize,
    place: usize,
    symbol: &'a Symbol,
) -> Result<(), AllocError>
    ensures { OnOk result (namings.new.items ≡ namings.old.items ++ cons_option (symbol_naming object (place, symbol.now)) []) }
{
    if !has_row(symbol) {
        return Ok(());
    }
    let owner = symbol_owner(object, place, symbol)?;
    namings.push(Naming::new(symbol.name.as_slice(), owner))?;
    Ok(())
}

/// The names of the object at that place.
fn add_object<'a>(
    namings: &mut Vec<Naming<'a>>,
    place: usize,
    object: &'a Object,
) -> Result<(), AllocError>
    ensures { OnOk result (namings.new.items ≡ namings.old.items ++ object_namings (place, object.now)) }
{
    let symbols = object.symbols.as_slice();
    for index in 0..symbols.len() {
        add_symbol(namings, place, index, &symbols[index])?;
    }
    Ok(())
}

fn add_objects<'a>(namings: &mut Vec<Naming<'a>>, objects: &'a [Object]) -> Result<(), AllocError>
    ensures { OnOk result (namings.new.items ≡ namings.old.items ++ flat_map object_namings (numbered objects.now)) }
{
    for place in 0..objects.len() {
        add_object(namings, place, &objects[place])?;
    }
    Ok(())
}

fn add_alias<'a>(
    namings: &mut Vec<Naming<'a>>,
    file: &'a [u8],
    cell: usize,
    place: usize,
    alias: &WrittenAlias,
) -> Result<(), AllocError>
    ensures { OnOk result (namings.new.items ≡ namings.old.items ++ alias_naming file.now cell (place, alias.now) ∷ []) }
{
    let owner = Owner::Alias {
        cell: halved(cell as u64)?,
        alias: narrow(place as u64)?,
        symbol: halved(alias.symbol.get())?,
    };
    let name = text_at(file, alias.name_start, alias.name_end);
    namings.push(Naming::new(name, owner))?;
    Ok(())
}

/// The aliases of the cell at that place.
fn add_cell<'a>(
    namings: &mut Vec<Naming<'a>>,
    file: &'a [u8],
    place: usize,
    cell: &DescribedCell,
) -> Result<(), AllocError>
    ensures { OnOk result (namings.new.items ≡ namings.old.items ++ cell_namings file.now (place, cell.now)) }
{
    for index in 0..cell.aliases.len() {
        add_alias(namings, file, place, index, &cell.aliases[index])?;
    }
    Ok(())
}

fn add_cells<'a>(
    namings: &mut Vec<Naming<'a>>,
    file: &'a [u8],
    cells: &[DescribedCell],
) -> Result<(), AllocError>
    ensures { OnOk result (namings.new.items ≡ namings.old.items ++ flat_map (cell_namings file.now) (numbered cells.now)) }
{
    for place in 0..cells.len() {
        add_cell(namings, file, place, &cells[place])?;
    }
    Ok(())
}

/// How many names there are at most: of all symbols and all aliases.
fn most_namings(objects: &[Object], cells: &[DescribedCell]) -> usize {
    let mut most: usize = 0;
    for object in objects {
        most = most.saturating_add(object.symbols.as_slice().len());
    }
    for cell in cells {
        most = most.saturating_add(cell.aliases.len());
    }
    most
}

/// All names, first those of the objects' symbols and then the cells' aliases.
pub fn namings_of<'a>(
    alloc: Global,
    file: &'a [u8],
    objects: &'a [Object],
    cells: &[DescribedCell],
) -> Result<Vec<Naming<'a>>, AllocError>
    ensures { IfOk result (λ namings. namings.items ≡ namings_of file.now objects.now cells.now) }
{
    let mut namings = Vec::with_capacity(alloc, most_namings(objects, cells))?;
    add_objects(&mut namings, objects)?;
    add_cells(&mut namings, file, cells)?;
    Ok(namings)
}
