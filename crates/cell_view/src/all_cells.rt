//! All cells in a dump: their places and their further names.

ghost use Rattle.std.specs.Prelude.{◌≡◌, ◌++◌, IfOk, IsTrue, OnOk, drop, filter, flat_map, length, map, nat_lt};
ghost use Rattle.cell_num.specs.Lists.{each_pair, In};
ghost use Rattle.cell_world.specs.Commands.MapCommand.{group_of};
ghost use Rattle.cell_world.specs.Names.{is_definition as definition, names_of as names_in};
ghost use Rattle.cell_world.specs.World.{Cell};
ghost use Rattle.cell_world.specs.declared.line.DumpLine.TheVariants.{Cell as CellLine};
ghost use Rattle.cell_world.specs.DumpLines.{alias_line as further, cell_lines};
ghost use Rattle.cell_machine.specs.Machine.{IsSound, world_of};
ghost use Rattle.cell_view.specs.Whole.{Adds, alias_shown, place_shown};

use cell_machine::Machine;
use cell_num::Name;
use cell_object::{Section, Symbol, is_definition};
use cell_placed::start_of;
use cell_space::NameRows;
use cell_world::{DumpLine, NewCell};
use std::alloc::{AllocError, Global};

/// The swap that put the cell aside, if it isn't attached.
fn group_of(machine: &Machine, cell: &NewCell) -> Option<u64>
    requires sound { IsSound machine.now }
    requires there { In cell.now machine.now.cells.items }
    ensures { (c : Cell) → In c (world_of machine.now).cells → c.placed ≡ cell.now → result ≡ group_of c.standing }
{
    match machine.group(cell) {
        Some(swap) => Some(u64::from(swap)),
        None => None,
    }
}

fn cell_line(alloc: Global, machine: &Machine, cell: &NewCell) -> Result<DumpLine, AllocError>
    requires sound { IsSound machine.now }
    requires there { In cell.now machine.now.cells.items }
    ensures { IfOk result (λ line. (c : Cell) → In c (world_of machine.now).cells → c.placed ≡ cell.now → line ≡ CellLine c.id.0 c.ns c.stem c.file (group_of c.standing)) }
{
    Ok(DumpLine::Cell {
        cell: u64::from(cell.id.0),
        ns: u64::from(cell.ns),
        stem: cell.stem.copy(alloc)?,
        file: cell.file.copy(alloc)?,
        group: group_of(machine, cell),
    })
}

fn place_line(cell: &NewCell, section: &Section) -> DumpLine
    requires { IsTrue (each_pair (λ a b. nat_lt a.section b.section) cell.now.places) }
    ensures { result ≡ place_shown cell.now section.now }
{
    DumpLine::Place {
        cell: u64::from(cell.id.0),
        section: u64::from(section.number),
        start: start_of(cell, section.number),
    }
}

/// Adds where the sections of the cell stand.
fn add_places(cell: &NewCell, lines: &mut Vec<DumpLine>) -> Result<(), AllocError>
    requires { IsTrue (each_pair (λ a b. nat_lt a.section b.section) cell.now.places) }
    ensures { OnOk result (lines.new.items ≡ lines.old.items ++ map (place_shown cell.now) cell.now.object.sections) }
{
    for section in cell.object.sections.as_slice() {
        lines.push(place_line(cell, section))?;
    }
    Ok(())
}

/// How many of the symbols are definitions.
fn definition_count(symbols: &[Symbol]) -> usize
    ensures { result ≡ length (filter definition symbols.now) }
{
    symbols.iter().filter(|s| is_definition(s)).count()
}

/// What the cell is called: the names of its definitions, and then its further names.
pub fn names_of<'a>(machine: &'a Machine, cell: &NewCell) -> &'a NameRows
    requires sound { IsSound machine.now }
    requires there { In cell.now machine.now.cells.items }
    ensures { (c : Cell) → In c (world_of machine.now).cells → c.placed ≡ cell.now → result.now ≡ names_in c }
{
    machine.spaces.names(cell.id)
}

/// The line of a further name. Symbols are numbered from 1, and from 0 in a dump.
fn alias_line(alloc: Global, cell: u32, name: &[u8], symbol: u32) -> Result<DumpLine, AllocError>
    ensures { IfOk result (λ line. line ≡ alias_shown cell (record { name = name.now; symbol = symbol })) }
{
    Ok(DumpLine::Alias {
        cell: u64::from(cell),
        symbol: u64::from(symbol.saturating_sub(1)),
        name: Name::of(alloc, name)?,
    })
}

/// Adds the names from a place on.
fn add_names_from(
    alloc: Global,
    cell: u32,
    names: &NameRows,
    first: usize,
    lines: &mut Vec<DumpLine>,
) -> Result<(), AllocError>
    ensures { OnOk result (lines.new.items ≡ lines.old.items ++ map (alias_shown cell) (drop first names.now)) }
{
    for place in first..names.len() {
        let (name, symbol) = names.at(place);
        lines.push(alias_line(alloc, cell, name, symbol)?)?;
    }
    Ok(())
}

/// Adds the further names of the cell.
fn add_aliases(
    alloc: Global,
    machine: &Machine,
    cell: &NewCell,
    lines: &mut Vec<DumpLine>,
) -> Result<(), AllocError>
    requires sound { IsSound machine.now }
    requires there { In cell.now machine.now.cells.items }
    ensures { OnOk result (Adds (world_of machine.now) (λ c. map (further c) c.aliases) cell.now lines.old.items lines.new.items) }
{
    let names = names_of(machine, cell);
    let first = definition_count(cell.object.symbols.as_slice());
    add_names_from(alloc, cell.id.0, names, first, lines)
}

/// Adds the cell, where its sections stand, and its further names.
fn add_cell(
    alloc: Global,
    machine: &Machine,
    cell: &NewCell,
    lines: &mut Vec<DumpLine>,
) -> Result<(), AllocError>
    requires sound { IsSound machine.now }
    requires there { In cell.now machine.now.cells.items }
    ensures { OnOk result (Adds (world_of machine.now) cell_lines cell.now lines.old.items lines.new.items) }
{
    lines.push(cell_line(alloc, machine, cell)?)?;
    add_places(cell, lines)?;
    add_aliases(alloc, machine, cell, lines)
}

/// Adds all cells, in the order of their numbers.
pub fn add_cells(
    alloc: Global,
    machine: &Machine,
    lines: &mut Vec<DumpLine>,
) -> Result<(), AllocError>
    requires { IsSound machine.now }
    ensures { OnOk result (lines.new.items ≡ lines.old.items ++ flat_map cell_lines (world_of machine.now).cells) }
{
    let cells = machine.cells.as_slice();
    for index in 0..cells.len() {
        add_cell(alloc, machine, &cells[index], lines)?;
    }
    Ok(())
}
