//! The lines of cells, of their places and their aliases.

ghost use Rattle.std.specs.Prelude.{◌≡◌, ◌∷◌, [], IfOk, flat_map, map, slice_range};
ghost use Rattle.cell_audit.specs.Described.{standing_of};
ghost use Rattle.cell_described.specs.Describes.{alias_seen};
ghost use Rattle.cell_described.specs.Faults.{object_at};
ghost use Rattle.cell_world.specs.DumpLines.{alias_line as further, cell_lines, place_line as placing};
ghost use Rattle.cell_world.specs.declared.line.DumpLine.TheVariants.{Alias, Cell as CellLine, Place};
ghost use Rattle.cell_world.specs.Commands.MapCommand.{group_of};
ghost use Rattle.cell_relinked.specs.Fit.{IsFit};
ghost use Rattle.cell_relinked.specs.Scene.{seen_in, world_of};
ghost use Rattle.cell_compared.specs.Left.{left};
ghost use Rattle.cell_compared.specs.Walk.{Walks};

use crate::cursor::Cursor;
use cell_audit::{AuditFail, WrittenAlias};
use cell_bearers::text_at;
use cell_described::DescribedCell;
use cell_num::Name;
use cell_object::Section;
use cell_relinked::{Scene, start_in};
use cell_world::DumpLine;
use std::alloc::{AllocError, Global};

fn cell_line(alloc: Global, cell: &DescribedCell) -> Result<DumpLine, AllocError>
    ensures { IfOk result (λ line. line ≡ CellLine cell.now.id.0 cell.now.ns cell.now.stem cell.now.file (group_of (standing_of cell.now.group))) }
{
    Ok(DumpLine::Cell {
        cell: u64::from(cell.id.0),
        ns: u64::from(cell.ns),
        stem: cell.stem.copy(alloc)?,
        file: cell.file.copy(alloc)?,
        group: cell.group,
    })
}

fn place_line(cell: &DescribedCell, section: &Section, start: u64) -> DumpLine
    ensures { result ≡ Place cell.now.id.0 section.now.number start }
{
    let number = section.number;
    DumpLine::Place {
        cell: u64::from(cell.id.0),
        section: u64::from(number),
        start,
    }
}

fn alias_line(
    alloc: Global,
    file: &[u8],
    cell: u32,
    alias: &WrittenAlias,
) -> Result<DumpLine, AllocError>
    ensures { IfOk result (λ line. line ≡ Alias cell alias.now.symbol (slice_range file.now alias.now.name_start alias.now.name_end)) }
{
    let symbol = alias.symbol.get();
    Ok(DumpLine::Alias {
        cell: u64::from(cell),
        symbol,
        name: Name::of(alloc, text_at(file, alias.name_start, alias.name_end))?,
    })
}

fn expect_cell(alloc: Global, cursor: &mut Cursor, cell: &DescribedCell) -> Result<(), AuditFail>
    ensures { Walks (left cursor.old) (CellLine cell.now.id.0 cell.now.ns cell.now.stem cell.now.file (group_of (standing_of cell.now.group)) ∷ []) (left cursor.new) result }
{
    let line = cell_line(alloc, cell)?;
    cursor.expect(alloc, &line)
}

fn expect_place(
    alloc: Global,
    cursor: &mut Cursor,
    scene: &Scene,
    cell: &DescribedCell,
    section: &Section,
) -> Result<(), AuditFail>
    requires { IsFit scene.now.objects.now cell.now }
    ensures { Walks (left cursor.old) (placing (seen_in scene.now cell.now) section.now ∷ []) (left cursor.new) result }
{
    let start = start_in(cell.places.as_slice(), section.number);
    cursor.expect(alloc, &place_line(cell, section, start))
}

fn compare_places(
    alloc: Global,
    cursor: &mut Cursor,
    scene: &Scene,
    cell: &DescribedCell,
) -> Result<(), AuditFail>
    requires { IsFit scene.now.objects.now cell.now }
    ensures { Walks (left cursor.old) (map (placing (seen_in scene.now cell.now)) (object_at scene.now.objects.now cell.now.object).sections) (left cursor.new) result }
{
    let sections = scene.object(cell).sections.as_slice();
    for index in 0..sections.len() {
        expect_place(alloc, cursor, scene, cell, &sections[index])?;
    }
    Ok(())
}

fn expect_alias(
    alloc: Global,
    cursor: &mut Cursor,
    scene: &Scene,
    cell: &DescribedCell,
    alias: &WrittenAlias,
) -> Result<(), AuditFail>
    ensures { Walks (left cursor.old) (further (seen_in scene.now cell.now) (alias_seen scene.now.file.now alias.now) ∷ []) (left cursor.new) result }
{
    let line = alias_line(alloc, scene.file, cell.id.0, alias)?;
    cursor.expect(alloc, &line)
}

fn compare_aliases(
    alloc: Global,
    cursor: &mut Cursor,
    scene: &Scene,
    cell: &DescribedCell,
) -> Result<(), AuditFail>
    ensures { Walks (left cursor.old) (map (further (seen_in scene.now cell.now)) (map (alias_seen scene.now.file.now) cell.now.aliases.items)) (left cursor.new) result }
{
    for index in 0..cell.aliases.len() {
        expect_alias(alloc, cursor, scene, cell, &cell.aliases[index])?;
    }
    Ok(())
}

fn compare_cell(
    alloc: Global,
    cursor: &mut Cursor,
    scene: &Scene,
    cell: &DescribedCell,
) -> Result<(), AuditFail>
    requires { IsFit scene.now.objects.now cell.now }
    ensures { Walks (left cursor.old) (cell_lines (seen_in scene.now cell.now)) (left cursor.new) result }
{
    expect_cell(alloc, cursor, cell)?;
    compare_places(alloc, cursor, scene, cell)?;
    compare_aliases(alloc, cursor, scene, cell)
}

/// Compares the lines of all cells.
pub fn compare_cells(alloc: Global, cursor: &mut Cursor, scene: &Scene) -> Result<(), AuditFail>
    ensures { Walks (left cursor.old) (flat_map cell_lines (world_of scene.now).cells) (left cursor.new) result }
{
    let cells = scene.cells;
    for index in 0..cells.len() {
        compare_cell(alloc, cursor, scene, &cells[index])?;
    }
    Ok(())
}
