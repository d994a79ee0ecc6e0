//! The lines of names, with their providers.

ghost use Rattle.std.specs.Prelude.{◌≡◌, ◌<◌, ◌∷◌, [], ℕ, true, IfOk, IfSome, Some, flat_map, length, map, option_map, slice_get};
ghost use Rattle.cell_described.specs.Describes.{alias_seen};
ghost use Rattle.cell_described.specs.Faults.{object_at};
ghost use Rattle.cell_world.specs.DumpLines.{provider_line as line_of};
ghost use Rattle.cell_bearers.specs.Asked.{provider_at};
ghost use Rattle.cell_world.specs.Names.{definitions_of, is_definition as definition, provider_for};
ghost use Rattle.cell_world.specs.declared.state.Standing.TheVariants.{Attached};
ghost use Rattle.cell_relinked.specs.Asked.{AreBearers};
ghost use Rattle.cell_relinked.specs.Fit.{IsFit};
ghost use Rattle.cell_relinked.specs.Scene.{seen_in, world_of};
ghost use Rattle.cell_compared.specs.Asking.{IsAsked};
ghost use Rattle.cell_compared.specs.Left.{left};
ghost use Rattle.cell_compared.specs.Shown.{definition_line, name_lines, names_shown};
ghost use Rattle.cell_compared.specs.Walk.{Walks};

use crate::cursor::Cursor;
use crate::link_lines::part_of;
use cell_audit::AuditFail;
use cell_bearers::{Bearer, FirstBearer, text_at};
use cell_described::DescribedCell;
use cell_num::Name;
use cell_object::{Symbol, is_definition};
use cell_relinked::{Scene, Sights, chain_of};
use cell_world::{DumpLine, Target};
use std::alloc::{AllocError, Global};

/// A namespace, and what its attached cells see.
#[derive(Clone, Copy)]
pub struct Asked<'s> {
    pub scene: &'s Scene<'s>,
    pub ns: u16,
    pub sights: &'s Sights<'s>,
}

/// The provider of the name, which these bear.
fn provider(asked: &Asked, name: &[u8], bearers: &[Bearer]) -> Option<FirstBearer>
    requires asked { IsAsked asked.now }
    requires bearers { AreBearers asked.now.scene.now name.now bearers.now }
    ensures there { IfSome result (λ first. first.cell < length asked.now.scene.now.cells.now) }
    ensures provider { option_map (provider_at asked.now.scene.now.cells.now) result ≡ provider_for (world_of asked.now.scene.now) Attached asked.now.ns name.now }
{
    asked.scene.provider(asked.sights, name, bearers)
}

/// The line of the name that these bear, if its provider has it in a section.
fn provider_line(
    alloc: Global,
    asked: &Asked,
    name: &[u8],
    bearers: &[Bearer],
) -> Result<Option<DumpLine>, AllocError>
    requires asked { IsAsked asked.now }
    requires bearers { AreBearers asked.now.scene.now name.now bearers.now }
    ensures { IfOk result (λ line. line ≡ line_of (world_of asked.now.scene.now) asked.now.ns name.now) }
{
    let Some(provider) = provider(asked, name, bearers) else {
        return Ok(None);
    };
    let Some(Target::Section { key, offset, .. }) = asked.scene.provided_target(&provider) else {
        return Ok(None);
    };
    Ok(Some(DumpLine::Provider {
        ns: u64::from(asked.ns),
        name: Name::of(alloc, name)?,
        at: part_of(key),
        offset,
    }))
}

fn expect_name(
    alloc: Global,
    cursor: &mut Cursor,
    asked: &Asked,
    name: &[u8],
    bearers: &[Bearer],
) -> Result<(), AuditFail>
    requires asked { IsAsked asked.now }
    requires bearers { AreBearers asked.now.scene.now name.now bearers.now }
    ensures { (symbol : ℕ) → Walks (left cursor.old) (name_lines (world_of asked.now.scene.now) asked.now.ns (record { name = name.now; symbol = symbol } ∷ [])) (left cursor.new) result }
{
    match provider_line(alloc, asked, name, bearers)? {
        Some(line) => cursor.expect(alloc, &line),
        None => Ok(()),
    }
}

/// Compares the line of a symbol, if its object defines it as a GLOBAL.
fn expect_definition(
    alloc: Global,
    cursor: &mut Cursor,
    asked: &Asked,
    symbol: &Symbol,
    bearers: &[Bearer],
) -> Result<(), AuditFail>
    requires asked { IsAsked asked.now }
    requires bearers { definition symbol.now ≡ true → AreBearers asked.now.scene.now symbol.now.name bearers.now }
    ensures { Walks (left cursor.old) (definition_line (world_of asked.now.scene.now) asked.now.ns symbol.now) (left cursor.new) result }
{
    if !is_definition(symbol) {
        return Ok(());
    }
    expect_name(alloc, cursor, asked, symbol.name.as_slice(), bearers)
}

/// Compares the lines of what the cell's object defines.
fn compare_definitions(
    alloc: Global,
    cursor: &mut Cursor,
    asked: &Asked,
    cell: &DescribedCell,
) -> Result<(), AuditFail>
    requires asked { IsAsked asked.now }
    requires fit { IsFit asked.now.scene.now.objects.now cell.now }
    ensures { Walks (left cursor.old) (name_lines (world_of asked.now.scene.now) asked.now.ns (definitions_of (object_at asked.now.scene.now.objects.now cell.now.object))) (left cursor.new) result }
{
    let symbols = asked.scene.object(cell).symbols.as_slice();
    for index in 0..symbols.len() {
        let bearers = asked.scene.index.of_symbol(cell.object, index);
        expect_definition(alloc, cursor, asked, &symbols[index], bearers)?;
    }
    Ok(())
}

/// Compares the lines of the aliases of the cell at that place.
fn compare_further(
    alloc: Global,
    cursor: &mut Cursor,
    asked: &Asked,
    place: usize,
    cell: &DescribedCell,
) -> Result<(), AuditFail>
    requires asked { IsAsked asked.now }
    requires there { slice_get asked.now.scene.now.cells.now place ≡ Some cell.now }
    ensures { Walks (left cursor.old) (name_lines (world_of asked.now.scene.now) asked.now.ns (map (alias_seen asked.now.scene.now.file.now) cell.now.aliases.items)) (left cursor.new) result }
{
    for index in 0..cell.aliases.len() {
        let alias = &cell.aliases[index];
        let name = text_at(asked.scene.file, alias.name_start, alias.name_end);
        let bearers = asked.scene.index.of_alias(place, index);
        expect_name(alloc, cursor, asked, name, bearers)?;
    }
    Ok(())
}

fn compare_names_of(
    alloc: Global,
    cursor: &mut Cursor,
    scene: &Scene,
    place: usize,
    cell: &DescribedCell,
) -> Result<(), AuditFail>
    requires fit { IsFit scene.now.objects.now cell.now }
    requires there { slice_get scene.now.cells.now place ≡ Some cell.now }
    ensures { Walks (left cursor.old) (names_shown (world_of scene.now) (seen_in scene.now cell.now)) (left cursor.new) result }
{
    if cell.group.is_some() {
        return Ok(());
    }
    let spaces = chain_of(alloc, scene.namespaces, cell.ns)?;
    let sights = scene.sights(alloc, None, &spaces)?;
    let asked = Asked {
        scene,
        ns: cell.ns,
        sights: &sights,
    };
    compare_definitions(alloc, cursor, &asked, cell)?;
    compare_further(alloc, cursor, &asked, place, cell)
}

/// Compares the lines of the names of all attached cells.
pub fn compare_names(alloc: Global, cursor: &mut Cursor, scene: &Scene) -> Result<(), AuditFail>
    ensures { Walks (left cursor.old) (flat_map (names_shown (world_of scene.now)) (world_of scene.now).cells) (left cursor.new) result }
{
    let cells = scene.cells;
    for index in 0..cells.len() {
        compare_names_of(alloc, cursor, scene, index, &cells[index])?;
    }
    Ok(())
}
