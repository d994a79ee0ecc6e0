//! Whether cells stand where they may.

ghost use Rattle.std.specs.Prelude.{◌≡◌, ◌<◌, ◌*◌, ◌^◌, All, IfOk, None, length, true};
ghost use Rattle.cell_num.specs.Limits.{page_size};
ghost use Rattle.cell_described.specs.Faults.{cell_fault, has_sections, taken_after};
ghost use Rattle.cell_described.specs.Taken.{all_free};
ghost use Rattle.cell_described.specs.Placing.{Places, PlacesOne, described_of};

use crate::aliases::alias_fault;
use crate::cell::{Bounds, DescribedCell};
use crate::fail::DescribeFail;
use crate::finding::FoundCell;
use crate::places::{has_sections, place_fault, section_places};
use crate::taken::Taken;
use cell_audit::WrittenCell;
use cell_num::CellId;
use cell_object::{Object, Section};
use std::alloc::{AllocError, Global};

/// The line of the cell's first fault. Where it has none, its sections are taken.
fn cell_fault(taken: &mut Taken, object: &Object, cell: &WrittenCell) -> Option<u32>
    ensures fault { result ≡ cell_fault taken.old object.now cell.now }
    ensures taken { result ≡ None → taken.new ≡ taken_after taken.old object.now.sections cell.now.places.items }
{
    let sections = object.sections.as_slice();
    if !has_sections(&cell.places, sections) {
        return Some(cell.line);
    }
    match place_fault(taken, sections, &cell.places) {
        Some(line) => Some(line),
        None => alias_fault(object, &cell.aliases),
    }
}

/// The cell with the places of its sections.
fn described(
    alloc: Global,
    found: FoundCell,
    sections: &[Section],
) -> Result<DescribedCell, AllocError>
    requires { has_sections sections.now found.cell.places.items ≡ true }
    ensures { IfOk result (λ cell. cell ≡ described_of found) }
{
    let FoundCell { cell, object } = found;
    let places = section_places(alloc, sections, &cell.places)?;
    let WrittenCell {
        line,
        cell,
        ns,
        stem,
        file,
        group,
        places: _,
        aliases,
    } = cell;
    Ok(DescribedCell {
        line,
        id: CellId(cell),
        ns,
        stem,
        file,
        group,
        object,
        places,
        aliases,
    })
}

/// The cell where it stands, if it may.
fn place_cell(
    alloc: Global,
    taken: &mut Taken,
    objects: &[Object],
    found: FoundCell,
) -> Result<DescribedCell, DescribeFail>
    requires { found.object < length objects.now }
    ensures { PlacesOne objects.now taken.old found result taken.new }
{
    let object = &objects[found.object];
    if let Some(line) = cell_fault(taken, object, &found.cell) {
        return Err(DescribeFail::Misplaced { line });
    }
    let cell = described(alloc, found, object.sections.as_slice())?;
    Ok(cell)
}

/// The cells where they stand, or the first line that places what can't stand there.
pub fn place_cells(
    alloc: Global,
    bounds: Bounds,
    objects: &[Object],
    found: Vec<FoundCell>,
) -> Result<Vec<DescribedCell>, DescribeFail>
    requires space { page_size * bounds.pages < 2 ^ 64 }
    requires there { All (λ f. f.object < length objects.now) found.items }
    ensures { Places objects.now (all_free bounds.base bounds.pages) found.items result }
{
    let mut taken = Taken::new(alloc, bounds)?;
    let mut cells = Vec::with_capacity(alloc, found.len())?;
    for one in found {
        let cell = place_cell(alloc, &mut taken, objects, one)?;
        cells.push(cell)?;
    }
    Ok(cells)
}
