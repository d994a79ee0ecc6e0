//! What the parts of the machine take over from staged cells.

ghost use Rattle.std.specs.Prelude.{◌≡◌, ◌++◌, ◌∷◌, [], All, IfOk, OnOk, length, map, not};
ghost use Rattle.std.specs.List.{list_all};
ghost use Rattle.cell_commit.specs.Cells.{arrived};
ghost use Rattle.cell_machine.specs.Staged.{arrival, arrivals};
ghost use Rattle.cell_machine.specs.Machine.{soft_of};
ghost use Rattle.cell_object.specs.Parts.{has_no_weak, is_weak};
ghost use Rattle.cell_world.specs.Coherent.{IsLoadable};
ghost use Rattle.cell_load.specs.Adding.{listed, numbers_in};

use cell_commit::{CellSections, Newcomer};
use cell_gather::weak_definitions;
use cell_num::{CellId, Listed};
use cell_object::{Bind, Object, Symbol};
use cell_space::NameRows;
use cell_world::NewCell;
use std::alloc::{AllocError, Global};

/// What the staged cells are called, their sections, and which of them have a WEAK symbol.
#[derive(Drop)]
pub struct Prepared {
    pub newcomers: Vec<Newcomer>,
    pub sections: Vec<CellSections>,
    pub soft: Vec<CellId>,
}

impl Prepared {
    /// By the cells, and the names of each.
    pub fn of(
        alloc: Global,
        cells: &[NewCell],
        names: Vec<NameRows>,
    ) -> Result<Prepared, AllocError>
        requires named { length names.items ≡ length cells.now }
        requires loadable { All (λ c. IsLoadable c.object) cells.now }
        ensures newcomers { IfOk result (λ p. map arrived p.newcomers.items ≡ arrivals cells.now names.items) }
        ensures sections { IfOk result (λ p. map listed p.sections.items ≡ map numbers_in cells.now) }
        ensures soft { IfOk result (λ p. p.soft.items ≡ soft_of cells.now) }
    {
        Ok(Prepared {
            newcomers: newcomers(alloc, cells, names)?,
            sections: all_sections(alloc, cells)?,
            soft: soft_cells(alloc, cells)?,
        })
    }
}

/// What each of the cells is called.
fn newcomers(
    alloc: Global,
    cells: &[NewCell],
    names: Vec<NameRows>,
) -> Result<Vec<Newcomer>, AllocError>
    requires named { length names.items ≡ length cells.now }
    requires loadable { All (λ c. IsLoadable c.object) cells.now }
    ensures { IfOk result (λ new. map arrived new.items ≡ arrivals cells.now names.items) }
{
    let mut newcomers = Vec::new(alloc);
    for names in names {
        let cell = &cells[newcomers.len()];
        newcomers.push(newcomer(alloc, cell, names)?)?;
    }
    Ok(newcomers)
}

/// What the cell is called.
fn newcomer(alloc: Global, cell: &NewCell, names: NameRows) -> Result<Newcomer, AllocError>
    requires { IsLoadable cell.now.object }
    ensures { IfOk result (λ new. arrived new ≡ arrival cell.now names) }
{
    Ok(Newcomer {
        cell: cell.id,
        ns: cell.ns,
        stem: cell.stem.copy(alloc)?,
        names,
        weak: weak_definitions(alloc, &cell.object)?,
    })
}

/// The numbers of each cell's sections.
fn all_sections(alloc: Global, cells: &[NewCell]) -> Result<Vec<CellSections>, AllocError>
    ensures { IfOk result (λ list. map listed list.items ≡ map numbers_in cells.now) }
{
    let mut sections = Vec::new(alloc);
    for cell in cells {
        sections.push(sections_of(alloc, cell)?)?;
    }
    Ok(sections)
}

/// The numbers of the cell's sections.
fn sections_of(alloc: Global, cell: &NewCell) -> Result<CellSections, AllocError>
    ensures { IfOk result (λ s. listed s ≡ numbers_in cell.now) }
{
    let mut sections = Vec::new(alloc);
    for section in cell.object.sections.as_slice() {
        sections.push(section.number)?;
    }
    Ok(CellSections {
        cell: cell.id,
        sections,
    })
}

fn isnt_weak(symbol: &Symbol) -> bool
    ensures { result ≡ not (is_weak symbol.now.bind) }
{
    !matches!(symbol.bind, Bind::Weak)
}

fn arent_weak(symbols: &[Symbol]) -> bool
    ensures { result ≡ list_all (λ s. not (is_weak s.bind)) symbols.now }
{
    symbols.iter().all(|symbol| isnt_weak(symbol))
}

/// Whether the object has a WEAK symbol.
fn is_soft(object: &Object) -> bool
    ensures { result ≡ not (has_no_weak object.now) }
{
    !arent_weak(object.symbols.as_slice())
}

/// Adds the cell, if it has a WEAK symbol.
fn add_soft(soft: &mut Vec<CellId>, cell: &NewCell) -> Result<(), AllocError>
    ensures { OnOk result (soft.new.items ≡ soft.old.items ++ soft_of (cell.now ∷ [])) }
{
    if is_soft(&cell.object) {
        soft.push(cell.id)?;
    }
    Ok(())
}

/// The numbers of the cells that have a WEAK symbol.
fn soft_cells(alloc: Global, cells: &[NewCell]) -> Result<Vec<CellId>, AllocError>
    ensures { IfOk result (λ soft. soft.items ≡ soft_of cells.now) }
{
    let mut soft = Vec::new(alloc);
    for cell in cells {
        add_soft(&mut soft, cell)?;
    }
    Ok(soft)
}

/// The numbers of the cells.
pub fn numbers(alloc: Global, cells: &[NewCell]) -> Result<Listed<CellId>, AllocError>
    ensures { IfOk result (λ ids. ids ≡ map (λ c. c.id) cells.now) }
{
    let mut ids = Vec::new(alloc);
    for cell in cells {
        ids.push(cell.id)?;
    }
    Ok(Listed::from_vec(ids))
}
