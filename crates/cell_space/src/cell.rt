//! A cell by what it is called.

ghost use Rattle.std.specs.Prelude.{◌≡◌, ◌++◌, ◌∷◌, [], IfOk, OnErr, OnOk, false, map};
ghost use Rattle.cell_num.specs.Lists.{equals};
ghost use Rattle.cell_world.specs.Names.{has_name};
ghost use Rattle.cell_space.specs.Named.{is_state, is_in, is_numbered};

use crate::names::NameRows;
use cell_num::{CellId, Name};
use cell_world::Standing;
use std::alloc::{AllocError, Global};

/// A cell: its number, namespace and stem, the names of its GLOBAL symbols, aliases last, and those of
/// the symbols that it defines as WEAK.
#[derive(Drop)]
pub struct SpaceCell {
    pub cell: CellId,
    pub ns: u16,
    pub stem: Name,
    pub state: Standing,
    pub names: NameRows,
    pub weak: NameRows,
}

pub fn is_state(a: Standing, b: Standing) -> bool
    ensures { result ≡ is_state a b }
{
    match (a, b) {
        (Standing::Attached, Standing::Attached) => true,
        (Standing::Detached(k), Standing::Detached(l)) => l == k,
        (Standing::Attached, Standing::Detached(_)) => false,
        (Standing::Detached(_), Standing::Attached) => false,
    }
}

impl SpaceCell {
    pub(crate) fn is_in(&self, state: Standing) -> bool
        ensures { result ≡ is_in state self.now }
    {
        is_state(state, self.state)
    }

    pub(crate) fn is_numbered(&self, number: u32) -> bool
        ensures { result ≡ is_numbered number self.now }
    {
        self.cell.0 == number
    }

    pub(crate) fn has_stem(&self, stem: &[u8]) -> bool
        ensures { result ≡ equals self.now.stem stem.now }
    {
        self.stem.bytes() == stem
    }

    pub(crate) fn has_name(&self, name: &[u8]) -> bool
        ensures { result ≡ has_name self.now.names name.now }
    {
        self.names.symbol_of(name).is_some()
    }

    pub(crate) fn has_weak_name(&self, name: &[u8]) -> bool
        ensures { result ≡ has_name self.now.weak name.now }
    {
        self.weak.symbol_of(name).is_some()
    }

    /// Adds a name that the cell lacks.
    pub(crate) fn add_name(
        &mut self,
        alloc: Global,
        name: &[u8],
        symbol: u32,
    ) -> Result<(), AllocError>
        requires { has_name self.old.names name.now ≡ false }
        ensures added { OnOk result (self.new ≡ record self.old { names = self.old.names ++ record { name = name.now; symbol = symbol } ∷ [] }) }
        ensures unchanged { OnErr result (self.new ≡ self.old) }
    {
        self.names.add(alloc, name, symbol)
    }

    fn copy(&self, alloc: Global) -> Result<SpaceCell, AllocError>
        ensures { IfOk result (λ copy. copy ≡ self.now) }
    {
        Ok(SpaceCell {
            cell: self.cell,
            ns: self.ns,
            stem: self.stem.copy(alloc)?,
            state: self.state,
            names: self.names.copy(alloc)?,
            weak: self.weak.copy(alloc)?,
        })
    }
}

/// Equal cells.
pub fn copy_cells(alloc: Global, cells: &[SpaceCell]) -> Result<Vec<SpaceCell>, AllocError>
    ensures { IfOk result (λ copies. copies.items ≡ cells.now) }
{
    let mut copies = Vec::new(alloc);
    for cell in cells {
        copies.push(cell.copy(alloc)?)?;
    }
    Ok(copies)
}

/// The names of each cell.
pub fn into_names(alloc: Global, cells: Vec<SpaceCell>) -> Result<Vec<NameRows>, AllocError>
    ensures { IfOk result (λ names. names.items ≡ map (λ c. c.names) cells.items) }
{
    let mut names = Vec::new(alloc);
    for cell in cells {
        names.push(cell.names)?;
    }
    Ok(names)
}
