//! The names that a cell has.

ghost use Rattle.std.specs.Prelude.{◌≡◌, ◌==◌, ◌++◌, ◌∷◌, ◌<◌, [], Some, false, length, slice_get, IfOk, OnErr, OnOk};
ghost use Rattle.cell_world.specs.Names.{symbol_in, has_name};

use indexmap::IndexMap;
use std::alloc::{AllocError, Global};
use std::marker::Model;

/// Names of symbols, each once, in the order in which they were added. Contracts see the list.
#[derive(Drop)]
pub struct NameRows {
    rows: IndexMap<Vec<u8>, u32>,
}

impl Model for NameRows {
    ghost use Rattle.std.specs.Prelude.{◌≡◌, ◌==◌, List, map, true};
    ghost use Rattle.cell_world.specs.World.{Alias};
    ghost use Rattle.cell_space.specs.Rows.{are_apart};

    ghost Value = { List Alias };

    ghost view = { λ n. map (λ e. record { name = e.0.items; symbol = e.1 }) n.rows.entries };

    ghost invariant = { λ n. are_apart (map (λ e. record { name = e.0.items; symbol = e.1 }) n.rows.entries) ≡ true };
}

impl NameRows {
    /// A table without a name.
    pub fn new(alloc: Global) -> NameRows
        ensures { result ≡ [] }
    {
        NameRows {
            rows: IndexMap::new(alloc),
        }
    }

    /// How many names there are.
    pub fn len(&self) -> usize
        ensures { result ≡ length self.now }
    {
        self.rows.len()
    }

    pub fn is_empty(&self) -> bool
        ensures { result ≡ (length self.now == 0) }
    {
        self.len() == 0
    }

    /// The symbol that has the name.
    pub fn symbol_of(&self, name: &[u8]) -> Option<u32>
        ensures { result ≡ symbol_in self.now name.now }
    {
        self.rows.get(name).copied()
    }

    /// Adds a name that isn't there.
    pub fn add(&mut self, alloc: Global, name: &[u8], symbol: u32) -> Result<(), AllocError>
        requires { has_name self.old name.now ≡ false }
        ensures added { OnOk result (self.new ≡ self.old ++ record { name = name.now; symbol = symbol } ∷ []) }
        ensures unchanged { OnErr result (self.new ≡ self.old) }
    {
        let key = Vec::from_slice(alloc, name)?;
        self.rows.insert(key, symbol)?;
        Ok(())
    }

    /// The name at a place, and its symbol.
    pub fn at(&self, place: usize) -> (&[u8], u32)
        requires { place < length self.now }
        ensures { slice_get self.now place ≡ Some (record { name = result.0.now; symbol = result.1 }) }
    {
        match self.rows.get_index(place) {
            Some((name, symbol)) => (name.as_slice(), *symbol),
            None => unreachable!(),
        }
    }

    /// An equal table.
    pub fn copy(&self, alloc: Global) -> Result<NameRows, AllocError>
        ensures { IfOk result (λ copy. copy ≡ self.now) }
    {
        let _rows = &self.rows;
        let mut copy = NameRows::new(alloc);
        for place in 0..self.len() {
            let (name, symbol) = self.at(place);
            copy.add(alloc, name, symbol)?;
        }
        Ok(copy)
    }
}
